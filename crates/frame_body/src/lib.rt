// The bodies of the frames of types 120 to 125 (document 02, A8), for a recorder that has no other encoder: the
// octets that stand behind the object address, laid out as IEC 60870-5-101, 7.3.6.1 to 7.3.6.6, has them.
#![tactic(auto)]

ghost use Rattle.std.specs.Prelude.{◌≡◌, true, [], ◌∷◌, ◌++◌, ◌+◌, ◌*◌, ◌≤◌, length};
ghost use Rattle.store.specs.Store.{written};
ghost use Rattle.asdu.specs.Entry.{flag, nof_octets, lof_octets};
ghost use Rattle.frame_body.specs.Elements.{frq_octet, srq_octet};
ghost use Rattle.frame_body.specs.Body.{body_type, body_of, body_in_range, write_answer, out_after};

use asdu::entry::weight_of;
use asdu::{AddressSizes, Frq, FtError, Lof, Nof, Nos, Srq, TypeId};
use frame::{Frame, range};

// The most octets of a body: a segment's.
pub const MAX_BODY: usize = 244;

// The widths of one octet each, which leave a segment the most octets: all 240 of LOS.
const NARROWEST: AddressSizes = AddressSizes {
    cause_octets: 1,
    common_address_octets: 1,
    information_object_address_octets: 1,
};

// ---- Elements

// FRQ and SRQ: the value, and the flag above it in bit 7, counted from 0.
fn qualifier_octet(value: u8, is_set: bool) -> u8
    requires { value ≤ 127 }
    ensures { result ≡ value + flag 128 is_set }
{
    value + weight_of(128, is_set)
}

// SCQ and AFQ: the action in the low four bits, the error in the high four.
fn action_octet(action: u8, error: u8) -> u8
    requires { (action ≤ 15) × (error ≤ 15) }
    ensures { result ≡ action + 16 * error }
{
    action + 16 * error
}

// ---- Bodies

// 120: NOF, LOF, FRQ.
fn file_ready(nof: Nof, lof: Lof, frq: Frq) -> [u8; 6]
    requires { (lof.value ≤ 0xFFFFFF) × (frq.value ≤ 127) }
    ensures { result ≡ nof_octets nof ++ lof_octets lof ++ frq_octet frq ∷ [] }
{
    let [name_low, name_high] = nof.value.to_le_bytes();
    let [low, middle, high, _] = lof.value.to_le_bytes();
    let frq = qualifier_octet(frq.value, frq.negative_confirm);
    [name_low, name_high, low, middle, high, frq]
}

// 121: NOF, NOS, LOF, SRQ.
fn section_ready(nof: Nof, nos: Nos, lof: Lof, srq: Srq) -> [u8; 7]
    requires { (lof.value ≤ 0xFFFFFF) × (srq.value ≤ 127) }
    ensures { result ≡ nof_octets nof ++ nos.value ∷ lof_octets lof ++ srq_octet srq ∷ [] }
{
    let [name_low, name_high] = nof.value.to_le_bytes();
    let [low, middle, high, _] = lof.value.to_le_bytes();
    let srq = qualifier_octet(srq.value, srq.not_ready);
    [name_low, name_high, nos.value, low, middle, high, srq]
}

// 122 and 124, and the front of 123 and 125: NOF, NOS and an octet.
fn front(nof: Nof, nos: Nos, octet: u8) -> [u8; 4]
    ensures { result ≡ nof_octets nof ++ nos.value ∷ octet ∷ [] }
{
    let [low, high] = nof.value.to_le_bytes();
    [low, high, nos.value, octet]
}

// Writes octets over the front of a buffer.
#[tactic(auto, unfolding(store::specs::Store::written))]
fn put(out: &mut [u8], octets: &[u8])
    requires { length octets.now ≤ length out.old }
    ensures { out.new ≡ written out.old 0 octets.now }
{
    out[..octets.len()].copy_from_slice(octets);
}

// The same for four octets and those behind them.
fn put_behind(out: &mut [u8], front: [u8; 4], rest: &[u8])
    requires { 4 + length rest.now ≤ length out.old }
    ensures { out.new ≡ written out.old 0 (front ++ rest.now) }
{
    put(out, &front);
    store::write_at(out, 4, 0, rest);
}

// Writes a frame's body over the front of a buffer that has room for it.
fn put_body(frame: Frame, payload: &[u8], out: &mut [u8])
    requires { (body_in_range frame payload.now ≡ true) × (length (body_of frame payload.now) ≤ length out.old) }
    ensures { out.new ≡ written out.old 0 (body_of frame payload.now) }
{
    match frame {
        Frame::FileReady { nof, lof, frq, .. } => put(out, &file_ready(nof, lof, frq)),
        Frame::SectionReady {
            nof,
            nos,
            lof,
            srq,
            ..
        } => put(out, &section_ready(nof, nos, lof, srq)),
        Frame::Sc { nof, nos, scq, .. } => {
            put(out, &front(nof, nos, action_octet(scq.action, scq.error)))
        }
        Frame::LastSection {
            nof,
            nos,
            lsq,
            chs,
            ..
        } => put_behind(out, front(nof, nos, lsq.value), &[chs.value]),
        Frame::Ack { nof, nos, afq, .. } => {
            put(out, &front(nof, nos, action_octet(afq.action, afq.error)))
        }
        Frame::Segment { nof, nos, los, .. } => {
            put_behind(out, front(nof, nos, los.value), payload)
        }
        // These have no body here.
        Frame::Directory { .. } | Frame::QueryLog { .. } => {}
    }
}

// ---- Writing

// Whether frames of a type have a body here.
#[tactic(auto, using(laws::proofs::Decide::decide), unfolding(crate::specs::Body::body_type))]
pub fn is_body_type(type_id: u8) -> bool
    ensures { result ≡ body_type type_id }
{
    TypeId::F_FR_NA_1 <= type_id && type_id <= TypeId::F_SG_NA_1
}

// How many octets the body has.
fn body_len(frame: Frame, payload: &[u8]) -> usize
    ensures { result ≡ length (body_of frame payload.now) }
{
    match frame {
        Frame::FileReady { .. } => 6,
        Frame::SectionReady { .. } => 7,
        Frame::Sc { .. } | Frame::Ack { .. } => 4,
        Frame::LastSection { .. } => 5,
        Frame::Segment { .. } => 4 + payload.len(),
        Frame::Directory { .. } | Frame::QueryLog { .. } => 0,
    }
}

// Writes a frame's body over the front of a lent buffer, and answers how many octets it has. 29, then 4, then 30: a
// refusal writes nothing. A payload beside another kind than a segment is not read.
pub fn write(frame: Frame, payload: &[u8], out: &mut [u8]) -> Result<usize, FtError>
    ensures { (result ≡ write_answer frame payload.now (length out.old)) × (out.new ≡ out_after frame payload.now out.old) }
{
    if !is_body_type(frame.type_id()) {
        return Err(FtError::UnsupportedType);
    }
    if !range::is_in_range(NARROWEST, frame, payload) {
        return Err(FtError::ValueOutOfRange);
    }
    let length = body_len(frame, payload);
    if out.len() < length {
        return Err(FtError::BufferTooShort);
    }
    put_body(frame, payload, out);
    Ok(length)
}
