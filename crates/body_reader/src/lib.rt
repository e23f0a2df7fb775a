// The bodies of the frames of types 120 to 125, read (document 02, A9): what the octets behind an object address say,
// laid out as IEC 60870-5-101, 7.3.6.1 to 7.3.6.6, has them. No octet is copied: a segment's payload is named as the
// part of the body that it occupies. Every bit of these octets has a meaning, so nothing can be wrong but a length: the
// body's, or the one that LOS says.
#![tactic(auto)]

ghost use Rattle.std.specs.Prelude.{◌≡◌, ◌/◌, ◌%◌, ◌+◌, ◌≤◌, length, get_or};
ghost use Rattle.frame.specs.declared.Frame.TheVariants as F;
ghost use Rattle.asdu.specs.Entry.{bit_of, nof_at, lof_at};
ghost use Rattle.body_reader.specs.Elements.{frq_of, srq_of, scq_of, afq_of};
ghost use Rattle.body_reader.specs.Reading.{nos_of, lsq_of, chs_of, los_of, elements_len, segment_formed, well_formed, frame_of, payload_in, read_answer};

use asdu::{Afq, Chs, Frq, FtError, Lof, Los, Lsq, Nof, Nos, Scq, Srq, TypeId};
use frame::Frame;
use frame_body::is_body_type;
use sections::Part;

// What a body says: its frame, and where its payload stands in it.
#[derive(Clone, Copy, PartialEq, Eq)]
pub struct Body {
    pub frame: Frame,
    pub payload: Part,
}

// The octets in front of a segment's payload: NOF, NOS and LOS.
const SEGMENT_FRONT: usize = 4;

// ---- Elements

// The value of FRQ and SRQ, and their flag, which is bit 7, counted from 0.
#[tactic(auto, unfolding(asdu::specs::Entry::bit_of))]
fn value_and_flag(octet: u8) -> (u8, bool)
    ensures { result ≡ (octet % 128, bit_of 128 octet) }
{
    (octet % 128, octet / 128 % 2 == 1)
}

// The action of SCQ and AFQ, which is the low four bits, and their error, the high four.
fn action_and_error(octet: u8) -> (u8, u8)
    ensures { result ≡ (octet % 16, octet / 16) }
{
    (octet % 16, octet / 16)
}

fn frq_of(frq: u8) -> Frq
    ensures { result ≡ frq_of frq }
{
    let (value, negative_confirm) = value_and_flag(frq);
    Frq {
        value,
        negative_confirm,
    }
}

fn srq_of(srq: u8) -> Srq
    ensures { result ≡ srq_of srq }
{
    let (value, not_ready) = value_and_flag(srq);
    Srq { value, not_ready }
}

fn scq_of(scq: u8) -> Scq
    ensures { result ≡ scq_of scq }
{
    let (action, error) = action_and_error(scq);
    Scq { action, error }
}

fn afq_of(afq: u8) -> Afq
    ensures { result ≡ afq_of afq }
{
    let (action, error) = action_and_error(afq);
    Afq { action, error }
}

// The name of file, which every body begins with.
fn nof_of(body: &[u8]) -> Nof
    requires { 2 ≤ length body.now }
    ensures { result ≡ nof_at body.now 0 }
{
    Nof {
        value: u16::from_le_bytes([body[0], body[1]]),
    }
}

// The length of file or section from a place on.
fn lof_at(body: &[u8], place: usize) -> Lof
    requires { place + 3 ≤ length body.now }
    ensures { result ≡ lof_at body.now place }
{
    Lof {
        value: u32::from_le_bytes([body[place], body[place + 1], body[place + 2], 0]),
    }
}

// The name of section, behind the name of file.
fn nos_of(body: &[u8]) -> Nos
    requires { 3 ≤ length body.now }
    ensures { result ≡ nos_of body.now }
{
    Nos { value: body[2] }
}

// ---- Bodies. Each reads at its places of the body, which the figures count from its front.

// 120: NOF, LOF, FRQ.
fn file_ready(ioa: u32, body: &[u8]) -> Frame
    requires { 6 ≤ length body.now }
    ensures { result ≡ F.FileReady ioa (nof_at body.now 0) (lof_at body.now 2) (frq_of (get_or body.now 5 0)) }
{
    Frame::FileReady {
        ioa,
        nof: nof_of(body),
        lof: lof_at(body, 2),
        frq: frq_of(body[5]),
    }
}

// 121: NOF, NOS, LOF, SRQ.
fn section_ready(ioa: u32, body: &[u8]) -> Frame
    requires { 7 ≤ length body.now }
    ensures { result ≡ F.SectionReady ioa (nof_at body.now 0) (nos_of body.now) (lof_at body.now 3) (srq_of (get_or body.now 6 0)) }
{
    Frame::SectionReady {
        ioa,
        nof: nof_of(body),
        nos: nos_of(body),
        lof: lof_at(body, 3),
        srq: srq_of(body[6]),
    }
}

// 122: NOF, NOS, SCQ.
fn sc(ioa: u32, body: &[u8]) -> Frame
    requires { 4 ≤ length body.now }
    ensures { result ≡ F.Sc ioa (nof_at body.now 0) (nos_of body.now) (scq_of (get_or body.now 3 0)) }
{
    Frame::Sc {
        ioa,
        nof: nof_of(body),
        nos: nos_of(body),
        scq: scq_of(body[3]),
    }
}

// 123: NOF, NOS, LSQ, CHS.
fn last_section(ioa: u32, body: &[u8]) -> Frame
    requires { 5 ≤ length body.now }
    ensures { result ≡ F.LastSection ioa (nof_at body.now 0) (nos_of body.now) (lsq_of body.now) (chs_of body.now) }
{
    Frame::LastSection {
        ioa,
        nof: nof_of(body),
        nos: nos_of(body),
        lsq: Lsq { value: body[3] },
        chs: Chs { value: body[4] },
    }
}

// 124: NOF, NOS, AFQ.
fn ack(ioa: u32, body: &[u8]) -> Frame
    requires { 4 ≤ length body.now }
    ensures { result ≡ F.Ack ioa (nof_at body.now 0) (nos_of body.now) (afq_of (get_or body.now 3 0)) }
{
    Frame::Ack {
        ioa,
        nof: nof_of(body),
        nos: nos_of(body),
        afq: afq_of(body[3]),
    }
}

// 125: NOF, NOS, LOS; the payload stays in the body.
fn segment(ioa: u32, body: &[u8]) -> Frame
    requires { 4 ≤ length body.now }
    ensures { result ≡ F.Segment ioa (nof_at body.now 0) (nos_of body.now) (los_of body.now) }
{
    Frame::Segment {
        ioa,
        nof: nof_of(body),
        nos: nos_of(body),
        los: Los { value: body[3] },
    }
}

// The frame of a type whose elements a body has.
#[tactic(auto, using(laws::proofs::Decide::decide), unfolding(crate::specs::Reading::frame_of))]
fn frame_of(type_id: u8, ioa: u32, body: &[u8]) -> Frame
    requires { elements_len type_id ≤ length body.now }
    ensures { result ≡ frame_of type_id ioa body.now }
{
    match type_id {
        TypeId::F_FR_NA_1 => file_ready(ioa, body),
        TypeId::F_SR_NA_1 => section_ready(ioa, body),
        TypeId::F_SC_NA_1 => sc(ioa, body),
        TypeId::F_LS_NA_1 => last_section(ioa, body),
        TypeId::F_AF_NA_1 => ack(ioa, body),
        _ => segment(ioa, body),
    }
}

// ---- Reading

// How many octets the elements have; of a segment, those in front of its payload.
#[tactic(auto, using(laws::proofs::Decide::decide), unfolding(crate::specs::Reading::elements_len))]
fn elements_len(type_id: u8) -> usize
    ensures { result ≡ elements_len type_id }
{
    match type_id {
        TypeId::F_FR_NA_1 => 6,
        TypeId::F_SR_NA_1 => 7,
        TypeId::F_LS_NA_1 => 5,
        _ => 4,
    }
}

// Whether there is a LOS, 1 to 240, and as many octets follow it.
#[tactic(auto, using(laws::proofs::Decide::decide), unfolding(crate::specs::Reading::segment_formed, crate::specs::Reading::los_of))]
fn is_segment(body: &[u8]) -> bool
    ensures { result ≡ segment_formed body.now }
{
    body.len() >= SEGMENT_FRONT
        && Los { value: body[3] }.is_in_range()
        && body.len() == SEGMENT_FRONT + usize::from(body[3])
}

// Whether a body is as long as its type, or its LOS, says.
#[tactic(auto, using(laws::proofs::Decide::decide), unfolding(crate::specs::Reading::well_formed))]
fn is_well_formed(type_id: u8, body: &[u8]) -> bool
    ensures { result ≡ well_formed type_id body.now }
{
    if type_id == TypeId::F_SG_NA_1 {
        return is_segment(body);
    }
    body.len() == elements_len(type_id)
}

// Where the payload stands: a segment's behind its LOS; other types have none.
#[tactic(auto, using(laws::proofs::Decide::decide), unfolding(crate::specs::Reading::payload_in))]
fn payload_in(type_id: u8, body: &[u8]) -> Part
    requires { elements_len type_id ≤ length body.now }
    ensures { result ≡ payload_in type_id body.now }
{
    if type_id == TypeId::F_SG_NA_1 {
        return Part {
            start: SEGMENT_FRONT,
            length: usize::from(body[3]),
        };
    }
    Part::NONE
}

// Reads the body of a frame of this type and object address, and answers the frame and where its payload stands in the
// body: the octets themselves are `payload.octets(body)`. 29, then 31: every body that `frame_body::write` can have
// written is read, and no other.
#[tactic(auto, using(laws::proofs::Decide::decide), unfolding(crate::specs::Reading::read_answer))]
pub fn read(type_id: u8, ioa: u32, body: &[u8]) -> Result<Body, FtError>
    ensures { result ≡ read_answer type_id ioa body.now }
{
    if !is_body_type(type_id) {
        return Err(FtError::UnsupportedType);
    }
    if !is_well_formed(type_id, body) {
        return Err(FtError::MalformedBody);
    }
    Ok(Body {
        frame: frame_of(type_id, ioa, body),
        payload: payload_in(type_id, body),
    })
}
