// A maker for each frame of the file transfer, with the conventional widths: the frame and its header,
// or 4 where a value is out of range, then 3 where an address is. It asks nothing of a station's
// directions; a station's own `build` does (IEC 60870-5-101, 7.3.6, and 60870-5-104, 8.9). Each takes what its
// frame carries, field by field as the Rust's do: a struct for those that many share would be put together at
// every call and taken apart at once.
#![tactic(auto)]

ghost use Rattle.std.specs.Prelude.{◌≡◌};
ghost use Rattle.frame.specs.declared.Frame.TheVariants as F;
ghost use Rattle.ft.specs.Procedure.{conventional};
ghost use Rattle.ft.specs.Building.{framed};
ghost use Rattle.makers.specs.Makers.{made, with_action, sc_made, segment_made};

use asdu::{
    AddressSizes, Afq, Cause, Chs, Cp56Time2a, Frq, FtError, Lof, Los, Lsq, Nof, Nos, Scq, Srq,
    sizes,
};
use frame::Frame;
use ft::{Asdu, build};

// A frame that nothing stands beside.
fn alone(ca: u16, org: u8, frame: Frame) -> Result<Asdu, FtError>
    ensures { result ≡ made ca org frame }
{
    build::frame_with(AddressSizes::CONVENTIONAL, ca, org, frame, &[])
}

// A request with this action and no error.
fn request<const ACTION: u8>(
    ca: u16,
    org: u8,
    ioa: u32,
    nof: Nof,
    nos: Nos,
) -> Result<Asdu, FtError>
    ensures { result ≡ made ca org (F.Sc ioa nof nos (with_action ACTION)) }
{
    let scq = Scq {
        action: ACTION,
        error: 0,
    };
    alone(ca, org, Frame::Sc { ioa, nof, nos, scq })
}

// The call of a directory: action 0, as a request.
pub fn call_directory(
    common_address: u16,
    originator: u8,
    ioa: u32,
    nof: Nof,
) -> Result<Asdu, FtError>
    ensures { result ≡ made common_address originator (F.Sc ioa nof (record { value = 0 }) (with_action 0)) }
{
    request::<{ Scq::CALL_DIRECTORY }>(common_address, originator, ioa, nof, Nos { value: 0 })
}

// A select, call or deactivation with the caller's qualifier: 7 for the call of a directory.
#[tactic(auto, using(laws::proofs::Decide::decide), unfolding(crate::specs::Makers::sc_made))]
pub fn sc(
    common_address: u16,
    originator: u8,
    ioa: u32,
    nof: Nof,
    nos: Nos,
    scq: Scq,
) -> Result<Asdu, FtError>
    ensures { result ≡ sc_made common_address originator ioa nof nos scq }
{
    if scq.action == Scq::CALL_DIRECTORY {
        return Err(FtError::CallDirectoryAction);
    }
    alone(common_address, originator, Frame::Sc { ioa, nof, nos, scq })
}

// A file is selected.
pub fn select_file(
    common_address: u16,
    originator: u8,
    ioa: u32,
    nof: Nof,
    nos: Nos,
) -> Result<Asdu, FtError>
    ensures { result ≡ made common_address originator (F.Sc ioa nof nos (with_action 1)) }
{
    request::<{ Scq::SELECT_FILE }>(common_address, originator, ioa, nof, nos)
}

// A file is called.
pub fn call_file(
    common_address: u16,
    originator: u8,
    ioa: u32,
    nof: Nof,
    nos: Nos,
) -> Result<Asdu, FtError>
    ensures { result ≡ made common_address originator (F.Sc ioa nof nos (with_action 2)) }
{
    request::<{ Scq::REQUEST_FILE }>(common_address, originator, ioa, nof, nos)
}

// A section is called.
pub fn call_section(
    common_address: u16,
    originator: u8,
    ioa: u32,
    nof: Nof,
    nos: Nos,
) -> Result<Asdu, FtError>
    ensures { result ≡ made common_address originator (F.Sc ioa nof nos (with_action 6)) }
{
    request::<{ Scq::REQUEST_SECTION }>(common_address, originator, ioa, nof, nos)
}

// A file is ready, or is refused.
pub fn file_ready(
    common_address: u16,
    originator: u8,
    ioa: u32,
    nof: Nof,
    lof: Lof,
    frq: Frq,
) -> Result<Asdu, FtError>
    ensures { result ≡ made common_address originator (F.FileReady ioa nof lof frq) }
{
    alone(
        common_address,
        originator,
        Frame::FileReady { ioa, nof, lof, frq },
    )
}

// A section is ready, or is not.
pub fn section_ready(
    common_address: u16,
    originator: u8,
    ioa: u32,
    nof: Nof,
    nos: Nos,
    lof: Lof,
    srq: Srq,
) -> Result<Asdu, FtError>
    ensures { result ≡ made common_address originator (F.SectionReady ioa nof nos lof srq) }
{
    alone(
        common_address,
        originator,
        Frame::SectionReady {
            ioa,
            nof,
            nos,
            lof,
            srq,
        },
    )
}

// A segment with the caller's octets beside it: 5 for none, 6 for more than 236.
#[tactic(auto, using(laws::proofs::Decide::decide), unfolding(crate::specs::Makers::segment_made))]
pub fn segment(
    common_address: u16,
    originator: u8,
    ioa: u32,
    nof: Nof,
    nos: Nos,
    payload: &[u8],
) -> Result<Asdu, FtError>
    ensures { result ≡ segment_made common_address originator ioa nof nos payload.now }
{
    let length = payload.len();
    if length < 1 {
        return Err(FtError::EmptySegment);
    }
    if sizes::MAX_SEGMENT < length {
        return Err(FtError::SegmentTooLong);
    }
    let los = Los {
        value: length as u8,
    };
    let frame = Frame::Segment { ioa, nof, nos, los };
    build::frame_with(
        AddressSizes::CONVENTIONAL,
        common_address,
        originator,
        frame,
        payload,
    )
}

// The last segment of a section, or the last section of a file, with its checksum.
pub fn last_segment(
    common_address: u16,
    originator: u8,
    ioa: u32,
    nof: Nof,
    nos: Nos,
    lsq: Lsq,
    chs: Chs,
) -> Result<Asdu, FtError>
    ensures { result ≡ made common_address originator (F.LastSection ioa nof nos lsq chs) }
{
    alone(
        common_address,
        originator,
        Frame::LastSection {
            ioa,
            nof,
            nos,
            lsq,
            chs,
        },
    )
}

// A file or section is acknowledged.
pub fn ack(
    common_address: u16,
    originator: u8,
    ioa: u32,
    nof: Nof,
    nos: Nos,
    afq: Afq,
) -> Result<Asdu, FtError>
    ensures { result ≡ made common_address originator (F.Ack ioa nof nos afq) }
{
    alone(
        common_address,
        originator,
        Frame::Ack { ioa, nof, nos, afq },
    )
}

// A page of the directory with the caller's packed entries beside it.
pub fn directory(
    common_address: u16,
    originator: u8,
    ioa: u32,
    cause: Cause,
    entries: &[u8],
) -> Result<Asdu, FtError>
    ensures { result ≡ framed conventional common_address originator (F.Directory ioa cause) entries.now }
{
    let frame = Frame::Directory { ioa, cause };
    build::frame_with(
        AddressSizes::CONVENTIONAL,
        common_address,
        originator,
        frame,
        entries,
    )
}

// A log is asked for, between two times.
pub fn query_log(
    common_address: u16,
    originator: u8,
    ioa: u32,
    nof: Nof,
    range_start: Cp56Time2a,
    range_stop: Cp56Time2a,
) -> Result<Asdu, FtError>
    ensures { result ≡ made common_address originator (F.QueryLog ioa nof range_start range_stop) }
{
    let frame = Frame::QueryLog {
        ioa,
        nof,
        range_start,
        range_stop,
    };
    alone(common_address, originator, frame)
}
