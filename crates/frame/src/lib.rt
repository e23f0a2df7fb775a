// The eight frames of a file transfer (IEC 60870-5-101, 7.3.6, and 60870-5-104, 8.9), what each says
// of itself, and which frame answers which. A segment's payload and a directory's packed entries stand
// beside the frame, as the octets that are handed in with it.
#![tactic(auto)]

pub mod answer; // which frame answers which
pub mod range; // whether a frame can be carried

ghost use Rattle.std.specs.Prelude.{◌≡◌};
ghost use Rattle.frame.specs.Frames.{type_of, cause_of, receiver_side, ioa_of, is_file_type, receiver_side_type, sc_cause};

use asdu::{Afq, Cause, Chs, Cp56Time2a, Frq, Lof, Los, Lsq, Nof, Nos, Scq, Srq, TypeId};

#[derive(Clone, Copy, PartialEq, Eq)]
pub enum Frame {
    // 120: a file is ready, or is refused.
    FileReady {
        ioa: u32,
        nof: Nof,
        lof: Lof,
        frq: Frq,
    },
    // 121: a section is ready, or is not.
    SectionReady {
        ioa: u32,
        nof: Nof,
        nos: Nos,
        lof: Lof,
        srq: Srq,
    },
    // 122: a directory, file or section is called, selected or deactivated.
    Sc {
        ioa: u32,
        nof: Nof,
        nos: Nos,
        scq: Scq,
    },
    // 123: the last segment of a section, or the last section of a file.
    LastSection {
        ioa: u32,
        nof: Nof,
        nos: Nos,
        lsq: Lsq,
        chs: Chs,
    },
    // 124: a file or section is acknowledged.
    Ack {
        ioa: u32,
        nof: Nof,
        nos: Nos,
        afq: Afq,
    },
    // 125: a segment; its payload stands beside it.
    Segment {
        ioa: u32,
        nof: Nof,
        nos: Nos,
        los: Los,
    },
    // 126: a page of the directory; its entries stand beside it.
    Directory {
        ioa: u32,
        cause: Cause,
    },
    // 127: a log is asked for, between two times.
    QueryLog {
        ioa: u32,
        nof: Nof,
        range_start: Cp56Time2a,
        range_stop: Cp56Time2a,
    },
}

impl Frame {
    // The type identification.
    pub fn type_id(self) -> u8
        ensures { result ≡ type_of self }
    {
        match self {
            Frame::FileReady { .. } => TypeId::F_FR_NA_1,
            Frame::SectionReady { .. } => TypeId::F_SR_NA_1,
            Frame::Sc { .. } => TypeId::F_SC_NA_1,
            Frame::LastSection { .. } => TypeId::F_LS_NA_1,
            Frame::Ack { .. } => TypeId::F_AF_NA_1,
            Frame::Segment { .. } => TypeId::F_SG_NA_1,
            Frame::Directory { .. } => TypeId::F_DR_TA_1,
            Frame::QueryLog { .. } => TypeId::F_SC_NB_1,
        }
    }

    // The cause of transmission: request for the call of a directory, a directory's own, and file
    // transfer for all others.
    pub fn cause(self) -> Cause
        ensures { result ≡ cause_of self }
    {
        match self {
            Frame::Sc { scq, .. } => sc_cause(scq),
            Frame::Directory { cause, .. } => cause,
            Frame::FileReady { .. }
            | Frame::SectionReady { .. }
            | Frame::LastSection { .. }
            | Frame::Ack { .. }
            | Frame::Segment { .. }
            | Frame::QueryLog { .. } => Cause {
                value: Cause::FILE_TRANSFER,
            },
        }
    }

    // Whether the side that asks for or receives the file sends it.
    pub fn is_receiver_side(self) -> bool
        ensures { result ≡ receiver_side self }
    {
        matches!(
            self,
            Frame::Sc { .. } | Frame::Ack { .. } | Frame::QueryLog { .. }
        )
    }

    // The object address.
    pub fn ioa(self) -> u32
        ensures { result ≡ ioa_of self }
    {
        match self {
            Frame::FileReady { ioa, .. }
            | Frame::SectionReady { ioa, .. }
            | Frame::Sc { ioa, .. }
            | Frame::LastSection { ioa, .. }
            | Frame::Ack { ioa, .. }
            | Frame::Segment { ioa, .. }
            | Frame::Directory { ioa, .. }
            | Frame::QueryLog { ioa, .. } => ioa,
        }
    }
}

// A request for a directory goes with the cause of a request.
#[tactic(auto, using(laws::proofs::Decide::decide), unfolding(crate::specs::Frames::sc_cause))]
fn sc_cause(scq: Scq) -> Cause
    ensures { result ≡ sc_cause scq }
{
    let value = if scq.action == Scq::CALL_DIRECTORY {
        Cause::REQUEST
    } else {
        Cause::FILE_TRANSFER
    };
    Cause { value }
}

// Whether a type is one of the eight.
#[tactic(auto, using(laws::proofs::Decide::decide), unfolding(crate::specs::Frames::is_file_type))]
pub fn is_file_type(type_id: u8) -> bool
    ensures { result ≡ is_file_type type_id }
{
    TypeId::F_FR_NA_1 <= type_id && type_id <= TypeId::F_SC_NB_1
}

// Whether frames of a type come from the receiving side: what a header alone can tell.
#[tactic(auto, using(laws::proofs::Decide::decide), unfolding(crate::specs::Frames::receiver_side_type))]
pub fn is_receiver_side_type(type_id: u8) -> bool
    ensures { result ≡ receiver_side_type type_id }
{
    matches!(
        type_id,
        TypeId::F_SC_NA_1 | TypeId::F_AF_NA_1 | TypeId::F_SC_NB_1
    )
}
