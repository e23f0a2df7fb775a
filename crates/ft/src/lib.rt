// The file transfer procedure (IEC 60870-5-104, 7.11, over 60870-5-101, 7.4.11): roles and
// directions, what a station admits of what it receives, and the frames it makes. Which
// section is under way and what is stored is the layer's above.
#![tactic(auto)]

pub mod admit; // what a received frame means to a station
pub mod build; // the frames that a station makes
pub mod direction; // roles, directions and the selection
pub mod procedure; // a station's settings

use asdu::{AddressSizes, Cause, Discard, Header, Unspecified};
use frame::Frame;

// The procedure's role of a station.
#[derive(Clone, Copy, PartialEq, Eq)]
pub enum Role {
    Controlling,
    Controlled,
}

// The two directions that a station may have marked as used.
#[derive(Clone, Copy, PartialEq, Eq)]
pub struct Selection {
    pub monitor: bool,
    pub control: bool,
}

// A station's settings.
#[derive(Clone, Copy, PartialEq, Eq)]
pub struct FileTransferProcedure {
    pub role: Role,
    pub selection: Selection,
    // Its own common address (7.2.4).
    pub ca: u16,
    // Its own originator address (7.2.3), 0 where the header has none.
    pub org: u8,
    pub sizes: AddressSizes,
}

// The common address and the originator that a station's frames carry.
#[derive(Clone, Copy, PartialEq, Eq)]
pub struct Addressing {
    pub common_address: u16,
    pub originator: u8,
}

// What came in after the header: a frame, or octets that are none. (No `Option`: in `Incoming`,
// `received: None` would read as nothing received.)
#[derive(Clone, Copy, PartialEq, Eq)]
pub enum Received {
    Frame(Frame),
    Undecodable,
}

// A received ASDU, as the station has decoded it. What stands beside its frame, a segment's payload or a
// directory's packed entries, is handed in with it.
#[derive(Clone, Copy, PartialEq, Eq)]
pub struct Incoming {
    pub header: Header,
    // The first field of header or frame that the station does not know, if any.
    pub unknown: Option<Unspecified>,
    pub received: Received,
}

// What a received frame means; admission answers this or a numbered refusal. The frame is the one that was
// handed in.
#[derive(Clone, Copy, PartialEq, Eq)]
pub enum Reaction {
    // A frame of the receiving side, for the one that provides the file.
    Requested,
    // A frame of the providing side, for the one that receives the file.
    Answered,
    // The other station refused what this one sent, or, with a mirror to send, this one refuses.
    Refused { cause: Cause, mirror: bool },
    // Nothing is to be done, and it may be logged why.
    Discard(Discard),
    // Not the file transfer's.
    Other,
}

// A frame with the facts of its header. What stands beside it is as the caller handed it in.
#[derive(Clone, Copy, PartialEq, Eq)]
pub struct Asdu {
    pub header: Header,
    pub frame: Frame,
}
