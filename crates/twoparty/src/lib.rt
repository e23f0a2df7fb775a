// A transfer between two parties, frame by frame (document 01, A transfer script): one Provider and one Receiver, and between them a
// radio that raises octets where the damage list says so. File, damage and store are lent to
// each call, one by one: in a struct of lent slices each clause would have to name them through its entry.
#![tactic(auto)]

mod begin; // the tests before any frame, and the start
mod step; // one frame

use asdu::{AddressSizes, FtError, Nof};
use exchange::Sender;
use frame::Frame;
use ft::Role;
use provide::Provider;
use radio::Radio;
use receive::Receiver;
use requests::Reply;
pub use step::replied;

// What a run is given beside file, damage and store.
#[derive(Clone, Copy, PartialEq, Eq)]
pub struct Settings {
    pub sizes: AddressSizes,
    // Both stations' own.
    pub common_address: u16,
    pub ioa: u32,
    pub nof: Nof,
    // The Provider's; the Receiver has the other.
    pub role: Role,
}

// The frames on their way. What a Receiver sends is one frame, the one whose answer its record awaits;
// what a Provider sends is a reply, of which the frames from `next` on are still to come.
#[derive(Clone, Copy, PartialEq, Eq)]
pub enum Queue {
    Empty,
    Receiver,
    Provider {
        reply: Reply,
        next: usize,
        // Whether the radio hits it: of a section's segments and close alone.
        damaged: bool,
    },
}

// A transfer under way.
#[derive(Clone, Copy, PartialEq, Eq)]
pub struct TwoParty {
    pub provider: Provider,
    pub receiver: Receiver,
    pub queue: Queue,
    pub radio: Radio,
}

// The frame that passes next, and whose it is.
#[derive(Clone, Copy, PartialEq, Eq)]
pub struct NextFrame {
    pub sender: Sender,
    pub frame: Frame,
}
