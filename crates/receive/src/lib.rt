// The receiving side of a file transfer (IEC 60870-5-101, 7.4.11): what a Receiver asks for, checks
// and keeps. The store is lent to each call: the accepted octets first, then the section under way.
#![tactic(auto)]

mod answered; // what a received frame does
mod record; // the record: its making, what it holds and what it sends
mod step; // what a step makes of the record

use asdu::{Cause, Chs, Frq, FtError, Lsq, Nof, Nos, Srq};
use ft::FileTransferProcedure;

// What a Receiver last sent of its file: a request or an acknowledgement, by its action and section.
#[derive(Clone, Copy, PartialEq, Eq)]
pub enum Sent {
    Nothing,
    Request { action: u8, nos: Nos },
    Acknowledgement { action: u8, nos: Nos },
}

// The record of one file's transfer.
#[derive(Clone, Copy, PartialEq, Eq)]
pub struct Receiver {
    pub procedure: FileTransferProcedure,
    pub ioa: u32,
    pub nof: Nof,
    // `awaited` makes the frame of it.
    pub sent: Sent,
    // The file's length as the file ready stated it.
    pub length: Option<u32>,
    // Octets of the store that are accepted, and those after them that are under way: two fields, by which the
    // definitions and theorems of whole exchanges go.
    pub kept: usize,
    pub staged: usize,
    pub done: bool,
}

// Where a Receiver stands after a frame, or its numbered refusal: a case here and no `Err` of a `Result`, so
// that `sends` is one table over all answers. What is then to be sent, `ReceiverStep::to_send` says.
#[derive(Clone, Copy, PartialEq, Eq)]
pub enum ReceiverAnswer {
    Running,
    Send,
    // The store's first `length` octets are the file; the acknowledgement is still to be sent.
    Complete { length: usize },
    FileNotReady { frq: Frq },
    SectionNotReady { nos: Nos, srq: Srq },
    FileChecksum { expected: Chs, got: Chs },
    UnknownLsq(Lsq),
    Refused { cause: Cause, mirror: bool },
    Err(FtError),
}

#[derive(Clone, Copy, PartialEq, Eq)]
pub struct ReceiverStep {
    pub receiver: Receiver,
    pub answer: ReceiverAnswer,
}
