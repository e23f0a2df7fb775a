// The call of a directory and its answer (IEC 60870-5-101, 7.4.11, and document 01, The directory). A
// directory may span several F_DR_TA_1 frames and ends with the entry whose SOF marks the last file
// (7.2.6.38). The store is lent to each call; `stored` has how the entries stand in it.
#![tactic(auto)]

mod collect; // what a received frame does
mod record; // the record: its making, when it and a store agree, its start

use asdu::{Cause, FtError};
use frame::Frame;
use ft::FileTransferProcedure;

// The record of one call.
#[derive(Clone, Copy, PartialEq, Eq)]
pub struct DirectoryCall {
    pub procedure: FileTransferProcedure,
    // The call was sent: before that no frame is taken.
    pub started: bool,
    // Entries that stand in the store, from its beginning on.
    pub held: usize,
    pub done: bool,
}

#[derive(Clone, Copy, PartialEq, Eq)]
pub struct DirectoryStart {
    pub call: DirectoryCall,
    pub answer: Result<Frame, FtError>,
}

// Where a call stands after a frame. It sends nothing but the mirror of a refusal. A refusal by number is a
// case of it, as it is of the answers of the two other machines.
#[derive(Clone, Copy, PartialEq, Eq)]
pub enum DirectoryAnswer {
    Running,
    // The store's first so many entries are the directory.
    Complete { entries: usize },
    Refused { cause: Cause, mirror: bool },
    Err(FtError),
}

#[derive(Clone, Copy, PartialEq, Eq)]
pub struct DirectoryStep {
    pub call: DirectoryCall,
    pub answer: DirectoryAnswer,
}
