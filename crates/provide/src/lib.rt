// The providing side of a file transfer (IEC 60870-5-101, 7.4.11): one file, cut into sections, and
// what a Provider answers to the requests for it. The file's octets are lent to each call.
#![tactic(auto)]

mod frames; // the frames of a reply, by their index
mod record; // the Provider's record, its making and its agreement with the lent file
mod request; // what a Provider makes of a received frame

use asdu::Nof;
use ft::FileTransferProcedure;
use requests::ProviderAnswer;

// The record of one file's transfer.
#[derive(Clone, Copy, PartialEq, Eq)]
pub struct Provider {
    pub procedure: FileTransferProcedure,
    pub ioa: u32,
    pub nof: Nof,
    // The lent file's.
    pub length: u32,
    pub section_len: u32,
    // How many requests named another object address or file. It stays at its largest value.
    pub unmatched: u32,
    pub done: bool,
}

// Which file a record is of.
#[derive(Clone, Copy, PartialEq, Eq)]
pub struct FileName {
    pub ioa: u32,
    pub nof: Nof,
}

// The record after a frame, and where the Provider stands.
#[derive(Clone, Copy, PartialEq, Eq)]
pub struct ProviderStep {
    pub provider: Provider,
    pub answer: ProviderAnswer,
}
