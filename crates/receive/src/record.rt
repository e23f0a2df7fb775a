// The Receiver's record: its making, what it tells of itself, whether it and a store agree, the frames
// that it sends and its start.
ghost use Rattle.std.specs.Prelude.{◌≡◌};
ghost use Rattle.receive.specs.Record.{fresh_receiver, receiver_made, store_agrees, received_octets, request, acknowledge, awaited, started};

use crate::{Receiver, ReceiverStep, Sent};
use asdu::{Afq, FtError, Nof, Nos, Scq};
use frame::Frame;
use ft::{FileTransferProcedure, procedure};

impl Receiver {
    // The record before anything is sent or has arrived.
    fn fresh(procedure: FileTransferProcedure, ioa: u32, nof: Nof) -> Receiver
        ensures { result ≡ fresh_receiver procedure ioa nof }
    {
        Receiver {
            procedure,
            ioa,
            nof,
            sent: Sent::Nothing,
            length: None,
            kept: 0,
            staged: 0,
            done: false,
        }
    }

    // A record for the file of this name at this object address: 2 for widths that no system has, 3
    // for addresses that do not fit them.
    #[tactic(auto, using(laws::proofs::Decide::decide), unfolding(crate::specs::Record::receiver_made))]
    pub fn new(procedure: FileTransferProcedure, ioa: u32, nof: Nof) -> Result<Receiver, FtError>
        ensures { result ≡ receiver_made procedure ioa nof }
    {
        if !procedure.sizes.is_right() {
            return Err(FtError::InvalidAddressSizes);
        }
        if !procedure::is_addressed(procedure.sizes, procedure.ca, procedure.org, ioa) {
            return Err(FtError::AddressOutOfRange);
        }
        Ok(Receiver::fresh(procedure, ioa, nof))
    }

    // The file's length, once the file ready has stated it.
    pub fn length(self) -> Option<u32>
        ensures { result ≡ self.length }
    {
        self.length
    }

    // How many octets have arrived so far, accepted and under way.
    #[tactic(auto, using(laws::proofs::Decide::decide), unfolding(crate::specs::Record::received_octets))]
    pub fn received(self) -> usize
        ensures { result ≡ received_octets self }
    {
        self.kept.saturating_add(self.staged)
    }

    // Whether a making gives this record and the store holds its octets: else 26.
    #[tactic(auto, using(laws::proofs::Decide::decide), unfolding(crate::specs::Record::store_agrees))]
    pub fn agrees(self, store: &[u8]) -> bool
        ensures { result ≡ store_agrees self store.now }
    {
        self.procedure.is_settled()
            && self.ioa <= self.procedure.sizes.max_ioa()
            && store::is_held(self.kept, self.staged, store.len())
    }

    // A select or a call for this file.
    fn request(self, action: u8, nos: Nos) -> Frame
        ensures { result ≡ request self action nos }
    {
        Frame::Sc {
            ioa: self.ioa,
            nof: self.nof,
            nos,
            scq: Scq { action, error: 0 },
        }
    }

    // An acknowledgement for this file.
    fn acknowledge(self, action: u8, nos: Nos) -> Frame
        ensures { result ≡ acknowledge self action nos }
    {
        Frame::Ack {
            ioa: self.ioa,
            nof: self.nof,
            nos,
            afq: Afq { action, error: 0 },
        }
    }

    // The frame last sent, whose answer is awaited. Before a start it is the select, so that a file that
    // is offered opens the transfer too.
    #[tactic(auto, using(laws::proofs::Decide::decide), unfolding(crate::specs::Record::awaited))]
    pub fn awaited(self) -> Frame
        ensures { result ≡ awaited self }
    {
        match self.sent {
            Sent::Nothing => self.request(Scq::SELECT_FILE, Nos { value: 0 }),
            Sent::Request { action, nos } => self.request(action, nos),
            Sent::Acknowledgement { action, nos } => self.acknowledge(action, nos),
        }
    }

    // The select that opens the transfer, of a done record too: 26, then 21, 22. What else `build` refuses
    // of a frame cannot come: the select's values are in range, and the address was judged with the record.
    pub fn start(self, store: &[u8]) -> ReceiverStep
        ensures { result ≡ started self store.now }
    {
        if !self.agrees(store) {
            return self.refuses(FtError::RecordMismatch);
        }
        if !self.procedure.selection.uses_function() {
            return self.refuses(FtError::FunctionNotUsed);
        }
        if !self.procedure.serves(self.procedure.role, true) {
            return self.refuses(FtError::NotSelectedDirection);
        }
        self.asks(Sent::Request {
            action: Scq::SELECT_FILE,
            nos: Nos { value: 0 },
        })
    }
}
