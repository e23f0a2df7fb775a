// The call's record: its making, whether it and a store agree, and its start.
ghost use Rattle.std.specs.Prelude.{◌≡◌};
ghost use Rattle.collector.specs.Record.{call_made, call_agrees, call_frame, started_with, started};

use crate::{DirectoryCall, DirectoryStart};
use asdu::{FtError, Nof, Nos, Scq};
use frame::Frame;
use ft::{Asdu, FileTransferProcedure, procedure};
use stored::STORED;

// The call of the directory at this object address: SCQ 0 names neither file nor section (7.2.6.30).
fn call_frame(ioa: u32) -> Frame
    ensures { result ≡ call_frame ioa }
{
    Frame::Sc {
        ioa,
        nof: Nof { value: 0 },
        nos: Nos { value: 0 },
        scq: Scq {
            action: Scq::CALL_DIRECTORY,
            error: 0,
        },
    }
}

impl DirectoryCall {
    // A record that was not started: 2 for widths that no system has, 3 for own addresses that do not
    // fit them.
    #[tactic(auto, using(laws::proofs::Decide::decide), unfolding(crate::specs::Record::call_made))]
    pub fn new(procedure: FileTransferProcedure) -> Result<DirectoryCall, FtError>
        ensures { result ≡ call_made procedure }
    {
        if !procedure.sizes.is_right() {
            return Err(FtError::InvalidAddressSizes);
        }
        if !procedure::is_own_address(procedure.sizes, procedure.ca, procedure.org) {
            return Err(FtError::AddressOutOfRange);
        }
        Ok(DirectoryCall {
            procedure,
            started: false,
            held: 0,
            done: false,
        })
    }

    // Whether a making gives this record and the store holds its entries: else 26.
    #[tactic(auto, using(laws::proofs::Decide::decide, crate::proofs::Agreement::seventeens), unfolding(crate::specs::Record::call_agrees))]
    pub fn agrees(self, store: &[u8]) -> bool
        ensures { result ≡ call_agrees self store.now }
    {
        self.procedure.is_settled() && self.held <= store.len() / STORED
    }

    // The record after `build` made the call's frame, or refused.
    fn started_with(self, built: Result<Asdu, FtError>) -> DirectoryStart
        ensures { result ≡ started_with self built }
    {
        match built {
            Ok(asdu) => DirectoryStart {
                call: DirectoryCall {
                    started: true,
                    ..self
                },
                answer: Ok(asdu.frame),
            },
            Err(error) => DirectoryStart {
                call: self,
                answer: Err(error),
            },
        }
    }

    // Calls the directory at this object address, of a done record too, which stays done; what is held
    // stays: 26, then 21, 22, 3.
    #[tactic(auto, using(laws::proofs::Decide::decide), unfolding(crate::specs::Record::started))]
    pub fn start(self, store: &[u8], ioa: u32) -> DirectoryStart
        ensures { result ≡ started self store.now ioa }
    {
        if !self.agrees(store) {
            return DirectoryStart {
                call: self,
                answer: Err(FtError::RecordMismatch),
            };
        }
        self.started_with(self.procedure.build(call_frame(ioa), &[]))
    }
}
