// A Provider's record: its making, and whether it and a lent file agree.
ghost use Rattle.std.specs.Prelude.{◌≡◌, eqb, leb, length};
ghost use Rattle.laws.specs.When.{◌and◌};
ghost use Rattle.sections.specs.Sections.{section_length};
ghost use Rattle.provide.specs.Record.{fresh_provider, provider_made, file_agrees, ended, counted};

use crate::{FileName, Provider};
use asdu::{FtError, Lof, Nof};
use ft::{FileTransferProcedure, procedure};

// The record of a file of this length that nobody has asked for yet.
fn fresh(procedure: FileTransferProcedure, ioa: u32, nof: Nof, length: u32) -> Provider
    ensures { result ≡ fresh_provider procedure ioa nof length }
{
    Provider {
        procedure,
        ioa,
        nof,
        length,
        section_len: sections::section_length(length),
        unmatched: 0,
        done: false,
    }
}

// Whether a record's lengths are those that a making gives for a file of n octets.
#[tactic(auto, using(laws::proofs::Decide::decide))]
fn is_cut(length: u32, section_len: u32, n: usize) -> bool
    ensures { result ≡ (leb length 0xFFFFFF and eqb length n and eqb section_len (section_length length)) }
{
    length <= Lof::MAX && length as usize == n && section_len == sections::section_length(length)
}

impl Provider {
    // The file `nof` at this object address, given one by one as document 01 has a making: 2 for widths that no system has, 3 for an address that the
    // station cannot send, 1 for a file longer than LOF can state.
    #[tactic(auto, using(laws::proofs::Decide::decide), unfolding(crate::specs::Record::provider_made))]
    pub fn new(
        procedure: FileTransferProcedure,
        ioa: u32,
        nof: Nof,
        file: &[u8],
    ) -> Result<Provider, FtError>
        ensures { result ≡ provider_made procedure ioa nof (length file.now) }
    {
        let n = file.len();
        if !procedure.sizes.is_right() {
            return Err(FtError::InvalidAddressSizes);
        }
        if !procedure::is_addressed(procedure.sizes, procedure.ca, procedure.org, ioa) {
            return Err(FtError::AddressOutOfRange);
        }
        if n > Lof::MAX as usize {
            return Err(FtError::FileTooLong);
        }
        Ok(fresh(procedure, ioa, nof, n as u32))
    }

    // The object address and the name of the file.
    pub fn file(self) -> FileName
        ensures { result ≡ record { ioa = self.ioa; nof = self.nof } }
    {
        FileName {
            ioa: self.ioa,
            nof: self.nof,
        }
    }

    // Whether a making gives this record, of the lent file; else 26.
    #[tactic(auto, using(laws::proofs::Decide::decide), unfolding(crate::specs::Record::file_agrees))]
    pub fn agrees(self, file: &[u8]) -> bool
        ensures { result ≡ file_agrees self file.now }
    {
        self.procedure.is_settled()
            && self.ioa <= self.procedure.sizes.max_ioa()
            && is_cut(self.length, self.section_len, file.len())
    }

    // The transfer is over.
    pub(crate) fn ended(self) -> Provider
        ensures { result ≡ ended self }
    {
        Provider { done: true, ..self }
    }

    // One request more was for another file.
    pub(crate) fn counted(self) -> Provider
        ensures { result ≡ counted self }
    {
        Provider {
            unmatched: self.unmatched.saturating_add(1),
            ..self
        }
    }
}
