// Every numbered refusal of document 01 and of the requests of document 02 that are built, one case each:
// Rust's AsduError and FtError in one, and those that are new.
ghost use Rattle.std.specs.Prelude.{◌≡◌};
ghost use Rattle.asdu.specs.Number.{number_of};

use crate::FtError;

impl FtError {
    // The document's number of the refusal.
    pub fn number(self) -> u8
        ensures { result ≡ number_of self }
    {
        match self {
            FtError::FileTooLong => 1,
            FtError::InvalidAddressSizes => 2,
            FtError::AddressOutOfRange => 3,
            FtError::ValueOutOfRange => 4,
            FtError::EmptySegment => 5,
            FtError::SegmentTooLong => 6,
            FtError::CallDirectoryAction => 7,
            FtError::ChecksumMismatch => 8,
            FtError::IndexOutOfRange => 9,
            FtError::Undecodable => 10,
            FtError::ScriptMisshapen => 11,
            FtError::FunctionNotUsed => 21,
            FtError::NotSelectedDirection => 22,
            FtError::EchoMismatch => 23,
            FtError::StoreFull => 24,
            FtError::DirectoryFull => 25,
            FtError::RecordMismatch => 26,
            FtError::NotPrintable => 27,
            FtError::PageTooShort => 28,
            FtError::UnsupportedType => 29,
            FtError::BufferTooShort => 30,
            FtError::MalformedBody => 31,
            FtError::InvalidWindow => 33,
        }
    }
}
