// The application layer's elements and settings that the file transfer stands on: the elements of
// IEC 60870-5-101, 7.2.6, the widths of the header's fields, the header's facts, and the packed
// directory entry.
#![tactic(auto)]

pub mod entry; // one entry of a directory, and its 13 octets
pub mod error; // the numbered refusals
pub mod file; // the file transfer's elements
pub mod headers; // cause, header facts, direction, unknown fields
pub mod sizes; // the widths, and what they leave for a segment
pub mod time; // the time of seven octets

// FRQ, the file ready qualifier (7.2.6.28).
#[derive(Clone, Copy, PartialEq, Eq)]
pub struct Frq {
    pub value: u8,
    pub negative_confirm: bool,
}

// SRQ, the section ready qualifier (7.2.6.29).
#[derive(Clone, Copy, PartialEq, Eq)]
pub struct Srq {
    pub value: u8,
    pub not_ready: bool,
}

// SCQ, the select and call qualifier (7.2.6.30).
#[derive(Clone, Copy, PartialEq, Eq)]
pub struct Scq {
    pub action: u8,
    pub error: u8,
}

// LSQ, the last section or segment qualifier (7.2.6.31).
#[derive(Clone, Copy, PartialEq, Eq)]
pub struct Lsq {
    pub value: u8,
}

// AFQ, the acknowledge file or section qualifier (7.2.6.32).
#[derive(Clone, Copy, PartialEq, Eq)]
pub struct Afq {
    pub action: u8,
    pub error: u8,
}

// NOF, the name of a file (7.2.6.33).
#[derive(Clone, Copy, PartialEq, Eq)]
pub struct Nof {
    pub value: u16,
}

// NOS, the name of a section (7.2.6.34).
#[derive(Clone, Copy, PartialEq, Eq)]
pub struct Nos {
    pub value: u8,
}

// LOF, the length of a file or section (7.2.6.35).
#[derive(Clone, Copy, PartialEq, Eq)]
pub struct Lof {
    pub value: u32,
}

// LOS, the length of a segment (7.2.6.36).
#[derive(Clone, Copy, PartialEq, Eq)]
pub struct Los {
    pub value: u8,
}

// CHS, the checksum (7.2.6.37).
#[derive(Clone, Copy, PartialEq, Eq)]
pub struct Chs {
    pub value: u8,
}

// SOF, the status of a file (7.2.6.38).
#[derive(Clone, Copy, PartialEq, Eq)]
pub struct Sof {
    pub status: u8,
    pub last_file_of_directory: bool,
    pub name_defines_subdirectory: bool,
    pub transfer_active: bool,
}

// A type identification (7.2.1.1) is its number; these are the file transfer's.
#[derive(Clone, Copy, PartialEq, Eq)]
pub struct TypeId {
    pub value: u8,
}

// A cause of transmission (7.2.3), by its number.
#[derive(Clone, Copy, PartialEq, Eq)]
pub struct Cause {
    pub value: u8,
}

// The facts of a header that the file transfer reads or writes.
#[derive(Clone, Copy, PartialEq, Eq)]
pub struct Header {
    pub type_id: u8,
    pub cause: Cause,
    pub negative: bool,
    pub originator: u8,
    pub common_address: u16,
}

// The way a file travels: monitor from the controlled station to the controlling one, control the
// other way.
#[derive(Clone, Copy, PartialEq, Eq)]
pub enum Direction {
    Monitor,
    Control,
    Both,
}

// A field that the station does not know, in the order of the four causes 44 to 47 (7.2.3).
#[derive(Clone, Copy, PartialEq, Eq)]
pub enum Unspecified {
    TypeIdentification,
    Cause,
    CommonAddress,
    InformationObjectAddress,
}

// Why a frame is discarded: it is a mirror, or a field of it is unknown. (No `Option`: each case is a reason.)
#[derive(Clone, Copy, PartialEq, Eq)]
pub enum Discard {
    Mirror,
    Unspecified(Unspecified),
}

// One file of a directory, as F_DR_TA_1 carries it (7.3.6.7): name, length, status and creation time.
#[derive(Clone, Copy, PartialEq, Eq)]
pub struct DirectoryEntry {
    pub nof: Nof,
    pub lof: Lof,
    pub sof: Sof,
    pub time: Cp56Time2a,
}

// The binary time of seven octets (7.2.6.18).
#[derive(Clone, Copy, PartialEq, Eq)]
pub struct Cp56Time2a {
    pub milliseconds: u16,
    pub minutes: u8,
    pub substituted: bool,
    pub invalid: bool,
    pub hours: u8,
    pub summer_time: bool,
    pub day_of_month: u8,
    pub day_of_week: u8,
    pub months: u8,
    pub years: u8,
}

// A numbered refusal of document 01, or of a request of document 02; `number` gives its number.
#[derive(Clone, Copy, PartialEq, Eq)]
pub enum FtError {
    // Because of the input.
    FileTooLong,
    InvalidAddressSizes,
    AddressOutOfRange,
    ValueOutOfRange,
    EmptySegment,
    SegmentTooLong,
    CallDirectoryAction,
    ChecksumMismatch,
    IndexOutOfRange,
    Undecodable,
    ScriptMisshapen,
    // Because of the state.
    FunctionNotUsed,
    NotSelectedDirection,
    EchoMismatch,
    StoreFull,
    DirectoryFull,
    RecordMismatch,
    // Of a directory page to print (document 02, A3).
    NotPrintable,
    PageTooShort,
    // Of a frame's body (document 02, A8 and A9).
    UnsupportedType,
    BufferTooShort,
    MalformedBody,
    // Of a window over the last transfers (document 02, A14).
    InvalidWindow,
}

// The widths of a system: octets of the cause, of the common address and of an object address.
#[derive(Clone, Copy, PartialEq, Eq)]
pub struct AddressSizes {
    pub cause_octets: u8,
    pub common_address_octets: u8,
    pub information_object_address_octets: u8,
}
