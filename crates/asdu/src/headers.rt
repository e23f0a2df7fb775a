// What a received ASDU's header says, the direction of a transfer, and the fields that a station may
// not know (IEC 60870-5-101, 7.2.1 to 7.2.4).
ghost use Rattle.std.specs.Prelude.{◌≡◌};
ghost use Rattle.asdu.specs.Header.{is_mirror, unspecified_cause};

use crate::{Cause, Header, TypeId, Unspecified};

impl TypeId {
    pub const F_FR_NA_1: u8 = 120;

    pub const F_SR_NA_1: u8 = 121;

    pub const F_SC_NA_1: u8 = 122;

    pub const F_LS_NA_1: u8 = 123;

    pub const F_AF_NA_1: u8 = 124;

    pub const F_SG_NA_1: u8 = 125;

    pub const F_DR_TA_1: u8 = 126;

    pub const F_SC_NB_1: u8 = 127;
}

impl Cause {
    pub const SPONTANEOUS: u8 = 3;

    pub const REQUEST: u8 = 5;

    pub const FILE_TRANSFER: u8 = 13;

    pub const UNKNOWN_TYPE_ID: u8 = 44;

    pub const UNKNOWN_CAUSE: u8 = 45;

    pub const UNKNOWN_COMMON_ADDRESS: u8 = 46;

    pub const UNKNOWN_INFORMATION_OBJECT_ADDRESS: u8 = 47;
}

impl Unspecified {
    // The cause that tells the sender which field is unknown.
    pub fn cause(self) -> Cause
        ensures { result ≡ unspecified_cause self }
    {
        let value = match self {
            Unspecified::TypeIdentification => Cause::UNKNOWN_TYPE_ID,
            Unspecified::Cause => Cause::UNKNOWN_CAUSE,
            Unspecified::CommonAddress => Cause::UNKNOWN_COMMON_ADDRESS,
            Unspecified::InformationObjectAddress => Cause::UNKNOWN_INFORMATION_OBJECT_ADDRESS,
        };
        Cause { value }
    }
}

// Whether the header is that of a mirror: an ASDU sent back, negative, with one of the causes 44 to
// 47.
#[tactic(auto, using(laws::proofs::Decide::decide), unfolding(crate::specs::Header::is_mirror))]
pub fn is_mirror(header: Header) -> bool
    ensures { result ≡ is_mirror header }
{
    header.negative
        && Cause::UNKNOWN_TYPE_ID <= header.cause.value
        && header.cause.value <= Cause::UNKNOWN_INFORMATION_OBJECT_ADDRESS
}
