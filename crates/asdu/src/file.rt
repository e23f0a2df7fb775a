// The elements of the file transfer, IEC 60870-5-101, 7.2.6.28 to 7.2.6.38. Each holds its value as
// it is; `is_in_range` says whether the element's bits can carry it. Each is a type of its own, those of one
// shape too: the standard's element, with its own range and its own definition in specs/.
ghost use Rattle.std.specs.Prelude.{◌≡◌};
ghost use Rattle.asdu.specs.Elements.{frq_in_range, srq_in_range, scq_in_range, afq_in_range, lof_in_range, los_in_range, sof_in_range};

use crate::{Afq, Frq, Lof, Los, Lsq, Nof, Nos, Scq, Sof, Srq};

impl Frq {
    pub const MAX: u8 = 127;

    pub fn is_in_range(self) -> bool
        ensures { result ≡ frq_in_range self }
    {
        self.value <= Frq::MAX
    }
}

impl Srq {
    pub const MAX: u8 = 127;

    pub fn is_in_range(self) -> bool
        ensures { result ≡ srq_in_range self }
    {
        self.value <= Srq::MAX
    }
}

impl Scq {
    pub const CALL_DIRECTORY: u8 = 0;

    pub const SELECT_FILE: u8 = 1;

    pub const REQUEST_FILE: u8 = 2;

    pub const DEACTIVATE_FILE: u8 = 3;

    pub const DELETE_FILE: u8 = 4;

    pub const SELECT_SECTION: u8 = 5;

    pub const REQUEST_SECTION: u8 = 6;

    pub const DEACTIVATE_SECTION: u8 = 7;

    pub const MAX: u8 = 15;

    #[tactic(auto, using(laws::proofs::Decide::decide), unfolding(crate::specs::Elements::scq_in_range))]
    pub fn is_in_range(self) -> bool
        ensures { result ≡ scq_in_range self }
    {
        self.action <= Scq::MAX && self.error <= Scq::MAX
    }
}

impl Lsq {
    pub const FILE_WITHOUT_DEACTIVATION: u8 = 1;

    pub const FILE_WITH_DEACTIVATION: u8 = 2;

    pub const SECTION_WITHOUT_DEACTIVATION: u8 = 3;

    pub const SECTION_WITH_DEACTIVATION: u8 = 4;
}

impl Afq {
    pub const FILE_POSITIVE: u8 = 1;

    pub const FILE_NEGATIVE: u8 = 2;

    pub const SECTION_POSITIVE: u8 = 3;

    pub const SECTION_NEGATIVE: u8 = 4;

    pub const MAX: u8 = 15;

    #[tactic(auto, using(laws::proofs::Decide::decide), unfolding(crate::specs::Elements::afq_in_range))]
    pub fn is_in_range(self) -> bool
        ensures { result ≡ afq_in_range self }
    {
        self.action <= Afq::MAX && self.error <= Afq::MAX
    }
}

impl Nof {
    pub const LEN: usize = 2;
}

impl Nos {
    pub const LEN: usize = 1;
}

impl Lof {
    pub const LEN: usize = 3;

    pub const MAX: u32 = 0xFF_FFFF;

    pub fn is_in_range(self) -> bool
        ensures { result ≡ lof_in_range self }
    {
        self.value <= Lof::MAX
    }
}

impl Los {
    pub const LEN: usize = 1;

    pub const MAX: u8 = 240;

    // A segment has at least one octet.
    #[tactic(auto, using(laws::proofs::Decide::decide), unfolding(crate::specs::Elements::los_in_range))]
    pub fn is_in_range(self) -> bool
        ensures { result ≡ los_in_range self }
    {
        1 <= self.value && self.value <= Los::MAX
    }
}

impl Sof {
    pub const LEN: usize = 1;

    pub const MAX: u8 = 31;

    pub fn is_in_range(self) -> bool
        ensures { result ≡ sof_in_range self }
    {
        self.status <= Sof::MAX
    }
}
