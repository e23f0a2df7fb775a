// The widths of a system's header fields and addresses (IEC 60870-5-104, 9.5), and the lengths that
// follow from them and from the 249 octets of an ASDU.
ghost use Rattle.std.specs.Prelude.{◌≡◌};
ghost use Rattle.asdu.specs.Sizes.{sizes_right, sizes_made, has_originator, header_len, max_ioa, max_common_address, element_room, segment_limit, page_entries};

use crate::{AddressSizes, DirectoryEntry, FtError, Los, Nof, Nos};

// The longest ASDU: the 253 octets that an APDU's length field can state, less the 4 of its control
// field. The APDU itself has 255, with its start and its length (IEC 60870-5-104, 5).
pub const MAX_ASDU: usize = 249;

// The entries of a directory page, the same at every width.
pub const MAX_DIRECTORY_FILES: usize = 18;

// The longest segment with the conventional widths.
pub const MAX_SEGMENT: usize = 236;

impl AddressSizes {
    // The widths that most systems use: an originator, two octets of common address, three of object
    // address.
    pub const CONVENTIONAL: Self = Self {
        cause_octets: 2,
        common_address_octets: 2,
        information_object_address_octets: 3,
    };

    // Widths as given, or 2 where no system has them.
    #[tactic(auto, using(laws::proofs::Decide::decide), unfolding(crate::specs::Sizes::sizes_made))]
    pub fn new(
        cause_octets: u8,
        common_address_octets: u8,
        information_object_address_octets: u8,
    ) -> Result<AddressSizes, FtError>
        ensures { result ≡ sizes_made (record { cause_octets = cause_octets; common_address_octets = common_address_octets; information_object_address_octets = information_object_address_octets }) }
    {
        let sizes = AddressSizes {
            cause_octets,
            common_address_octets,
            information_object_address_octets,
        };
        if !sizes.is_right() {
            return Err(FtError::InvalidAddressSizes);
        }
        Ok(sizes)
    }

    // Whether a making gives these widths.
    #[tactic(auto, using(laws::proofs::Decide::decide), unfolding(crate::specs::Sizes::sizes_right, crate::specs::Sizes::within))]
    pub fn is_right(self) -> bool
        ensures { result ≡ sizes_right self }
    {
        matches!(self.cause_octets, 1..=2)
            && matches!(self.common_address_octets, 1..=2)
            && matches!(self.information_object_address_octets, 1..=3)
    }

    // Whether the header has an originator address.
    pub fn originator_address(self) -> bool
        ensures { result ≡ has_originator self }
    {
        self.cause_octets == 2
    }

    // The octets of the header.
    #[tactic(auto, using(laws::proofs::Decide::decide), unfolding(crate::specs::Sizes::header_len))]
    pub fn header_len(self) -> usize
        ensures { result ≡ header_len self }
    {
        2 + self.cause_octets as usize + self.common_address_octets as usize
    }

    // The largest object address of this width.
    #[tactic(auto, using(laws::proofs::Decide::decide), unfolding(crate::specs::Sizes::max_ioa))]
    pub fn max_ioa(self) -> u32
        ensures { result ≡ max_ioa self }
    {
        match self.information_object_address_octets {
            1 => 0xFF,
            2 => 0xFFFF,
            _ => 0xFF_FFFF,
        }
    }

    // The largest common address of this width.
    #[tactic(auto, using(laws::proofs::Decide::decide), unfolding(crate::specs::Sizes::max_common_address))]
    pub fn max_common_address(self) -> u16
        ensures { result ≡ max_common_address self }
    {
        if self.common_address_octets == 1 {
            0xFF
        } else {
            0xFFFF
        }
    }

    // The address that means every station (7.2.4): the largest of its width.
    pub fn broadcast_common_address(self) -> u16
        ensures { result ≡ max_common_address self }
    {
        self.max_common_address()
    }

    // What an ASDU leaves after its header and one object address.
    #[tactic(auto, using(laws::proofs::Decide::decide), unfolding(crate::specs::Sizes::element_room, crate::specs::Sizes::header_len))]
    fn element_room(self) -> usize
        ensures { result ≡ element_room self }
    {
        let taken = self.header_len() + self.information_object_address_octets as usize;
        MAX_ASDU.saturating_sub(taken)
    }
}

// The longest payload of a segment with these widths.
#[tactic(auto, using(laws::proofs::Decide::decide), unfolding(crate::specs::Sizes::segment_limit))]
pub fn max_segment(sizes: AddressSizes) -> usize
    ensures { result ≡ segment_limit sizes }
{
    let room = sizes.element_room();
    room.saturating_sub(Nof::LEN + Nos::LEN + Los::LEN)
        .min(Los::MAX as usize)
}

// The most entries of a directory page with these widths: 18 at each that a making gives.
#[tactic(auto, using(laws::proofs::Decide::decide), unfolding(crate::specs::Sizes::page_entries))]
pub fn max_directory_files(sizes: AddressSizes) -> usize
    ensures { result ≡ page_entries sizes }
{
    sizes.element_room() / DirectoryEntry::LEN
}
