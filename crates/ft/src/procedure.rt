// A station's settings: its role, the directions it uses, its own addresses and the system's widths.
ghost use Rattle.std.specs.Prelude.{◌≡◌};
ghost use Rattle.ft.specs.Procedure.{address_right, addressed, settled, procedure_made, procedure_with, addressing, conventional};
ghost use Rattle.ft.specs.declared.Role.TheVariants.{Controlling, Controlled};

use crate::{Addressing, FileTransferProcedure, Role, Selection};
use asdu::{AddressSizes, FtError};

// Whether a station may have these addresses as its own: a common address that is not 0 and not
// broadcast, and an originator only where the header has one.
#[tactic(auto, using(laws::proofs::Decide::decide), unfolding(crate::specs::Procedure::address_right))]
pub fn is_own_address(sizes: AddressSizes, ca: u16, org: u8) -> bool
    ensures { result ≡ address_right sizes ca org }
{
    1 <= ca && ca < sizes.max_common_address() && (sizes.originator_address() || org == 0)
}

// Whether frames about this object address can go out with these widths under these addresses.
#[tactic(auto, using(laws::proofs::Decide::decide), unfolding(crate::specs::Procedure::addressed))]
pub fn is_addressed(sizes: AddressSizes, ca: u16, org: u8, ioa: u32) -> bool
    ensures { result ≡ addressed sizes ca org ioa }
{
    is_own_address(sizes, ca, org) && ioa <= sizes.max_ioa()
}

impl FileTransferProcedure {
    // A station of this role: 2 for widths that no system has, 3 for addresses that it cannot have.
    #[tactic(auto, using(laws::proofs::Decide::decide), unfolding(crate::specs::Procedure::procedure_made))]
    pub fn new(
        role: Role,
        selection: Selection,
        ca: u16,
        org: u8,
        sizes: AddressSizes,
    ) -> Result<FileTransferProcedure, FtError>
        ensures { result ≡ procedure_made role selection ca org sizes }
    {
        if !sizes.is_right() {
            return Err(FtError::InvalidAddressSizes);
        }
        if !is_own_address(sizes, ca, org) {
            return Err(FtError::AddressOutOfRange);
        }
        Ok(FileTransferProcedure {
            role,
            selection,
            ca,
            org,
            sizes,
        })
    }

    // A controlling station with the conventional widths. This and the next are two names that the Rust has.
    pub fn controlling(
        selection: Selection,
        common_address: u16,
        originator: u8,
    ) -> Result<FileTransferProcedure, FtError>
        ensures { result ≡ procedure_made Controlling selection common_address originator conventional }
    {
        FileTransferProcedure::new(
            Role::Controlling,
            selection,
            common_address,
            originator,
            AddressSizes::CONVENTIONAL,
        )
    }

    // A controlled station with the conventional widths.
    pub fn controlled(
        selection: Selection,
        common_address: u16,
        originator: u8,
    ) -> Result<FileTransferProcedure, FtError>
        ensures { result ≡ procedure_made Controlled selection common_address originator conventional }
    {
        FileTransferProcedure::new(
            Role::Controlled,
            selection,
            common_address,
            originator,
            AddressSizes::CONVENTIONAL,
        )
    }

    // The same station with other widths: 26 on settings that no making gives, then 2, 3.
    #[tactic(auto, using(laws::proofs::Decide::decide), unfolding(crate::specs::Procedure::procedure_with))]
    pub fn with_address_sizes(self, sizes: AddressSizes) -> Result<FileTransferProcedure, FtError>
        ensures { result ≡ procedure_with self sizes }
    {
        if !self.is_settled() {
            return Err(FtError::RecordMismatch);
        }
        FileTransferProcedure::new(self.role, self.selection, self.ca, self.org, sizes)
    }

    // Whether a making gives these settings.
    #[tactic(auto, using(laws::proofs::Decide::decide), unfolding(crate::specs::Procedure::settled))]
    pub fn is_settled(self) -> bool
        ensures { result ≡ settled self }
    {
        self.sizes.is_right() && is_own_address(self.sizes, self.ca, self.org)
    }

    pub fn address_sizes(self) -> AddressSizes
        ensures { result ≡ self.sizes }
    {
        self.sizes
    }

    pub fn role(self) -> Role
        ensures { result ≡ self.role }
    {
        self.role
    }

    pub fn selection(self) -> Selection
        ensures { result ≡ self.selection }
    {
        self.selection
    }

    pub fn addressing(self) -> Addressing
        ensures { result ≡ addressing self }
    {
        Addressing {
            common_address: self.ca,
            originator: self.org,
        }
    }
}
