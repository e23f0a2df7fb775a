// The frames that a station makes, with the header that they go under: whether the frame can be carried
// with the system's widths, and whether the station uses its direction. The two addresses are handed in apart,
// as a station has them among its settings.
ghost use Rattle.std.specs.Prelude.{◌≡◌};
ghost use Rattle.ft.specs.Building.{header_of, framed, built};

use crate::{Asdu, FileTransferProcedure, procedure};
use asdu::{AddressSizes, FtError, Header};
use frame::{Frame, range};

// The header of a frame that goes out under these addresses. It judges neither: `frame_with` and `build`
// do.
pub fn header_of(ca: u16, org: u8, frame: Frame) -> Header
    ensures { result ≡ header_of ca org frame }
{
    Header {
        type_id: frame.type_id(),
        cause: frame.cause(),
        negative: false,
        originator: org,
        common_address: ca,
    }
}

// A frame with these widths and addresses: 2 for widths that no system has, 4 where a value is out of
// range, 3 where an address is, a directory's by its last entry.
#[tactic(auto, using(laws::proofs::Decide::decide), unfolding(crate::specs::Building::framed))]
pub fn frame_with(
    sizes: AddressSizes,
    ca: u16,
    org: u8,
    frame: Frame,
    beside: &[u8],
) -> Result<Asdu, FtError>
    ensures { result ≡ framed sizes ca org frame beside.now }
{
    if !sizes.is_right() {
        return Err(FtError::InvalidAddressSizes);
    }
    if !range::is_in_range(sizes, frame, beside) {
        return Err(FtError::ValueOutOfRange);
    }
    if !procedure::is_addressed(sizes, ca, org, range::last_ioa(frame, beside)) {
        return Err(FtError::AddressOutOfRange);
    }
    let header = header_of(ca, org, frame);
    Ok(Asdu { header, frame })
}

impl FileTransferProcedure {
    // One frame of this station: 26 on settings that no making gives, 21 where it uses neither
    // direction, 22 where not the frame's, then 4, 3.
    #[tactic(auto, using(laws::proofs::Decide::decide), unfolding(crate::specs::Building::built))]
    pub fn build(self, frame: Frame, beside: &[u8]) -> Result<Asdu, FtError>
        ensures { result ≡ built self frame beside.now }
    {
        if !self.is_settled() {
            return Err(FtError::RecordMismatch);
        }
        if !self.selection.uses_function() {
            return Err(FtError::FunctionNotUsed);
        }
        if !self.serves(self.role, frame.is_receiver_side()) {
            return Err(FtError::NotSelectedDirection);
        }
        frame_with(self.sizes, self.ca, self.org, frame, beside)
    }
}
