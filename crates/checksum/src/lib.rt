// CHS, the checksum of a section or a file (IEC 60870-5-101, 7.2.6.37).
#![tactic(auto)]

ghost use Rattle.std.specs.Prelude.{◌≡◌};
ghost use Rattle.checksum.specs.Checksum.{sum_after, checksum_checked, refusal_of};

use asdu::{Chs, FtError};

// Two sums that differ: the octets' own, and the one that was stated.
#[derive(Clone, Copy, PartialEq, Eq)]
pub struct SumsDiffer {
    pub expected: Chs,
    pub got: Chs,
}

// It is refusal 8.
impl From<SumsDiffer> for FtError {
    ghost from_gives = { λ sums error. error ≡ refusal_of sums };

    fn from(_: SumsDiffer) -> FtError {
        FtError::ChecksumMismatch
    }
}

// The sum after the octets, modulo 256, from the sum so far (document 02, A6). Whole octets begin with 0;
// memory that is read in banks goes on with the sum after the bank before.
pub fn checksum(octets: &[u8], so_far: u8) -> Chs
    ensures { result.value ≡ sum_after so_far octets.now }
{
    let mut sum = so_far;
    for &octet in octets {
        sum = sum.wrapping_add(octet);
    }
    Chs { value: sum }
}

// Whether the stated sum is that of the octets: both sums where it is not, which `From` makes refusal 8.
pub fn check_checksum(octets: &[u8], stated: Chs) -> Result<(), SumsDiffer>
    ensures { result ≡ checksum_checked octets.now stated }
{
    let expected = checksum(octets, 0);
    if expected != stated {
        return Err(SumsDiffer {
            expected,
            got: stated,
        });
    }
    Ok(())
}
