// One entry of a directory, F_DR_TA_1 (IEC 60870-5-101, 7.3.6.7), and the 13 octets that carry it.
ghost use Rattle.std.specs.Prelude.{◌≡◌, true, ◌+◌, ◌*◌, ◌/◌, ◌<◌, ◌≤◌, length};
ghost use Rattle.asdu.specs.Entry.{entry_in_range, flag, sof_octet, entry_octets, bit_of, sof_of, time_at, entry_of, reserved_clear, pack_answer, pack_into, unpacked, all_clear, page_right, entry_address};

use crate::{Cp56Time2a, DirectoryEntry, FtError, Lof, Nof, Sof, sizes};

impl DirectoryEntry {
    pub const LEN: usize = 13;

    // Whether the octets' bits can carry every element.
    #[tactic(auto, using(laws::proofs::Decide::decide), unfolding(crate::specs::Entry::entry_in_range))]
    pub fn is_in_range(self) -> bool
        ensures { result ≡ entry_in_range self }
    {
        self.lof.is_in_range() && self.sof.is_in_range() && self.time.is_in_range()
    }

    // Writes the entry's octets; where it is out of range, or the place is not 13 long, writes
    // nothing and answers 4.
    #[tactic(auto, using(laws::proofs::Decide::decide), unfolding(crate::specs::Entry::packs, crate::specs::Entry::pack_answer, crate::specs::Entry::pack_into))]
    pub fn pack(self, out: &mut [u8]) -> Result<(), FtError>
        ensures { (result ≡ pack_answer self out.old) × (out.new ≡ pack_into self out.old) }
    {
        if !self.is_in_range() || out.len() != DirectoryEntry::LEN {
            return Err(FtError::ValueOutOfRange);
        }
        out.copy_from_slice(&self.octets());
        Ok(())
    }

    // The entry that the octets carry; 4 where they are not 13, or a reserved bit is set.
    #[tactic(auto, using(laws::proofs::Decide::decide), unfolding(crate::specs::Entry::unpacked))]
    pub fn unpack(octets: &[u8]) -> Result<DirectoryEntry, FtError>
        ensures { result ≡ unpacked octets.now }
    {
        if octets.len() != DirectoryEntry::LEN || !is_clear(octets) {
            return Err(FtError::ValueOutOfRange);
        }
        Ok(entry_of(octets))
    }

    // The entry's 13 octets: NOF, LOF, SOF and the time, the lowest octet of each number first.
    fn octets(self) -> [u8; 13]
        requires { entry_in_range self ≡ true }
        ensures { result ≡ entry_octets self }
    {
        let [name_low, name_high] = self.nof.value.to_le_bytes();
        let [length_low, length_middle, length_high, _] = self.lof.value.to_le_bytes();
        let time = self.time;
        let [milliseconds_low, milliseconds_high] = time.milliseconds.to_le_bytes();
        [
            name_low,
            name_high,
            length_low,
            length_middle,
            length_high,
            sof_octet(self.sof),
            milliseconds_low,
            milliseconds_high,
            time.minutes + weight_of(64, time.substituted) + weight_of(128, time.invalid),
            time.hours + weight_of(128, time.summer_time),
            time.day_of_month + 32 * time.day_of_week,
            time.months,
            time.years,
        ]
    }
}

// ---- Entry to octets

// What a flag adds to its octet: its bit's weight where it is set.
#[tactic(auto, using(laws::proofs::Decide::decide), unfolding(crate::specs::Entry::flag))]
pub fn weight_of(weight: u8, b: bool) -> u8
    ensures { (result ≡ flag weight b) × (result ≤ weight) }
{
    if b { weight } else { 0 }
}

// The status, and the three flags above it.
#[tactic(auto, using(laws::proofs::Decide::decide), unfolding(crate::specs::Entry::sof_octet))]
fn sof_octet(sof: Sof) -> u8
    requires { sof.status ≤ 31 }
    ensures { result ≡ sof_octet sof }
{
    sof.status
        + weight_of(32, sof.last_file_of_directory)
        + weight_of(64, sof.name_defines_subdirectory)
        + weight_of(128, sof.transfer_active)
}

// ---- Octets to entry

// Whether the bit of this weight is set.
#[tactic(auto, using(laws::proofs::Decide::decide), unfolding(crate::specs::Entry::bit_of))]
fn has_bit(weight: u8, octet: u8) -> bool
    requires { 0 < weight }
    ensures { result ≡ bit_of weight octet }
{
    octet / weight % 2 == 1
}

// The status and flags in their octet.
#[tactic(auto, using(laws::proofs::Decide::decide), unfolding(crate::specs::Entry::sof_of))]
fn sof_of(octet: u8) -> Sof
    ensures { result ≡ sof_of octet }
{
    Sof {
        status: octet % 32,
        last_file_of_directory: has_bit(32, octet),
        name_defines_subdirectory: has_bit(64, octet),
        transfer_active: has_bit(128, octet),
    }
}

// The time in the octets from 6 on.
#[tactic(auto, using(laws::proofs::Decide::decide), unfolding(crate::specs::Entry::time_at))]
fn time_of(octets: &[u8]) -> Cp56Time2a
    requires { length octets.now ≡ 13 }
    ensures { result ≡ time_at octets.now 6 }
{
    let minutes = octets[8];
    let hours = octets[9];
    let day = octets[10];
    Cp56Time2a {
        milliseconds: u16::from_le_bytes([octets[6], octets[7]]),
        minutes: minutes % 64,
        substituted: has_bit(64, minutes),
        invalid: has_bit(128, minutes),
        hours: hours % 32,
        summer_time: has_bit(128, hours),
        day_of_month: day % 32,
        day_of_week: day / 32,
        months: octets[11] % 16,
        years: octets[12] % 128,
    }
}

// The entry in 13 octets.
#[tactic(auto, using(laws::proofs::Decide::decide), unfolding(crate::specs::Entry::entry_of))]
fn entry_of(octets: &[u8]) -> DirectoryEntry
    requires { length octets.now ≡ 13 }
    ensures { result ≡ entry_of octets.now }
{
    DirectoryEntry {
        nof: Nof {
            value: u16::from_le_bytes([octets[0], octets[1]]),
        },
        lof: Lof {
            value: u32::from_le_bytes([octets[2], octets[3], octets[4], 0]),
        },
        sof: sof_of(octets[5]),
        time: time_of(octets),
    }
}

// ---- Reserved bits

// Whether the reserved bits are 0 in the entry that these octets begin with.
#[tactic(auto, using(laws::proofs::Decide::decide), unfolding(crate::specs::Entry::reserved_clear))]
fn is_clear(octets: &[u8]) -> bool
    requires { 13 ≤ length octets.now }
    ensures { result ≡ reserved_clear octets.now }
{
    octets[9] / 32 % 4 == 0 && octets[11] / 16 == 0 && octets[12] / 128 == 0
}

// Whether the reserved bits are 0 in every whole entry. A `for`: `all` does not tell its test that each part is
// 13 long, which `is_clear` asks.
fn are_clear(octets: &[u8]) -> bool
    ensures { result ≡ all_clear (length octets.now / 13) octets.now }
{
    for entry in octets.chunks_exact(DirectoryEntry::LEN) {
        if !is_clear(entry) {
            return false;
        }
    }
    true
}

// Whether these are the entries of a directory page: 1 to 18 whole ones, with every reserved bit 0.
#[tactic(auto, using(laws::proofs::Decide::decide), unfolding(crate::specs::Entry::page_right, crate::specs::Sizes::within))]
pub fn is_page(octets: &[u8]) -> bool
    ensures { result ≡ page_right octets.now }
{
    let entries = octets.len() / DirectoryEntry::LEN;
    octets.len() % DirectoryEntry::LEN == 0
        && matches!(entries, 1..=sizes::MAX_DIRECTORY_FILES)
        && are_clear(octets)
}

// The address of an entry, counted from the one that has the address `base`: they rise by 1 and stop at
// the largest number (document 01, The directory).
#[tactic(auto, using(laws::proofs::Decide::decide), unfolding(crate::specs::Entry::entry_address))]
pub fn entry_address(base: u32, index: usize) -> u32
    ensures { result ≡ entry_address base index }
{
    (base as usize).saturating_add(index).min(u32::MAX as usize) as u32
}
