// The entries of a directory as they stand in a store (document 01, The directory): 17 octets each, its
// object address in 4, the lowest first, then its 13 packed octets. A page's entries are written behind
// those that are there, all of them or none.
#![tactic(auto)]

ghost use Rattle.std.specs.Prelude.{◌≡◌, ◌+◌, ◌*◌, ◌/◌, ◌≤◌, length};
ghost use Rattle.store.specs.Store.{written};
ghost use Rattle.stored.specs.Stored.{entries_in, has_last, stored_entry, page_stored, room_for, with_page};

use asdu::DirectoryEntry;
use asdu::entry::entry_address;

// An entry's octets in the store: 4 of its address and 13 packed.
pub const STORED: usize = 17;

// Whether any entry of a page has the last-file flag (7.2.6.38), the bit of weight 32 in its sixth octet. A
// `for`: `any` does not tell its test that each part has a sixth octet.
#[tactic(auto, using(crate::proofs::StoredLaws::flags), unfolding(asdu::specs::Entry::bit_of))]
pub fn has_last(entries: &[u8]) -> bool
    ensures { result ≡ has_last entries.now }
{
    for entry in entries.chunks_exact(DirectoryEntry::LEN) {
        if entry[5] / 32 % 2 == 1 {
            return true;
        }
    }
    false
}

// Whether a store of this length has room for so many entries more. Whole entries are compared, so that
// no count is too large to ask for.
#[tactic(auto, using(laws::proofs::Decide::decide), unfolding(crate::specs::Stored::room_for))]
fn has_room(held: usize, more: usize, len: usize) -> bool
    ensures { result ≡ room_for held more len }
{
    let room = len / STORED;
    held <= room && more <= room - held
}

// Writes one entry over its place of the store: its address, the lowest octet first, then its octets.
#[tactic(auto, unfolding(crate::specs::Stored::stored_entry, crate::specs::Stored::address_octets))]
fn write_entry(place: &mut [u8], ioa: u32, entry: &[u8])
    requires { (length place.old ≡ 17) × (length entry.now ≡ 13) }
    ensures { place.new ≡ stored_entry ioa entry.now }
{
    place[..4].copy_from_slice(&ioa.to_le_bytes());
    place[4..].copy_from_slice(entry);
}

// Writes a page's entries one after the other from a place of the store on; the first is at the page's
// address.
#[tactic(auto, using(crate::proofs::StoredLaws::pages))]
fn write_entries(store: &mut [u8], place: usize, ioa: u32, entries: &[u8])
    requires { place + 17 * (length entries.now / 13) ≤ length store.old }
    ensures { store.new ≡ written store.old place (page_stored ioa entries.now) }
{
    for (i, entry) in entries.chunks_exact(DirectoryEntry::LEN).enumerate() {
        let at = place + STORED * i;
        write_entry(&mut store[at..at + STORED], entry_address(ioa, i), entry);
    }
}

// Writes a page's entries behind the `held` entries that are there, and says so; or leaves the store
// where it cannot take the whole page.
#[tactic(auto, using(crate::proofs::StoredLaws::written_pages), unfolding(crate::specs::Stored::with_page, crate::specs::Stored::entries_in))]
pub fn write_page(store: &mut [u8], held: usize, ioa: u32, entries: &[u8]) -> bool
    ensures { (result ≡ room_for held (entries_in entries.now) (length store.old)) × (store.new ≡ with_page store.old held ioa entries.now) }
{
    if has_room(held, entries.len() / DirectoryEntry::LEN, store.len()) {
        write_entries(store, STORED * held, ioa, entries);
        return true;
    }
    false
}
