// The pages of a directory (IEC 60870-5-101, 7.3.6.7, and document 01, The directory): which entries of
// a station's list go into which F_DR_TA_1 frame, at which address, and with which last-file flag. The
// list is lent as packed entries, 13 octets each; what follows from the number of entries alone is public,
// since `pager_list` answers the same of entries that are lent unpacked.
#![tactic(auto)]

ghost use Rattle.std.specs.Prelude.{◌≡◌, true, ◌<◌};
ghost use Rattle.lists.specs.Parts.{div_ceil};
ghost use Rattle.pager.specs.Pages.{entries_right, entries_of, entries_on, page_among, number_among, counted, pages_answer, page_answer, flagged, sent_entry, entry_answer};

use asdu::entry::{entry_address, is_page};
use asdu::{DirectoryEntry, FtError, Sof, sizes};

// One page: the object address of its first entry, and how many entries it has.
#[derive(Clone, Copy, PartialEq, Eq)]
pub struct Page {
    pub ioa: u32,
    pub count: usize,
}

// ---- By the number of entries

// How many pages so many entries fill; the last page may have fewer entries than the others.
#[tactic(auto, unfolding(lists::specs::Parts::div_ceil))]
pub fn page_count(entries: usize) -> usize
    ensures { result ≡ div_ceil entries 18 }
{
    entries.div_ceil(sizes::MAX_DIRECTORY_FILES)
}

// How many of so many entries a page has: 9 for a page past the last.
#[tactic(auto, using(laws::proofs::Decide::decide), unfolding(crate::specs::Pages::entries_on, lists::specs::Parts::div_ceil))]
fn entries_on(entries: usize, page: usize) -> Result<usize, FtError>
    ensures { result ≡ entries_on entries page }
{
    if page_count(entries) <= page {
        return Err(FtError::IndexOutOfRange);
    }
    let left = entries - page * sizes::MAX_DIRECTORY_FILES;
    Ok(sizes::MAX_DIRECTORY_FILES.min(left))
}

// A page's address and number of entries, where the first of so many entries is at the address `ioa`: 9
// for a page past the last.
#[tactic(auto, using(crate::proofs::Chained::among_by, crate::proofs::Chained::on_page))]
pub fn page_among(ioa: u32, entries: usize, index: usize) -> Result<Page, FtError>
    ensures { result ≡ page_among ioa entries index }
{
    let count = entries_on(entries, index)?;
    Ok(Page {
        ioa: entry_address(ioa, index * sizes::MAX_DIRECTORY_FILES),
        count,
    })
}

// The number of a page's entry, counted over all pages from 0: 9 for a page past the last or an entry past
// its page's last.
#[tactic(auto, using(laws::proofs::Decide::decide, crate::proofs::Chained::number_by, crate::proofs::Chained::on_page))]
pub fn number_among(entries: usize, page: usize, index: usize) -> Result<usize, FtError>
    ensures { result ≡ number_among entries page index }
{
    if entries_on(entries, page)? <= index {
        return Err(FtError::IndexOutOfRange);
    }
    Ok(page * sizes::MAX_DIRECTORY_FILES + index)
}

// The entry with the last-file flag (7.2.6.38) as told, whatever it was.
pub fn flagged(last: bool, entry: DirectoryEntry) -> DirectoryEntry
    ensures { result ≡ flagged last entry }
{
    DirectoryEntry {
        sof: Sof {
            last_file_of_directory: last,
            ..entry.sof
        },
        ..entry
    }
}

// ---- The packed entries

// Whether these are whole entries, each in range. A page of one entry is right where that entry is.
#[tactic(auto, using(laws::proofs::Decide::decide), unfolding(crate::specs::Pages::entries_right))]
fn are_in_range(entries: &[u8]) -> bool
    ensures { result ≡ entries_right entries.now }
{
    entries.len() % DirectoryEntry::LEN == 0
        && entries.chunks_exact(DirectoryEntry::LEN).all(is_page)
}

// How many entries these are: 4 for a broken length or an entry out of range.
#[tactic(auto, using(laws::proofs::Decide::decide), unfolding(crate::specs::Pages::counted, crate::specs::Pages::entries_of))]
fn counted(entries: &[u8]) -> Result<usize, FtError>
    ensures { result ≡ counted entries.now }
{
    if !are_in_range(entries) {
        return Err(FtError::ValueOutOfRange);
    }
    Ok(entries.len() / DirectoryEntry::LEN)
}

// The number of pages: 4 for a broken length or an entry out of range. No entries give no page.
#[tactic(auto, using(crate::proofs::Chained::pages_by))]
pub fn pages(entries: &[u8]) -> Result<usize, FtError>
    ensures { result ≡ pages_answer entries.now }
{
    let count = counted(entries)?;
    Ok(page_count(count))
}

// A page's address and number of entries, where the first entry of all is at the address `ioa`: 4, then 9
// for a page past the last.
#[tactic(auto, using(crate::proofs::Chained::page_by))]
pub fn page_at(ioa: u32, entries: &[u8], index: usize) -> Result<Page, FtError>
    ensures { result ≡ page_answer ioa entries.now index }
{
    let count = counted(entries)?;
    page_among(ioa, count, index)
}

// The entry of this number, counted over all pages from 0, as its page carries it.
#[tactic(auto, using(crate::proofs::Entries::whole_entries, crate::proofs::Entries::packed_unpacks), unfolding(crate::specs::Pages::sent_entry, crate::specs::Pages::packed_entry, crate::specs::Pages::entries_of))]
fn sent_entry(entries: &[u8], number: usize) -> Result<DirectoryEntry, FtError>
    requires { (entries_right entries.now ≡ true) × (number < entries_of entries.now) }
    ensures { result ≡ Ok (sent_entry entries.now number) }
{
    let at = DirectoryEntry::LEN * number;
    let entry = DirectoryEntry::unpack(&entries[at..at + DirectoryEntry::LEN])?;
    let is_last = number + 1 == entries.len() / DirectoryEntry::LEN;
    Ok(flagged(is_last, entry))
}

// One entry of a page, with the last-file flag set on the last entry of all and cleared on every other:
// 4, then 9 for a page past the last or an entry past its page's last.
#[tactic(auto, using(crate::proofs::Chained::entry_by, crate::proofs::Chained::counted_right, crate::proofs::Chained::number_within))]
pub fn entry_at(entries: &[u8], page: usize, index: usize) -> Result<DirectoryEntry, FtError>
    ensures { result ≡ entry_answer entries.now page index }
{
    let count = counted(entries)?;
    let number = number_among(count, page, index)?;
    sent_entry(entries, number)
}
