// The pager over the station's entries as a lent list (document 01, Form by location): what is answered is
// what the packed pager of `pager` answers on the packed list. What follows from the number of entries alone
// is `pager`'s.
#![tactic(auto)]

ghost use Rattle.std.specs.Prelude.{◌≡◌};
ghost use Rattle.pager_list.specs.Listed.{all_in_range, listed_count, listed_pages, listed_page, listed_entry};

use asdu::{DirectoryEntry, FtError};
use pager::Page;

// Whether each entry is in range.
fn are_in_range(entries: &[DirectoryEntry]) -> bool
    ensures { result ≡ all_in_range entries.now }
{
    entries.iter().all(|entry| entry.is_in_range())
}

// How many entries these are: 4 where one is out of range.
#[tactic(auto, using(laws::proofs::Decide::decide), unfolding(crate::specs::Listed::listed_count))]
fn counted(entries: &[DirectoryEntry]) -> Result<usize, FtError>
    ensures { result ≡ listed_count entries.now }
{
    if !are_in_range(entries) {
        return Err(FtError::ValueOutOfRange);
    }
    Ok(entries.len())
}

// The number of pages: 4 where an entry is out of range. No entries give no page.
#[tactic(auto, using(crate::proofs::Chained::pages_listed))]
pub fn pages(entries: &[DirectoryEntry]) -> Result<usize, FtError>
    ensures { result ≡ listed_pages entries.now }
{
    let count = counted(entries)?;
    Ok(pager::page_count(count))
}

// A page's address and number of entries, where the first entry of all is at the address `ioa`: 4, then
// 9 for a page past the last.
#[tactic(auto, using(crate::proofs::Chained::page_listed))]
pub fn page_at(ioa: u32, entries: &[DirectoryEntry], index: usize) -> Result<Page, FtError>
    ensures { result ≡ listed_page ioa entries.now index }
{
    let count = counted(entries)?;
    pager::page_among(ioa, count, index)
}

// One entry of a page, with the last-file flag set on the last entry of all and cleared on every other:
// 4, then 9 for a page past the last or an entry past its page's last.
#[tactic(auto, using(crate::proofs::Chained::entry_listed, crate::proofs::Chained::counted_right, pager::proofs::Chained::number_within, crate::proofs::Packed::sent_of_list))]
pub fn entry_at(
    entries: &[DirectoryEntry],
    page: usize,
    index: usize,
) -> Result<DirectoryEntry, FtError>
    ensures { result ≡ listed_entry entries.now page index }
{
    let count = counted(entries)?;
    let number = pager::number_among(count, page, index)?;
    let is_last = number + 1 == count;
    Ok(pager::flagged(is_last, entries[number]))
}
