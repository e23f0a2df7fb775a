// For the test program: the pager over a lent list, over the entries of a file. One function is lent the
// list, and calls all three of `pager_list`.
#![tactic(auto)]

ghost use Rattle.std.specs.Prelude.{◌≡◌};
ghost use Rattle.pager_list.specs.Listed.{listed_pages, listed_page, listed_entry};

use asdu::{Cp56Time2a, DirectoryEntry, FtError, Lof, Nof, Sof};
use pager::Page;
use std::array;

// The most entries that a case lends: three pages.
const MOST: usize = 37;

// What the pager answers on one list: how many pages, a page, and an entry.
#[derive(Clone, Copy)]
pub struct ListAnswers {
    pub pages: Result<usize, FtError>,
    pub page: Result<Page, FtError>,
    pub entry: Result<DirectoryEntry, FtError>,
}

// The answers of `pager_list` on the list that it is lent.
fn answers(list: &[DirectoryEntry], ioa: u32, page: usize, index: usize) -> ListAnswers
    ensures pages { result.pages ≡ listed_pages list.now }
    ensures page { result.page ≡ listed_page ioa list.now page }
    ensures entry { result.entry ≡ listed_entry list.now page index }
{
    ListAnswers {
        pages: pager_list::pages(list),
        page: pager_list::page_at(ioa, list, page),
        entry: pager_list::entry_at(list, page, index),
    }
}

// ---- The entries of a file

// The entry of 13 octets (7.3.6.7), whatever bits are set. A reserved bit stays in the number of its field,
// in the hours, the month or the year, which is then out of range.
fn entry_of(octets: [u8; DirectoryEntry::LEN]) -> DirectoryEntry {
    let [
        n0,
        n1,
        l0,
        l1,
        l2,
        sof,
        m0,
        m1,
        minutes,
        hours,
        day,
        months,
        years,
    ] = octets;
    DirectoryEntry {
        nof: Nof {
            value: u16::from_le_bytes([n0, n1]),
        },
        lof: Lof {
            value: u32::from_le_bytes([l0, l1, l2, 0]),
        },
        sof: Sof {
            status: sof & 0x1F,
            last_file_of_directory: sof & 0x20 != 0,
            name_defines_subdirectory: sof & 0x40 != 0,
            transfer_active: sof & 0x80 != 0,
        },
        time: Cp56Time2a {
            milliseconds: u16::from_le_bytes([m0, m1]),
            minutes: minutes & 0x3F,
            substituted: minutes & 0x40 != 0,
            invalid: minutes & 0x80 != 0,
            hours: hours & 0x7F,
            summer_time: hours & 0x80 != 0,
            day_of_month: day & 0x1F,
            day_of_week: day >> 5,
            months,
            years,
        },
    }
}

// The entry of this number in a file, or one of zeros.
fn entry_in(file: &[u8], number: usize) -> DirectoryEntry {
    let octets = file
        .chunks_exact(DirectoryEntry::LEN)
        .nth(number)
        .and_then(|octets| octets.first_chunk().copied());
    entry_of(octets.unwrap_or([0; DirectoryEntry::LEN]))
}

// Whether a file is whole entries, and no more than can be lent.
pub fn is_list(file: &[u8]) -> bool {
    file.len() % DirectoryEntry::LEN == 0 && file.len() / DirectoryEntry::LEN <= MOST
}

// The answers on the entries of a file, or on its first where there are more than can be lent.
pub fn over_file(file: &[u8], ioa: u32, page: usize, index: usize) -> ListAnswers {
    let entries: [DirectoryEntry; MOST] = array::from_fn(|number| entry_in(file, number));
    let count = MOST.min(file.len() / DirectoryEntry::LEN);
    answers(&entries[..count], ioa, page, index)
}
