// Calls of a directory page to print: an entry put into the store, and the page of the store's entries.
use asdu::{DirectoryEntry, FtError};
use shown::{Shown, end_with, text};
use std::fmt;
use std::fmt::Write;
use stored::STORED;
use words::destination::{Destination, Lent, OnOutput, Out};
use words::numbers::{BEFORE, Blank, MOST, Octets};
use words::{Answered, Words};

// Puts an entry's octets behind the entries of the store, and shows how many octets it has then. Where it
// is full nothing is put, and the answer is empty.
fn put_behind<O: Out>(store: &mut Octets, ioa: u32, packed: &[u8], out: O) -> Answered {
    let held = store.len() / STORED;
    if MOST < (held + 1) * STORED {
        return out.finish();
    }
    store.truncate(held * STORED);
    let _ = store.try_extend_from_slice(&[0; STORED]);
    stored::write_page(store, held, ioa, packed);
    end_with(store.len(), out)
}

// Answers `store add`.
fn add_to<D: Destination>(words: &mut Words<'_>, store: &mut Octets, to: D) -> Answered {
    let ioa: u32 = words.value()?;
    let entry: DirectoryEntry = words.value()?;
    let out = to.end(words)?;
    let mut packed = [0; DirectoryEntry::LEN];
    match entry.pack(&mut packed) {
        Ok(()) => put_behind(store, ioa, &packed, out),
        Err(error) => end_with(error, out),
    }
}

// The same, into a writer that is lent. What stands behind the call is left to read.
pub fn add<W: fmt::Write>(words: &mut Words<'_>, store: &mut Octets, out: &mut W) -> Answered {
    add_to(words, store, Lent(out))
}

// The same, on standard output. Nothing may stand behind the call.
pub fn add_on_output(words: &mut Words<'_>, store: &mut Octets) -> Answered {
    add_to(words, store, OnOutput)
}

// How many octets of a page are as they were before.
fn count_kept(octets: &[u8]) -> usize {
    octets.iter().filter(|octet| **octet == BEFORE).count()
}

// Shows what was answered, how many octets behind those that were written are as they were before, and
// the lines that were written, the newline of the last one left out.
pub(crate) fn show<O: Out>(res: Result<usize, FtError>, page: &[u8], mut out: O) -> Answered {
    match res {
        Ok(count) => {
            let lines = page.get(..count).unwrap_or(page);
            let kept = count_kept(page.get(count..).unwrap_or(&[]));
            write!(out, "{count} kept {kept}")?;
            if let Some((_, all_but_last)) = lines.split_last() {
                write!(out, "\n{}", text(all_but_last)?)?;
            }
            out.finish()
        }
        Err(error) => {
            write!(out, "{} kept {}", Shown(&error), count_kept(page))?;
            out.finish()
        }
    }
}

// Answers `page print`: the page of these entries, into so many octets.
fn print_to<D: Destination>(words: &mut Words<'_>, entries: &[u8], to: D) -> Answered {
    let Blank(mut page) = words.value()?;
    let out = to.end(words)?;
    let written = directory_page::write(entries, &mut page);
    show(written, &page, out)
}

// The same, into a writer that is lent. What stands behind the call is left to read.
pub fn print<W: fmt::Write>(words: &mut Words<'_>, entries: &[u8], out: &mut W) -> Answered {
    print_to(words, entries, Lent(out))
}

// The same, on standard output. Nothing may stand behind the call.
pub fn print_on_output(words: &mut Words<'_>, entries: &[u8]) -> Answered {
    print_to(words, entries, OnOutput)
}
