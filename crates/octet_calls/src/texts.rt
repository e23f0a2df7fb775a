// Calls with a text in quotes: scripts, loads and a directory's entries. A text may have any octets, so
// these lines are no text themselves.
use crate::pages;
use arrayvec::ArrayVec;
use kept::Kept;
use shown::{end_with, text};
use std::fmt;
use std::fmt::Write;
use words::destination::{Destination, Lent, OnOutput, Out};
use words::numbers::{BEFORE, Octets};
use words::{Answered, Unanswered};

// A text of at most a line's length.
type Text = ArrayVec<u8, 65536>;

// What stands between the quotes of a call of this name.
fn quoted<'a>(line: &'a [u8], name: &[u8]) -> Option<&'a [u8]> {
    line.strip_prefix(name)?
        .strip_prefix(b" \"")?
        .strip_suffix(b"\"")
}

// What stands for one octet behind a backslash.
fn escaped(octet: u8) -> Result<u8, Unanswered> {
    match octet {
        b'n' => Ok(b'\n'),
        b'r' => Ok(b'\r'),
        b't' => Ok(b'\t'),
        b'\\' => Ok(b'\\'),
        _ => Err(Unanswered::Unread),
    }
}

// The octets that a quoted text is; an octet 0 may not stand in it.
fn unquoted(quoted: &[u8]) -> Result<Text, Unanswered> {
    let mut octets = Text::new();
    let mut is_escaped = false;
    for octet in quoted.iter().copied() {
        if is_escaped {
            push(&mut octets, escaped(octet)?)?;
            is_escaped = false;
        } else {
            match octet {
                b'\\' => is_escaped = true,
                0 => return Err(Unanswered::Unread),
                _ => push(&mut octets, octet)?,
            }
        }
    }
    if is_escaped {
        return Err(Unanswered::Unread);
    }
    Ok(octets)
}

fn push(octets: &mut Text, octet: u8) -> Answered {
    octets.try_push(octet).map_err(|_| Unanswered::Unread)
}

// ---- Scripts

// The first octets of an array, as a buffer.
fn front(octets: &[u8], count: usize) -> Octets {
    Octets::try_from(octets.get(..count).unwrap_or(octets)).unwrap_or_default()
}

// Reads a script into the file and the damage list.
fn read_script<O: Out>(script: &[u8], kept: &mut Kept, mut out: O) -> Answered {
    // Arrays, as the reader asks for.
    let mut octets = [0; 8192];
    let mut sections = [0; 255];
    match script::read::read(script, &mut octets, &mut sections) {
        Ok(outline) => {
            kept.file = front(&octets, outline.file_len);
            kept.damage = front(&sections, outline.damage_len);
            write!(
                out,
                "{} {} {} {}",
                outline.ioa, outline.nof.value, outline.file_len, outline.damage_len
            )?;
            out.finish()
        }
        Err(error) => end_with(error, out),
    }
}

// ---- Loads

// Shows the script of a load in quotes, the newline that ends it as \n.
fn show_script<O: Out>(load: &[u8], mut out: O) -> Answered {
    let mut script = [0; 65536];
    match load_script::write(load, &mut script) {
        Ok(length) => {
            let words = text(script.get(..length).unwrap_or(&script))?;
            match words.strip_suffix('\n') {
                Some(line) => write!(out, "\"{line}\\n\"")?,
                None => write!(out, "\"{words}\"")?,
            }
            out.finish()
        }
        Err(error) => end_with(error, out),
    }
}

// Reads the script of a load into the file and the damage list.
fn read_load<O: Out>(load: &[u8], kept: &mut Kept, out: O) -> Answered {
    let mut script = [0; 65536];
    match load_script::write(load, &mut script) {
        Ok(length) => read_script(script.get(..length).unwrap_or(&script), kept, out),
        Err(error) => end_with(error, out),
    }
}

// ---- Entries

// The page of the entries that a text is, into a page of 1,000 lines.
fn print_entries<O: Out>(entries: &[u8], out: O) -> Answered {
    let mut page = [BEFORE; 53000];
    let written = directory_text::write(entries, &mut page);
    pages::show(written, &page, out)
}

// ---- Calls

// Answers a call with a text in quotes, which reaches to the line's last quote.
fn answered<D: Destination>(line: &[u8], kept: &mut Kept, to: D) -> Answered {
    if let Some(script) = quoted(line, b"script read") {
        read_script(&unquoted(script)?, kept, to.behind(line))
    } else if let Some(load) = quoted(line, b"load text") {
        show_script(&unquoted(load)?, to.behind(line))
    } else if let Some(load) = quoted(line, b"load script") {
        read_load(&unquoted(load)?, kept, to.behind(line))
    } else if let Some(entries) = quoted(line, b"page text") {
        print_entries(&unquoted(entries)?, to.behind(line))
    } else {
        Err(Unanswered::Unread)
    }
}

// The same, into a writer that is lent.
pub fn call<W: fmt::Write>(line: &[u8], kept: &mut Kept, out: &mut W) -> Answered {
    answered(line, kept, Lent(out))
}

// The same, on standard output, behind the line.
pub fn call_on_output(line: &[u8], kept: &mut Kept) -> Answered {
    answered(line, kept, OnOutput)
}
