// The lines of a list: each is played as it is read.
use crate::calls;
use crate::input::{Input, LONGEST};
use kept::Kept;
use output::Output;
use std::fmt::Write;
use std::io::Read;
use words::Unanswered;

// Whether a line is written as it is.
fn is_comment(line: &[u8]) -> bool {
    line.is_empty() || line.starts_with(b"#")
}

fn write_unread(line: &[u8], number: u32) {
    output::octets(b"line ");
    let _ = write!(Output, "{number}");
    output::octets(b" cannot be read: ");
    if line.len() <= LONGEST {
        output::octets(line);
    } else {
        output::octets(b"it is longer than 65535 octets");
    }
    output::octets(b"\n");
}

// Plays a line, and says whether it could be read.
fn is_read(line: &[u8], number: u32, kept: &mut Kept) -> bool {
    if is_comment(line) {
        output::octets(line);
        output::octets(b"\n");
        return true;
    }
    if let Err(Unanswered::Unread) = calls::answer(line, kept) {
        write_unread(line, number);
        return false;
    }
    true
}

// Plays a list, up to the first line that cannot be read, and says whether all could.
pub fn is_played<R: Read>(reader: &mut R) -> bool {
    let mut input = Input::new();
    let mut kept = Kept::new();
    for number in 1..=u32::MAX {
        let Some(line) = input.next_line(reader) else {
            break;
        };
        if !is_read(line, number, &mut kept) {
            return false;
        }
    }
    true
}
