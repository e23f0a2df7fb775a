// The directory program (document 02, A3): a directory's entries on standard input, one to a line as its 17 octets
// in decimal, as the directory call's store has them; their page on standard output, for the cabinet door.
#![tactic(auto)]

use asdu::FtError;
use output::Output;
use std::fmt;
use std::fmt::Write;

// Standard input.
const STDIN: i32 = 0;

// One octet more than the text of 1,000 entries has at most: an input that is longer is no entries, and nor is
// what is read of it.
const LONGEST: usize = 68001;

// Room for a page of 1,000 lines, so that no page is refused as too short.
const PAGE: usize = 65536;

// What a refusal says of the input.
fn reason(error: FtError) -> &'static str {
    match error {
        FtError::ValueOutOfRange => "a reserved bit of an entry is set",
        FtError::NotPrintable => {
            "an entry has milliseconds over 59999, minutes over 59, hours over 23, a month over 12, a year over 99 or an address over 99999999"
        }
        _ => {
            "an entry is a line of 17 numbers from 0 to 255 without leading zeros, with one space between; at most 1000 lines"
        }
    }
}

// `refused`, its number, and why, in one line.
fn refused(error: FtError) -> fmt::Result {
    let number = error.number();
    let reason = reason(error);
    writeln!(Output, "refused {number}: {reason}")
}

// Its buffers are arrays: no heap, fixed memory. Nobody is left to tell where the output cannot be written.
fn main() {
    let mut input = [0; LONGEST];
    let length = io::read_full(STDIN, &mut input);
    let mut page = [0; PAGE];
    match directory_text::write(&input[..length], &mut page) {
        Ok(count) => output::octets(&page[..count]),
        Err(error) => {
            let _ = refused(error);
        }
    }
}
