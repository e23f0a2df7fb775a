// Calls of one buffer: the file, the store or the damage list.
use shown::end_with;
use shown::numbers::Spaced;
use std::fmt;
use words::destination::{Destination, Lent, OnOutput};
use words::numbers::Octets;
use words::{Answered, Unanswered, Words};

// So many octets from a place on, or those that there are.
fn part(octets: &[u8], from: usize, count: usize) -> &[u8] {
    let rest = octets.get(from..).unwrap_or(&[]);
    rest.get(..count).unwrap_or(rest)
}

fn show_part<D: Destination>(words: &mut Words<'_>, buffer: &Octets, to: D) -> Answered {
    let from: usize = words.value()?;
    let count: usize = words.value()?;
    let out = to.end(words)?;
    end_with(Spaced(part(buffer, from, count)), out)
}

fn sum_after<D: Destination>(words: &mut Words<'_>, buffer: &Octets, to: D) -> Answered {
    let so_far: u8 = words.value()?;
    let from: usize = words.value()?;
    let count: usize = words.value()?;
    let out = to.end(words)?;
    end_with(checksum::checksum(part(buffer, from, count), so_far), out)
}

// Answers a call of a buffer.
fn answered<D: Destination>(words: &mut Words<'_>, buffer: &mut Octets, to: D) -> Answered {
    match words.word()? {
        "is" => {
            *buffer = words.value()?;
            end_with(buffer.len(), to.end(words)?)
        }
        "octets" => show_part(words, buffer, to),
        "sum" => end_with(checksum::checksum(buffer, 0), to.end(words)?),
        "sum_after" => sum_after(words, buffer, to),
        _ => Err(Unanswered::Unread),
    }
}

// The same, into a writer that is lent. What stands behind the call is left to read.
pub fn call<W: fmt::Write>(words: &mut Words<'_>, buffer: &mut Octets, out: &mut W) -> Answered {
    answered(words, buffer, Lent(out))
}

// The same, on standard output. Nothing may stand behind the call.
pub fn call_on_output(words: &mut Words<'_>, buffer: &mut Octets) -> Answered {
    answered(words, buffer, OnOutput)
}
