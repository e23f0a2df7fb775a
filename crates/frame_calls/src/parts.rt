// Calls of how octets are cut, accepted and stored: a file's sections and segments, what a close makes of
// what is held, and the flag of a directory's last entry.
use acceptance::Held;
use asdu::{Chs, Nos};
use shown::end_with;
use shown::numbers::Spaced;
use std::fmt;
use words::destination::{Destination, Lent, OnOutput};
use words::numbers::Octets;
use words::{Answered, Unanswered, Words};

fn section<D: Destination>(words: &mut Words<'_>, to: D) -> Answered {
    let size: u32 = words.value()?;
    let nos: Nos = words.value()?;
    let octets: Octets = words.value()?;
    let out = to.end(words)?;
    end_with(Spaced(sections::section(&octets, size, nos)), out)
}

fn segment<D: Destination>(words: &mut Words<'_>, to: D) -> Answered {
    let limit: u8 = words.value()?;
    let index: u32 = words.value()?;
    let octets: Octets = words.value()?;
    let out = to.end(words)?;
    end_with(Spaced(sections::segment(&octets, limit, index)), out)
}

fn cut<D: Destination>(words: &mut Words<'_>, to: D) -> Answered {
    let from: usize = words.value()?;
    let count: usize = words.value()?;
    let octets: Octets = words.value()?;
    let out = to.end(words)?;
    end_with(Spaced(sections::cut(&octets, from, count)), out)
}

fn segment_start<D: Destination>(words: &mut Words<'_>, to: D) -> Answered {
    let size: u32 = words.value()?;
    let limit: u8 = words.value()?;
    let nos: Nos = words.value()?;
    let index: u32 = words.value()?;
    let out = to.end(words)?;
    end_with(sections::segment_start(size, limit, nos, index), out)
}

fn close_section<D: Destination>(words: &mut Words<'_>, to: D) -> Answered {
    let held: Held = words.value()?;
    let stated: Chs = words.value()?;
    let octets: Octets = words.value()?;
    let out = to.end(words)?;
    end_with(acceptance::close_section(held, &octets, stated), out)
}

fn close_file<D: Destination>(words: &mut Words<'_>, to: D) -> Answered {
    let held: Held = words.value()?;
    let stated: Chs = words.value()?;
    let octets: Octets = words.value()?;
    let out = to.end(words)?;
    end_with(acceptance::close_file(held, &octets, stated), out)
}

fn has_last<D: Destination>(words: &mut Words<'_>, to: D) -> Answered {
    let octets: Octets = words.value()?;
    let out = to.end(words)?;
    end_with(stored::has_last(&octets), out)
}

// Answers a call of this name.
fn answered<D: Destination>(name: &str, words: &mut Words<'_>, to: D) -> Answered {
    match name {
        "section_length" => end_with(sections::section_length(words.value()?), to.end(words)?),
        "section_count" => end_with(sections::section_count(words.value()?), to.end(words)?),
        "segment_count" => {
            let count = sections::segment_count(words.value()?, words.value()?);
            end_with(count, to.end(words)?)
        }
        "segment_start" => segment_start(words, to),
        "section" => section(words, to),
        "segment" => segment(words, to),
        "cut" => cut(words, to),
        "close_section" => close_section(words, to),
        "close_file" => close_file(words, to),
        "has_last" => has_last(words, to),
        _ => Err(Unanswered::Unread),
    }
}

// The same, into a writer that is lent. What stands behind the call is left to read.
pub fn call<W: fmt::Write>(name: &str, words: &mut Words<'_>, out: &mut W) -> Answered {
    answered(name, words, Lent(out))
}

// The same, on standard output. Nothing may stand behind the call.
pub fn call_on_output(name: &str, words: &mut Words<'_>) -> Answered {
    answered(name, words, OnOutput)
}
