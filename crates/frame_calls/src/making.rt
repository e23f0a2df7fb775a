// Calls of the makers of frames. Each begins with the common address, the originator and the object
// address, which go on one by one: each maker takes them so.
use asdu::{Cause, FtError, Nof, Nos};
use ft::Asdu;
use shown::end_with;
use std::fmt;
use words::destination::{Destination, Lent, OnOutput};
use words::numbers::Beside;
use words::{Answered, Unanswered, Words};

// What a maker answers.
type Made = Result<Asdu, FtError>;

fn segment(ca: u16, org: u8, ioa: u32, words: &mut Words<'_>) -> Result<Made, Unanswered> {
    let nof: Nof = words.value()?;
    let nos: Nos = words.value()?;
    let Beside(beside) = words.value()?;
    Ok(makers::segment(ca, org, ioa, nof, nos, &beside))
}

fn directory(ca: u16, org: u8, ioa: u32, words: &mut Words<'_>) -> Result<Made, Unanswered> {
    let cause: Cause = words.value()?;
    let Beside(beside) = words.value()?;
    Ok(makers::directory(ca, org, ioa, cause, &beside))
}

// Makers that name a section.
fn of_section(
    maker: &str,
    ca: u16,
    org: u8,
    ioa: u32,
    words: &mut Words<'_>,
) -> Result<Made, Unanswered> {
    let nof: Nof = words.value()?;
    let nos: Nos = words.value()?;
    match maker {
        "select_file" => Ok(makers::select_file(ca, org, ioa, nof, nos)),
        "call_file" => Ok(makers::call_file(ca, org, ioa, nof, nos)),
        "call_section" => Ok(makers::call_section(ca, org, ioa, nof, nos)),
        "sc" => Ok(makers::sc(ca, org, ioa, nof, nos, words.value()?)),
        "ack" => Ok(makers::ack(ca, org, ioa, nof, nos, words.value()?)),
        "section_ready" => {
            let lof = words.value()?;
            let srq = words.value()?;
            Ok(makers::section_ready(ca, org, ioa, nof, nos, lof, srq))
        }
        "last_segment" => {
            let lsq = words.value()?;
            let chs = words.value()?;
            Ok(makers::last_segment(ca, org, ioa, nof, nos, lsq, chs))
        }
        _ => Err(Unanswered::Unread),
    }
}

fn file_ready(ca: u16, org: u8, ioa: u32, words: &mut Words<'_>) -> Result<Made, Unanswered> {
    let nof = words.value()?;
    let lof = words.value()?;
    let frq = words.value()?;
    Ok(makers::file_ready(ca, org, ioa, nof, lof, frq))
}

fn query_log(ca: u16, org: u8, ioa: u32, words: &mut Words<'_>) -> Result<Made, Unanswered> {
    let nof = words.value()?;
    let start = words.value()?;
    let stop = words.value()?;
    Ok(makers::query_log(ca, org, ioa, nof, start, stop))
}

// Answers a call of a maker.
fn answered<D: Destination>(words: &mut Words<'_>, to: D) -> Answered {
    let maker = words.word()?;
    let ca: u16 = words.value()?;
    let org: u8 = words.value()?;
    let ioa: u32 = words.value()?;
    let made = match maker {
        "call_directory" => makers::call_directory(ca, org, ioa, words.value()?),
        "segment" => segment(ca, org, ioa, words)?,
        "directory" => directory(ca, org, ioa, words)?,
        "file_ready" => file_ready(ca, org, ioa, words)?,
        "query_log" => query_log(ca, org, ioa, words)?,
        _ => of_section(maker, ca, org, ioa, words)?,
    };
    end_with(made, to.end(words)?)
}

// The same, into a writer that is lent. What stands behind the call is left to read.
pub fn call<W: fmt::Write>(words: &mut Words<'_>, out: &mut W) -> Answered {
    answered(words, Lent(out))
}

// The same, on standard output. Nothing may stand behind the call.
pub fn call_on_output(words: &mut Words<'_>) -> Answered {
    answered(words, OnOutput)
}
