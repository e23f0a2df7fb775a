// The library's values as an answer shows them (docs/REPLAY.md).
#![tactic(auto)]

ghost use Rattle.std.specs.Prelude.{◌≡◌, IfErr, OnOk, MatchResult};
ghost use Rattle.words.specs.declared.Unanswered.TheVariants.{Unwritten};

pub mod answers; // what the library's functions answer
pub mod elements; // elements, times, entries, widths and headers
pub mod frames; // the frames
pub mod numbers; // numbers and octets
pub mod records; // stations, the records of both sides and of a transfer

use asdu::FtError;
use std::fmt;
use std::fmt::Write;
use words::destination::{Lent, Out};
use words::{Answered, Unanswered};

// A value as an answer shows it.
pub trait Show {
    fn show<W: fmt::Write>(&self, out: &mut W) -> fmt::Result;
}

impl<T: Show> Show for Option<T> {
    fn show<W: fmt::Write>(&self, out: &mut W) -> fmt::Result {
        match self {
            Some(value) => value.show(out),
            None => out.write_str("none"),
        }
    }
}

impl<A: Show, B: Show> Show for (A, B) {
    fn show<W: fmt::Write>(&self, out: &mut W) -> fmt::Result {
        self.0.show(out)?;
        out.write_str(" ")?;
        self.1.show(out)
    }
}

// A value for `write!`.
#[derive(Drop)]
pub struct Shown<'a, T: Show>(pub &'a T);

impl<'a, T: Show> fmt::Display for Shown<'a, T> {
    fn fmt<W: fmt::Write>(&self, f: &mut fmt::Formatter<W>) -> fmt::Result {
        self.0.show(f)
    }
}

// Shows a value as the answer of a call, and ends the answer.
pub fn end_with<T: Show + Drop, O: Out>(value: T, mut out: O) -> Answered
    ensures { IfErr result (λ why. why ≡ Unwritten) }
{
    value.show(&mut out)?;
    out.finish()
}

// Shows a value as the answer of a call, in a lent writer.
pub fn answer<T: Show + Drop, W: fmt::Write>(value: T, out: &mut W) -> Answered
    ensures { IfErr result (λ why. why ≡ Unwritten) }
{
    end_with(value, Lent(out))
}

// Shows a word as the answer of a call, and ends the answer.
pub fn end_with_word<O: Out>(word: &str, mut out: O) -> Answered
    ensures { IfErr result (λ why. why ≡ Unwritten) }
{
    out.write_str(word)?;
    out.finish()
}

// Shows a word as the answer of a call, in a lent writer.
pub fn answer_word<W: fmt::Write>(word: &str, out: &mut W) -> Answered
    ensures written { OnOk result (W.write_str_gives out.old word.now out.new) }
    ensures unwritten { IfErr result (λ why. why ≡ Unwritten) }
{
    Ok(out.write_str(word)?)
}

// Octets of the library that are a text: all that it writes is ASCII.
pub fn text(octets: &[u8]) -> Result<&str, Unanswered> {
    str::from_utf8(octets).map_err(|_| Unanswered::Unwritten)
}

// Keeps what was made, and ends the answer with this word; or with the refusal, which keeps what was before.
pub fn keep_and_end<T: Drop, O: Out>(
    res: Result<T, FtError>,
    kept: &mut T,
    word: &str,
    out: O,
) -> Answered
    ensures kept { MatchResult res (λ made. kept.new ≡ made) (λ _. kept.new ≡ kept.old) }
    ensures unwritten { IfErr result (λ why. why ≡ Unwritten) }
{
    match res {
        Ok(made) => {
            *kept = made;
            end_with_word(word, out)
        }
        Err(error) => end_with(error, out),
    }
}

// The same, with the answer in a lent writer.
pub fn keep<T: Drop, W: fmt::Write>(
    res: Result<T, FtError>,
    kept: &mut T,
    word: &str,
    out: &mut W,
) -> Answered
    ensures kept { MatchResult res (λ made. kept.new ≡ made) (λ _. kept.new ≡ kept.old) }
    ensures unwritten { IfErr result (λ why. why ≡ Unwritten) }
{
    keep_and_end(res, kept, word, Lent(out))
}
