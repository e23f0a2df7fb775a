// Where the answer of a call goes: on standard output, or into a writer that is lent.
ghost use Rattle.std.specs.Prelude.{◌≡◌, Ok, Err, IsOk, MatchOption};
ghost use Rattle.words.specs.declared.Unanswered.TheVariants.{Unread};

use crate::writer::Writer;
use crate::{Answered, Unanswered, Words};
use std::fmt;
use std::fmt::Write;

// What an answer is written to.
pub trait Out: fmt::Write + Drop + Sized {
    // Ends the answer, which cannot be refused any more.
    fn finish(self) -> Answered
        ensures { result ≡ Ok tt };
}

// Where the answer of a call goes. The call asks for its `Out` when it has read its words.
pub trait Destination: Drop + Sized {
    type Out: Out;

    // The answer of these words, which the call has read.
    fn end(self, words: &Words<'_>) -> Result<Self::Out, Unanswered>;

    // The answer of this line, which the call has read.
    fn behind(self, line: &[u8]) -> Self::Out;
}

// On standard output, behind the line. Nothing may be left of its words.
#[derive(Drop)]
pub struct OnOutput;

impl Destination for OnOutput {
    type Out = Writer;

    fn end(self, words: &Words<'_>) -> Result<Writer, Unanswered>
        ensures { MatchOption words.now.rest (IsOk result) (λ _. result ≡ Err Unread) }
    {
        if !words.is_at_end() {
            return Err(Unanswered::Unread);
        }
        Ok(Writer::behind(words.line.as_bytes()))
    }

    fn behind(self, line: &[u8]) -> Writer {
        Writer::behind(line)
    }
}

// Into a writer that is lent, the answer alone. What is left of the words is left to the caller.
#[derive(Drop)]
pub struct Lent<'a, W: fmt::Write>(pub &'a mut W);

impl<'a, W: fmt::Write> fmt::Write for Lent<'a, W> {
    ghost write_str_gives = { λ before text after. W.write_str_gives before.0.now text after.0.now };

    fn write_str(&mut self, text: &str) -> fmt::Result {
        self.0.write_str(text)
    }
}

impl<'a, W: fmt::Write> Out for Lent<'a, W> {
    fn finish(self) -> Answered {
        Ok(())
    }
}

impl<'a, W: fmt::Write> Destination for Lent<'a, W> {
    type Out = Lent<'a, W>;

    fn end(self, _words: &Words<'_>) -> Result<Lent<'a, W>, Unanswered>
        ensures { result ≡ Ok self.entry }
    {
        Ok(self)
    }

    fn behind(self, _line: &[u8]) -> Lent<'a, W>
        ensures { result ≡ self.entry }
    {
        self
    }
}
