// The words of a call (docs/REPLAY.md), and the library's values as they are read from them.
#![tactic(auto)]

ghost use Rattle.std.specs.Prelude.{◌≡◌, true, false, Ok, Err, IsOk, MatchOption};
ghost use Rattle.words.specs.declared.Unanswered.TheVariants.{Unread, Unwritten};

pub mod destination; // where an answer goes
pub mod elements; // elements, times, entries, widths and headers
pub mod frames; // the frames, and what comes in
pub mod numbers; // numbers, flags and octets
pub mod records; // stations, replies, and the parts of records
pub mod writer; // standard output

use destination::{Destination, OnOutput};
use std::fmt;
use writer::Writer;

// Why a line has no answer.
#[derive(Clone, Copy, PartialEq, Eq)]
pub enum Unanswered {
    // It is no call, or some of it cannot be read.
    Unread,
    // Its answer cannot be written.
    Unwritten,
}

impl From<fmt::Error> for Unanswered {
    ghost from_gives = { λ _ why. why ≡ Unwritten };

    fn from(_error: fmt::Error) -> Unanswered {
        Unanswered::Unwritten
    }
}

// What the function of a call gives back. It reads its words, and only then answers: what it writes to comes from a
// `Destination`, and the answer ends by `Out::finish`. It takes its words, what is kept and where the answer goes one
// by one: a struct of three borrows would have to be taken apart at every use.
pub type Answered = Result<(), Unanswered>;

// The words of a line that are not read yet, parted by single spaces; none where all are read.
#[derive(Clone, Copy)]
pub struct Words<'a> {
    line: &'a str,
    rest: Option<&'a str>,
}

impl<'a> Words<'a> {
    pub fn of(line: &'a str) -> Words<'a> {
        Words {
            line,
            rest: Some(line),
        }
    }

    // The next word. Where two spaces meet it is empty, and means nothing.
    pub fn word(&mut self) -> Result<&'a str, Unanswered> {
        let rest = self.rest.ok_or(Unanswered::Unread)?;
        let (word, behind) = match rest.split_once(' ') {
            Some((word, behind)) => (word, Some(behind)),
            None => (rest, None),
        };
        self.rest = behind;
        Ok(word)
    }

    // The value that the next words mean.
    pub fn value<T: FromWords>(&mut self) -> Result<T, Unanswered> {
        T::from_words(self)
    }

    // Reads this word, if it is the next.
    pub fn skips(&mut self, word: &str) -> bool {
        let mut ahead = *self;
        match ahead.word() {
            Ok(next) if next == word => {
                *self = ahead;
                true
            }
            _ => false,
        }
    }

    // Reads this word, which has to be the next.
    pub fn expect_word(&mut self, word: &str) -> Answered {
        if self.skips(word) {
            Ok(())
        } else {
            Err(Unanswered::Unread)
        }
    }

    // All words that are left: none, or a text of them.
    pub fn take_rest(&mut self) -> Option<&'a str> {
        self.rest.take()
    }

    // Whether all words are read.
    pub fn is_at_end(&self) -> bool
        ensures { MatchOption self.now.rest (result ≡ true) (λ _. result ≡ false) }
    {
        self.rest.is_none()
    }

    // Ends the reading, before what the call does: nothing may be left of the line. The `Writer` has the line,
    // and the answer follows it.
    pub fn end(&self) -> Result<Writer, Unanswered>
        ensures { MatchOption self.now.rest (IsOk result) (λ _. result ≡ Err Unread) }
    {
        OnOutput.end(self)
    }
}

// A value of a call.
pub trait FromWords: Sized {
    fn from_words(words: &mut Words<'_>) -> Result<Self, Unanswered>;
}

// A value, or `none`.
impl<T: FromWords> FromWords for Option<T> {
    fn from_words(words: &mut Words<'_>) -> Result<Option<T>, Unanswered> {
        if words.skips("none") {
            return Ok(None);
        }
        Ok(Some(words.value()?))
    }
}
