// Calls of the pager, over the file as packed entries and over the same entries as a lent list.
use shown::{end_with, end_with_word};
use std::fmt;
use words::destination::{Destination, Lent, OnOutput};
use words::{Answered, Unanswered, Words};

// Answers a call of the pager over the file's octets.
fn packed_to<D: Destination>(words: &mut Words<'_>, file: &[u8], to: D) -> Answered {
    match words.word()? {
        "pages" => end_with(pager::pages(file), to.end(words)?),
        "page" => {
            let page = pager::page_at(words.value()?, file, words.value()?);
            end_with(page, to.end(words)?)
        }
        "entry" => {
            let entry = pager::entry_at(file, words.value()?, words.value()?);
            end_with(entry, to.end(words)?)
        }
        _ => Err(Unanswered::Unread),
    }
}

// The same, into a writer that is lent. What stands behind the call is left to read.
pub fn packed<W: fmt::Write>(words: &mut Words<'_>, file: &[u8], out: &mut W) -> Answered {
    packed_to(words, file, Lent(out))
}

// The same, on standard output. Nothing may stand behind the call.
pub fn packed_on_output(words: &mut Words<'_>, file: &[u8]) -> Answered {
    packed_to(words, file, OnOutput)
}

// Answers the same call over the file's entries as a lent list, if the file is one.
fn listed_to<D: Destination>(words: &mut Words<'_>, file: &[u8], to: D) -> Answered {
    let what = words.word()?;
    let (ioa, page, index) = match what {
        "pages" => (0, 0, 0),
        "page" => (words.value()?, words.value()?, 0),
        "entry" => (0, words.value()?, words.value()?),
        _ => return Err(Unanswered::Unread),
    };
    let out = to.end(words)?;
    if !list_calls::is_list(file) {
        return end_with_word("no list", out);
    }
    let answers = list_calls::over_file(file, ioa, page, index);
    match what {
        "pages" => end_with(answers.pages, out),
        "page" => end_with(answers.page, out),
        _ => end_with(answers.entry, out),
    }
}

// The same, into a writer that is lent. What stands behind the call is left to read.
pub fn listed<W: fmt::Write>(words: &mut Words<'_>, file: &[u8], out: &mut W) -> Answered {
    listed_to(words, file, Lent(out))
}

// The same, on standard output. Nothing may stand behind the call.
pub fn listed_on_output(words: &mut Words<'_>, file: &[u8]) -> Answered {
    listed_to(words, file, OnOutput)
}
