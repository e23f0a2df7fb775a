// Calls of the directory's call that is kept, over the store.
use collector::DirectoryCall;
use ft::Incoming;
use kept::Kept;
use shown::{Shown, end_with, end_with_word, keep_and_end};
use std::fmt;
use std::fmt::Write;
use words::destination::{Destination, Lent, OnOutput, Out};
use words::numbers::Beside;
use words::{Answered, Unanswered, Words};

// Sets a field, or takes the station.
fn set<D: Destination>(words: &mut Words<'_>, kept: &mut Kept, to: D) -> Answered {
    match words.word()? {
        "started" => kept.directory.started = words.value()?,
        "held" => kept.directory.held = words.value()?,
        "done" => kept.directory.done = words.value()?,
        "station" => kept.directory.procedure = kept.station,
        _ => return Err(Unanswered::Unread),
    }
    end_with_word("set", to.end(words)?)
}

fn start<D: Destination>(words: &mut Words<'_>, kept: &mut Kept, to: D) -> Answered {
    let ioa: u32 = words.value()?;
    let mut out = to.end(words)?;
    let start = kept.directory.start(&kept.store, ioa);
    kept.directory = start.call;
    match start.answer {
        Ok(frame) => {
            write!(out, "send: {}", Shown(&frame))?;
            out.finish()
        }
        Err(error) => end_with(error, out),
    }
}

fn on_asdu<D: Destination>(words: &mut Words<'_>, kept: &mut Kept, to: D) -> Answered {
    let incoming: Incoming = words.value()?;
    let Beside(beside) = words.value()?;
    let out = to.end(words)?;
    let step = kept.directory.on_asdu(&mut kept.store, incoming, &beside);
    kept.directory = step.call;
    end_with(step.answer, out)
}

// Answers a call of the directory's call that is kept.
fn answered<D: Destination>(words: &mut Words<'_>, kept: &mut Kept, to: D) -> Answered {
    match words.word()? {
        "new" => keep_and_end(
            DirectoryCall::new(kept.station),
            &mut kept.directory,
            "made",
            to.end(words)?,
        ),
        "set" => set(words, kept, to),
        "show" => end_with(kept.directory, to.end(words)?),
        "agrees" => end_with(kept.directory.agrees(&kept.store), to.end(words)?),
        "start" => start(words, kept, to),
        "on_asdu" => on_asdu(words, kept, to),
        _ => Err(Unanswered::Unread),
    }
}

// The same, into a writer that is lent. What stands behind the call is left to read.
pub fn call<W: fmt::Write>(words: &mut Words<'_>, kept: &mut Kept, out: &mut W) -> Answered {
    answered(words, kept, Lent(out))
}

// The same, on standard output. Nothing may stand behind the call.
pub fn call_on_output(words: &mut Words<'_>, kept: &mut Kept) -> Answered {
    answered(words, kept, OnOutput)
}
