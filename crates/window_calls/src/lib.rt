// Calls of `replay` (docs/REPLAY.md) on the window over the last transfers that a list keeps, and on the
// record that a run gives it.
#![tactic(auto)]

use kept::{Kept, NO_RECORD};
use run::Ending;
use shown::{Shown, end_with, end_with_word};
use std::fmt;
use std::fmt::Write;
use twoparty::Settings;
use window::{Ended, Window, WindowStep};
use words::destination::{Destination, Lent, OnOutput, Out};
use words::{Answered, Unanswered, Words};

// Keeps the window that a call handed back, and shows this word where it was accepted.
fn keep_step<O: Out>(step: WindowStep, window: &mut Window, accepted: &str, out: O) -> Answered {
    *window = step.window;
    match step.answer {
        Ok(()) => end_with_word(accepted, out),
        Err(error) => end_with(error, out),
    }
}

fn show<O: Out>(window: &Window, mut out: O) -> Answered {
    write!(
        out,
        "width {} count {} place {}",
        window.width, window.count, window.place
    )?;
    out.finish()
}

// ---- Records

// The record of a place; where there is none, one of zeros.
fn record_at<D: Destination>(words: &mut Words<'_>, window: &Window, to: D) -> Answered {
    let place: u8 = words.value()?;
    let out = to.end(words)?;
    let ended = window
        .records
        .get(usize::from(place))
        .copied()
        .unwrap_or(NO_RECORD);
    end_with(ended, out)
}

// Sets the record of a place, where there is one.
fn set_record(words: &mut Words<'_>, window: &mut Window) -> Answered {
    let place: u8 = words.value()?;
    let ended: Ended = words.value()?;
    if let Some(record) = window.records.get_mut(usize::from(place)) {
        *record = ended;
    }
    Ok(())
}

fn set<D: Destination>(words: &mut Words<'_>, window: &mut Window, to: D) -> Answered {
    match words.word()? {
        "width" => window.width = words.value()?,
        "count" => window.count = words.value()?,
        "place" => window.place = words.value()?,
        "record" => set_record(words, window)?,
        _ => return Err(Unanswered::Unread),
    }
    end_with_word("set", to.end(words)?)
}

// ---- Runs

// Answers `record`: the record of a run that ended so.
fn record_to<D: Destination>(words: &mut Words<'_>, to: D) -> Answered {
    let ending = match words.word()? {
        "whole" => Ending::Whole {
            length: words.value()?,
            frames: words.value()?,
        },
        "spent" => Ending::Spent {
            frames: words.value()?,
        },
        _ => return Err(Unanswered::Unread),
    };
    let damaged: usize = words.value()?;
    let out = to.end(words)?;
    end_with(ended_run::record_of(Ok(ending), damaged), out)
}

// The same, into a writer that is lent. What stands behind the call is left to read.
pub fn record<W: fmt::Write>(words: &mut Words<'_>, out: &mut W) -> Answered {
    record_to(words, Lent(out))
}

// The same, on standard output. Nothing may stand behind the call.
pub fn record_on_output(words: &mut Words<'_>) -> Answered {
    record_to(words, OnOutput)
}

// Shows the record of a run and adds it; a refused run has none.
fn run<D: Destination>(words: &mut Words<'_>, kept: &mut Kept, to: D) -> Answered {
    let damaged: usize = words.value()?;
    let budget: usize = words.value()?;
    let settings: Settings = words.value()?;
    let mut out = to.end(words)?;
    let ending = run::run(settings, &kept.file, &kept.damage, &mut kept.store, budget);
    match ended_run::record_of(ending, damaged) {
        Ok(ended) => {
            write!(out, "{} ", Shown(&ended))?;
            keep_step(kept.window.add(ended), &mut kept.window, "added", out)
        }
        Err(error) => end_with(error, out),
    }
}

// ---- Calls

// Answers a call of the window.
fn answered<D: Destination>(words: &mut Words<'_>, kept: &mut Kept, to: D) -> Answered {
    match words.word()? {
        "new" => {
            let step = Window::new(words.value()?);
            keep_step(step, &mut kept.window, "made", to.end(words)?)
        }
        "add" => {
            let step = kept.window.add(words.value()?);
            keep_step(step, &mut kept.window, "added", to.end(words)?)
        }
        "set" => set(words, &mut kept.window, to),
        "show" => show(&kept.window, to.end(words)?),
        "record" => record_at(words, &kept.window, to),
        "totals" => end_with(kept.window.totals(), to.end(words)?),
        "is_right" => end_with(kept.window.is_right(), to.end(words)?),
        "run" => run(words, kept, to),
        _ => Err(Unanswered::Unread),
    }
}

// The same, into a writer that is lent. What stands behind the call is left to read.
pub fn call<W: fmt::Write>(words: &mut Words<'_>, kept: &mut Kept, out: &mut W) -> Answered {
    answered(words, kept, Lent(out))
}

// The same, on standard output. Nothing may stand behind the call.
pub fn call_on_output(words: &mut Words<'_>, kept: &mut Kept) -> Answered {
    answered(words, kept, OnOutput)
}
