// Calls of `replay` (docs/REPLAY.md) on the run of two parties and on the transfer that a list keeps, over
// file, damage and store.
#![tactic(auto)]

use exchange::Sender;
use frame::Frame;
use kept::Kept;
use shown::{Shown, end_with, end_with_word, keep_and_end, text};
use std::fmt;
use std::fmt::Write;
use twoparty::{NextFrame, Settings, TwoParty};
use words::destination::{Destination, Lent, OnOutput, Out};
use words::{Answered, Unanswered, Words};

// Answers `run`.
fn run_to<D: Destination>(words: &mut Words<'_>, kept: &mut Kept, to: D) -> Answered {
    let budget: usize = words.value()?;
    let settings: Settings = words.value()?;
    let out = to.end(words)?;
    let ending = run::run(settings, &kept.file, &kept.damage, &mut kept.store, budget);
    end_with(ending, out)
}

// The same, into a writer that is lent. What stands behind the call is left to read.
pub fn run<W: fmt::Write>(words: &mut Words<'_>, kept: &mut Kept, out: &mut W) -> Answered {
    run_to(words, kept, Lent(out))
}

// The same, on standard output. Nothing may stand behind the call.
pub fn run_on_output(words: &mut Words<'_>, kept: &mut Kept) -> Answered {
    run_to(words, kept, OnOutput)
}

// ---- A frame as a line

// Shows the line of a frame as the transfer program prints it, without its end.
fn show_line<W: fmt::Write>(sender: Sender, frame: Frame, out: &mut W) -> Answered {
    // An array, as `lines::line` asks for.
    let mut line = [0; 32];
    let count = lines::line(sender, frame, &mut line);
    let words = text(line.get(..count).unwrap_or(&line))?;
    out.write_str(words.strip_suffix('\n').unwrap_or(words))?;
    Ok(())
}

// Answers `script line`.
fn script_line_to<D: Destination>(words: &mut Words<'_>, to: D) -> Answered {
    words.expect_word("line")?;
    let sender: Sender = words.value()?;
    let frame: Frame = words.value()?;
    let mut out = to.end(words)?;
    show_line(sender, frame, &mut out)?;
    out.finish()
}

// The same, into a writer that is lent. What stands behind the call is left to read.
pub fn script_line<W: fmt::Write>(words: &mut Words<'_>, out: &mut W) -> Answered {
    script_line_to(words, Lent(out))
}

// The same, on standard output. Nothing may stand behind the call.
pub fn script_line_on_output(words: &mut Words<'_>) -> Answered {
    script_line_to(words, OnOutput)
}

// ---- Frames that pass

fn show_next<D: Destination>(words: &mut Words<'_>, kept: &Kept, to: D) -> Answered {
    let mut out = to.end(words)?;
    match kept.party.next_frame(&kept.file) {
        Ok(None) => end_with_word("nothing", out),
        Ok(Some(NextFrame { sender, frame })) => {
            let by = Shown(&sender);
            let shown = Shown(&frame);
            write!(out, "{by} {shown}")?;
            out.finish()
        }
        Err(error) => end_with(error, out),
    }
}

fn new<D: Destination>(words: &mut Words<'_>, kept: &mut Kept, to: D) -> Answered {
    let settings: Settings = words.value()?;
    let out = to.end(words)?;
    let made = TwoParty::new(settings, &kept.file, &kept.damage, &kept.store);
    keep_and_end(made, &mut kept.party, "made", out)
}

fn step<D: Destination>(words: &mut Words<'_>, kept: &mut Kept, to: D) -> Answered {
    let out = to.end(words)?;
    let stepped = kept.party.step(&kept.file, &kept.damage, &mut kept.store);
    keep_and_end(stepped, &mut kept.party, "stepped", out)
}

// Lets the next frame pass, if there is one and it is not refused.
fn next_passed(kept: &mut Kept) -> Option<NextFrame> {
    let next = kept.party.next_frame(&kept.file).ok()??;
    kept.party = kept
        .party
        .step(&kept.file, &kept.damage, &mut kept.store)
        .ok()?;
    Some(next)
}

// Lets so many frames pass, or those that there are, and shows how many of each side did.
fn pass<D: Destination>(words: &mut Words<'_>, kept: &mut Kept, to: D) -> Answered {
    let count: usize = words.value()?;
    let mut out = to.end(words)?;
    let mut provider: usize = 0;
    let mut receiver: usize = 0;
    for _ in 0..count {
        match next_passed(kept) {
            Some(
                NextFrame {
                    sender: Sender::Provider,
                    ..
                },
            ) => provider = provider.saturating_add(1),
            Some(
                NextFrame {
                    sender: Sender::Receiver,
                    ..
                },
            ) => receiver = receiver.saturating_add(1),
            None => break,
        }
    }
    write!(out, "provider {provider} receiver {receiver}")?;
    out.finish()
}

// The same, and shows the line of each and how many they are.
fn pass_shown<D: Destination>(words: &mut Words<'_>, kept: &mut Kept, to: D) -> Answered {
    let count: usize = words.value()?;
    let mut out = to.end(words)?;
    let mut passed: usize = 0;
    for _ in 0..count {
        let Some(NextFrame { sender, frame }) = next_passed(kept) else {
            break;
        };
        show_line(sender, frame, &mut out)?;
        out.write_str("\n")?;
        passed = passed.saturating_add(1);
    }
    write!(out, "{passed} frames")?;
    out.finish()
}

// ---- Calls

// Sets a part of the transfer, or takes the Provider or the Receiver kept.
fn set<D: Destination>(words: &mut Words<'_>, kept: &mut Kept, to: D) -> Answered {
    match words.word()? {
        "provider" => kept.party.provider = kept.provider,
        "receiver" => kept.party.receiver = kept.receiver,
        "queue" => kept.party.queue = words.value()?,
        "radio" => kept.party.radio = words.value()?,
        _ => return Err(Unanswered::Unread),
    }
    end_with_word("set", to.end(words)?)
}

// Answers a call of the transfer that is kept.
fn answered<D: Destination>(words: &mut Words<'_>, kept: &mut Kept, to: D) -> Answered {
    match words.word()? {
        "new" => new(words, kept, to),
        "set" => set(words, kept, to),
        "show" => end_with(kept.party, to.end(words)?),
        "next_frame" => show_next(words, kept, to),
        "step" => step(words, kept, to),
        "pass" => pass(words, kept, to),
        "lines" => pass_shown(words, kept, to),
        _ => Err(Unanswered::Unread),
    }
}

// The same, into a writer that is lent. What stands behind the call is left to read.
pub fn call<W: fmt::Write>(words: &mut Words<'_>, kept: &mut Kept, out: &mut W) -> Answered {
    answered(words, kept, Lent(out))
}

// The same, on standard output. Nothing may stand behind the call.
pub fn call_on_output(words: &mut Words<'_>, kept: &mut Kept) -> Answered {
    answered(words, kept, OnOutput)
}
