// Calls of the Receiver that is kept, over the store.
use asdu::Nof;
use ft::Incoming;
use kept::Kept;
use receive::{Receiver, ReceiverStep};
use shown::{Shown, end_with, end_with_word, keep_and_end};
use std::fmt;
use std::fmt::Write;
use words::destination::{Destination, Lent, OnOutput, Out};
use words::numbers::Beside;
use words::records::Length;
use words::{Answered, Unanswered, Words};

// Sets a field, or takes the station or the transfer's Receiver.
fn set<D: Destination>(words: &mut Words<'_>, kept: &mut Kept, to: D) -> Answered {
    match words.word()? {
        "ioa" => kept.receiver.ioa = words.value()?,
        "nof" => kept.receiver.nof = words.value()?,
        "kept" => kept.receiver.kept = words.value()?,
        "staged" => kept.receiver.staged = words.value()?,
        "done" => kept.receiver.done = words.value()?,
        "sent" => kept.receiver.sent = words.value()?,
        "length" => kept.receiver.length = words.value::<Length>()?.0,
        "station" => kept.receiver.procedure = kept.station,
        "party" => kept.receiver = kept.party.receiver,
        _ => return Err(Unanswered::Unread),
    }
    end_with_word("set", to.end(words)?)
}

fn new<D: Destination>(words: &mut Words<'_>, kept: &mut Kept, to: D) -> Answered {
    let ioa: u32 = words.value()?;
    let nof: Nof = words.value()?;
    let out = to.end(words)?;
    let made = Receiver::new(kept.station, ioa, nof);
    keep_and_end(made, &mut kept.receiver, "made", out)
}

// Keeps the record after a step, and shows what it answered and what is then to be sent.
fn stepped<O: Out>(kept: &mut Kept, step: ReceiverStep, mut out: O) -> Answered {
    kept.receiver = step.receiver;
    write!(out, "{}", Shown(&step.answer))?;
    if let Some(frame) = step.to_send() {
        write!(out, ": {}", Shown(&frame))?;
    }
    out.finish()
}

fn on_asdu<D: Destination>(words: &mut Words<'_>, kept: &mut Kept, to: D) -> Answered {
    let incoming: Incoming = words.value()?;
    let Beside(beside) = words.value()?;
    let out = to.end(words)?;
    let step = kept.receiver.on_asdu(&mut kept.store, incoming, &beside);
    stepped(kept, step, out)
}

// The same by the entry that changes the caller's record itself.
fn on_asdu_mut<D: Destination>(words: &mut Words<'_>, kept: &mut Kept, to: D) -> Answered {
    let incoming: Incoming = words.value()?;
    let Beside(beside) = words.value()?;
    let out = to.end(words)?;
    let step = mut_calls::on_asdu(kept.receiver, &mut kept.store, incoming, &beside);
    stepped(kept, step, out)
}

// Answers a call of the Receiver that is kept.
fn answered<D: Destination>(words: &mut Words<'_>, kept: &mut Kept, to: D) -> Answered {
    match words.word()? {
        "new" => new(words, kept, to),
        "set" => set(words, kept, to),
        "show" => end_with(kept.receiver, to.end(words)?),
        "length" => end_with(Length(kept.receiver.length()), to.end(words)?),
        "received" => end_with(kept.receiver.received(), to.end(words)?),
        "agrees" => end_with(kept.receiver.agrees(&kept.store), to.end(words)?),
        "awaited" => end_with(kept.receiver.awaited(), to.end(words)?),
        "start" => {
            let step = kept.receiver.start(&kept.store);
            stepped(kept, step, to.end(words)?)
        }
        "on_asdu" => on_asdu(words, kept, to),
        "on_asdu_mut" => on_asdu_mut(words, kept, to),
        _ => Err(Unanswered::Unread),
    }
}

// The same, into a writer that is lent. What stands behind the call is left to read.
pub fn call<W: fmt::Write>(words: &mut Words<'_>, kept: &mut Kept, out: &mut W) -> Answered {
    answered(words, kept, Lent(out))
}

// The same, on standard output. Nothing may stand behind the call.
pub fn call_on_output(words: &mut Words<'_>, kept: &mut Kept) -> Answered {
    answered(words, kept, OnOutput)
}
