// Calls of the Provider that is kept, over the file.
use asdu::{Afq, Nof, Nos, Scq};
use ft::Incoming;
use kept::Kept;
use provide::Provider;
use requests::Reply;
use sections::Part;
use shown::numbers::Spaced;
use shown::{end_with, end_with_word, keep_and_end};
use std::fmt;
use words::destination::{Destination, Lent, OnOutput};
use words::numbers::Beside;
use words::{Answered, Unanswered, Words};

// Sets a field, or takes the station or the transfer's Provider.
fn set<D: Destination>(words: &mut Words<'_>, kept: &mut Kept, to: D) -> Answered {
    match words.word()? {
        "ioa" => kept.provider.ioa = words.value()?,
        "nof" => kept.provider.nof = words.value()?,
        "length" => kept.provider.length = words.value()?,
        "section_len" => kept.provider.section_len = words.value()?,
        "unmatched" => kept.provider.unmatched = words.value()?,
        "done" => kept.provider.done = words.value()?,
        "station" => kept.provider.procedure = kept.station,
        "party" => kept.provider = kept.party.provider,
        _ => return Err(Unanswered::Unread),
    }
    end_with_word("set", to.end(words)?)
}

fn new<D: Destination>(words: &mut Words<'_>, kept: &mut Kept, to: D) -> Answered {
    let ioa: u32 = words.value()?;
    let nof: Nof = words.value()?;
    let out = to.end(words)?;
    let made = Provider::new(kept.station, ioa, nof, &kept.file);
    keep_and_end(made, &mut kept.provider, "made", out)
}

fn on_asdu<D: Destination>(words: &mut Words<'_>, kept: &mut Kept, to: D) -> Answered {
    let incoming: Incoming = words.value()?;
    let Beside(beside) = words.value()?;
    let out = to.end(words)?;
    let step = kept.provider.on_asdu(&kept.file, incoming, &beside);
    kept.provider = step.provider;
    end_with(step.answer, out)
}

// ---- Replies

fn reply_count<D: Destination>(words: &mut Words<'_>, kept: &Kept, to: D) -> Answered {
    let reply: Reply = words.value()?;
    let out = to.end(words)?;
    end_with(kept.provider.reply_count(&kept.file, reply), out)
}

fn reply_frame<D: Destination>(words: &mut Words<'_>, kept: &Kept, to: D) -> Answered {
    let reply: Reply = words.value()?;
    let index: usize = words.value()?;
    let out = to.end(words)?;
    end_with(kept.provider.reply_frame(&kept.file, reply, index), out)
}

fn reply_payload<D: Destination>(words: &mut Words<'_>, kept: &Kept, to: D) -> Answered {
    let reply: Reply = words.value()?;
    let index: usize = words.value()?;
    let out = to.end(words)?;
    end_with(kept.provider.reply_payload(&kept.file, reply, index), out)
}

// Shows a part of the file.
fn part<D: Destination>(words: &mut Words<'_>, kept: &Kept, to: D) -> Answered {
    let part: Part = words.value()?;
    let out = to.end(words)?;
    end_with(Spaced(part.octets(&kept.file)), out)
}

// ---- Calls

// Answers a call of the Provider that is kept.
fn answered<D: Destination>(words: &mut Words<'_>, kept: &mut Kept, to: D) -> Answered {
    match words.word()? {
        "new" => new(words, kept, to),
        "set" => set(words, kept, to),
        "show" => end_with(kept.provider, to.end(words)?),
        "file" => end_with(kept.provider.file(), to.end(words)?),
        "agrees" => end_with(kept.provider.agrees(&kept.file), to.end(words)?),
        "announce" => end_with(kept.provider.announce(&kept.file), to.end(words)?),
        "on_asdu" => on_asdu(words, kept, to),
        "reply_count" => reply_count(words, kept, to),
        "reply_frame" => reply_frame(words, kept, to),
        "reply_payload" => reply_payload(words, kept, to),
        "part" => part(words, kept, to),
        _ => Err(Unanswered::Unread),
    }
}

// The same, into a writer that is lent. What stands behind the call is left to read.
pub fn call<W: fmt::Write>(words: &mut Words<'_>, kept: &mut Kept, out: &mut W) -> Answered {
    answered(words, kept, Lent(out))
}

// The same, on standard output. Nothing may stand behind the call.
pub fn call_on_output(words: &mut Words<'_>, kept: &mut Kept) -> Answered {
    answered(words, kept, OnOutput)
}

// Answers a call of a Provider's decision alone, on a request or an acknowledgement.
fn decide_to<D: Destination>(words: &mut Words<'_>, to: D) -> Answered {
    match words.word()? {
        "on_sc" => {
            let nos: Nos = words.value()?;
            let scq: Scq = words.value()?;
            end_with(requests::on_sc(nos, scq), to.end(words)?)
        }
        "on_ack" => {
            let sections: u8 = words.value()?;
            let nos: Nos = words.value()?;
            let afq: Afq = words.value()?;
            end_with(requests::on_ack(sections, nos, afq), to.end(words)?)
        }
        _ => Err(Unanswered::Unread),
    }
}

// The same, into a writer that is lent. What stands behind the call is left to read.
pub fn decide<W: fmt::Write>(words: &mut Words<'_>, out: &mut W) -> Answered {
    decide_to(words, Lent(out))
}

// The same, on standard output. Nothing may stand behind the call.
pub fn decide_on_output(words: &mut Words<'_>) -> Answered {
    decide_to(words, OnOutput)
}
