// Calls of the frames' bodies: written into octets that are all 170 before, and read.
use body_reader::Body;
use frame::Frame;
use shown::numbers::Behind;
use shown::{Shown, end_with};
use std::fmt;
use std::fmt::Write;
use words::destination::{Destination, Lent, OnOutput, Out};
use words::numbers::{Beside, Blank, Octets};
use words::{Answered, Unanswered, Words};

// Writes a body into a buffer of so many octets, and shows the whole buffer as it then is.
fn write<D: Destination>(words: &mut Words<'_>, to: D) -> Answered {
    let Blank(mut octets) = words.value()?;
    let frame: Frame = words.value()?;
    let Beside(payload) = words.value()?;
    let mut out = to.end(words)?;
    match frame_body::write(frame, &payload, &mut octets) {
        Ok(count) => write!(out, "wrote {count}:")?,
        Err(error) => write!(out, "{}:", Shown(&error))?,
    }
    write!(out, "{}", Behind(&octets))?;
    out.finish()
}

// Reads a body, and shows its frame and its payload: where it stands, and its octets.
fn read<D: Destination>(words: &mut Words<'_>, to: D) -> Answered {
    let type_id: u8 = words.value()?;
    let ioa: u32 = words.value()?;
    let octets: Octets = words.value()?;
    let mut out = to.end(words)?;
    match body_reader::read(type_id, ioa, &octets) {
        Ok(Body { frame, payload }) => {
            let shown = Shown(&frame);
            let part = Shown(&payload);
            let behind = Behind(payload.octets(&octets));
            write!(out, "read {shown} payload {part}:{behind}")?;
            out.finish()
        }
        Err(error) => end_with(error, out),
    }
}

// Answers a call of a body.
fn answered<D: Destination>(words: &mut Words<'_>, to: D) -> Answered {
    match words.word()? {
        "write" => write(words, to),
        "read" => read(words, to),
        _ => Err(Unanswered::Unread),
    }
}

// The same, into a writer that is lent. What stands behind the call is left to read.
pub fn call<W: fmt::Write>(words: &mut Words<'_>, out: &mut W) -> Answered {
    answered(words, Lent(out))
}

// The same, on standard output. Nothing may stand behind the call.
pub fn call_on_output(words: &mut Words<'_>) -> Answered {
    answered(words, OnOutput)
}
