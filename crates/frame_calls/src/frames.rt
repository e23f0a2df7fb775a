// Calls of the frames: what each says of itself, its ranges, which answers which, and its header.
use asdu::AddressSizes;
use frame::{Frame, range};
use ft::{Addressing, build};
use shown::end_with;
use std::fmt;
use words::destination::{Destination, Lent, OnOutput};
use words::numbers::Beside;
use words::{Answered, Unanswered, Words};

// ---- One frame

fn last_ioa<D: Destination>(words: &mut Words<'_>, frame: Frame, to: D) -> Answered {
    let Beside(beside) = words.value()?;
    let out = to.end(words)?;
    end_with(range::last_ioa(frame, &beside), out)
}

// What a frame says of itself.
fn of_frame<D: Destination>(words: &mut Words<'_>, to: D) -> Answered {
    let what = words.word()?;
    let frame: Frame = words.value()?;
    match what {
        "type_id" => end_with(frame.type_id(), to.end(words)?),
        "cause" => end_with(frame.cause(), to.end(words)?),
        "is_receiver_side" => end_with(frame.is_receiver_side(), to.end(words)?),
        "ioa" => end_with(frame.ioa(), to.end(words)?),
        "nof" => end_with(frame::answer::nof_of(frame), to.end(words)?),
        "nos" => end_with(frame::answer::nos_of(frame), to.end(words)?),
        "requested_section" => end_with(frame::answer::requested_section(frame), to.end(words)?),
        "last_ioa" => last_ioa(words, frame, to),
        _ => Err(Unanswered::Unread),
    }
}

fn is_in_range<D: Destination>(words: &mut Words<'_>, to: D) -> Answered {
    let sizes: AddressSizes = words.value()?;
    let frame: Frame = words.value()?;
    let Beside(beside) = words.value()?;
    let out = to.end(words)?;
    end_with(range::is_in_range(sizes, frame, &beside), out)
}

// ---- Two frames

// FRAME by FRAME: whether the second answers the first, by this function of the library.
fn answers<D: Destination, F: Fn(Frame, Frame) -> bool>(
    words: &mut Words<'_>,
    is_answer: F,
    to: D,
) -> Answered
    requires { F.IsAlwaysCallable is_answer }
{
    let sent: Frame = words.value()?;
    words.expect_word("by")?;
    let answered: Frame = words.value()?;
    let out = to.end(words)?;
    end_with(is_answer(sent, answered), out)
}

// ---- Headers

fn header_of<D: Destination>(words: &mut Words<'_>, to: D) -> Answered {
    let own: Addressing = words.value()?;
    let header = build::header_of(own.common_address, own.originator, words.value()?);
    end_with(header, to.end(words)?)
}

fn frame_with<D: Destination>(words: &mut Words<'_>, to: D) -> Answered {
    let sizes: AddressSizes = words.value()?;
    let own: Addressing = words.value()?;
    let frame: Frame = words.value()?;
    let Beside(beside) = words.value()?;
    let out = to.end(words)?;
    let made = build::frame_with(sizes, own.common_address, own.originator, frame, &beside);
    end_with(made, out)
}

// ---- Calls

// Answers a call of this name.
fn answered<D: Destination>(name: &str, words: &mut Words<'_>, to: D) -> Answered {
    match name {
        "frame" => of_frame(words, to),
        "frame_in_range" => is_in_range(words, to),
        "is_file_type" => end_with(frame::is_file_type(words.value()?), to.end(words)?),
        "is_receiver_side_type" => end_with(
            frame::is_receiver_side_type(words.value()?),
            to.end(words)?,
        ),
        "answers" => answers(words, frame::answer::answers, to),
        "answers_type" => answers(words, frame::answer::answers_type, to),
        "header_of" => header_of(words, to),
        "frame_with" => frame_with(words, to),
        _ => Err(Unanswered::Unread),
    }
}

// The same, into a writer that is lent. What stands behind the call is left to read.
pub fn call<W: fmt::Write>(name: &str, words: &mut Words<'_>, out: &mut W) -> Answered {
    answered(name, words, Lent(out))
}

// The same, on standard output. Nothing may stand behind the call.
pub fn call_on_output(name: &str, words: &mut Words<'_>) -> Answered {
    answered(name, words, OnOutput)
}
