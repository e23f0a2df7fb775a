// Calls of `replay` (docs/REPLAY.md) on roles, directions and selections, on the station that a list keeps,
// and on what it admits.
#![tactic(auto)]

use asdu::AddressSizes;
use frame::Frame;
use ft::{Addressing, FileTransferProcedure, Incoming, Role, Selection, direction, procedure};
use shown::{end_with, end_with_word, keep_and_end};
use std::fmt;
use words::destination::{Destination, Lent, OnOutput};
use words::numbers::Beside;
use words::{Answered, Unanswered, Words};

// ---- Roles, directions, selections and addresses

fn of_selection<D: Destination>(words: &mut Words<'_>, to: D) -> Answered {
    let what = words.word()?;
    let selection: Selection = words.value()?;
    match what {
        "count" => end_with(selection.count(), to.end(words)?),
        "uses_function" => end_with(selection.uses_function(), to.end(words)?),
        "uses" => end_with(selection.uses(words.value()?), to.end(words)?),
        "with" => {
            let with = selection.with(words.value()?, words.value()?);
            end_with(with, to.end(words)?)
        }
        _ => Err(Unanswered::Unread),
    }
}

fn is_own_address<D: Destination>(words: &mut Words<'_>, to: D) -> Answered {
    let sizes: AddressSizes = words.value()?;
    let own: Addressing = words.value()?;
    let out = to.end(words)?;
    end_with(
        procedure::is_own_address(sizes, own.common_address, own.originator),
        out,
    )
}

fn is_addressed<D: Destination>(words: &mut Words<'_>, to: D) -> Answered {
    let sizes: AddressSizes = words.value()?;
    let own: Addressing = words.value()?;
    let ioa: u32 = words.value()?;
    let out = to.end(words)?;
    end_with(
        procedure::is_addressed(sizes, own.common_address, own.originator, ioa),
        out,
    )
}

// Answers a call of this name that needs no station.
fn plain_to<D: Destination>(name: &str, words: &mut Words<'_>, to: D) -> Answered {
    match name {
        "role" => {
            words.expect_word("other")?;
            let role: Role = words.value()?;
            end_with(role.other(), to.end(words)?)
        }
        "direction_for" => {
            let direction = direction::direction_for(words.value()?, words.value()?);
            end_with(direction, to.end(words)?)
        }
        "selection" => of_selection(words, to),
        "is_own_address" => is_own_address(words, to),
        "is_addressed" => is_addressed(words, to),
        _ => Err(Unanswered::Unread),
    }
}

// The same, into a writer that is lent. What stands behind the call is left to read.
pub fn plain<W: fmt::Write>(name: &str, words: &mut Words<'_>, out: &mut W) -> Answered {
    plain_to(name, words, Lent(out))
}

// The same, on standard output. Nothing may stand behind the call.
pub fn plain_on_output(name: &str, words: &mut Words<'_>) -> Answered {
    plain_to(name, words, OnOutput)
}

// ---- The station that is kept

fn new<D: Destination>(
    words: &mut Words<'_>,
    station: &mut FileTransferProcedure,
    to: D,
) -> Answered {
    let given: FileTransferProcedure = words.value()?;
    let out = to.end(words)?;
    let made = FileTransferProcedure::new(
        given.role,
        given.selection,
        given.ca,
        given.org,
        given.sizes,
    );
    keep_and_end(made, station, "made", out)
}

fn conventional<D: Destination>(
    words: &mut Words<'_>,
    station: &mut FileTransferProcedure,
    to: D,
) -> Answered {
    let role: Role = words.value()?;
    let selection: Selection = words.value()?;
    let own: Addressing = words.value()?;
    let out = to.end(words)?;
    let made = match role {
        Role::Controlling => {
            FileTransferProcedure::controlling(selection, own.common_address, own.originator)
        }
        Role::Controlled => {
            FileTransferProcedure::controlled(selection, own.common_address, own.originator)
        }
    };
    keep_and_end(made, station, "made", out)
}

fn build<D: Destination>(words: &mut Words<'_>, station: FileTransferProcedure, to: D) -> Answered {
    let frame: Frame = words.value()?;
    let Beside(beside) = words.value()?;
    let out = to.end(words)?;
    end_with(station.build(frame, &beside), out)
}

fn on_asdu<D: Destination>(
    words: &mut Words<'_>,
    station: FileTransferProcedure,
    to: D,
) -> Answered {
    let incoming: Incoming = words.value()?;
    let Beside(beside) = words.value()?;
    let out = to.end(words)?;
    end_with(station.on_asdu(incoming, &beside), out)
}

fn on_answer<D: Destination>(
    words: &mut Words<'_>,
    station: FileTransferProcedure,
    to: D,
) -> Answered {
    let incoming: Incoming = words.value()?;
    words.expect_word("sent")?;
    let sent: Frame = words.value()?;
    let Beside(beside) = words.value()?;
    let out = to.end(words)?;
    end_with(station.on_answer(incoming, &beside, sent), out)
}

// Answers a call of the station that is kept.
fn answered<D: Destination>(
    words: &mut Words<'_>,
    station: &mut FileTransferProcedure,
    to: D,
) -> Answered {
    match words.word()? {
        "new" => new(words, station, to),
        "conventional" => conventional(words, station, to),
        "with_address_sizes" => {
            let made = station.with_address_sizes(words.value()?);
            keep_and_end(made, station, "made", to.end(words)?)
        }
        "set" => {
            *station = words.value()?;
            end_with_word("set", to.end(words)?)
        }
        "show" => end_with(*station, to.end(words)?),
        "role" => end_with(station.role(), to.end(words)?),
        "selection" => end_with(station.selection(), to.end(words)?),
        "addressing" => end_with(station.addressing(), to.end(words)?),
        "address_sizes" => end_with(station.address_sizes(), to.end(words)?),
        "is_settled" => end_with(station.is_settled(), to.end(words)?),
        "serves" => {
            let serves = station.serves(words.value()?, words.value()?);
            end_with(serves, to.end(words)?)
        }
        "build" => build(words, *station, to),
        "on_asdu" => on_asdu(words, *station, to),
        "on_answer" => on_answer(words, *station, to),
        _ => Err(Unanswered::Unread),
    }
}

// The same, into a writer that is lent. What stands behind the call is left to read.
pub fn call<W: fmt::Write>(
    words: &mut Words<'_>,
    station: &mut FileTransferProcedure,
    out: &mut W,
) -> Answered {
    answered(words, station, Lent(out))
}

// The same, on standard output. Nothing may stand behind the call.
pub fn call_on_output(words: &mut Words<'_>, station: &mut FileTransferProcedure) -> Answered {
    answered(words, station, OnOutput)
}
