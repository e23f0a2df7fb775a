// What the library's functions answer.
use crate::{Show, Shown};
use acceptance::{FileClosed, Held, SectionClosed};
use asdu::{Cause, Discard, FtError};
use checksum::SumsDiffer;
use collector::DirectoryAnswer;
use ft::Reaction;
use pager::Page;
use receive::ReceiverAnswer;
use requests::ProviderAnswer;
use run::Ending;
use std::fmt;
use window::Totals;

// ---- Refusals

impl Show for FtError {
    fn show<W: fmt::Write>(&self, out: &mut W) -> fmt::Result {
        write!(out, "refused {}", self.number())
    }
}

impl<T: Show> Show for Result<T, FtError> {
    fn show<W: fmt::Write>(&self, out: &mut W) -> fmt::Result {
        match self {
            Ok(value) => value.show(out),
            Err(error) => error.show(out),
        }
    }
}

// A frame or a request was sent back: by this station where it has a mirror to send.
fn sent_back<W: fmt::Write>(cause: Cause, mirror: bool, out: &mut W) -> fmt::Result {
    write!(out, "sent back {}", cause.value)?;
    if mirror {
        out.write_str(" mirror")?;
    }
    Ok(())
}

// ---- Octets

impl Show for SumsDiffer {
    fn show<W: fmt::Write>(&self, out: &mut W) -> fmt::Result {
        write!(
            out,
            "refused 8 expected {} got {}",
            self.expected.value, self.got.value
        )
    }
}

impl Show for Held {
    fn show<W: fmt::Write>(&self, out: &mut W) -> fmt::Result {
        write!(out, "{} {}", self.kept, self.staged)
    }
}

impl Show for SectionClosed {
    fn show<W: fmt::Write>(&self, out: &mut W) -> fmt::Result {
        match self {
            SectionClosed::Accepted(held) => write!(out, "accepted {}", Shown(held)),
            SectionClosed::Dropped(held) => write!(out, "dropped {}", Shown(held)),
        }
    }
}

impl Show for FileClosed {
    fn show<W: fmt::Write>(&self, out: &mut W) -> fmt::Result {
        match self {
            FileClosed::Whole(held) => write!(out, "whole {}", Shown(held)),
            FileClosed::Differs { expected, held } => {
                write!(out, "differs {} {}", Shown(held), expected.value)
            }
        }
    }
}

// ---- Stations

impl Show for Discard {
    fn show<W: fmt::Write>(&self, out: &mut W) -> fmt::Result {
        match self {
            Discard::Mirror => out.write_str("discard mirror"),
            Discard::Unspecified(which) => write!(out, "discard {}", which.cause().value),
        }
    }
}

impl Show for Reaction {
    fn show<W: fmt::Write>(&self, out: &mut W) -> fmt::Result {
        match self {
            Reaction::Requested => out.write_str("requested"),
            Reaction::Answered => out.write_str("answered"),
            Reaction::Refused { cause, mirror } => sent_back(*cause, *mirror, out),
            Reaction::Discard(why) => why.show(out),
            Reaction::Other => out.write_str("other"),
        }
    }
}

impl Show for ProviderAnswer {
    fn show<W: fmt::Write>(&self, out: &mut W) -> fmt::Result {
        match self {
            ProviderAnswer::Running(reply) => write!(out, "running {}", Shown(reply)),
            ProviderAnswer::Complete => out.write_str("complete"),
            ProviderAnswer::Deactivated { scq } => write!(out, "deactivated {}", Shown(scq)),
            ProviderAnswer::FileRejected { afq } => write!(out, "file_rejected {}", Shown(afq)),
            ProviderAnswer::Refused { cause, mirror } => sent_back(*cause, *mirror, out),
            ProviderAnswer::Err(error) => error.show(out),
        }
    }
}

impl Show for ReceiverAnswer {
    fn show<W: fmt::Write>(&self, out: &mut W) -> fmt::Result {
        match self {
            ReceiverAnswer::Running => out.write_str("running"),
            ReceiverAnswer::Send => out.write_str("send"),
            ReceiverAnswer::Complete { length } => write!(out, "complete {length}"),
            ReceiverAnswer::FileNotReady { frq } => write!(out, "file_not_ready {}", Shown(frq)),
            ReceiverAnswer::SectionNotReady { nos, srq } => {
                write!(out, "section_not_ready {} {}", nos.value, Shown(srq))
            }
            ReceiverAnswer::FileChecksum { expected, got } => {
                write!(out, "file_checksum {} {}", expected.value, got.value)
            }
            ReceiverAnswer::UnknownLsq(lsq) => write!(out, "unknown_lsq {}", lsq.value),
            ReceiverAnswer::Refused { cause, mirror } => sent_back(*cause, *mirror, out),
            ReceiverAnswer::Err(error) => error.show(out),
        }
    }
}

// ---- Directories

impl Show for Page {
    fn show<W: fmt::Write>(&self, out: &mut W) -> fmt::Result {
        write!(out, "{} {}", self.ioa, self.count)
    }
}

impl Show for DirectoryAnswer {
    fn show<W: fmt::Write>(&self, out: &mut W) -> fmt::Result {
        match self {
            DirectoryAnswer::Running => out.write_str("running"),
            DirectoryAnswer::Complete { entries } => write!(out, "complete {entries}"),
            DirectoryAnswer::Refused { cause, mirror } => sent_back(*cause, *mirror, out),
            DirectoryAnswer::Err(error) => error.show(out),
        }
    }
}

// ---- Runs

impl Show for Ending {
    fn show<W: fmt::Write>(&self, out: &mut W) -> fmt::Result {
        match self {
            Ending::Whole { length, frames } => write!(out, "whole {length} frames {frames}"),
            Ending::Spent { frames } => write!(out, "spent frames {frames}"),
        }
    }
}

impl Show for Totals {
    fn show<W: fmt::Write>(&self, out: &mut W) -> fmt::Result {
        write!(
            out,
            "octets {} frames {} damaged {} whole {}",
            self.octets, self.frames, self.damaged, self.whole
        )
    }
}
