// Stations, the records of both sides, a directory's call and a transfer.
use crate::{Show, Shown};
use collector::DirectoryCall;
use exchange::Sender;
use ft::{Addressing, FileTransferProcedure, Role, Selection};
use provide::{FileName, Provider};
use radio::Radio;
use receive::{Receiver, Sent};
use requests::Reply;
use sections::Part;
use std::fmt;
use twoparty::{Queue, TwoParty};
use window::Ended;
use words::records::Length;

// ---- Stations

impl Show for Role {
    fn show<W: fmt::Write>(&self, out: &mut W) -> fmt::Result {
        out.write_str(match self {
            Role::Controlling => "controlling",
            Role::Controlled => "controlled",
        })
    }
}

impl Show for Selection {
    fn show<W: fmt::Write>(&self, out: &mut W) -> fmt::Result {
        out.write_str(match (self.monitor, self.control) {
            (false, false) => "none",
            (true, false) => "monitor",
            (false, true) => "control",
            (true, true) => "both",
        })
    }
}

impl Show for FileTransferProcedure {
    fn show<W: fmt::Write>(&self, out: &mut W) -> fmt::Result {
        let role = Shown(&self.role);
        let selection = Shown(&self.selection);
        let sizes = Shown(&self.sizes);
        write!(out, "{role} {selection} {} {} {sizes}", self.ca, self.org)
    }
}

impl Show for Addressing {
    fn show<W: fmt::Write>(&self, out: &mut W) -> fmt::Result {
        write!(out, "{} {}", self.common_address, self.originator)
    }
}

// ---- The Provider

impl Show for Reply {
    fn show<W: fmt::Write>(&self, out: &mut W) -> fmt::Result {
        match self {
            Reply::Nothing => out.write_str("nothing"),
            Reply::FileReady => out.write_str("file_ready"),
            Reply::SectionReady(nos) => write!(out, "section_ready {}", nos.value),
            Reply::Section(nos) => write!(out, "section {}", nos.value),
            Reply::FileClose(nos) => write!(out, "file_close {}", nos.value),
        }
    }
}

impl Show for FileName {
    fn show<W: fmt::Write>(&self, out: &mut W) -> fmt::Result {
        write!(out, "{} {}", self.ioa, self.nof.value)
    }
}

impl Show for Part {
    fn show<W: fmt::Write>(&self, out: &mut W) -> fmt::Result {
        write!(out, "{} {}", self.start, self.length)
    }
}

impl Show for Provider {
    fn show<W: fmt::Write>(&self, out: &mut W) -> fmt::Result {
        let station = Shown(&self.procedure);
        write!(
            out,
            "station {station} ioa {} nof {} length {} section_len {} unmatched {} done {}",
            self.ioa,
            self.nof.value,
            self.length,
            self.section_len,
            self.unmatched,
            u8::from(self.done)
        )
    }
}

// ---- The Receiver

impl Show for Sent {
    fn show<W: fmt::Write>(&self, out: &mut W) -> fmt::Result {
        match self {
            Sent::Nothing => out.write_str("nothing"),
            Sent::Request { action, nos } => write!(out, "request {action} {}", nos.value),
            Sent::Acknowledgement { action, nos } => {
                write!(out, "acknowledgement {action} {}", nos.value)
            }
        }
    }
}

impl Show for Length {
    fn show<W: fmt::Write>(&self, out: &mut W) -> fmt::Result {
        match self.0 {
            None => out.write_str("unknown"),
            Some(length) => write!(out, "known {length}"),
        }
    }
}

impl Show for Receiver {
    fn show<W: fmt::Write>(&self, out: &mut W) -> fmt::Result {
        let station = Shown(&self.procedure);
        let sent = Shown(&self.sent);
        let known = Length(self.length);
        let length = Shown(&known);
        write!(
            out,
            "station {station} ioa {} nof {} sent {sent} length {length} kept {} staged {} done {}",
            self.ioa,
            self.nof.value,
            self.kept,
            self.staged,
            u8::from(self.done)
        )
    }
}

// ---- A directory's call

impl Show for DirectoryCall {
    fn show<W: fmt::Write>(&self, out: &mut W) -> fmt::Result {
        let station = Shown(&self.procedure);
        write!(
            out,
            "station {station} started {} held {} done {}",
            u8::from(self.started),
            self.held,
            u8::from(self.done)
        )
    }
}

// ---- Two parties

impl Show for Sender {
    fn show<W: fmt::Write>(&self, out: &mut W) -> fmt::Result {
        out.write_str(match self {
            Sender::Provider => "P",
            Sender::Receiver => "R",
        })
    }
}

impl Show for Queue {
    fn show<W: fmt::Write>(&self, out: &mut W) -> fmt::Result {
        match self {
            Queue::Empty => out.write_str("empty"),
            Queue::Receiver => out.write_str("receiver"),
            Queue::Provider {
                reply,
                next,
                damaged,
            } => {
                let reply = Shown(reply);
                write!(out, "provider {reply} {next} {}", u8::from(*damaged))
            }
        }
    }
}

impl Show for TwoParty {
    fn show<W: fmt::Write>(&self, out: &mut W) -> fmt::Result {
        let provider = Shown(&self.provider);
        let receiver = Shown(&self.receiver);
        let queue = Shown(&self.queue);
        write!(
            out,
            "provider {provider} receiver {receiver} queue {queue} radio {} {}",
            self.radio.section, self.radio.left
        )
    }
}

impl Show for Ended {
    fn show<W: fmt::Write>(&self, out: &mut W) -> fmt::Result {
        write!(
            out,
            "{} {} {} {}",
            self.octets,
            self.frames,
            self.damaged,
            u8::from(self.whole)
        )
    }
}
