// Stations, replies, and the parts of records that a call sets.
use crate::{FromWords, Unanswered, Words};
use acceptance::Held;
use exchange::Sender;
use ft::{Addressing, FileTransferProcedure, Role, Selection};
use radio::Radio;
use receive::Sent;
use requests::Reply;
use sections::Part;
use twoparty::{Queue, Settings};
use window::Ended;

// ---- Stations

// ROLE.
impl FromWords for Role {
    fn from_words(words: &mut Words<'_>) -> Result<Role, Unanswered> {
        match words.word()? {
            "controlling" => Ok(Role::Controlling),
            "controlled" => Ok(Role::Controlled),
            _ => Err(Unanswered::Unread),
        }
    }
}

// SELECTION.
impl FromWords for Selection {
    fn from_words(words: &mut Words<'_>) -> Result<Selection, Unanswered> {
        match words.word()? {
            "none" => Ok(Selection::NONE),
            "monitor" => Ok(Selection::MONITOR),
            "control" => Ok(Selection::CONTROL),
            "both" => Ok(Selection::BOTH),
            _ => Err(Unanswered::Unread),
        }
    }
}

// STATION.
impl FromWords for FileTransferProcedure {
    fn from_words(words: &mut Words<'_>) -> Result<FileTransferProcedure, Unanswered> {
        Ok(FileTransferProcedure {
            role: words.value()?,
            selection: words.value()?,
            ca: words.value()?,
            org: words.value()?,
            sizes: words.value()?,
        })
    }
}

// CA ORG.
impl FromWords for Addressing {
    fn from_words(words: &mut Words<'_>) -> Result<Addressing, Unanswered> {
        Ok(Addressing {
            common_address: words.value()?,
            originator: words.value()?,
        })
    }
}

// ---- The Provider

// REPLY.
impl FromWords for Reply {
    fn from_words(words: &mut Words<'_>) -> Result<Reply, Unanswered> {
        match words.word()? {
            "nothing" => Ok(Reply::Nothing),
            "file_ready" => Ok(Reply::FileReady),
            "section_ready" => Ok(Reply::SectionReady(words.value()?)),
            "section" => Ok(Reply::Section(words.value()?)),
            "file_close" => Ok(Reply::FileClose(words.value()?)),
            _ => Err(Unanswered::Unread),
        }
    }
}

// START LENGTH.
impl FromWords for Part {
    fn from_words(words: &mut Words<'_>) -> Result<Part, Unanswered> {
        Ok(Part {
            start: words.value()?,
            length: words.value()?,
        })
    }
}

// ---- The Receiver

// SENT.
impl FromWords for Sent {
    fn from_words(words: &mut Words<'_>) -> Result<Sent, Unanswered> {
        match words.word()? {
            "nothing" => Ok(Sent::Nothing),
            "request" => Ok(Sent::Request {
                action: words.value()?,
                nos: words.value()?,
            }),
            "acknowledgement" => Ok(Sent::Acknowledgement {
                action: words.value()?,
                nos: words.value()?,
            }),
            _ => Err(Unanswered::Unread),
        }
    }
}

// LENGTH, of the file that is received.
#[derive(Clone, Copy)]
pub struct Length(pub Option<u32>);

impl FromWords for Length {
    fn from_words(words: &mut Words<'_>) -> Result<Length, Unanswered> {
        match words.word()? {
            "unknown" => Ok(Length(None)),
            "known" => Ok(Length(Some(words.value()?))),
            _ => Err(Unanswered::Unread),
        }
    }
}

// ---- Two parties

// P or R, the side that sends a frame.
impl FromWords for Sender {
    fn from_words(words: &mut Words<'_>) -> Result<Sender, Unanswered> {
        match words.word()? {
            "P" => Ok(Sender::Provider),
            "R" => Ok(Sender::Receiver),
            _ => Err(Unanswered::Unread),
        }
    }
}

// SETTINGS.
impl FromWords for Settings {
    fn from_words(words: &mut Words<'_>) -> Result<Settings, Unanswered> {
        Ok(Settings {
            sizes: words.value()?,
            common_address: words.value()?,
            ioa: words.value()?,
            nof: words.value()?,
            role: words.value()?,
        })
    }
}

impl FromWords for Queue {
    fn from_words(words: &mut Words<'_>) -> Result<Queue, Unanswered> {
        match words.word()? {
            "empty" => Ok(Queue::Empty),
            "receiver" => Ok(Queue::Receiver),
            "provider" => Ok(Queue::Provider {
                reply: words.value()?,
                next: words.value()?,
                damaged: words.value()?,
            }),
            _ => Err(Unanswered::Unread),
        }
    }
}

impl FromWords for Radio {
    fn from_words(words: &mut Words<'_>) -> Result<Radio, Unanswered> {
        Ok(Radio {
            section: words.value()?,
            left: words.value()?,
        })
    }
}

// RECORD, of a transfer that ended.
impl FromWords for Ended {
    fn from_words(words: &mut Words<'_>) -> Result<Ended, Unanswered> {
        Ok(Ended {
            octets: words.value()?,
            frames: words.value()?,
            damaged: words.value()?,
            whole: words.value()?,
        })
    }
}

// ---- Octets

// KEPT STAGED.
impl FromWords for Held {
    fn from_words(words: &mut Words<'_>) -> Result<Held, Unanswered> {
        Ok(Held {
            kept: words.value()?,
            staged: words.value()?,
        })
    }
}
