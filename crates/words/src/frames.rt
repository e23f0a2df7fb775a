// The frames, and what comes in with one.
use crate::{FromWords, Unanswered, Words};
use frame::Frame;
use ft::{Incoming, Received};

// FRAME.
impl FromWords for Frame {
    fn from_words(words: &mut Words<'_>) -> Result<Frame, Unanswered> {
        match words.word()? {
            "file_ready" => Ok(Frame::FileReady {
                ioa: words.value()?,
                nof: words.value()?,
                lof: words.value()?,
                frq: words.value()?,
            }),
            "section_ready" => Ok(Frame::SectionReady {
                ioa: words.value()?,
                nof: words.value()?,
                nos: words.value()?,
                lof: words.value()?,
                srq: words.value()?,
            }),
            "sc" => Ok(Frame::Sc {
                ioa: words.value()?,
                nof: words.value()?,
                nos: words.value()?,
                scq: words.value()?,
            }),
            "last_section" => Ok(Frame::LastSection {
                ioa: words.value()?,
                nof: words.value()?,
                nos: words.value()?,
                lsq: words.value()?,
                chs: words.value()?,
            }),
            "ack" => Ok(Frame::Ack {
                ioa: words.value()?,
                nof: words.value()?,
                nos: words.value()?,
                afq: words.value()?,
            }),
            "segment" => Ok(Frame::Segment {
                ioa: words.value()?,
                nof: words.value()?,
                nos: words.value()?,
                los: words.value()?,
            }),
            "directory" => Ok(Frame::Directory {
                ioa: words.value()?,
                cause: words.value()?,
            }),
            "query_log" => Ok(Frame::QueryLog {
                ioa: words.value()?,
                nof: words.value()?,
                range_start: words.value()?,
                range_stop: words.value()?,
            }),
            _ => Err(Unanswered::Unread),
        }
    }
}

// RECEIVED.
impl FromWords for Received {
    fn from_words(words: &mut Words<'_>) -> Result<Received, Unanswered> {
        if words.skips("undecodable") {
            return Ok(Received::Undecodable);
        }
        Ok(Received::Frame(words.value()?))
    }
}

// HEADER UNKNOWN RECEIVED: what comes in at a station.
impl FromWords for Incoming {
    fn from_words(words: &mut Words<'_>) -> Result<Incoming, Unanswered> {
        Ok(Incoming {
            header: words.value()?,
            unknown: words.value()?,
            received: words.value()?,
        })
    }
}
