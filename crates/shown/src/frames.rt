// The frames.
use crate::{Show, Shown};
use asdu::{Nof, Nos};
use frame::Frame;
use ft::Asdu;
use std::fmt;

// A frame of a section: its word, object address and names, and then what its kind has.
fn of_section<T: Show, W: fmt::Write>(
    word: &str,
    ioa: u32,
    nof: Nof,
    nos: Nos,
    last: &T,
    out: &mut W,
) -> fmt::Result {
    write!(out, "{word} {ioa} {} {} ", nof.value, nos.value)?;
    last.show(out)
}

impl Show for Frame {
    fn show<W: fmt::Write>(&self, out: &mut W) -> fmt::Result {
        match *self {
            Frame::FileReady { ioa, nof, lof, frq } => {
                write!(out, "file_ready {ioa} {} ", nof.value)?;
                (lof, frq).show(out)
            }
            Frame::SectionReady {
                ioa,
                nof,
                nos,
                lof,
                srq,
            } => of_section("section_ready", ioa, nof, nos, &(lof, srq), out),
            Frame::Sc { ioa, nof, nos, scq } => of_section("sc", ioa, nof, nos, &scq, out),
            Frame::LastSection {
                ioa,
                nof,
                nos,
                lsq,
                chs,
            } => of_section("last_section", ioa, nof, nos, &(lsq, chs), out),
            Frame::Ack { ioa, nof, nos, afq } => of_section("ack", ioa, nof, nos, &afq, out),
            Frame::Segment { ioa, nof, nos, los } => {
                of_section("segment", ioa, nof, nos, &los, out)
            }
            Frame::Directory { ioa, cause } => write!(out, "directory {ioa} {}", cause.value),
            Frame::QueryLog {
                ioa,
                nof,
                range_start,
                range_stop,
            } => {
                write!(out, "query_log {ioa} {} ", nof.value)?;
                (range_start, range_stop).show(out)
            }
        }
    }
}

// A frame that was made.
impl Show for Asdu {
    fn show<W: fmt::Write>(&self, out: &mut W) -> fmt::Result {
        let header = Shown(&self.header);
        let frame = Shown(&self.frame);
        write!(out, "made {header} {frame}")
    }
}
