// Elements, times, a directory's entries, widths and headers. One impl for each element, as in `words`.
use crate::{Show, Shown};
use asdu::{
    AddressSizes, Afq, Cause, Chs, Cp56Time2a, Direction, DirectoryEntry, Frq, Header, Lof, Los,
    Lsq, Nof, Nos, Scq, Sof, Srq, Unspecified,
};
use std::fmt;

// ---- Elements

impl Show for Nof {
    fn show<W: fmt::Write>(&self, out: &mut W) -> fmt::Result {
        self.value.show(out)
    }
}

impl Show for Nos {
    fn show<W: fmt::Write>(&self, out: &mut W) -> fmt::Result {
        self.value.show(out)
    }
}

impl Show for Lof {
    fn show<W: fmt::Write>(&self, out: &mut W) -> fmt::Result {
        self.value.show(out)
    }
}

impl Show for Los {
    fn show<W: fmt::Write>(&self, out: &mut W) -> fmt::Result {
        self.value.show(out)
    }
}

impl Show for Lsq {
    fn show<W: fmt::Write>(&self, out: &mut W) -> fmt::Result {
        self.value.show(out)
    }
}

impl Show for Chs {
    fn show<W: fmt::Write>(&self, out: &mut W) -> fmt::Result {
        self.value.show(out)
    }
}

impl Show for Cause {
    fn show<W: fmt::Write>(&self, out: &mut W) -> fmt::Result {
        self.value.show(out)
    }
}

impl Show for Frq {
    fn show<W: fmt::Write>(&self, out: &mut W) -> fmt::Result {
        write!(out, "{} {}", self.value, u8::from(self.negative_confirm))
    }
}

impl Show for Srq {
    fn show<W: fmt::Write>(&self, out: &mut W) -> fmt::Result {
        write!(out, "{} {}", self.value, u8::from(self.not_ready))
    }
}

impl Show for Scq {
    fn show<W: fmt::Write>(&self, out: &mut W) -> fmt::Result {
        write!(out, "{} {}", self.action, self.error)
    }
}

impl Show for Afq {
    fn show<W: fmt::Write>(&self, out: &mut W) -> fmt::Result {
        write!(out, "{} {}", self.action, self.error)
    }
}

impl Show for Sof {
    fn show<W: fmt::Write>(&self, out: &mut W) -> fmt::Result {
        write!(
            out,
            "{} {} {} {}",
            self.status,
            u8::from(self.last_file_of_directory),
            u8::from(self.name_defines_subdirectory),
            u8::from(self.transfer_active)
        )
    }
}

// ---- Times and entries

impl Show for Cp56Time2a {
    fn show<W: fmt::Write>(&self, out: &mut W) -> fmt::Result {
        write!(
            out,
            "{} {} {} {} {} {} {} {} {} {}",
            self.milliseconds,
            self.minutes,
            u8::from(self.substituted),
            u8::from(self.invalid),
            self.hours,
            u8::from(self.summer_time),
            self.day_of_month,
            self.day_of_week,
            self.months,
            self.years
        )
    }
}

impl Show for DirectoryEntry {
    fn show<W: fmt::Write>(&self, out: &mut W) -> fmt::Result {
        let sof = Shown(&self.sof);
        let time = Shown(&self.time);
        write!(out, "{} {} {sof} {time}", self.nof.value, self.lof.value)
    }
}

// ---- Widths and headers

impl Show for AddressSizes {
    fn show<W: fmt::Write>(&self, out: &mut W) -> fmt::Result {
        write!(
            out,
            "{} {} {}",
            self.cause_octets, self.common_address_octets, self.information_object_address_octets
        )
    }
}

impl Show for Header {
    fn show<W: fmt::Write>(&self, out: &mut W) -> fmt::Result {
        write!(
            out,
            "{} {} {} {} {}",
            self.type_id,
            self.cause.value,
            u8::from(self.negative),
            self.originator,
            self.common_address
        )
    }
}

impl Show for Direction {
    fn show<W: fmt::Write>(&self, out: &mut W) -> fmt::Result {
        out.write_str(match self {
            Direction::Monitor => "monitor",
            Direction::Control => "control",
            Direction::Both => "both",
        })
    }
}
