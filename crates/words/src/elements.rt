// Elements, times, a directory's entries, widths and headers. One impl for each element of one field: a macro
// that writes impls is no way here (the gate refuses it), and the types stay apart as the standard's do.
use crate::{FromWords, Unanswered, Words};
use asdu::{
    AddressSizes, Afq, Cause, Chs, Cp56Time2a, Direction, DirectoryEntry, Frq, Header, Lof, Los,
    Lsq, Nof, Nos, Scq, Sof, Srq, Unspecified,
};

// ---- Elements

impl FromWords for Nof {
    fn from_words(words: &mut Words<'_>) -> Result<Nof, Unanswered> {
        Ok(Nof {
            value: words.value()?,
        })
    }
}

impl FromWords for Nos {
    fn from_words(words: &mut Words<'_>) -> Result<Nos, Unanswered> {
        Ok(Nos {
            value: words.value()?,
        })
    }
}

impl FromWords for Lof {
    fn from_words(words: &mut Words<'_>) -> Result<Lof, Unanswered> {
        Ok(Lof {
            value: words.value()?,
        })
    }
}

impl FromWords for Los {
    fn from_words(words: &mut Words<'_>) -> Result<Los, Unanswered> {
        Ok(Los {
            value: words.value()?,
        })
    }
}

impl FromWords for Lsq {
    fn from_words(words: &mut Words<'_>) -> Result<Lsq, Unanswered> {
        Ok(Lsq {
            value: words.value()?,
        })
    }
}

impl FromWords for Chs {
    fn from_words(words: &mut Words<'_>) -> Result<Chs, Unanswered> {
        Ok(Chs {
            value: words.value()?,
        })
    }
}

impl FromWords for Cause {
    fn from_words(words: &mut Words<'_>) -> Result<Cause, Unanswered> {
        Ok(Cause {
            value: words.value()?,
        })
    }
}

impl FromWords for Frq {
    fn from_words(words: &mut Words<'_>) -> Result<Frq, Unanswered> {
        Ok(Frq {
            value: words.value()?,
            negative_confirm: words.value()?,
        })
    }
}

impl FromWords for Srq {
    fn from_words(words: &mut Words<'_>) -> Result<Srq, Unanswered> {
        Ok(Srq {
            value: words.value()?,
            not_ready: words.value()?,
        })
    }
}

impl FromWords for Scq {
    fn from_words(words: &mut Words<'_>) -> Result<Scq, Unanswered> {
        Ok(Scq {
            action: words.value()?,
            error: words.value()?,
        })
    }
}

impl FromWords for Afq {
    fn from_words(words: &mut Words<'_>) -> Result<Afq, Unanswered> {
        Ok(Afq {
            action: words.value()?,
            error: words.value()?,
        })
    }
}

impl FromWords for Sof {
    fn from_words(words: &mut Words<'_>) -> Result<Sof, Unanswered> {
        Ok(Sof {
            status: words.value()?,
            last_file_of_directory: words.value()?,
            name_defines_subdirectory: words.value()?,
            transfer_active: words.value()?,
        })
    }
}

// ---- Times and entries

// TIME.
impl FromWords for Cp56Time2a {
    fn from_words(words: &mut Words<'_>) -> Result<Cp56Time2a, Unanswered> {
        Ok(Cp56Time2a {
            milliseconds: words.value()?,
            minutes: words.value()?,
            substituted: words.value()?,
            invalid: words.value()?,
            hours: words.value()?,
            summer_time: words.value()?,
            day_of_month: words.value()?,
            day_of_week: words.value()?,
            months: words.value()?,
            years: words.value()?,
        })
    }
}

// ENTRY.
impl FromWords for DirectoryEntry {
    fn from_words(words: &mut Words<'_>) -> Result<DirectoryEntry, Unanswered> {
        Ok(DirectoryEntry {
            nof: words.value()?,
            lof: words.value()?,
            sof: words.value()?,
            time: words.value()?,
        })
    }
}

// ---- Widths and headers

// WIDTHS.
impl FromWords for AddressSizes {
    fn from_words(words: &mut Words<'_>) -> Result<AddressSizes, Unanswered> {
        Ok(AddressSizes {
            cause_octets: words.value()?,
            common_address_octets: words.value()?,
            information_object_address_octets: words.value()?,
        })
    }
}

// HEADER.
impl FromWords for Header {
    fn from_words(words: &mut Words<'_>) -> Result<Header, Unanswered> {
        Ok(Header {
            type_id: words.value()?,
            cause: words.value()?,
            negative: words.value()?,
            originator: words.value()?,
            common_address: words.value()?,
        })
    }
}

// A field that is unknown. UNKNOWN is an `Option` of it.
impl FromWords for Unspecified {
    fn from_words(words: &mut Words<'_>) -> Result<Unspecified, Unanswered> {
        match words.word()? {
            "type" => Ok(Unspecified::TypeIdentification),
            "cause" => Ok(Unspecified::Cause),
            "common_address" => Ok(Unspecified::CommonAddress),
            "object_address" => Ok(Unspecified::InformationObjectAddress),
            _ => Err(Unanswered::Unread),
        }
    }
}

// DIRECTION.
impl FromWords for Direction {
    fn from_words(words: &mut Words<'_>) -> Result<Direction, Unanswered> {
        match words.word()? {
            "monitor" => Ok(Direction::Monitor),
            "control" => Ok(Direction::Control),
            "both" => Ok(Direction::Both),
            _ => Err(Unanswered::Unread),
        }
    }
}
