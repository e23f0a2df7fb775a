// Calls of the elements, the widths, the packed entry, the header's causes and the checksum.
use asdu::{
    AddressSizes, Afq, Cp56Time2a, DirectoryEntry, Frq, Lof, Los, Nof, Nos, Scq, Sof, Srq,
    Unspecified, entry, headers, sizes,
};
use shown::numbers::Behind;
use shown::{Shown, end_with, end_with_word};
use std::fmt;
use std::fmt::Write;
use words::destination::{Destination, Lent, OnOutput, Out};
use words::numbers::{Blank, Octets};
use words::{Answered, Unanswered, Words};

// ---- Widths

fn new_sizes<O: Out>(given: AddressSizes, out: O) -> Answered {
    match AddressSizes::new(
        given.cause_octets,
        given.common_address_octets,
        given.information_object_address_octets,
    ) {
        Ok(_) => end_with_word("made", out),
        Err(error) => end_with(error, out),
    }
}

fn of_sizes<D: Destination>(words: &mut Words<'_>, to: D) -> Answered {
    let what = words.word()?;
    let widths: AddressSizes = words.value()?;
    match what {
        "new" => new_sizes(widths, to.end(words)?),
        "is_right" => end_with(widths.is_right(), to.end(words)?),
        "originator_address" => end_with(widths.originator_address(), to.end(words)?),
        "header_len" => end_with(widths.header_len(), to.end(words)?),
        "max_ioa" => end_with(widths.max_ioa(), to.end(words)?),
        "max_common_address" => end_with(widths.max_common_address(), to.end(words)?),
        "broadcast_common_address" => end_with(widths.broadcast_common_address(), to.end(words)?),
        "max_segment" => end_with(sizes::max_segment(widths), to.end(words)?),
        "max_directory_files" => end_with(sizes::max_directory_files(widths), to.end(words)?),
        _ => Err(Unanswered::Unread),
    }
}

// A constant of the library.
fn constant(name: &str) -> Result<usize, Unanswered> {
    match name {
        "nof_len" => Ok(Nof::LEN),
        "nos_len" => Ok(Nos::LEN),
        "lof_len" => Ok(Lof::LEN),
        "los_len" => Ok(Los::LEN),
        "sof_len" => Ok(Sof::LEN),
        "time_len" => Ok(Cp56Time2a::LEN),
        "entry_len" => Ok(DirectoryEntry::LEN),
        "deactivate_file" => Ok(usize::from(Scq::DEACTIVATE_FILE)),
        "delete_file" => Ok(usize::from(Scq::DELETE_FILE)),
        "deactivate_section" => Ok(usize::from(Scq::DEACTIVATE_SECTION)),
        "los_max" => Ok(usize::from(Los::MAX)),
        "max_segment" => Ok(sizes::MAX_SEGMENT),
        "max_asdu" => Ok(sizes::MAX_ASDU),
        "max_directory_files" => Ok(sizes::MAX_DIRECTORY_FILES),
        _ => Err(Unanswered::Unread),
    }
}

// ---- Packed entries

// Packs an entry into a buffer of so many octets, and shows the whole buffer as it then is.
fn pack<D: Destination>(words: &mut Words<'_>, to: D) -> Answered {
    let Blank(mut octets) = words.value()?;
    let entry: DirectoryEntry = words.value()?;
    let mut out = to.end(words)?;
    match entry.pack(&mut octets) {
        Ok(()) => out.write_str("packed")?,
        Err(error) => write!(out, "{}", Shown(&error))?,
    }
    write!(out, "{}", Behind(&octets))?;
    out.finish()
}

fn unpack<D: Destination>(words: &mut Words<'_>, to: D) -> Answered {
    let octets: Octets = words.value()?;
    let out = to.end(words)?;
    end_with(DirectoryEntry::unpack(&octets), out)
}

fn is_page<D: Destination>(words: &mut Words<'_>, to: D) -> Answered {
    let octets: Octets = words.value()?;
    let out = to.end(words)?;
    end_with(entry::is_page(&octets), out)
}

// ---- The checksum

fn sum<D: Destination>(words: &mut Words<'_>, to: D) -> Answered {
    let octets: Octets = words.value()?;
    let out = to.end(words)?;
    end_with(checksum::checksum(&octets, 0), out)
}

fn check_sum<D: Destination>(words: &mut Words<'_>, to: D) -> Answered {
    let stated = words.value()?;
    let octets: Octets = words.value()?;
    let out = to.end(words)?;
    match checksum::check_checksum(&octets, stated) {
        Ok(()) => end_with_word("equal", out),
        Err(differ) => end_with(differ, out),
    }
}

// ---- Calls

// Answers a call of this name.
fn answered<D: Destination>(name: &str, words: &mut Words<'_>, to: D) -> Answered {
    match name {
        "frq" => end_with(words.value::<Frq>()?.is_in_range(), to.end(words)?),
        "srq" => end_with(words.value::<Srq>()?.is_in_range(), to.end(words)?),
        "scq" => end_with(words.value::<Scq>()?.is_in_range(), to.end(words)?),
        "afq" => end_with(words.value::<Afq>()?.is_in_range(), to.end(words)?),
        "lof" => end_with(words.value::<Lof>()?.is_in_range(), to.end(words)?),
        "los" => end_with(words.value::<Los>()?.is_in_range(), to.end(words)?),
        "sof" => end_with(words.value::<Sof>()?.is_in_range(), to.end(words)?),
        "time" => end_with(words.value::<Cp56Time2a>()?.is_in_range(), to.end(words)?),
        "entry" => end_with(
            words.value::<DirectoryEntry>()?.is_in_range(),
            to.end(words)?,
        ),
        "pack" => pack(words, to),
        "unpack" => unpack(words, to),
        "is_page" => is_page(words, to),
        "entry_address" => {
            let address = entry::entry_address(words.value()?, words.value()?);
            end_with(address, to.end(words)?)
        }
        "constant" => end_with(constant(words.word()?)?, to.end(words)?),
        "sizes" => of_sizes(words, to),
        "unknown_cause" => end_with(words.value::<Unspecified>()?.cause(), to.end(words)?),
        "is_mirror" => end_with(headers::is_mirror(words.value()?), to.end(words)?),
        "checksum" => sum(words, to),
        "check_checksum" => check_sum(words, to),
        _ => Err(Unanswered::Unread),
    }
}

// The same, into a writer that is lent. What stands behind the call is left to read.
pub fn call<W: fmt::Write>(name: &str, words: &mut Words<'_>, out: &mut W) -> Answered {
    answered(name, words, Lent(out))
}

// The same, on standard output. Nothing may stand behind the call.
pub fn call_on_output(name: &str, words: &mut Words<'_>) -> Answered {
    answered(name, words, OnOutput)
}
