// A directory page to print (document 02, A3), for the door of a station's cabinet. Entries are handed in as the
// directory call's store has them, 17 octets each (document 01, The directory). Each becomes a line of 52
// characters and a newline, and the lines are written over the front of a lent page.
#![tactic(auto)]

ghost use Rattle.std.specs.Prelude.{◌-◌, ◌≡◌, true, [], ◌∷◌, ◌++◌, ◌+◌, ◌*◌, ◌/◌, ◌%◌, ◌<◌, ◌≤◌, eqb, length, IfOk};
ghost use Rattle.laws.specs.When.{when};
ghost use Rattle.script.specs.Answers.{over};
ghost use Rattle.stored.specs.Stored.{address_in};
ghost use Rattle.directory_page.specs.Line.{newline, space, in_places, mark, flags_text, date_text, clock_text, line_text};
ghost use Rattle.directory_page.specs.Page.{is_clear, within_bounds, all_right, entry_line, page_text, print_answer, page_after};
ghost use Rattle.directory_page.specs.Judging.{judged_as};

use asdu::{Cp56Time2a, DirectoryEntry, FtError, Sof};
use stored::STORED;

// The octets of a line: 52 characters and a newline.
pub const LINE: usize = 53;

// ---- One line

// The octet of a place in front of a number's last digit: the filler where nothing is left of the number.
#[tactic(auto, using(laws::proofs::Decide::decide))]
fn digit_or(filler: u8, left: u32) -> u8
    ensures { result ≡ when (eqb left 0) filler (48 + left % 10) }
{
    if left == 0 {
        filler
    } else {
        b'0' + (left % 10) as u8
    }
}

// Puts a number over its places, from its last digit to its first, and the filler in front of it: digit by digit,
// since the library's digits, copied from a buffer of their own, take more than twice the time of a page.
fn put_number(places: &mut [u8], filler: u8, n: u32)
    ensures { places.new ≡ in_places filler (length places.old) n }
{
    let mut left = n;
    let mut octet = b'0' + (n % 10) as u8;
    for i in (0..places.len()).rev() {
        places[i] = octet;
        left /= 10;
        octet = digit_or(filler, left);
    }
}

// Puts a number over all of a field but its last place, and there the character that stands behind it.
fn put_field(field: &mut [u8], filler: u8, n: u32, behind: u8)
    requires { 0 < length field.old }
    ensures { field.new ≡ in_places filler (length field.old - 1) n ++ (behind ∷ []) }
{
    let (places, end) = field.split_at_mut(field.len() - 1);
    put_number(places, filler, n);
    end[0] = behind;
}

// The letter of a flag, or a point.
#[tactic(auto, using(laws::proofs::Decide::decide), unfolding(crate::specs::Line::mark))]
fn mark_of(letter: u8, b: bool) -> u8
    ensures { result ≡ mark letter b }
{
    if b { letter } else { b'.' }
}

// Puts the flags and a space.
#[tactic(auto, unfolding(crate::specs::Line::flags_text))]
fn put_flags(field: &mut [u8], sof: Sof)
    requires { length field.old ≡ 4 }
    ensures { field.new ≡ flags_text sof ++ space }
{
    field.copy_from_slice(&[
        mark_of(b'L', sof.last_file_of_directory),
        mark_of(b'D', sof.name_defines_subdirectory),
        mark_of(b'T', sof.transfer_active),
        b' ',
    ]);
}

// Puts the date and a space.
#[tactic(auto, unfolding(crate::specs::Line::date_text))]
fn put_date(field: &mut [u8], time: Cp56Time2a)
    requires { length field.old ≡ 9 }
    ensures { field.new ≡ date_text time ++ space }
{
    let (year, field) = field.split_at_mut(3);
    let (month, day) = field.split_at_mut(3);
    put_field(year, b'0', u32::from(time.years), b'-');
    put_field(month, b'0', u32::from(time.months), b'-');
    put_field(day, b'0', u32::from(time.day_of_month), b' ');
}

// Puts the time of day and the newline. Its milliseconds are those of the minute (7.2.6.18).
#[tactic(auto, unfolding(crate::specs::Line::clock_text))]
fn put_clock(field: &mut [u8], time: Cp56Time2a)
    requires { length field.old ≡ 13 }
    ensures { field.new ≡ clock_text time ++ newline }
{
    let milliseconds = u32::from(time.milliseconds);
    let (hours, field) = field.split_at_mut(3);
    let (minutes, field) = field.split_at_mut(3);
    let (seconds, thousandths) = field.split_at_mut(3);
    put_field(hours, b'0', u32::from(time.hours), b':');
    put_field(minutes, b'0', u32::from(time.minutes), b':');
    put_field(seconds, b'0', milliseconds / 1000, b'.');
    put_field(thousandths, b'0', milliseconds % 1000, b'\n');
}

// Puts a whole line.
#[tactic(auto, unfolding(crate::specs::Line::line_text))]
fn put_line(line: &mut [u8], ioa: u32, entry: DirectoryEntry)
    requires { length line.old ≡ 53 }
    ensures { line.new ≡ line_text ioa entry }
{
    let (address, line) = line.split_at_mut(9);
    let (nof, line) = line.split_at_mut(6);
    let (lof, line) = line.split_at_mut(9);
    let (status, line) = line.split_at_mut(3);
    let (flags, line) = line.split_at_mut(4);
    let (date, clock) = line.split_at_mut(9);
    put_field(address, b' ', ioa, b' ');
    put_field(nof, b' ', u32::from(entry.nof.value), b' ');
    put_field(lof, b' ', entry.lof.value, b' ');
    put_field(status, b' ', u32::from(entry.sof.status), b' ');
    put_flags(flags, entry.sof);
    put_date(date, entry.time);
    put_clock(clock, entry.time);
}

// ---- One entry

// The object address that an entry's octets begin with, the lowest octet first.
#[tactic(auto, unfolding(stored::specs::Stored::address_in))]
fn address_in(octets: &[u8]) -> u32
    requires { 4 ≤ length octets.now }
    ensures { result ≡ address_in octets.now }
{
    u32::from_le_bytes([octets[0], octets[1], octets[2], octets[3]])
}

// Whether an address and a time are within document 02's bounds: else 27.
#[tactic(auto, using(laws::proofs::Decide::decide), unfolding(crate::specs::Page::within_bounds))]
fn is_within_bounds(ioa: u32, time: Cp56Time2a) -> bool
    ensures { result ≡ within_bounds ioa time }
{
    time.milliseconds <= 59_999
        && time.minutes <= 59
        && time.hours <= 23
        && time.months <= 12
        && time.years <= 99
        && ioa <= 99_999_999
}

// Puts the line of an entry whose reserved bits are 0.
#[tactic(auto, using(crate::proofs::Entries::unpacking), unfolding(crate::specs::Page::entry_line))]
fn put_entry(line: &mut [u8], octets: &[u8])
    requires { (length line.old ≡ 53) × (length octets.now ≡ 17) × (is_clear octets.now ≡ true) }
    ensures { line.new ≡ entry_line octets.now }
{
    let Ok(entry) = DirectoryEntry::unpack(&octets[4..]) else {
        unreachable!();
    };
    put_line(line, address_in(octets), entry);
}

// ---- A page

// Judges all entries: 4 wherever they are not whole or one has a reserved bit set, and only then 27.
#[tactic(auto, using(crate::proofs::Entries::judging), unfolding(crate::specs::Judging::judged_as, crate::specs::Page::is_printable))]
fn judge(entries: &[u8]) -> Result<(), FtError>
    ensures { result ≡ judged_as entries.now }
{
    if entries.len() % STORED != 0 {
        return Err(FtError::ValueOutOfRange);
    }
    let mut printable = true;
    for octets in entries.chunks_exact(STORED) {
        let entry = DirectoryEntry::unpack(&octets[4..])?;
        printable = printable && is_within_bounds(address_in(octets), entry.time);
    }
    if !printable {
        return Err(FtError::NotPrintable);
    }
    Ok(())
}

// Writes the entries' lines over the front of a page that has room for them.
#[tactic(auto, using(crate::proofs::Pages::lines))]
fn write_lines(entries: &[u8], page: &mut [u8])
    requires { (all_right entries.now ≡ true) × (53 * (length entries.now / 17) ≤ length page.old) }
    ensures { page.new ≡ over (page_text entries.now) page.old }
{
    for (i, octets) in entries.chunks_exact(STORED).enumerate() {
        let place = LINE * i;
        put_entry(&mut page[place..place + LINE], octets);
    }
}

// Writes the page of these entries over the front of a lent page, and answers how many octets it has. 4, then
// 27, then 28 over all entries: a refusal writes nothing.
#[tactic(auto, using(crate::proofs::Answers::told_fine))]
pub fn write(entries: &[u8], page: &mut [u8]) -> Result<usize, FtError>
    ensures { (result ≡ print_answer entries.now (length page.old)) × (page.new ≡ page_after entries.now page.old) × IfOk result (λ n. n ≤ length page.old) }
{
    judge(entries)?;
    let count = entries.len() / STORED;
    if page.len() / LINE < count {
        return Err(FtError::PageTooShort);
    }
    write_lines(entries, page);
    Ok(LINE * count)
}
