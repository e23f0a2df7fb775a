// Numbers, flags and octets.
use crate::{FromWords, Unanswered, Words};
use arrayvec::ArrayVec;
use std::str::FromStr;

// The most octets of a buffer or of a call.
pub const MOST: usize = 9216;

// A buffer of octets, and the octets of a call.
pub type Octets = ArrayVec<u8, 9216>;

// ---- Numbers

// Whether a word begins as a number does: with a digit, and no 0 before others.
fn is_numeral(word: &str) -> bool {
    match word.as_bytes() {
        [b'0'] => true,
        [b'1'..=b'9', ..] => true,
        _ => false,
    }
}

// The number that a word is, if it is within its type.
fn number<T: FromStr>(word: &str) -> Result<T, Unanswered>
where
    T::Err: Drop,
{
    if !is_numeral(word) {
        return Err(Unanswered::Unread);
    }
    word.parse().map_err(|_| Unanswered::Unread)
}

// One impl for each width: a macro that writes impls is refused, and `number` has what they share.
impl FromWords for u8 {
    fn from_words(words: &mut Words<'_>) -> Result<u8, Unanswered> {
        number(words.word()?)
    }
}

impl FromWords for u16 {
    fn from_words(words: &mut Words<'_>) -> Result<u16, Unanswered> {
        number(words.word()?)
    }
}

impl FromWords for u32 {
    fn from_words(words: &mut Words<'_>) -> Result<u32, Unanswered> {
        number(words.word()?)
    }
}

impl FromWords for usize {
    fn from_words(words: &mut Words<'_>) -> Result<usize, Unanswered> {
        number(words.word()?)
    }
}

// FLAG.
impl FromWords for bool {
    fn from_words(words: &mut Words<'_>) -> Result<bool, Unanswered> {
        match words.word()? {
            "0" => Ok(false),
            "1" => Ok(true),
            _ => Err(Unanswered::Unread),
        }
    }
}

// ---- Octets

// A count of octets for which a buffer has room.
fn count(words: &mut Words<'_>) -> Result<usize, Unanswered> {
    let count = words.value()?;
    if MOST < count {
        return Err(Unanswered::Unread);
    }
    Ok(count)
}

// What stands in a buffer before anything is written.
pub const BEFORE: u8 = 170;

// LENGTH, of a buffer before anything is written.
#[derive(Drop)]
pub struct Blank(pub Octets);

impl FromWords for Blank {
    fn from_words(words: &mut Words<'_>) -> Result<Blank, Unanswered> {
        let mut octets = Octets::from([BEFORE; MOST]);
        octets.truncate(count(words)?);
        Ok(Blank(octets))
    }
}

// Octets that count from the first up to the last and again.
fn filled(words: &mut Words<'_>) -> Result<Octets, Unanswered> {
    let count = count(words)?;
    let first: u8 = words.value()?;
    let last: u8 = words.value()?;
    let mut octets = Octets::new();
    let mut octet = first;
    for _ in 0..count {
        octets.try_push(octet).map_err(|_| Unanswered::Unread)?;
        octet = if octet == last {
            first
        } else {
            octet.wrapping_add(1)
        };
    }
    Ok(octets)
}

// OCTETS, which end a call.
impl FromWords for Octets {
    fn from_words(words: &mut Words<'_>) -> Result<Octets, Unanswered> {
        if words.skips("fill") {
            return filled(words);
        }
        let mut octets = Octets::new();
        if let Some(rest) = words.take_rest() {
            for word in rest.split(' ') {
                octets
                    .try_push(number(word)?)
                    .map_err(|_| Unanswered::Unread)?;
            }
        }
        Ok(octets)
    }
}

// BESIDE, which ends a call: octets behind `beside`, or nothing.
#[derive(Drop)]
pub struct Beside(pub Octets);

impl FromWords for Beside {
    fn from_words(words: &mut Words<'_>) -> Result<Beside, Unanswered> {
        if words.skips("beside") {
            return Ok(Beside(words.value()?));
        }
        Ok(Beside(Octets::new()))
    }
}
