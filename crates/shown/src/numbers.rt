// Numbers and octets.
use crate::Show;
use std::fmt;

impl Show for u8 {
    fn show<W: fmt::Write>(&self, out: &mut W) -> fmt::Result {
        write!(out, "{self}")
    }
}

impl Show for u16 {
    fn show<W: fmt::Write>(&self, out: &mut W) -> fmt::Result {
        write!(out, "{self}")
    }
}

impl Show for u32 {
    fn show<W: fmt::Write>(&self, out: &mut W) -> fmt::Result {
        write!(out, "{self}")
    }
}

impl Show for usize {
    fn show<W: fmt::Write>(&self, out: &mut W) -> fmt::Result {
        write!(out, "{self}")
    }
}

// The answer to a question.
impl Show for bool {
    fn show<W: fmt::Write>(&self, out: &mut W) -> fmt::Result {
        out.write_str(if *self { "yes" } else { "no" })
    }
}

// ---- Octets

// Octets with spaces between them.
#[derive(Clone, Copy)]
pub struct Spaced<'a>(pub &'a [u8]);

impl<'a> fmt::Display for Spaced<'a> {
    fn fmt<W: fmt::Write>(&self, f: &mut fmt::Formatter<W>) -> fmt::Result {
        match self.0 {
            [] => Ok(()),
            [first, others @ ..] => write!(f, "{first}{}", Behind(others)),
        }
    }
}

// Octets, each behind a space.
#[derive(Clone, Copy)]
pub struct Behind<'a>(pub &'a [u8]);

impl<'a> fmt::Display for Behind<'a> {
    fn fmt<W: fmt::Write>(&self, f: &mut fmt::Formatter<W>) -> fmt::Result {
        for octet in self.0 {
            write!(f, " {octet}")?;
        }
        Ok(())
    }
}

impl<'a> Show for Spaced<'a> {
    fn show<W: fmt::Write>(&self, out: &mut W) -> fmt::Result {
        write!(out, "{self}")
    }
}
