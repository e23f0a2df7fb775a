// Standard output as a writer of text, over the kit's `io`: of the C library a program that prints by it rests on
// `write` alone, where the standard library's own output also rests on `errno`.
#![tactic(auto)]

use std::fmt;

// Standard output.
const STDOUT: i32 = 1;

#[derive(Clone, Copy)]
pub struct Output;

// It answers that all went well even where the octets could not go out: a program then goes on to what it has left
// to print, since nobody is there to tell.
impl fmt::Write for Output {
    fn write_str(&mut self, text: &str) -> fmt::Result {
        octets(text.as_bytes());
        Ok(())
    }
}

// Writes octets, of which a text may be made, as far as they can go out.
pub fn octets(octets: &[u8]) {
    io::write_all(STDOUT, octets);
}
