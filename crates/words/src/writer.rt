// Where an answer is written: on standard output, behind its line.
ghost use Rattle.std.specs.Prelude.{◌≡◌, Ok};

use crate::Answered;
use crate::destination::Out;
use arrayvec::ArrayVec;
use std::fmt;

// Collects an answer behind its line, up to what it has room for: then that goes out, and it collects on. So few calls
// write an answer, and one of any length takes no more memory. What cannot be written is lost, and the list goes on.
#[derive(Drop)]
pub struct Writer {
    collected: ArrayVec<u8, 1024>,
}

impl Writer {
    // Puts a line that has been read to its end, for its answer to follow it.
    pub fn behind(line: &[u8]) -> Writer {
        let mut out = Writer {
            collected: ArrayVec::new(),
        };
        out.put(line);
        out.put(b" -> ");
        out
    }

    // Collects octets. Where they do not fit, what is collected goes out first; more than there is room for goes out
    // itself.
    fn put(&mut self, octets: &[u8]) {
        if self.collected.try_extend_from_slice(octets).is_ok() {
            return;
        }
        output::octets(&self.collected);
        self.collected.clear();
        if self.collected.try_extend_from_slice(octets).is_err() {
            output::octets(octets);
        }
    }

    // Ends the answer and its line.
    pub fn finish(self) -> Answered
        ensures { result ≡ Ok tt }
    {
        Out::finish(self)
    }
}

impl Out for Writer {
    // What is collected goes out here.
    fn finish(mut self) -> Answered {
        self.put(b"\n");
        output::octets(&self.collected);
        Ok(())
    }
}

impl fmt::Write for Writer {
    fn write_str(&mut self, text: &str) -> fmt::Result {
        self.put(text.as_bytes());
        Ok(())
    }
}
