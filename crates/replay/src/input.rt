// What is read of a list, cut into lines: fixed memory.
ghost use Rattle.std.specs.Prelude.{◌≤◌};

use std::io::Read;

// The most octets of a line that can be read.
pub const LONGEST: usize = 65535;

// Room for such a line and its newline.
const ROOM: usize = LONGEST + 1;

// What has been read. Of it what stands before `begin` is played, and what stands from there up to `end` is not.
#[derive(Drop)]
pub struct Input {
    octets: [u8; ROOM],
    begin: usize,
    end: usize,
    ghost ordered: { begin ≤ end },
    ghost within: { end ≤ 65536 },
}

impl Input {
    pub fn new() -> Input {
        Input {
            octets: [0; ROOM],
            begin: 0,
            end: 0,
        }
    }

    // Where the next line ends, counted from where it begins, if its newline has been read.
    fn newline(&self) -> Option<usize> {
        self.octets[self.begin..self.end]
            .iter()
            .position(|octet| *octet == b'\n')
    }

    // Reads more behind what is not played yet, and says whether there was more; there is none where there is no
    // more room, or the read fails.
    fn is_more<R: Read>(&mut self, reader: &mut R) -> bool {
        self.octets.copy_within(self.begin..self.end, 0);
        self.end -= self.begin;
        self.begin = 0;
        match reader.read(&mut self.octets[self.end..]) {
            Ok(0) | Err(_) => false,
            Ok(count) => {
                self.end += count;
                true
            }
        }
    }

    // The next line, without its newline. A line ends with the input too, and where there is no more room: so many
    // octets are then a line, and what follows them is the next one.
    pub fn next_line<R: Read>(&mut self, reader: &mut R) -> Option<&[u8]> {
        let mut newline = self.newline();
        for _ in 0..ROOM {
            if newline.is_some() || !self.is_more(reader) {
                break;
            }
            newline = self.newline();
        }
        let begin = self.begin;
        let rest = self.end - begin;
        if rest == 0 {
            return None;
        }
        let length = newline.unwrap_or(rest).min(rest);
        self.begin = self.end.min(begin + length + 1);
        Some(&self.octets[begin..begin + length])
    }
}
