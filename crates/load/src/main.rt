// The load program (document 02, A2): three numbers on standard input, the generator's state, the file's octets
// and the damage list's entries; the transfer script of that load on standard output, for the transfer program.
#![tactic(auto)]

use output::Output;
use std::fmt::Write;

// Standard input.
const STDIN: i32 = 0;

// More octets than any load has: an input that is longer is none, and nor is what is read of it.
const LONGEST: usize = 4096;

// Prints the script, or `refused` and a number as the transfer program does. Its buffers are arrays: no heap, fixed
// memory. Nobody is left to tell where the output cannot be written.
fn main() {
    let mut input = [0; LONGEST];
    let length = io::read_full(STDIN, &mut input);
    let mut script = [0; 65536];
    match load_script::write(&input[..length], &mut script) {
        Ok(count) => output::octets(&script[..count]),
        Err(error) => {
            let number = error.number();
            let _ = writeln!(Output, "refused {number}");
        }
    }
}
