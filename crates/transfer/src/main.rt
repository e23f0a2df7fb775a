// The transfer program: a script on standard input, its frames and its end on standard output.
#![tactic(auto)]

use output::Output;

// Standard input.
const STDIN: i32 = 0;

// More octets than any script has: an input that is longer is none, and nor is what is read of it.
const LONGEST: usize = 65536;

// Its buffers are arrays: no heap, fixed memory.
fn main() {
    let mut input = [0; LONGEST];
    let length = io::read_full(STDIN, &mut input);
    let mut store = [0; 8192];
    let _ = console::play(&mut Output, &input[..length], &mut store);
}
