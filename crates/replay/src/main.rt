// `replay`: lists of calls of the library, each written with its answer (docs/REPLAY.md).
#![tactic(auto)]

mod calls; // which call a line is
mod input; // what is read of a list
mod list; // the lines of a list

use std::env::{Env, FillError};
use std::fs::File;
use std::rt::Files;

// The most octets of an argument.
const LONGEST: usize = 4096;

// Plays the list of this name, and says whether every line of it could be read. A file whose name is no
// text cannot be opened.
fn is_played<R: Files>(rt: &R, name: &[u8]) -> bool {
    if let Ok(path) = str::from_utf8(name)
        && let Ok(mut file) = File::open(rt, path)
    {
        return list::is_played(&mut file);
    }
    output::octets(name);
    output::octets(b" cannot be opened\n");
    false
}

// The same of the list that an argument names, by its octets: `env::args` takes those alone that are text.
fn is_argument_played<R: Files + Env>(rt: &R, i: usize) -> bool {
    let mut name = [0; LONGEST];
    match rt.arg(i, &mut name) {
        Ok(count) => is_played(rt, &name[..count]),
        Err(_) => is_played(rt, b""),
    }
}

// How many arguments the program was started with, its own name among them.
fn argument_count<R: Env>(rt: &R) -> usize {
    for i in 0..usize::MAX {
        if let Err(FillError::NotPresent) = rt.arg(i, &mut [0]) {
            return i;
        }
    }
    usize::MAX
}

// Nobody is left to tell where the output cannot be written: what can be is, and every list is played.
fn main(rt: HostRuntime) {
    let count = argument_count(&rt);
    if count <= 1 {
        list::is_played(&mut rt.stdin());
    }
    // The lists that the arguments name, up to the first that cannot be read.
    for i in 1..count {
        if !is_argument_played(&rt, i) {
            break;
        }
    }
}
