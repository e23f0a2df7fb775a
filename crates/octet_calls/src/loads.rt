// Calls of the test load's generator: its steps, and a file and a damage list that it fills.
use generator::{Damage, Generator};
use kept::Kept;
use shown::end_with;
use std::fmt;
use std::fmt::Write;
use words::destination::{Destination, Lent, OnOutput, Out};
use words::{Answered, Unanswered, Words};

// STATE.
fn generator(words: &mut Words<'_>) -> Result<Generator, Unanswered> {
    Ok(Generator {
        state: words.value()?,
    })
}

fn step<D: Destination>(words: &mut Words<'_>, to: D) -> Answered {
    let before = generator(words)?;
    let mut out = to.end(words)?;
    let next = before.step();
    write!(out, "{} {}", next.state, next.octet())?;
    out.finish()
}

fn fill_file<D: Destination>(words: &mut Words<'_>, kept: &mut Kept, to: D) -> Answered {
    let before = generator(words)?;
    let out = to.end(words)?;
    match before.fill_file(&mut kept.file) {
        Ok(after) => end_with(after.state, out),
        Err(error) => end_with(error, out),
    }
}

fn fill_damage<D: Destination>(words: &mut Words<'_>, kept: &mut Kept, to: D) -> Answered {
    let before = generator(words)?;
    let length: usize = words.value()?;
    let mut out = to.end(words)?;
    match before.fill_damage(length, &mut kept.damage) {
        Ok(Damage { count, generator }) => {
            write!(out, "{count} {}", generator.state)?;
            out.finish()
        }
        Err(error) => end_with(error, out),
    }
}

// Answers a call of the generator, over file and damage.
fn answered<D: Destination>(words: &mut Words<'_>, kept: &mut Kept, to: D) -> Answered {
    match words.word()? {
        "step" => step(words, to),
        "file" => fill_file(words, kept, to),
        "damage" => fill_damage(words, kept, to),
        _ => Err(Unanswered::Unread),
    }
}

// The same, into a writer that is lent. What stands behind the call is left to read.
pub fn call<W: fmt::Write>(words: &mut Words<'_>, kept: &mut Kept, out: &mut W) -> Answered {
    answered(words, kept, Lent(out))
}

// The same, on standard output. Nothing may stand behind the call.
pub fn call_on_output(words: &mut Words<'_>, kept: &mut Kept) -> Answered {
    answered(words, kept, OnOutput)
}
