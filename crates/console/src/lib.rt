// A transfer at the console: what document 01 (A transfer script) prints of a script goes to standard
// output. What is read, run and printed is proved in `script`, `twoparty` and `run`; here nothing is decided.
#![tactic(auto)]

ghost use Rattle.std.specs.Prelude.{◌≡◌};
ghost use Rattle.script.specs.Reader.{script_of};
ghost use Rattle.console.specs.Program.{settings_with, transferred, played};

use asdu::{AddressSizes, FtError, Nof};
use ft::Role;
use run::Ending;
use script::read;
use std::fmt;
use twoparty::{NextFrame, Settings, TwoParty};

// More frames than any script takes.
const BUDGET: usize = 65535;

// What a script gives a run.
#[derive(Clone, Copy)]
struct Transfer<'a> {
    settings: Settings,
    file: &'a [u8],
    damage: &'a [u8],
}

fn settings(ioa: u32, nof: Nof) -> Settings
    ensures { result ≡ settings_with ioa nof }
{
    Settings {
        sizes: AddressSizes::CONVENTIONAL,
        common_address: 1,
        ioa,
        nof,
        role: Role::Controlled,
    }
}

fn print_refused<W: fmt::Write>(out: &mut W, error: FtError) -> fmt::Result {
    let number = error.number();
    writeln!(out, "refused {number}")
}

fn print_frame<W: fmt::Write>(out: &mut W, passing: NextFrame) -> fmt::Result {
    let mut line = [0; 32];
    let count = lines::line(passing.sender, passing.frame, &mut line);
    match str::from_utf8(&line[..count]) {
        Ok(text) => out.write_str(text),
        Err(_) => Err(fmt::Error),
    }
}

impl Transfer<'_> {
    // The run says how it ends and after how many frames.
    fn run(&self, store: &mut [u8]) -> Result<Ending, FtError>
        ensures { (result ≡ (transferred self.now.settings self.now.file.now self.now.damage.now store.old).result)
            × (store.new ≡ (transferred self.now.settings self.now.file.now self.now.damage.now store.old).store) }
    {
        run::run(self.settings, self.file, self.damage, store, BUDGET)
    }

    // The frames of a run, one by one. No step of a transfer that was made is refused.
    fn print_frames<W: fmt::Write>(&self, out: &mut W, frames: usize) -> fmt::Result {
        let mut store = [0; 8192];
        let mut party = match TwoParty::new(self.settings, self.file, self.damage, &store) {
            Ok(party) => party,
            Err(error) => return print_refused(out, error),
        };
        for _ in 0..frames {
            match party.next_frame(self.file) {
                Ok(Some(passing)) => print_frame(out, passing)?,
                Ok(None) => {}
                Err(error) => print_refused(out, error)?,
            }
            if let Ok(next) = party.step(self.file, self.damage, &mut store) {
                party = next;
            }
        }
        Ok(())
    }

    // The frames of the run, then how it ended.
    fn print<W: fmt::Write>(&self, out: &mut W, ended: Result<Ending, FtError>) -> fmt::Result {
        match ended {
            Ok(Ending::Whole { length, frames }) => {
                self.print_frames(out, frames)?;
                writeln!(out, "whole {length}")
            }
            Ok(Ending::Spent { frames }) => {
                self.print_frames(out, frames)?;
                writeln!(out, "spent")
            }
            Err(error) => print_refused(out, error),
        }
    }
}

// Runs the script that the text is, into the lent store: prints one line for each frame that passes,
// then how it ended, or `refused 11` alone. It answers how it ended; nobody is left to tell where nothing can be
// printed. The octets read stand in arrays of its own: fixed memory is a rule of the project.
#[tactic(auto, unfolding(script::specs::Answers::answer_of, script::specs::Answers::file_after, script::specs::Answers::damage_after))]
pub fn play<W: fmt::Write>(out: &mut W, text: &[u8], store: &mut [u8]) -> Result<Ending, FtError>
    ensures { (result ≡ (played store.old (script_of text.now)).result)
        × (store.new ≡ (played store.old (script_of text.now)).store) }
{
    let mut file = [0; 8192];
    let mut damage = [0; 255];
    match read::read(text, &mut file, &mut damage) {
        Ok(script) => {
            let transfer = Transfer {
                settings: settings(script.ioa, script.nof),
                file: &file[..script.file_len],
                damage: &damage[..script.damage_len],
            };
            let ended = transfer.run(store);
            let _ = transfer.print(out, ended);
            ended
        }
        Err(error) => {
            let _ = print_refused(out, error);
            Err(error)
        }
    }
}
