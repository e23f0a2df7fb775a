// The record of an ended two-party run, for the window over the last transfers (document 02, A14): so
// maintenance feeds the window from what the run answers.
#![tactic(auto)]

ghost use Rattle.std.specs.Prelude.{◌≡◌};
ghost use Rattle.ended_run.specs.Record.{in32_bits, record_with, record_of};

use asdu::FtError;
use run::Ending;
use window::Ended;

// A number over 32 bits stays at their largest value.
fn in_32_bits(n: usize) -> u32
    ensures { result ≡ in32_bits n }
{
    u32::try_from(n).unwrap_or(u32::MAX)
}

// A record of these numbers.
fn recorded(octets: usize, frames: usize, damaged: usize, whole: bool) -> Ended
    ensures { result ≡ record_with octets frames damaged whole }
{
    Ended {
        octets: in_32_bits(octets),
        frames: in_32_bits(frames),
        damaged: in_32_bits(damaged),
        whole,
    }
}

// The record of a run by its answer, with so many damaged sendings. A spent run's answer names no octets, and
// none are counted as held.
pub fn record_of(res: Result<Ending, FtError>, damaged: usize) -> Result<Ended, FtError>
    ensures { result ≡ record_of res damaged }
{
    match res? {
        Ending::Whole { length, frames } => Ok(recorded(length, frames, damaged, true)),
        Ending::Spent { frames } => Ok(recorded(0, frames, damaged, false)),
    }
}
