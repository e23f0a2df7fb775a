// What programs in C and Rust may call, on numbers and slices, as the C interface has them. Each function is
// proved and total like every public entry. `exports_c` is the static library that gives these functions their
// names in C.
#![tactic(auto)]

ghost use Rattle.std.specs.Prelude.{◌≡◌};
ghost use Rattle.checksum.specs.Checksum.{sum_after};
ghost use Rattle.exports.specs.Exported.{role_of, settings_of, run_of, end_number, end_frames};

use asdu::{AddressSizes, FtError, Nof};
use ft::Role;
use run::Ending;
use twoparty::Settings;

// What a run answers whose budget is spent: no refusal has this number.
const SPENT: u8 = 255;

fn role_of(controlling: bool) -> Role
    ensures { result ≡ role_of controlling }
{
    if controlling {
        Role::Controlling
    } else {
        Role::Controlled
    }
}

fn settings(
    cause_octets: u8,
    common_address_octets: u8,
    information_object_address_octets: u8,
    common_address: u16,
    ioa: u32,
    nof: u16,
    controlling: bool,
) -> Settings
    ensures { result ≡ settings_of cause_octets common_address_octets information_object_address_octets common_address ioa nof controlling }
{
    Settings {
        sizes: AddressSizes {
            cause_octets,
            common_address_octets,
            information_object_address_octets,
        },
        common_address,
        ioa,
        nof: Nof { value: nof },
        role: role_of(controlling),
    }
}

// How a run ended, as a number.
fn end_number(res: Result<Ending, FtError>) -> u8
    ensures { result ≡ end_number res }
{
    match res {
        Ok(Ending::Whole { .. }) => 0,
        Ok(Ending::Spent { .. }) => SPENT,
        Err(error) => error.number(),
    }
}

// How many frames passed.
fn end_frames(res: Result<Ending, FtError>) -> usize
    ensures { result ≡ end_frames res }
{
    match res {
        Ok(Ending::Whole { frames, .. } | Ending::Spent { frames }) => frames,
        Err(_) => 0,
    }
}

// The sum after the octets, modulo 256, from the sum so far, which is 0 before the first of them.
pub fn saqwinku_checksum(octets: &[u8], so_far: u8) -> u8
    ensures { result ≡ sum_after so_far octets.now }
{
    checksum::checksum(octets, so_far).value
}

// A two-party run with the Provider controlling, or controlled: 0 where it is whole, 255 where its budget is
// spent, else the number of the refusal. How many frames passed is written to `frames`.
pub fn saqwinku_run(
    cause_octets: u8,
    common_address_octets: u8,
    information_object_address_octets: u8,
    common_address: u16,
    ioa: u32,
    nof: u16,
    controlling: bool,
    file: &[u8],
    damage: &[u8],
    store: &mut [u8],
    budget: usize,
    frames: &mut usize,
) -> u8
    ensures { (result ≡ end_number (run_of cause_octets common_address_octets information_object_address_octets common_address ioa nof controlling file.now damage.now store.old budget).result)
        × (frames.new ≡ end_frames (run_of cause_octets common_address_octets information_object_address_octets common_address ioa nof controlling file.now damage.now store.old budget).result)
        × (store.new ≡ (run_of cause_octets common_address_octets information_object_address_octets common_address ioa nof controlling file.now damage.now store.old budget).store) }
{
    let given = settings(
        cause_octets,
        common_address_octets,
        information_object_address_octets,
        common_address,
        ioa,
        nof,
        controlling,
    );
    let result = run::run(given, file, damage, store, budget);
    *frames = end_frames(result);
    end_number(result)
}
