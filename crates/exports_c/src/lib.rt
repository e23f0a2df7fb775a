// The static library for programs in C and Rust: the functions of `exports` under their names in C. A slice
// is two arguments, its address and its length. `rt lib` in this crate's folder writes out/libexports_c.a,
// and `tools/staticlib` puts it at target/staticlib/libexports.a.
#![tactic(auto)]

ghost use Rattle.std.specs.Prelude.{◌≡◌};
ghost use Rattle.checksum.specs.Checksum.{sum_after};
ghost use Rattle.exports.specs.Exported.{run_of, end_number, end_frames};

// The sum after the octets, modulo 256, from the sum so far, which is 0 before the first of them.
#[unsafe(no_mangle)]
pub extern "C" fn saqwinku_checksum(octets: &[u8], so_far: u8) -> u8
    ensures { result ≡ sum_after so_far octets.now }
{
    exports::saqwinku_checksum(octets, so_far)
}

// A two-party run with the Provider controlling, or controlled: 0 where it is whole, 255 where its budget is
// spent, else the number of the refusal. How many frames passed is written to `frames`.
#[unsafe(no_mangle)]
pub extern "C" fn saqwinku_run(
    cause_octets: u8,
    common_address_octets: u8,
    information_object_address_octets: u8,
    common_address: u16,
    ioa: u32,
    nof: u16,
    controlling: bool,
    file: &[u8],
    damage: &[u8],
    store: &mut [u8],
    budget: usize,
    frames: &mut usize,
) -> u8
    ensures { (result ≡ end_number (run_of cause_octets common_address_octets information_object_address_octets common_address ioa nof controlling file.now damage.now store.old budget).result)
        × (frames.new ≡ end_frames (run_of cause_octets common_address_octets information_object_address_octets common_address ioa nof controlling file.now damage.now store.old budget).result)
        × (store.new ≡ (run_of cause_octets common_address_octets information_object_address_octets common_address ioa nof controlling file.now damage.now store.old budget).store) }
{
    exports::saqwinku_run(
        cause_octets,
        common_address_octets,
        information_object_address_octets,
        common_address,
        ioa,
        nof,
        controlling,
        file,
        damage,
        store,
        budget,
        frames,
    )
}
