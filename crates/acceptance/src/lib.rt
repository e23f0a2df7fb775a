// What a close makes of the octets that a Receiver holds (document 01, The Receiver's record): a section is
// accepted or dropped by its sum, and the file is whole or not by the sum of what is accepted. The store is
// lent: the accepted octets first, then those of the section under way.
#![tactic(auto)]

ghost use Rattle.std.specs.Prelude.{◌≡◌};
ghost use Rattle.acceptance.specs.Closed.{section_closed, file_closed};

use asdu::Chs;

// How many octets of the store are accepted, and how many after them are under way.
#[derive(Clone, Copy, PartialEq, Eq)]
pub struct Held {
    pub kept: usize,
    pub staged: usize,
}

// What a section's close comes to, and what is held after it: cases, by which the acknowledgement goes, and no
// flag.
#[derive(Clone, Copy, PartialEq, Eq)]
pub enum SectionClosed {
    Accepted(Held),
    Dropped(Held),
}

// What the file's close comes to, and what is held after it: two endings of a transfer, neither of them a
// refusal.
#[derive(Clone, Copy, PartialEq, Eq)]
pub enum FileClosed {
    Whole(Held),
    // The accepted octets have this sum, not the stated one.
    Differs { expected: Chs, held: Held },
}

// A section's close: it is accepted where the store holds it and its sum is the stated one, else dropped.
pub fn close_section(held: Held, store: &[u8], chs: Chs) -> SectionClosed
    ensures { result ≡ section_closed held store.now chs }
{
    let Held { kept, staged } = held;
    let sum = checksum::checksum(sections::cut(store, kept, staged), 0);
    if store::is_held(kept, staged, store.len()) && sum == chs {
        return SectionClosed::Accepted(Held {
            kept: kept + staged,
            staged: 0,
        });
    }
    SectionClosed::Dropped(Held { kept, staged: 0 })
}

// The file's close: it is whole where the sum of the accepted octets is the stated one. A section under way
// is not summed, and is dropped.
pub fn close_file(held: Held, store: &[u8], chs: Chs) -> FileClosed
    ensures { result ≡ file_closed held store.now chs }
{
    let Held { kept, staged } = held;
    let expected = checksum::checksum(sections::cut(store, 0, kept), 0);
    let held = Held { kept, staged: 0 };
    if store::is_held(kept, staged, store.len()) && expected == chs {
        return FileClosed::Whole(held);
    }
    FileClosed::Differs { expected, held }
}
