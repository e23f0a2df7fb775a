// A lent store of octets: those that are accepted stand first, then those under way, and after them is the
// place where the next are written.
#![tactic(auto)]

ghost use Rattle.std.specs.Prelude.{◌≡◌, ◌++◌, ◌+◌, ◌≤◌, leb, length, drop};
ghost use Rattle.laws.specs.When.{when};
ghost use Rattle.store.specs.Store.{written};

// Whether a store of this length holds what is accepted and under way.
pub fn is_held(kept: usize, staged: usize, len: usize) -> bool
    ensures { result ≡ leb (kept + staged) len }
{
    kept <= len && staged <= len - kept
}

// Whether it has room for so many octets more.
fn has_room(kept: usize, staged: usize, more: usize, len: usize) -> bool
    ensures { result ≡ leb (kept + staged + more) len }
{
    is_held(kept, staged, len) && is_held(kept + staged, more, len)
}

// Copies the octets over the front of a part, one by one: by the library's `copy_from_slice` the archive for C would
// need `memmove` from outside.
fn copy_front(part: &mut [u8], octets: &[u8])
    requires { length octets.now ≤ length part.old }
    ensures { part.new ≡ octets.now ++ drop (length octets.now) part.old }
{
    for (i, &octet) in octets.iter().enumerate() {
        part[i] = octet;
    }
}

// Writes the octets into the store's middle, after those accepted and under way, and says so; or leaves
// the store where it cannot take them there.
pub fn write_at(store: &mut [u8], kept: usize, staged: usize, octets: &[u8]) -> bool
    ensures { (result ≡ leb (kept + staged + length octets.now) (length store.old)) × (store.new ≡ when result (written store.old (kept + staged) octets.now) store.old) }
{
    if !has_room(kept, staged, octets.len(), store.len()) {
        return false;
    }
    copy_front(&mut store[kept + staged..], octets);
    true
}
