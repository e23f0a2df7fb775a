// A damaged sending: its first segment is hit, and the segment's first octet raised.
ghost use Rattle.std.specs.Prelude.{◌≡◌, ◌≤◌, length, take, nat_eq};
ghost use Rattle.laws.specs.When.{when, ◌and◌};
ghost use Rattle.exchange.specs.Damaging.{raised};

// Whether a frame at this index of a reply is the one that a damaged sending is hit at.
#[tactic(auto, using(laws::proofs::Decide::decide))]
pub(crate) fn is_hit(damaged: bool, index: usize) -> bool
    ensures { result ≡ (damaged and nat_eq index 0) }
{
    damaged && index == 0
}

// Puts in front what arrives of a segment that the radio hits: its octets, the first one raised by 1
// modulo 256.
fn raise(payload: &[u8], out: &mut [u8])
    requires { length payload.now ≤ length out.old }
    ensures { take (length payload.now) out.new ≡ raised payload.now }
{
    for (i, &octet) in payload.iter().enumerate() {
        out[i] = octet;
    }
    if !payload.is_empty() {
        out[0] = payload[0].wrapping_add(1);
    }
}

// What arrives of a segment: its octets, or a copy of them with the first one raised where the radio hits it.
#[tactic(auto, using(laws::proofs::Decide::decide))]
pub(crate) fn arriving<'a>(payload: &'a [u8], hit: bool, copy: &'a mut [u8]) -> &'a [u8]
    requires { length payload.now ≤ length copy.old }
    ensures { result.now ≡ when hit (raised payload.now) payload.now }
{
    if !hit {
        return payload;
    }
    raise(payload, copy);
    &copy[..payload.len()]
}
