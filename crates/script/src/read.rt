// Reading a script: from a text's front on each part is found and taken off, or it is not there.
ghost use Rattle.std.specs.Prelude.{◌≡◌, false, ◌∷◌, ◌+◌, ◌≤◌, length, MatchOption, IfSome, IfNone, IfOk};
ghost use Rattle.script.specs.Reader.{begins, begins_digit, number, spaced_number, numbers, counted_octets, ends, script_of};
ghost use Rattle.script.specs.Answers.{answer_of, file_after, damage_after};
ghost use Rattle.script.specs.Left.{found_in, octets_in, lent_in, script_in};

use crate::Outline;
use asdu::{FtError, Nof};

// The largest object address that three octets hold, and the largest name of a file.
const MAX_OBJECT: u32 = 0xFF_FFFF;

const MAX_NAME: u32 = 0xFFFF;

// The most octets of a file, and the most sections that its damage names.
pub const MAX_FILE: u32 = 8192;

pub const MAX_DAMAGE: u32 = 255;

const MAX_OCTET: u32 = 255;

// What is left of a text that is read. Each public method takes what it finds off the front; where it finds nothing,
// all that was left is left still.
#[derive(Drop)]
pub struct Reader<'a> {
    pub rest: &'a [u8],
}

impl<'a> Reader<'a> {
    // This octet.
    #[tactic(auto, using(laws::proofs::Decide::decide), unfolding(crate::specs::Reader::begins))]
    pub fn octet(&mut self, octet: u8) -> Option<()>
        ensures { MatchOption result ((begins octet self.old.rest.now ≡ false) × (self.new.rest.now ≡ self.old.rest.now)) (λ _. self.old.rest.now ≡ octet ∷ self.new.rest.now) }
    {
        let (first, rest) = self.rest.split_first()?;
        if *first != octet {
            return None;
        }
        self.rest = rest;
        Some(())
    }

    // A digit, by what it counts. Where none stands in front, what is left stays.
    #[tactic(auto, using(laws::proofs::Decide::decide), unfolding(crate::specs::Reader::begins_digit))]
    fn digit(&mut self) -> Option<u8>
        ensures { MatchOption result ((begins_digit self.old.rest.now ≡ false) × (self.new.rest.now ≡ self.old.rest.now)) (λ d. (d ≤ 9) × (self.old.rest.now ≡ (48 + d) ∷ self.new.rest.now)) }
    {
        let (first, rest) = self.rest.split_first()?;
        if !first.is_ascii_digit() {
            return None;
        }
        self.rest = rest;
        Some(*first - b'0')
    }

    // The number whose digits stand in front; of a number that is refused, some digits may be gone. A digit more
    // than any limit has is within 64 bits.
    #[tactic(auto, using(crate::proofs::ReaderLaws::reading))]
    fn digits(&mut self, limit: u32) -> Option<u32>
        ensures found { found_in result self.new.rest.now ≡ number limit self.old.rest.now }
        ensures small { IfSome result (λ n. n ≤ limit) }
    {
        let mut value = u64::from(self.digit()?);
        // A `for` over the octets is no plainer: what is left behind the last digit has to be kept.
        while value <= u64::from(limit) {
            let Some(digit) = self.digit() else {
                return Some(value as u32);
            };
            if value == 0 {
                return None;
            }
            value = 10 * value + u64::from(digit);
        }
        None
    }

    // A number to its limit, without leading zeros. It is read ahead, and taken off only where it is found.
    pub fn number(&mut self, limit: u32) -> Option<u32>
        ensures found { found_in result self.new.rest.now ≡ number limit self.old.rest.now }
        ensures small { IfSome result (λ n. n ≤ limit) }
        ensures kept { IfNone result (self.new.rest.now ≡ self.old.rest.now) }
    {
        let mut ahead = Reader { rest: self.rest };
        let value = ahead.digits(limit)?;
        self.rest = ahead.rest;
        Some(value)
    }

    // A number after one space, taken off with it only where both are found.
    #[tactic(auto, using(laws::proofs::Decide::decide), unfolding(crate::specs::Reader::spaced_number, crate::specs::Reader::begins))]
    pub fn spaced_number(&mut self, limit: u32) -> Option<u32>
        ensures found { found_in result self.new.rest.now ≡ spaced_number limit self.old.rest.now }
        ensures small { IfSome result (λ n. n ≤ limit) }
        ensures kept { IfNone result (self.new.rest.now ≡ self.old.rest.now) }
    {
        let mut ahead = Reader { rest: self.rest };
        ahead.octet(b' ')?;
        let value = ahead.number(limit)?;
        self.rest = ahead.rest;
        Some(value)
    }

    // As many octets as the buffer has places, as numbers, each after one space.
    #[tactic(auto, using(crate::proofs::ListLaws::in_turn))]
    fn octets(&mut self, out: &mut [u8]) -> Option<()>
        ensures { octets_in result out.new self.new.rest.now ≡ numbers (length out.old) self.old.rest.now }
    {
        for place in out.iter_mut() {
            *place = self.spaced_number(MAX_OCTET)? as u8;
        }
        Some(())
    }

    // So many octets after their count, in the front of the buffer.
    #[tactic(auto, unfolding(crate::specs::Reader::counted_octets))]
    fn counted_octets<'b>(&mut self, limit: u32, out: &'b mut [u8]) -> Option<&'b [u8]>
        requires { limit ≤ length out.old }
        ensures found { lent_in result self.new.rest.now ≡ counted_octets limit self.old.rest.now }
        ensures few { IfSome result (λ octets. length octets.now ≤ limit) }
    {
        let count = self.spaced_number(limit)? as usize;
        let octets = &mut out[..count];
        self.octets(octets)?;
        Some(octets)
    }

    // Whether what is left is one newline and nothing more.
    #[tactic(auto, using(laws::proofs::Decide::decide), unfolding(crate::specs::Reader::ends, crate::specs::Reader::begins))]
    pub fn is_end(&self) -> bool
        ensures { result ≡ ends self.now.rest.now }
    {
        matches!(self.rest, [b'\n'])
    }
}

// What a script says, its octets in buffers that were lent to read it.
#[derive(Clone, Copy)]
struct ReadScript<'a> {
    ioa: u32,
    nof: Nof,
    file: &'a [u8],
    damage: &'a [u8],
}

// The script that a text is, its octets in the fronts of the buffers; what these hold otherwise is open, so `read`
// lends buffers of its own.
#[tactic(auto, using(laws::proofs::Decide::whens), unfolding(crate::specs::Reader::script_of, crate::specs::Reader::script_body, crate::specs::Reader::settings, crate::specs::Reader::begins))]
fn script<'b>(
    text: &[u8],
    file: &'b mut [u8; 8192],
    damage: &'b mut [u8; 255],
) -> Option<ReadScript<'b>>
    ensures found { script_in result ≡ script_of text.now }
    ensures few { IfSome result (λ s. (length s.file.now ≤ 8192) × (length s.damage.now ≤ 255)) }
{
    let mut reader = Reader { rest: text };
    reader.octet(b'2')?;
    let ioa = reader.spaced_number(MAX_OBJECT)?;
    let nof = reader.spaced_number(MAX_NAME)?;
    let file = reader.counted_octets(MAX_FILE, file)?;
    let damage = reader.counted_octets(MAX_DAMAGE, damage)?;
    if !reader.is_end() {
        return None;
    }
    Some(ReadScript {
        ioa,
        nof: Nof { value: nof as u16 },
        file,
        damage,
    })
}

// Reads a script: its octets go over the fronts of the buffers, which any other text leaves as they were. So
// it is read into others first. The buffers stay arrays: fixed memory is a rule of the project, and the clauses
// say what they hold afterwards.
#[tactic(auto, unfolding(crate::specs::Answers::answer_of, crate::specs::Answers::file_after, crate::specs::Answers::damage_after))]
pub fn read(text: &[u8], file: &mut [u8; 8192], damage: &mut [u8; 255]) -> Result<Outline, FtError>
    ensures exact { (result ≡ answer_of (script_of text.now)) × (file.new ≡ file_after (script_of text.now) file.old) × (damage.new ≡ damage_after (script_of text.now) damage.old) }
    ensures few { IfOk result (λ s. (s.file_len ≤ 8192) × (s.damage_len ≤ 255)) }
{
    let mut octets = [0u8; 8192];
    let mut sections = [0u8; 255];
    let Some(script) = script(text, &mut octets, &mut sections) else {
        return Err(FtError::ScriptMisshapen);
    };
    let file_len = script.file.len();
    let damage_len = script.damage.len();
    file[..file_len].copy_from_slice(script.file);
    damage[..damage_len].copy_from_slice(script.damage);
    Ok(Outline {
        ioa: script.ioa,
        nof: script.nof,
        file_len,
        damage_len,
    })
}
