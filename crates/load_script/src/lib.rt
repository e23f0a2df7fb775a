// The transfer script of a test load (document 02, A2). Three numbers are read from a text, in the form of a
// transfer script's (document 01): the generator's state, the file's octets and the damage list's entries.
// The generator fills the file, goes on to the damage list, and the script of both is written as text.
#![tactic(auto)]

ghost use Rattle.std.specs.Prelude.{◌≡◌, [], ◌∷◌, ◌++◌, ◌+◌, ◌*◌, ◌≤◌, length, IfSome, IfOk};
ghost use Rattle.script.specs.Decimal.{decimal, spaced};
ghost use Rattle.script.specs.Script.{text_of};
ghost use Rattle.script.specs.Answers.{over};
ghost use Rattle.lines.specs.Putting.{Put};
ghost use Rattle.load_script.specs.Load.{load_of, object, name, after_file, file_of, damage_of, script_with, script_for};
ghost use Rattle.load_script.specs.Answers.{answer_of, text_after};

use asdu::FtError;
use generator::{Damage, Generator};
use lines::put_number;
use script::read::{MAX_DAMAGE, MAX_FILE, Reader};

// The largest state.
const MAX_STATE: u32 = 0xFFFF_FFFF;

// The object address and the name of the file, as document 01's worked script has them.
const OBJECT: u32 = 100;

const NAME: u32 = 7;

// A test load: the generator's state before it, how many octets the file has, and for how many entries
// the damage list has places.
#[derive(Clone, Copy, PartialEq, Eq)]
pub struct Load {
    pub state: u32,
    pub octets: u32,
    pub entries: u32,
}

// A load's bounds are asked for where they count, and are no invariant of the type: its definitions take any three
// numbers.
impl Load {
    // Reads a load.
    #[tactic(auto, using(laws::proofs::Decide::whens), unfolding(crate::specs::Load::load_of, crate::specs::Load::load_body))]
    fn read(text: &[u8]) -> Option<Load>
        ensures found { result ≡ load_of text.now }
        ensures within { IfSome result (λ l. (l.octets ≤ 8192) × (l.entries ≤ 255)) }
    {
        let mut reader = Reader { rest: text };
        let state = reader.number(MAX_STATE)?;
        let octets = reader.spaced_number(MAX_FILE)?;
        let entries = reader.spaced_number(MAX_DAMAGE)?;
        if !reader.is_end() {
            return None;
        }
        Some(Load {
            state,
            octets,
            entries,
        })
    }

    // Its file, in the front of a buffer, and the generator after it.
    #[tactic(auto, using(crate::proofs::Filling::filling))]
    fn file(self, buffer: &mut [u8; 8192]) -> (Generator, &[u8])
        requires { self.octets ≤ 8192 }
        ensures { (result.0 ≡ after_file self) × (result.1.now ≡ file_of self) }
    {
        let begun = Generator { state: self.state };
        let file = &mut buffer[..self.octets as usize];
        let Ok(after) = begun.fill_file(file) else {
            unreachable!();
        };
        (after, file)
    }

    // Its damage list, in the front of a buffer, from the generator after the file.
    #[tactic(auto, using(crate::proofs::Filling::filling))]
    fn damage(self, after: Generator, buffer: &mut [u8; 255]) -> &[u8]
        requires { (self.octets ≤ 8192) × (self.entries ≤ 255) × (after ≡ after_file self) }
        ensures { result.now ≡ damage_of self }
    {
        let places = &mut buffer[..self.entries as usize];
        let Ok(Damage { count, .. }) = after.fill_damage(self.octets as usize, places) else {
            unreachable!();
        };
        &places[..count as usize]
    }

    // Writes its script over the front of out, and answers its length.
    #[tactic(auto, using(crate::proofs::Filling::lengths))]
    fn write(self, out: &mut [u8; 65536]) -> usize
        requires { (self.octets ≤ 8192) × (self.entries ≤ 255) }
        ensures { (result ≡ length (text_of (script_for self))) × (out.new ≡ over (text_of (script_for self)) out.old) × (result ≤ 33810) }
    {
        let mut file = [0u8; 8192];
        let mut damage = [0u8; 255];
        let (after, file) = self.file(&mut file);
        let damage = self.damage(after, &mut damage);
        put_script(out, file, damage)
    }
}

// Puts octets as numbers, each after one space, which take four octets each at most.
fn put_octets(out: &mut [u8], at: usize, octets: &[u8]) -> usize
    requires { at + 4 * length octets.now ≤ length out.old }
    ensures { (result ≤ at + 4 * length octets.now) × Put out.old at (spaced octets.now) result out.new }
{
    let mut next = at;
    for octet in octets {
        next = put_number(out, next, u32::from(*octet));
    }
    next
}

// Puts octets after their count.
fn put_counted(out: &mut [u8], at: usize, octets: &[u8]) -> usize
    requires { (length octets.now ≤ 9999) × (at + 5 + 4 * length octets.now ≤ length out.old) }
    ensures { (result ≤ at + 5 + 4 * length octets.now) × Put out.old at (spaced (length octets.now ∷ octets.now)) result out.new }
{
    let next = put_number(out, at, octets.len() as u32);
    put_octets(out, next, octets)
}

// Puts a script's settings after their count.
fn put_settings(out: &mut [u8]) -> usize
    requires { 11 ≤ length out.old }
    ensures { (result ≤ 11) × Put out.old 0 (decimal 2 ++ spaced (object ∷ name ∷ [])) result out.new }
{
    out[0] = b'2';
    let next = put_number(out, 1, OBJECT);
    put_number(out, next, NAME)
}

// Puts a script's text, of at most 33,810 octets, over the front of out.
fn put_script(out: &mut [u8], file: &[u8], damage: &[u8]) -> usize
    requires { (length file.now ≤ 8192) × (length damage.now ≤ 255) × (33810 ≤ length out.old) }
    ensures { (result ≤ 33810) × Put out.old 0 (text_of (script_with file.now damage.now)) result out.new }
{
    let mut at = put_settings(out);
    at = put_counted(out, at, file);
    at = put_counted(out, at, damage);
    out[at] = b'\n';
    at + 1
}

// Writes the script of the load that the text is over the front of out, and answers its length. A text that
// is no load is 11, and nothing is written. Files, lists and texts are lent arrays: fixed memory is a rule of
// the project.
#[tactic(auto, unfolding(crate::specs::Answers::answer_of, crate::specs::Answers::text_after))]
pub fn write(text: &[u8], out: &mut [u8; 65536]) -> Result<usize, FtError>
    ensures { (result ≡ answer_of (load_of text.now)) × (out.new ≡ text_after (load_of text.now) out.old) × IfOk result (λ n. n ≤ 33810) }
{
    let Some(load) = Load::read(text) else {
        return Err(FtError::ScriptMisshapen);
    };
    Ok(load.write(out))
}
