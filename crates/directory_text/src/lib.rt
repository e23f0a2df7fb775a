// Directory entries as text, and the page to print that they make (document 02, A3): one entry to a line, which
// is its 17 octets in decimal, without leading zeros, parted by single spaces, and one newline.
#![tactic(auto)]

ghost use Rattle.std.specs.Prelude.{◌≡◌, ◌≤◌, [], length, IfOk};
ghost use Rattle.script.specs.Left.{found_in};
ghost use Rattle.directory_text.specs.Text.{behind, octet_in, entries_of};
ghost use Rattle.directory_text.specs.Reading.{read_as};
ghost use Rattle.directory_text.specs.Answers.{text_answer, text_after};

use arrayvec::ArrayVec;
use asdu::FtError;
use script::read::Reader;
use stored::STORED;

// The most octets of a text's entries, of which there are a thousand at most.
const MAX_OCTETS: usize = 17000;

// The largest octet.
const LARGEST: u32 = 255;

// What stands behind octet k of a text: a newline behind the last of an entry, else a space.
#[tactic(auto, using(laws::proofs::Decide::decide), unfolding(crate::specs::Text::behind))]
fn behind(k: usize) -> u8
    ensures { result ≡ behind k }
{
    if k % STORED == 16 { b'\n' } else { b' ' }
}

// Octet k, and what stands behind it.
#[tactic(auto, using(laws::proofs::Decide::decide), unfolding(crate::specs::Text::octet_in, script::specs::Reader::begins))]
fn octet_in(reader: &mut Reader, k: usize) -> Option<u8>
    ensures { found_in result reader.new.rest.now ≡ octet_in k reader.old.rest.now }
{
    let octet = reader.number(LARGEST)?;
    reader.octet(behind(k))?;
    Some(octet as u8)
}

// Reads the entries of a text into an empty vector, which its caller owns: handed out, it would be copied twice.
#[tactic(auto, using(crate::proofs::OctetLaws::entries))]
fn read_entries(text: &[u8], octets: &mut ArrayVec<u8, MAX_OCTETS>) -> Option<()>
    requires { octets.old.items ≡ [] }
    ensures { read_as result octets.new ≡ entries_of text.now }
{
    let mut reader = Reader { rest: text };
    // A `for` is no plainer: how many octets come is told by the text's end alone.
    while !reader.rest.is_empty() {
        let octet = octet_in(&mut reader, octets.len())?;
        octets.try_push(octet).ok()?;
    }
    if octets.len() % STORED != 0 {
        return None;
    }
    Some(())
}

// Writes the page of the entries that a text is over the front of a lent page, and answers how many octets it
// has. A text that is no entries is 11, before all else, and what is refused writes nothing.
#[tactic(auto, unfolding(crate::specs::Answers::text_answer, crate::specs::Answers::text_after))]
pub fn write(text: &[u8], page: &mut [u8]) -> Result<usize, FtError>
    ensures { (result ≡ text_answer (entries_of text.now) (length page.old)) × (page.new ≡ text_after (entries_of text.now) page.old) × IfOk result (λ n. n ≤ length page.old) }
{
    let mut octets = ArrayVec::new();
    if read_entries(text, &mut octets).is_none() {
        return Err(FtError::ScriptMisshapen);
    }
    directory_page::write(&octets, page)
}
