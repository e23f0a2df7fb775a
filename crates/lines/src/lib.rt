// One line of what a transfer prints of a frame (document 01, A transfer script): its sender's letter,
// its type, section, qualifier and checksum. A number can be put into any text.
#![tactic(auto)]

ghost use Rattle.std.specs.Prelude.{◌≡◌, ◌∷◌, ◌≤◌, length};
ghost use Rattle.exchange.specs.Lines.{side_of, named_section, qualifier, stated_sum};
ghost use Rattle.script.specs.Answers.{over};
ghost use Rattle.script.specs.Decimal.{decimal};
ghost use Rattle.lines.specs.LineText.{letter_of, line_text};
ghost use Rattle.lines.specs.Numbers.{place_after, text_with};

use exchange::Sender;
use frame::Frame;
use itoa::Buffer;

// The sender's letter.
fn letter_of(sender: Sender) -> u8
    ensures { result ≡ letter_of (side_of sender) }
{
    match sender {
        Sender::Provider => b'P',
        Sender::Receiver => b'R',
    }
}

// What a line tells of a frame behind its type: the section that it names, its action, length or value, and the
// checksum that it states, each 0 where the frame has none.
fn fields_of(frame: Frame) -> (u8, u32, u8)
    ensures { (result.0 ≡ named_section frame) × (result.1 ≡ qualifier frame) × (result.2 ≡ stated_sum frame) }
{
    match frame {
        Frame::FileReady { lof, .. } => (0, lof.value, 0),
        Frame::SectionReady { nos, lof, .. } => (nos.value, lof.value, 0),
        Frame::Sc { nos, scq, .. } => (nos.value, u32::from(scq.action), 0),
        Frame::LastSection { nos, lsq, chs, .. } => (nos.value, u32::from(lsq.value), chs.value),
        Frame::Ack { nos, afq, .. } => (nos.value, u32::from(afq.action), 0),
        Frame::Segment { nos, los, .. } => (nos.value, u32::from(los.value), 0),
        Frame::Directory { .. } | Frame::QueryLog { .. } => (0, 0, 0),
    }
}

// Puts a number after one space into a text, if it has room for both there, and answers the place after
// what it put: the same place where that is nothing.
#[tactic(auto, using(crate::proofs::Numbers::numbers))]
pub fn put_number(out: &mut [u8], at: usize, n: u32) -> usize
    ensures { (result ≡ place_after out.old at (32 ∷ decimal n)) × (out.new ≡ text_with out.old at (32 ∷ decimal n)) }
{
    let mut buffer = Buffer::new();
    let digits = buffer.format(n).as_bytes();
    if out.len() <= at || out.len() - at <= digits.len() {
        return at;
    }
    out[at] = b' ';
    out[at + 1..at + 1 + digits.len()].copy_from_slice(digits);
    at + 1 + digits.len()
}

// Writes the line of a frame, which is at most 25 octets long, over the front of out, and answers its length. It
// goes into a lent array, and no vector is made: fixed memory is a rule of the project.
pub fn line(sender: Sender, frame: Frame, out: &mut [u8; 32]) -> usize
    ensures { (result ≡ length (line_text (side_of sender) frame)) × (out.new ≡ over (line_text (side_of sender) frame) out.old) × (result ≤ 25) }
{
    let (section, value, sum) = fields_of(frame);
    out[0] = letter_of(sender);
    let mut at = 1;
    for n in [
        u32::from(frame.type_id()),
        u32::from(section),
        value,
        u32::from(sum),
    ] {
        at = put_number(out, at, n);
    }
    out[at] = b'\n';
    at + 1
}
