// The radio of a script (document 01, A transfer script): no segment is lost, and the k-th naming of a
// section raises the first octet of its k-th sending by 1 modulo 256. A section's sendings follow each
// other, the damaged ones first. What is damaged is lent as a list of section numbers.
#![tactic(auto)]

ghost use Rattle.std.specs.Prelude.{◌≡◌, ltb};
ghost use Rattle.exchange.specs.Exchange.{is_section, is_sending};
ghost use Rattle.exchange.specs.Damaging.{namings};
ghost use Rattle.radio.specs.Radio.{has_octets, all_have_octets, first_section, next_section, after_sending, is_damaged, after_answer};

use asdu::Nos;
use requests::{ProviderAnswer, Reply};

// The sendings to come: so many damaged ones of this section, then an intact one, then the next section.
#[derive(Clone, Copy, PartialEq, Eq)]
pub struct Radio {
    pub section: u8,
    pub left: usize,
}

// How often section `nos` is named.
fn namings(nos: u8, damage: &[u8]) -> usize
    ensures { result ≡ namings nos damage.now }
{
    let mut count = 0;
    // Each entry adds 0 or 1: by `filter` and `count` a long list took half as long again.
    for &entry in damage {
        count += usize::from(entry == nos);
    }
    count
}

// Whether section `nos` of a file cut into sections of this length has octets.
#[tactic(auto, unfolding(crate::specs::Radio::has_octets))]
fn has_octets(file: &[u8], section_len: u32, nos: u8) -> bool
    ensures { result ≡ has_octets section_len file.now nos }
{
    !sections::section(file, section_len, Nos { value: nos }).is_empty()
}

// Whether each section that is named has octets: else 11.
pub fn all_have_octets(file: &[u8], section_len: u32, damage: &[u8]) -> bool
    ensures { result ≡ all_have_octets section_len file.now damage.now }
{
    damage.iter().all(|nos| has_octets(file, section_len, *nos))
}

// Whether a reply is a sending: a section's segments and its close.
fn is_section(reply: Reply) -> bool
    ensures { result ≡ is_section reply }
{
    matches!(reply, Reply::Section(_))
}

fn is_sending(answer: ProviderAnswer) -> bool
    ensures { result ≡ is_sending answer }
{
    matches!(answer, ProviderAnswer::Running(reply) if is_section(reply))
}

impl Radio {
    // Before the first sending.
    pub fn first(damage: &[u8]) -> Radio
        ensures { result ≡ first_section damage.now }
    {
        Radio {
            section: 1,
            left: namings(1, damage),
        }
    }

    // After a section's intact sending. There are at most 255 sections.
    #[tactic(auto, using(laws::proofs::Decide::decide), unfolding(crate::specs::Radio::next_section))]
    fn next_section(self, damage: &[u8]) -> Radio
        ensures { result ≡ next_section damage.now self }
    {
        match self.section.checked_add(1) {
            Some(section) => Radio {
                section,
                left: namings(section, damage),
            },
            None => Radio { left: 0, ..self },
        }
    }

    // Whether the next sending is damaged.
    pub fn is_damaging(self) -> bool
        ensures { result ≡ ltb 0 self.left }
    {
        0 < self.left
    }

    // After one more sending.
    #[tactic(auto, using(laws::proofs::Decide::decide), unfolding(crate::specs::Radio::after_sending))]
    pub fn after_sending(self, damage: &[u8]) -> Radio
        ensures { result ≡ after_sending damage.now self }
    {
        if !self.is_damaging() {
            return self.next_section(damage);
        }
        Radio {
            left: self.left - 1,
            ..self
        }
    }

    // Whether the radio hits a reply: only a sending, and where damaged ones are left.
    #[tactic(auto, using(laws::proofs::Decide::decide), unfolding(crate::specs::Radio::is_damaged))]
    pub fn is_damaged(self, reply: Reply) -> bool
        ensures { result ≡ is_damaged self reply }
    {
        is_section(reply) && self.is_damaging()
    }

    // The sendings to come after the Provider's answer.
    #[tactic(auto, using(laws::proofs::Decide::decide))]
    pub fn after_answer(self, damage: &[u8], answer: ProviderAnswer) -> Radio
        ensures { result ≡ after_answer damage.now self answer }
    {
        if is_sending(answer) {
            self.after_sending(damage)
        } else {
            self
        }
    }
}
