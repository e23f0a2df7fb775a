// Test load for the radio bench (document 02, A2): the same file and the same damage on every bench. A
// generator of 32 bits steps, and the octet of each new state is the next of a sequence. The sequence
// fills a lent file, or a lent damage list by the sections of a file that have octets.
#![tactic(auto)]

ghost use Rattle.std.specs.Prelude.{◌≡◌, ◌<◌, map, length};
ghost use Rattle.generator.specs.Sequence.{stepped, octet_of, state_after, octets_from};
ghost use Rattle.generator.specs.Filling.{file_answer, file_after, naming, damage_answer, damage_after};

use asdu::{FtError, Lof};
use sections::section_count;

// The step's factor and what it adds.
const FACTOR: u32 = 1_664_525;

const ADDED: u32 = 1_013_904_223;

// The most octets of a file.
const MAX_LENGTH: usize = Lof::MAX as usize;

// The most places of a damage list that are filled.
const MAX_DAMAGE: usize = 255;

// A generator, by its state.
#[derive(Clone, Copy, PartialEq, Eq)]
pub struct Generator {
    pub state: u32,
}

// A damage list that was filled: how many of its places, and the generator after them.
#[derive(Clone, Copy, PartialEq, Eq)]
pub struct Damage {
    pub count: u8,
    pub generator: Generator,
}

// Puts for each octet the section that it names, among so many from 1 on.
#[tactic(auto, using(crate::proofs::Fronts::fronts), unfolding(crate::specs::Filling::naming))]
fn name_sections(part: &mut [u8], sections: u8)
    requires { 0 < sections }
    ensures { part.new ≡ map (naming sections) part.old }
{
    for octet in part.iter_mut() {
        *octet = *octet % sections + 1;
    }
}

impl Generator {
    // The generator one step on.
    #[tactic(auto, unfolding(crate::specs::Sequence::stepped))]
    pub fn step(self) -> Generator
        ensures { result.state ≡ stepped self.state }
    {
        Generator {
            state: self.state.wrapping_mul(FACTOR).wrapping_add(ADDED),
        }
    }

    // The octet of its state: of a new one, the next octet of the sequence.
    #[tactic(auto, unfolding(crate::specs::Sequence::octet_of))]
    pub fn octet(self) -> u8
        ensures { result ≡ octet_of self.state }
    {
        (self.state >> 24) as u8
    }

    // Fills a part with the next octets, from front to back.
    #[tactic(auto, using(crate::proofs::Octets::sequence))]
    fn fill(self, part: &mut [u8]) -> Generator
        ensures { (result.state ≡ state_after (length part.old) self.state) × (part.new ≡ octets_from (length part.old) self.state) }
    {
        let mut generator = self;
        for place in part.iter_mut() {
            let next = generator.step();
            *place = next.octet();
            generator = next;
        }
        generator
    }

    // Fills a file with the next octets, and answers the generator after it, from which the rest of a
    // file can go on; a file of more than 16,777,215 octets is 1.
    #[tactic(auto, using(laws::proofs::Decide::decide), unfolding(crate::specs::Filling::file_answer, crate::specs::Filling::file_after))]
    pub fn fill_file(self, file: &mut [u8]) -> Result<Generator, FtError>
        ensures { (result ≡ file_answer self file.old) × (file.new ≡ file_after self file.old) }
    {
        if MAX_LENGTH < file.len() {
            return Err(FtError::FileTooLong);
        }
        Ok(self.fill(file))
    }

    // Fills a part with the sections that the next octets name.
    fn fill_named(self, sections: u8, part: &mut [u8]) -> Generator
        requires { 0 < sections }
        ensures { (result.state ≡ state_after (length part.old) self.state) × (part.new ≡ map (naming sections) (octets_from (length part.old) self.state)) }
    {
        let generator = self.fill(part);
        name_sections(part, sections);
        generator
    }

    // Fills a damage list for a file of this length: at most 255 places, each with a section that has
    // octets; none for an empty file. It answers how many; a longer file than 16,777,215 octets is 1.
    #[tactic(auto, using(crate::proofs::Answers::numbers))]
    pub fn fill_damage(self, file_len: usize, list: &mut [u8]) -> Result<Damage, FtError>
        ensures { (result ≡ damage_answer self file_len list.old) × (list.new ≡ damage_after self file_len list.old) }
    {
        if MAX_LENGTH < file_len {
            return Err(FtError::FileTooLong);
        }
        if file_len == 0 {
            return Ok(Damage {
                count: 0,
                generator: self,
            });
        }
        let count = MAX_DAMAGE.min(list.len());
        let sections = section_count(file_len as u32) as u8;
        let generator = self.fill_named(sections, &mut list[..count]);
        Ok(Damage {
            count: count as u8,
            generator,
        })
    }
}
