// How a file is cut: sections that count from 1 (IEC 60870-5-101, 7.2.6.34), and segments that a frame
// can carry (document 01, The Provider's record). Lengths and counts go by the numbers alone; a part is
// handed out of the lent octets, and none is copied. The types of the public parameters are so narrow that
// no sum and no product overflows.
#![tactic(auto)]

ghost use Rattle.std.specs.Prelude.{◌≡◌, ◌+◌, ◌*◌, ◌≤◌, ◌<◌, take, drop};
ghost use Rattle.lists.specs.Parts.{div_ceil};
ghost use Rattle.sections.specs.Sections.{section_length, section_count, section_octets, segment_octets, segment_start, part_octets};

use asdu::Nos;

// The section length of a file that needs no longer ones.
pub const DEFAULT_SECTION_LEN: u32 = 4096;

// The most sections that a NOS can name.
const MAX_SECTIONS: u32 = 255;

// A part of lent octets: where it begins, and how long it is.
#[derive(Clone, Copy, PartialEq, Eq)]
pub struct Part {
    pub start: usize,
    pub length: usize,
}

// A section's octets in a file of this length: 4,096, or more where a NOS could not name all sections.
pub fn section_length(length: u32) -> u32
    ensures { result ≡ section_length length }
{
    length.div_ceil(MAX_SECTIONS).max(DEFAULT_SECTION_LEN)
}

// How many sections a file of this length has; never none.
pub fn section_count(length: u32) -> usize
    ensures { result ≡ section_count length }
{
    length.div_ceil(section_length(length)).max(1) as usize
}

// How many segments a section of this length has, where a segment can hold `limit` octets; none where it
// can hold none.
pub fn segment_count(length: u32, limit: u8) -> usize
    ensures { result ≡ div_ceil length limit }
{
    if limit == 0 {
        return 0;
    }
    length.div_ceil(u32::from(limit)) as usize
}

// Where segment `index` of section `nos` begins in the file.
pub fn segment_start(size: u32, limit: u8, nos: Nos, index: u32) -> usize
    ensures { result ≡ segment_start size limit nos.value index }
{
    let before = usize::from(nos.value.saturating_sub(1));
    before * size as usize + index as usize * usize::from(limit)
}

// The octets from a place on, of this length; what lies past the end is not there.
pub fn cut(octets: &[u8], at: usize, length: usize) -> &[u8]
    ensures { result.now ≡ take length (drop at octets.now) }
{
    let rest = &octets[at.min(octets.len())..];
    &rest[..length.min(rest.len())]
}

impl Part {
    // No octets.
    pub const NONE: Part = Part {
        start: 0,
        length: 0,
    };

    // The octets of this part of a file or a body; what lies past its end is not there.
    #[tactic(auto, using(laws::proofs::Decide::decide), unfolding(crate::specs::Sections::part_octets))]
    pub fn octets(self, whole: &[u8]) -> &[u8]
        ensures { result.now ≡ part_octets self whole.now }
    {
        cut(whole, self.start, self.length)
    }
}

// The part of this size at an index from 0; empty past the end.
fn part_at(octets: &[u8], size: usize, index: usize) -> &[u8]
    requires { (size ≤ 0xFFFFFFFF) × (index ≤ 0xFFFFFFFF) }
    ensures { result.now ≡ take size (drop (index * size) octets.now) }
{
    cut(octets, index * size, size)
}

// Section `nos` where a section has `size` octets; 0 and any past the end are empty.
#[tactic(auto, using(laws::proofs::Decide::decide), unfolding(crate::specs::Sections::section_octets))]
pub fn section(file: &[u8], size: u32, nos: Nos) -> &[u8]
    ensures { result.now ≡ section_octets size file.now nos.value }
{
    if nos.value == 0 {
        return &[];
    }
    part_at(file, size as usize, usize::from(nos.value - 1))
}

// Segment `index` of a section, where a segment can hold `limit` octets; empty past the end.
#[tactic(auto, using(laws::proofs::Decide::decide), unfolding(crate::specs::Sections::segment_octets))]
pub fn segment(section: &[u8], limit: u8, index: u32) -> &[u8]
    ensures { result.now ≡ segment_octets limit section.now index }
{
    part_at(section, limit as usize, index as usize)
}
