// A transfer script's text (document 01, A transfer script), and reading one.
#![tactic(auto)]

pub mod read; // from the text to its numbers and octets

use asdu::Nof;

// What a script says, but for the octets of its file and of its damage, which stand in the fronts of the buffers
// that `read` is lent. It gives their lengths and does not borrow them, since `read` promises what the buffers
// hold afterwards, and no clause speaks of a buffer that its result still borrows.
#[derive(Clone, Copy, PartialEq, Eq)]
pub struct Outline {
    pub ioa: u32,
    pub nof: Nof,
    pub file_len: usize,
    pub damage_len: usize,
}
