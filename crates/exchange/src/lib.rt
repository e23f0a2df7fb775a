// The exchange of document 01 between one Provider and one Receiver, and what is proved of it.
#![tactic(auto)]

// Whose frame passes.
#[derive(Clone, Copy, PartialEq, Eq)]
pub enum Sender {
    Provider,
    Receiver,
}
