// Calls of `replay` (docs/REPLAY.md) on the Provider and the Receiver that a list keeps.
#![tactic(auto)]

pub mod providing; // the Provider
pub mod receiving; // the Receiver
