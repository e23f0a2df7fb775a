// Calls of `replay` (docs/REPLAY.md) on values: elements, frames and their bodies, makers and parts of octets.
#![tactic(auto)]

pub mod bodies; // the bodies of frames
pub mod elements; // the elements, the widths and the checksum
pub mod frames; // the frames
pub mod making; // the makers of frames
pub mod parts; // how octets are cut, accepted and stored
