// Calls of `replay` (docs/REPLAY.md) on the buffers, on the scripts and loads that are read into them, and on
// the directory page that is printed of them.
#![tactic(auto)]

pub mod buffers; // one buffer
pub mod loads; // the test load's generator
pub mod pages; // a directory page to print
pub mod texts; // calls with a text in quotes
