// Calls of `replay` (docs/REPLAY.md) on the directory: the pager over the file, and the call that a list
// keeps over the store.
#![tactic(auto)]

pub mod calling; // the call
pub mod paging; // the pager
