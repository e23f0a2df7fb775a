// Tests of the calls of `replay` (docs/REPLAY.md) that answer into a lent writer. The cases of a call are lines of
// crates/replay/stdout with their answers there.
#![tactic(auto)]

#[cfg(test)]
mod tests;
