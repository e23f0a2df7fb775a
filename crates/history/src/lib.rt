// Definitions and laws of a transfer's history on a channel that may do nearly anything. It has no code.
#![tactic(auto)]
