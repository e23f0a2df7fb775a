// Definitions and laws of a list cut into parts and of rounding up. It has no code.
#![tactic(auto)]
