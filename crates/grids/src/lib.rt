// The grid of a shape: definitions and laws, no code.
#![tactic(auto)]
