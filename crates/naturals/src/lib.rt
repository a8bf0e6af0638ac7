// Sums, tests and powers of two over the natural numbers, for every layer above. Definitions and laws only, no code.
#![tactic(auto)]
