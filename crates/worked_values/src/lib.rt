// The worked values of document 01 that are marked to be proved, with those of document 02, b), as one list, and worked cases of later requests
// beside it. Definitions and theorems, no code.
#![tactic(auto)]
