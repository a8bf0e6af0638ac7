// The level lists of a shape in the order in which a turn goes through them: definitions and laws only, no code.
#![tactic(auto)]
