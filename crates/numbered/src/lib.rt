// Points that have numbers, with a zero border or with values on the border, are a grid of neighbours. Definitions and laws, no code.
#![tactic(auto)]
