// Orders of work by splitting: a box of points is cut into a middle and two halves, again and again. Definitions and laws only, no code.
#![tactic(auto)]
