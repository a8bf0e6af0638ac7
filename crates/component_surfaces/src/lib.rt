// The surface of the coefficients of a component grid passes through all its rates, and alone does so. Theorems, no code.
#![tactic(auto)]
