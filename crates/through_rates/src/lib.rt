// The surface of the coefficients of accepted rates passes through the rates, and alone does so. Definitions and theorems, no code.
#![tactic(auto)]
