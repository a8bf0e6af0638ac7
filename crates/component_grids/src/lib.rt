// Component grids by position, and their laws; there is no code in this crate.
#![tactic(auto)]
