// Interpolation over any grid of neighbours: weights whose turn leaves one term give a surface through every rate. No code.
#![tactic(auto)]
