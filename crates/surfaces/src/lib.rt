// The surface that a table of coefficients represents: weights, exact values and estimates as definitions, and that the surface passes through every
// rate. No code but one constant.
#![tactic(auto)]

// The unit of coordinates and weights is 2 to this.
pub const BITS: u32 = 20;
