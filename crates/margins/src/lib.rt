// The margin of an estimate, a whole number, from the number of axes and S.
#![tactic(auto)]

ghost use Rattle.std.specs.Prelude.{◌≡◌, ◌*◌, ◌^◌, ◌≤◌};
ghost use Rattle.surfaces.specs.Weights.{unit};
ghost use Rattle.surfaces.specs.Margin.{margin};
ghost use Rattle.shapes.specs.Shapes.{most_terms};

use surfaces::BITS;

// 1/2 + (d − 1) × S / the unit, rounded up. (S is of at most 1,287 points, so that 7 times S and more fits 64 bits, and nothing need be divided first.)
#[tactic(auto, using(crate::proofs::Dividing::divided))]
pub fn margin(axes: u32, absolute_sum: u64) -> u64
    requires { (1 ≤ axes) × (axes ≤ 8) × (absolute_sum ≤ most_terms * 2 ^ 47) }
    ensures { result ≡ margin unit axes absolute_sum }
{
    let half = 1 << (BITS - 1);
    (u64::from(axes - 1) * absolute_sum + half).div_ceil(1 << BITS)
}
