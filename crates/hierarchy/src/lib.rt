// Hierarchization over any grid of neighbours: the turns as definitions, and what holds of them. No code.
#![tactic(auto)]

// A turn along one axis, as a list of calls names it.
#[derive(Clone, Copy)]
pub enum Turn {
    Forward(u32),
    Back(u32),
}
