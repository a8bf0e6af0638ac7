// The state of a table: its shape and the axes that are forward, one bit for each.
#![tactic(auto)]

ghost use Rattle.std.specs.Prelude.{◌≡◌, ◌≤◌, ◌<◌, ◌^◌, IfOk};
ghost use Rattle.refusals.specs.Checks.{verdict};
ghost use Rattle.shapes.specs.Shapes.{most_axes, most_points, points_of};
ghost use Rattle.states.specs.States.{has, toggled, found_axis, check_bits, check_state};

use refusals::Refusal;
use shapes::Shape;

// Bit t − 1 of `forward` says that axis t is forward.
#[derive(Clone, Copy)]
pub struct State {
    pub shape: Shape,
    pub forward: u8,
}

// A state that the check passes: its shape passes, and no bit is set above its axes.
#[derive(Clone, Copy)]
pub struct CheckedState {
    pub state: State,
    ghost some: { 1 ≤ state.shape.axes },
    ghost few: { state.shape.axes ≤ 8 },
    ghost top: { state.shape.level ≤ 8 },
    ghost most: { state.shape.axes ≤ most_axes state.shape.border },
    ghost small: { points_of state.shape ≤ most_points },
    ghost bits: { state.forward < 2 ^ state.shape.axes },
}

impl State {
    // The axis at place t, counted from 0, is forward.
    pub fn has_axis(self, t: u32) -> bool
        requires { t < 8 }
        ensures { result ≡ has self.forward t }
    {
        (self.forward >> t) & 1 == 1
    }

    // The state with the axis at place t the other way round.
    pub fn toggled(self, t: u32) -> State
        requires { t < 8 }
        ensures { result ≡ toggled self t }
    {
        State {
            forward: self.forward ^ (1 << t),
            ..self
        }
    }

    // The first axis whose bit is the one looked for, counted from 0.
    pub fn first_axis(self, bit: bool) -> Option<u32>
        requires { self.shape.axes ≤ 8 }
        ensures { result ≡ found_axis bit self }
    {
        (0..self.shape.axes).find(|&t| self.has_axis(t) == bit)
    }

    // Refused with 14.
    fn check_bits(self) -> Result<(), Refusal>
        requires { self.shape.axes ≤ 8 }
        ensures { result ≡ check_bits self }
    {
        if 1 << self.shape.axes <= u32::from(self.forward) {
            return Err(Refusal::StrayBit);
        }
        Ok(())
    }

    // Refused with 1, 2, 14, 19 or 3.
    #[tactic(auto, unfolding(crate::specs::States::check_state))]
    pub fn check(self, places: usize) -> Result<CheckedState, Refusal>
        ensures verdict { verdict result ≡ check_state self places }
        ensures state { IfOk result (λ checked. checked.state ≡ self) }
    {
        let limited = self.shape.check_limits()?;
        self.check_bits()?;
        limited.check_size()?.check_length(places)?;
        Ok(CheckedState { state: self })
    }
}

impl CheckedState {
    // The same of its state.
    pub fn first_axis(self, bit: bool) -> Option<u32>
        ensures { result ≡ found_axis bit self.state }
    {
        self.state.first_axis(bit)
    }
}
