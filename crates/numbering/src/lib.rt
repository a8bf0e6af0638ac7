// Points of a sparse grid: the definitions of documents 01 and 001 of their numbering, order and parents, and the laws of these. No code.
#![tactic(auto)]

// Which of the two neighbours on an axis.
#[derive(Clone, Copy)]
pub enum Side {
    Left,
    Right,
}
