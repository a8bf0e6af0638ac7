// Text put into a buffer: pieces of it, and the lines of a report.
#![tactic(auto)]

pub mod lines;
pub mod pieces;
