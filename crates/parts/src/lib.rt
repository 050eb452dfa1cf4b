// The parts of a line: each is read from the words in front of it, and leaves those that follow.
#![tactic(auto)]

pub mod mode;
pub mod open;
pub mod shapes;
