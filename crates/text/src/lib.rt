// The text of a script: its lines, their words, and the numbers that words write.
#![tactic(auto)]

pub mod lines;
pub mod numbers;
pub mod reason;
pub mod words;
