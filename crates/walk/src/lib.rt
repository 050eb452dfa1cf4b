// The full walk of a recording.
#![tactic(auto)]

pub mod full;
pub mod listed;
mod listing;
