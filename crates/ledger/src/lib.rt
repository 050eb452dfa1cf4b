// Whole runs of calls, and what holds of them.
#![tactic(auto)]

pub mod call;
pub mod design;
mod design_calls;
pub mod replay;
