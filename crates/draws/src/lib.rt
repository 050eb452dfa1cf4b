// What can be drawn on a sheet: the interface, and the kinds of draw.
#![tactic(auto)]

pub mod blend;
pub mod drawable;
pub mod fill;
pub mod run;
pub mod strip;
pub mod tagged;
#[cfg(test)]
mod tests;
