// What a filter layer needs around its contents, and where it lies in the layer around it.
#![tactic(auto)]

pub mod data;
pub mod placement;
#[cfg(test)]
mod tests;
