// Rectangles, sizes and paddings with 16-bit edges, and the tiles that they cover.
#![tactic(auto)]

mod constants;
pub mod padding;
pub mod rect;
pub mod size;
#[cfg(test)]
mod tests;
pub mod tile;
