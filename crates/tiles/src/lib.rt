// What a tile shows of a recording: its list on a surface, and a hit.
#![tactic(auto)]

mod showing;
pub mod surface;
mod tally;
pub mod tile;
mod view;
