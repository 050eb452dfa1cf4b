// What a layer is: its properties, what its opening asks and records, what is put into it, and what its closing gives.
#![tactic(auto)]

pub mod closing;
pub mod layer;
pub mod node;
pub mod opening;
pub mod props;
