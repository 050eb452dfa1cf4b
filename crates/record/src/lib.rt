// The recorder: draws and nested layers go in, and a tree of nodes with a box for every closed layer comes out.
#![tactic(auto)]

pub mod account;
mod account_calls;
mod constants;
pub mod read;
pub mod record;
pub mod recorder;
mod table;
pub mod tree;
mod tree_calls;

pub use layers::{layer, node, props};
