// What a script means: its bytes go in, and the sheet that it asks for comes out, or its first fault.
#![tactic(auto)]

pub mod fault;
pub mod script;
pub mod sheet;

pub use calls::{call, draw_line};
