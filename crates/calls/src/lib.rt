// What one line of a script says.
#![tactic(auto)]

pub mod call;
pub mod draw_line;
pub mod entry;
pub mod head;
