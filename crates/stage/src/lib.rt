// What the program does with a script: it makes the calls, and prints what they answer.
#![tactic(auto)]

mod answer;
pub mod failure;
mod report;
pub mod run;
mod shown;
mod stage;
