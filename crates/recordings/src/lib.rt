// Known recordings: worked out by hand, checked by the prover against the rules, and run.
#![tactic(auto)]

pub mod stated;
#[cfg(test)]
mod tests;
