// Scripts with a fault and scripts without, read. Only tests: a crate with tests is proved twice, so that these stand
// apart from the reader's code.
#![tactic(auto)]

#[cfg(test)]
mod tests;
