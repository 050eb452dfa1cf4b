// A recorder with the lists that its calls are made on.
use draws::strip::Strip;
use record::recorder::CommandRecorder;

// It has no `Model`: one would name the same three fields again, which its calls' clauses speak of each.
// Every design comes from a new recorder by calls: what their ledger says holds of it, by the contract of each call.
#[derive(Drop)]
pub struct Design<'a, D: Drop> {
    pub(crate) recorder: CommandRecorder,
    // Draw n stands at place n.
    pub(crate) draws: Vec<D>,
    pub(crate) strips: &'a [Strip],
}
