// The recorder.
use crate::account::Account;
use crate::tree::Tree;
use std::marker::Model;

// `account` decides what is refused, and `tree` holds what was recorded.
#[derive(Drop)]
pub struct CommandRecorder {
    pub(crate) account: Account,
    pub(crate) tree: Tree,
}

// Clauses see a recording.
impl Model for CommandRecorder {
    ghost use Rattle.record.specs.Recording.{Recording};
    ghost use Rattle.record.specs.Sound.{Sound};

    ghost Value = { Recording };

    ghost view = { λ r. record { account = r.account; tree = r.tree } };

    ghost invariant = { λ r. Sound r.account r.tree };
}
