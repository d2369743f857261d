//! A word to the outside before each step, so that a test or a tool can hold workers back.

use crate::action::Action;

/// The kinds of action.
#[derive(Clone, Copy, Debug, PartialEq, Eq)]
pub enum Kind {
    Look,
    Claim,
    TakeRecord,
    StoreValue,
    StoreTag,
    Publish,
    LoadTag,
    LoadValue,
}

impl Action {
    ghost use Rattle.std.specs.Prelude.{◌≡◌};
    ghost use Rattle.worker_machine.specs.Found.{kind_of};

    /// Its kind.
    pub fn kind(&self) -> Kind
        ensures { result ≡ kind_of self.now }
    {
        match self {
            Action::Look { .. } => Kind::Look,
            Action::Claim { .. } => Kind::Claim,
            Action::TakeRecord => Kind::TakeRecord,
            Action::StoreValue { .. } => Kind::StoreValue,
            Action::StoreTag { .. } => Kind::StoreTag,
            Action::Publish { .. } => Kind::Publish,
            Action::LoadTag { .. } => Kind::LoadTag,
            Action::LoadValue { .. } => Kind::LoadValue,
        }
    }
}

/// Hears of each atomic step right before it is made, when it is settled which it will be. Nothing is
/// asked of it and nothing is known of what it does, so a worker's results do not rest on it.
pub trait Pace: Sync {
    /// The worker with this number, from 0, is about to make a step of this kind.
    fn before(&self, worker: u8, kind: Kind);
}

/// Does nothing.
#[derive(Clone, Copy, Debug, PartialEq, Eq, Drop)]
pub struct NoPace;

impl Pace for NoPace {
    fn before(&self, _worker: u8, _kind: Kind) {}
}
