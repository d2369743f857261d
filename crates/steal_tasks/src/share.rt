//! What an end knows of a deque that other ends take numbers from too.
ghost use Rattle.std.specs.Prelude.{◌≡◌, ◌++◌};

use crossbeam_deque::protocol::{Outcome, Protocol, Split};
use crossbeam_deque::{Stealer, Worker};
use std::alloc::Global;
use std::collections::LinkedList;

/// What one end knows of a deque: whether no other end can take from it, the numbers dealt to it, and
/// those that this end has taken from it, in turn. It is there for the proofs: no value of it is made.
pub struct Share {
    pub alone: bool,
    pub dealt: LinkedList<u32>,
    pub taken: LinkedList<u32>,
}

/// The rule of each deque.
pub struct Dealt;

impl Protocol<u32, Share> for Dealt {
    ghost use Rattle.std.specs.Prelude.{true, false, []};
    ghost use Rattle.steal_tasks.specs.Sharing.{share, IsShared};

    ghost holds = { IsShared };

    ghost first = { share true [] [] };

    ghost guest = { share false [] [] };
}

/// One more number is dealt.
pub(crate) struct Deals;

impl Outcome<u32, Share> for Deals {
    ghost use Rattle.std.specs.Prelude.{◌≡◌, ◌++◌};
    ghost use Rattle.steal_tasks.specs.Sharing.{share};

    ghost then = { λ v xs w. w ≡ share v.alone (v.dealt ++ xs) v.taken };
}

/// A number is taken, or the deque was empty at a step.
pub(crate) struct Takes;

impl Outcome<u32, Share> for Takes {
    ghost use Rattle.std.specs.Prelude.{◌≡◌, ◌++◌};
    ghost use Rattle.steal_tasks.specs.Sharing.{share, IsSublist, CanBeEmpty};

    ghost then = { λ v xs w. (w ≡ share v.alone v.dealt (v.taken ++ xs)) × IsSublist (v.taken ++ xs) v.dealt };

    ghost empty = { CanBeEmpty };
}

/// Another end may take too.
pub(crate) struct Opens;

impl Split<Share> for Opens {
    ghost use Rattle.std.specs.Prelude.{false, []};
    ghost use Rattle.steal_tasks.specs.Sharing.{share};

    ghost left = { λ v. share false v.dealt v.taken };

    ghost right = { λ v. share false v.dealt [] };
}

pub(crate) type Owner = Worker<u32, Global, Share, Dealt>;

pub(crate) type Thief = Stealer<u32, Global, Share, Dealt>;
