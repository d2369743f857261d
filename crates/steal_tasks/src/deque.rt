//! A deque of dealt numbers, as its own worker has it and as another one does.
ghost use Rattle.std.specs.Prelude.{◌≡◌, ◌≤◌, ◌-◌, true, [], IfOk, MatchOption};
ghost use Rattle.std.specs.List.{range_with_len};
ghost use Rattle.crossbeam_deque.specs.Handles.{worker_flavor, worker_view};
ghost use Rattle.steal_tasks.specs.Sharing.{share, given, IsSublist, CanBeEmpty};

use crate::share::{Deals, Opens, Owner, Share, Takes, Thief};
use crossbeam_deque::Pass;
use std::alloc::{AllocError, Global};
use std::marker::Model;

/// A deque as its own worker has it. Contracts see what this one knows of it.
#[derive(Drop)]
pub(crate) struct OwnDeque {
    worker: Owner,
}

impl Model for OwnDeque {
    ghost use Rattle.std.specs.Prelude.{◌≡◌};
    ghost use Rattle.crossbeam_deque.specs.Handles.{worker_flavor, worker_view};
    ghost use Rattle.steal_tasks.specs.declared.share.Share.{Share};

    ghost Value = { Share };

    ghost view = { λ d. worker_view d.worker };

    ghost invariant = { λ d. worker_flavor d.worker ≡ 0 };
}

/// A deque as another worker has it.
#[derive(Drop)]
pub(crate) struct OtherDeque {
    stealer: Thief,
    pass: Pass<u32, Share>,
}

impl Model for OtherDeque {
    ghost use Rattle.std.specs.Prelude.{◌≡◌};
    ghost use Rattle.crossbeam_deque.specs.Handles.{stealer_flavor, stealer_deque, view as pass_view, taken, IsPassOf};
    ghost use Rattle.steal_tasks.specs.Ends.{Other, part_of};

    ghost Value = { Other };

    ghost view = { λ d. record { part = part_of (pass_view d.pass); known = taken d.pass } };

    ghost invariant = { λ d. IsPassOf (stealer_deque d.stealer) d.pass × (stealer_flavor d.stealer ≡ 0) };
}

impl OwnDeque {
    ghost use Rattle.steal_tasks.specs.Ends.{part_of, untaken};

    /// A deque with the numbers from `start` up to and without `end`.
    pub(crate) fn with_numbers(alloc: Global, start: u32, end: u32) -> Result<OwnDeque, AllocError>
        requires { start ≤ end }
        ensures { IfOk result (λ d. d ≡ share true (range_with_len start (end - start)) []) }
    {
        Ok(OwnDeque {
            worker: filled(alloc, start, end)?,
        })
    }

    /// The same deque for another worker.
    pub(crate) fn lend(&mut self) -> Result<OtherDeque, AllocError>
        ensures own { part_of self.new ≡ part_of self.old }
        ensures other { IfOk result (λ d. d.part ≡ untaken self.old.dealt) }
    {
        let stealer = self.worker.stealer()?;
        let pass = self.worker.another::<Opens>();
        Ok(OtherDeque { stealer, pass })
    }

    /// The first number, if one is left.
    pub(crate) fn take(&mut self) -> Option<u32>
        ensures { MatchOption result ((self.new ≡ self.old) × CanBeEmpty self.old) (λ x. (self.new ≡ given self.old x) × IsSublist self.new.taken self.new.dealt) }
    {
        self.worker.pop_as::<Takes>()
    }
}

impl OtherDeque {
    ghost use Rattle.steal_tasks.specs.Ends.{with_taken, IsTakenInOrder, Missed};

    /// The first number, if one is left and no other worker takes it.
    pub(crate) fn steal(&mut self) -> Option<u32>
        ensures { MatchOption result (Missed self.old self.new) (λ x. (self.new.part ≡ with_taken self.old.part x) × IsTakenInOrder self.new.part) }
    {
        self.stealer.steal_as::<Takes>(&mut self.pass).success()
    }
}

// A deque with the numbers from `start` up to and without `end`. Its room is reserved, so no push is refused.
fn filled(alloc: Global, start: u32, end: u32) -> Result<Owner, AllocError>
    requires { start ≤ end }
    ensures { IfOk result (λ w. (worker_flavor w ≡ 0) × (worker_view w ≡ share true (range_with_len start (end - start)) [])) }
{
    let mut owner = Owner::fifo_as(alloc, (end - start) as usize)?;
    for number in start..end {
        match owner.push_as::<Deals>(number) {
            Ok(()) => {}
            Err(_) => unreachable!(),
        }
    }
    Ok(owner)
}
