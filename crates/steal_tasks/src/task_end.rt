//! What a worker takes its numbers by.
ghost use Rattle.std.specs.Prelude.{◌≡◌, ◌+◌, ◌<◌, ◌⊎◌, true, [], MatchOption};
ghost use Rattle.steal_tasks.specs.Sharing.{CanBeEmpty};
ghost use Rattle.steal_tasks.specs.Ends.{parts, part_of, with_others, IsReady, IsFresh, AddsTo, IsCounted, AllMissed, Stolen, GotOne, NothingFound, Found};

use crate::deque::{OtherDeque, OwnDeque};
use std::alloc::Global;
use std::marker::Model;
use worker_machine::Hints;

/// A worker's end of the dealt numbers: it gives those dealt to this worker, ascending, and where they are
/// used up, others that it steals.
#[derive(Drop)]
pub struct TaskEnd {
    count: u32,
    own: OwnDeque,
    others: Vec<OtherDeque>,
    given: u32,
    last: Option<u32>,
    over: bool,
}

impl Model for TaskEnd {
    ghost use Rattle.std.specs.Prelude.{◌≡◌, true, []};
    ghost use Rattle.steal_tasks.specs.Ends.{EndSeen, IsCounted, part_of, with_others};

    ghost Value = { EndSeen };

    ghost view = { λ e. record { count = e.count; own = part_of e.own; others = e.others.items; given = e.given; last = e.last; over = e.over } };

    ghost invariant = { λ e. IsCounted e.count e.given (with_others (part_of e.own) e.others.items) × (e.others.items ≡ [] → e.own.alone ≡ true) };
}

// The first number of a worker's own deque, or else one that is stolen.
fn find(own: &mut OwnDeque, others: &mut [OtherDeque]) -> Option<u32>
    ensures { MatchOption result ((own.new ≡ own.old) × CanBeEmpty own.old × AllMissed others.old others.new) (λ x. GotOne x own.old own.new others.old others.new) }
{
    if let Some(number) = own.take() {
        return Some(number);
    }
    steal(others)
}

// A number of the first deque that a steal takes one from, trying each once.
fn steal(others: &mut [OtherDeque]) -> Option<u32>
    ensures { MatchOption result (AllMissed others.old others.new) (λ x. Stolen x others.old others.new) }
{
    for other in others.iter_mut() {
        if let Some(number) = other.steal() {
            return Some(number);
        }
    }
    None
}

impl TaskEnd {
    // An end with these deques, which has given nothing.
    pub(crate) fn new(count: u32, own: OwnDeque, others: Vec<OtherDeque>) -> TaskEnd
        requires { IsReady own others.items }
        ensures parts { parts result ≡ with_others (part_of own) others.items }
        ensures fresh { IsFresh count result }
    {
        TaskEnd {
            count,
            own,
            others,
            given: 0,
            last: None,
            over: false,
        }
    }

    /// The next number: the first of the worker's own deque, or, where that is empty, one that is stolen, by
    /// one steal from each other worker's deque in turn, from the next higher one on. None where all numbers
    /// that were dealt are given by this end, and else only where no deque gave one in this call. It waits for
    /// nobody, and takes no memory.
    pub fn take(&mut self) -> Option<u32>
        ensures gives { MatchOption result (parts self.new ≡ parts self.old) (λ x. AddsTo x (parts self.old) (parts self.new)) }
        ensures counted { (self.new.count ≡ self.old.count) × IsCounted self.new.count self.new.given (parts self.new) }
        ensures turn { MatchOption result ((self.old.given ≡ self.old.count) ⊎ NothingFound self.old self.new) (λ x. (self.old.given < self.old.count) × Found x self.old self.new) }
        ensures full { self.old.given ≡ self.old.count → self.new ≡ record self.old { over = true } }
        ensures alone { self.old.others ≡ [] → result ≡ None → (self.old.given ≡ self.old.count) ⊎ (self.old.own.taken ≡ self.old.own.dealt) }
        ensures marks { MatchOption result ((self.new.given ≡ self.old.given) × (self.new.last ≡ self.old.last) × (self.new.over ≡ true)) (λ x. (self.new.given ≡ self.old.given + 1) × (self.new.last ≡ Some x) × (self.new.over ≡ self.old.over)) }
    {
        if self.given >= self.count {
            self.over = true;
            return None;
        }
        match find(&mut self.own, self.others.as_mut_slice()) {
            Some(number) => {
                self.given += 1;
                self.last = Some(number);
                Some(number)
            }
            None => {
                self.over = true;
                None
            }
        }
    }
}

impl Hints for TaskEnd {
    ghost use Rattle.std.specs.Prelude.{◌≡◌, ◌-◌, false};

    ghost left = { λ e. e.count - e.given };

    ghost last = { λ e. e.last };

    ghost over = { λ e. e.over };

    ghost askable = { λ e. e.over ≡ false };

    fn take(&mut self) -> Option<u32> {
        TaskEnd::take(self)
    }

    fn ended(&self) -> bool {
        self.over
    }
}
