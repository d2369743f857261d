//! What a round came to.

ghost use Rattle.std.specs.Prelude.{◌≡◌, ◌+◌, ◌<◌, ◌^◌, [], length, slice_index, slice_set, replicate, IfOk, None};

use claim_core::Outcome;
use std::alloc::{AllocError, Global};
use std::marker::Model;

/// A number for each worker, that of worker 0 first. There is none where there was no round.
#[derive(Drop)]
pub struct Counts {
    numbers: Vec<u32>,
}

impl Model for Counts {
    ghost use Rattle.std.specs.Prelude.{ℕ, List};

    ghost Value = { List ℕ };

    ghost view = { λ c. c.numbers.items };
}

impl Counts {
    // No number.
    pub(crate) fn none(alloc: Global) -> Counts
        ensures { result ≡ [] }
    {
        Counts {
            numbers: Vec::new(alloc),
        }
    }

    // 0 for each worker.
    pub(crate) fn zeros(alloc: Global, workers: u8) -> Result<Counts, AllocError>
        ensures { IfOk result (λ c. c ≡ replicate workers 0) }
    {
        let numbers = vec![in alloc; 0u32; workers as usize]?;
        Ok(Counts { numbers })
    }

    // One more for this worker.
    pub(crate) fn add(&mut self, worker: u8)
        requires { (worker < length self.old) × (slice_index self.old worker + 1 < 2 ^ 32) }
        ensures { self.new ≡ slice_set self.old worker (slice_index self.old worker + 1) }
    {
        self.numbers[worker as usize] += 1;
    }

    /// The numbers, that of worker 0 first.
    pub fn numbers(&self) -> &[u32]
        ensures { result.now ≡ self.now }
    {
        &self.numbers
    }
}

/// What a round came to: how many cells were pending, how many of them each worker claimed and how many it
/// published, and the closed round, None where nothing was pending and no round was opened.
#[derive(Drop)]
pub struct Summary {
    pub pending: u32,
    pub claimed: Counts,
    pub published: Counts,
    pub outcome: Option<Outcome>,
}

impl Summary {
    // Nothing was pending.
    pub(crate) fn of_no_round(alloc: Global) -> Summary
        ensures numbers { (result.pending ≡ 0) × (result.claimed ≡ []) × (result.published ≡ []) }
        ensures outcome { result.outcome ≡ None }
    {
        Summary {
            pending: 0,
            claimed: Counts::none(alloc),
            published: Counts::none(alloc),
            outcome: None,
        }
    }
}
