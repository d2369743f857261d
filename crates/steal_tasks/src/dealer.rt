//! The numbers are dealt.
ghost use Rattle.std.specs.Prelude.{◌≡◌, ◌+◌, ◌-◌, ◌<◌, ◌≤◌, true, false, None, [], length, map, vec_len, IfOk, OnOk, All};
ghost use Rattle.std.specs.List.{range_with_len, zip};
ghost use Rattle.steal_tasks.specs.Sharing.{share};
ghost use Rattle.steal_tasks.specs.Dealing.{part_start, dealt_to, all_dealt};
ghost use Rattle.steal_tasks.specs.Ends.{parts, part_of, with_others, untaken, part_behind, parts_from, others_from, IsReady, IsFresh};

use crate::deque::{OtherDeque, OwnDeque};
use crate::task_end::TaskEnd;
use std::alloc::{AllocError, Global};
use worker_machine::Hints;

/// Deals the numbers below `count` to the ends of `workers` workers, at least one and at most 64: to end w
/// those from w parts of `workers` equal ones, rounded down, up to w + 1 parts. End w stands at place w, has given
/// nothing and has not ended. All memory that the ends need is taken here; where it runs out, nothing is dealt.
pub fn deal(alloc: Global, count: u32, workers: u8) -> Result<Vec<TaskEnd>, AllocError>
    requires { (1 ≤ workers) × (workers ≤ 64) }
    ensures parts { IfOk result (λ ends. map parts ends.items ≡ map (parts_from (all_dealt count workers)) (range_with_len 0 workers)) }
    ensures fresh { IfOk result (λ ends. All (IsFresh count) ends.items) }
    ensures count { IfOk result (λ ends. vec_len ends ≡ workers) }
    ensures hints { IfOk result (λ ends. All (λ e. (⟦<TaskEnd as Hints>⟧.left e ≡ count) × (⟦<TaskEnd as Hints>⟧.last e ≡ None) × (⟦<TaskEnd as Hints>⟧.over e ≡ false)) ends.items) }
{
    let mut deques = own_deques(alloc, count, workers)?;
    let others = all_others(alloc, deques.as_mut_slice())?;
    ends_with(alloc, count, deques, others)
}

// The ends with these deques of their own, and with the others for each.
fn ends_with(
    alloc: Global,
    count: u32,
    deques: Vec<OwnDeque>,
    others: Vec<Vec<OtherDeque>>,
) -> Result<Vec<TaskEnd>, AllocError>
    requires { All (λ p. IsReady p.0 p.1.items) (zip deques.items others.items) }
    ensures parts { IfOk result (λ ends. map parts ends.items ≡ map (λ p. with_others (part_of p.0) p.1.items) (zip deques.items others.items)) }
    ensures fresh { IfOk result (λ ends. All (IsFresh count) ends.items) }
{
    let mut ends = Vec::with_capacity(alloc, deques.len())?;
    for (own, others) in deques.into_iter().zip(others) {
        ends.push(TaskEnd::new(count, own, others))?;
    }
    Ok(ends)
}

// Where the part of worker `worker` begins.
#[tactic(auto, using(crate::proofs::Parts::start_within))]
fn first_of_part(count: u32, workers: u8, worker: u8) -> u32
    requires { (1 ≤ workers) × (worker ≤ workers) }
    ensures start { result ≡ part_start count workers worker }
{
    (u64::from(worker) * u64::from(count) / u64::from(workers)) as u32
}

// A deque with its part for each worker.
fn own_deques(alloc: Global, count: u32, workers: u8) -> Result<Vec<OwnDeque>, AllocError>
    requires { 1 ≤ workers }
    ensures { IfOk result (λ v. v.items ≡ map (λ w. share true (dealt_to count workers w) []) (range_with_len 0 workers)) }
{
    let mut deques = Vec::with_capacity(alloc, usize::from(workers))?;
    for worker in 0..workers {
        let start = first_of_part(count, workers, worker);
        let end = first_of_part(count, workers, worker + 1);
        let deque = OwnDeque::with_numbers(alloc, start, end)?;
        deques.push(deque)?;
    }
    Ok(deques)
}

// The other deques for each worker.
fn all_others(alloc: Global, deques: &mut [OwnDeque]) -> Result<Vec<Vec<OtherDeque>>, AllocError>
    requires { length deques.old ≤ 64 }
    ensures same { OnOk result (map part_of deques.new ≡ map part_of deques.old) }
    ensures alone { length deques.old ≡ 1 → OnOk result (deques.new ≡ deques.old) }
    ensures others { IfOk result (λ v. map (λ os. map (λ o. o.part) os.items) v.items ≡ map (others_from (map (λ d. d.dealt) deques.old)) (range_with_len 0 (length deques.old))) }
{
    let workers = deques.len();
    let mut all = Vec::with_capacity(alloc, workers)?;
    for worker in 0..workers {
        let others = others_of(alloc, deques, worker)?;
        all.push(others)?;
    }
    Ok(all)
}

// The other deques for worker `worker`, from the next higher one's on and so round.
fn others_of(
    alloc: Global,
    deques: &mut [OwnDeque],
    worker: usize,
) -> Result<Vec<OtherDeque>, AllocError>
    requires { (worker < length deques.old) × (length deques.old ≤ 64) }
    ensures same { OnOk result (map part_of deques.new ≡ map part_of deques.old) }
    ensures alone { length deques.old ≡ 1 → OnOk result (deques.new ≡ deques.old) }
    ensures others { IfOk result (λ v. map (λ o. o.part) v.items ≡ others_from (map (λ d. d.dealt) deques.old) worker) }
{
    let workers = deques.len();
    let mut others = Vec::with_capacity(alloc, workers - 1)?;
    for step in 1..workers {
        let next = (worker + step) % workers;
        let other = deques[next].lend()?;
        others.push(other)?;
    }
    Ok(others)
}
