//! How many events of each worker are still to come.

ghost use Rattle.std.specs.Prelude.{◌≡◌, ◌∷◌, ◌<◌, List, drop, length, map, option_to_list, IfOk};
ghost use Rattle.parallel_evaluation.specs.declared.trace.Traced.{Traced as Entry};
ghost use Rattle.trace_text.specs.Counting.{AreCounted};
ghost use Rattle.trace_text.specs.TraceText.{end_lines, finished_line};

use parallel_evaluation::Traced;
use std::alloc::{AllocError, Global};

// How many workers a number can name.
const WORKERS: usize = 256;

// For each worker, how many of the events are its own.
pub(crate) fn count_events(alloc: Global, events: &[Traced]) -> Result<Vec<usize>, AllocError>
    ensures { IfOk result (λ counts. AreCounted counts.items events.now) }
{
    let mut counts = vec![in alloc; 0usize; WORKERS]?;
    for i in 0..events.len() {
        counts[events[i].worker as usize] += 1;
    }
    Ok(counts)
}

// Takes the event `at` off the counts of the events from it on. Gives its worker where it has none behind it and is
// not stopped.
pub(crate) fn ended_with(
    counts: &mut [usize],
    stopped: &[u8],
    events: &[Traced],
    at: usize,
) -> Option<u8>
    requires at { at < length events.now }
    requires counts { AreCounted counts.old (drop at events.now) }
    ensures counts { (t : Entry) (later : List Entry) → drop at events.now ≡ t ∷ later → AreCounted counts.new later }
    ensures ended { (t : Entry) (later : List Entry) → drop at events.now ≡ t ∷ later → map finished_line (option_to_list result) ≡ end_lines stopped.now t.worker later }
{
    let worker = events[at].worker;
    let left = counts[worker as usize] - 1;
    counts[worker as usize] = left;
    if left > 0 || stopped.contains(&worker) {
        None
    } else {
        Some(worker)
    }
}
