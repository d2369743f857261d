//! Which hint a step has.

ghost use Rattle.std.specs.Prelude.{◌≡◌, ◌≤◌, ◌<◌, Some, None, true, IfSome};
ghost use Rattle.speculative_eval.specs.Hinted.{NamesUnknown, TakesHints, asks, hint_of, hints_with};

use demand_stack::DemandStack;
use worker_machine::{Hints, Next};

/// Takes hints until one names a cell that is not known, or they have ended.
fn take_hints<H: Hints>(demands: &DemandStack<'_>, hints: &mut H) -> Option<u32>
    requires { H.askable hints.old }
    ensures some { IfSome result (λ i. NamesUnknown demands.now.known i × (H.last hints.new ≡ Some i) × (H.left hints.new < H.left hints.old) × (H.over hints.new ≡ H.over hints.old)) }
    ensures none { result ≡ None → (H.left hints.new ≤ H.left hints.old) × (H.over hints.new ≡ true) }
{
    loop {
        let cell = hints.take()?;
        if cell < demands.count() && demands.known(cell).is_none() {
            return Some(cell);
        }
    }
}

/// The hint of a step before which the state calls for this.
pub(crate) fn hint_for<H: Hints>(
    demands: &DemandStack<'_>,
    next: Next,
    hints: &mut H,
) -> Option<u32>
    ensures hint { result ≡ hint_of (asks next (hints_with (H.left hints.old) (H.last hints.old) (H.over hints.old))) (hints_with (H.left hints.new) (H.last hints.new) (H.over hints.new)) }
    ensures taken { TakesHints demands.now.known (asks next (hints_with (H.left hints.old) (H.last hints.old) (H.over hints.old))) (hints_with (H.left hints.old) (H.last hints.old) (H.over hints.old)) (hints_with (H.left hints.new) (H.last hints.new) (H.over hints.new)) }
{
    match next {
        Next::Alter(_) | Next::Do(_) => None,
        Next::Rest => {
            if hints.ended() {
                return None;
            }
            take_hints(demands, hints)
        }
    }
}
