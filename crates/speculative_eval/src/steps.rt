//! One step of a worker, over its parts.

ghost use Rattle.std.specs.Prelude.{◌≡◌};
ghost use Rattle.claim_core.specs.Rule.{HasTurn};
ghost use Rattle.claim_core.specs.Steps.{grown};
ghost use Rattle.claim_core.specs.Passes.{IsPassOf, Stays};
ghost use Rattle.worker_machine.specs.Jobs.{round_of};
ghost use Rattle.worker_machine.specs.Machine.{after};
ghost use Rattle.worker_machine.specs.RoundSteps.{IsEvent};
ghost use Rattle.worker_machine.specs.Found.{found};
ghost use Rattle.speculative_eval.specs.Hinted.{hints_with};
ghost use Rattle.speculative_eval.specs.Machines.{IsChosen, IsKept, job_of, state_of};
ghost use Rattle.speculative_eval.specs.Workers.{TakesHints, worker_with};
ghost use Rattle.speculative_eval.specs.Steps.{EndsWith, Makes};

use crate::hinted::hint_for;
use crate::machine::Machine;
use crate::perform::perform;
use crate::step::Step;
use claim_core::{Event, Pass, Round};
use workbook_core::Workbook;
use worker_machine::{Action, Hints, Pace};

// Makes the step that was chosen, and notes what came of it.
fn make_step<P: Pace>(
    round: &Round<'_, Workbook>,
    pass: &mut Pass,
    machine: &mut Machine<'_>,
    pace: &P,
    action: Action,
) -> Event
    requires round { IsPassOf round.now pass.old × (round_of (job_of machine.old) ≡ round.now.setup) }
    requires kept { IsKept pass.old machine.old }
    requires chosen { IsChosen machine.old action }
    ensures pass { Stays round.now pass.old pass.new }
    ensures kept { IsKept pass.new machine.new }
    ensures job { job_of machine.new ≡ job_of machine.old }
    ensures event { IsEvent action result }
    ensures found { HasTurn pass.old.view → result ≡ found pass.old.view.words action }
    ensures view { pass.new.view ≡ grown result pass.old.view }
    ensures state { state_of machine.new ≡ after (job_of machine.old) (state_of machine.old) result }
{
    pace.before(machine.number, action.kind());
    let event = perform(round, pass, action);
    machine.note(event);
    event
}

/// The one next step of a worker of these parts.
pub(crate) fn step_parts<H: Hints, P: Pace>(
    round: &Round<'_, Workbook>,
    pass: &mut Pass,
    machine: &mut Machine<'_>,
    hints: &mut H,
    pace: &P,
) -> Step
    requires round { IsPassOf round.now pass.old × (round_of (job_of machine.old) ≡ round.now.setup) }
    requires kept { IsKept pass.old machine.old }
    ensures pass { Stays round.now pass.old pass.new }
    ensures kept { IsKept pass.new machine.new }
    ensures job { job_of machine.new ≡ job_of machine.old }
    ensures step { Makes (worker_with pass.old machine.old (hints_with (H.left hints.old) (H.last hints.old) (H.over hints.old))) result (worker_with pass.new machine.new (hints_with (H.left hints.new) (H.last hints.new) (H.over hints.new))) }
    ensures hints { TakesHints (worker_with pass.old machine.old (hints_with (H.left hints.old) (H.last hints.old) (H.over hints.old))) (hints_with (H.left hints.new) (H.last hints.new) (H.over hints.new)) }
    ensures ends { EndsWith result (worker_with pass.new machine.new (hints_with (H.left hints.new) (H.last hints.new) (H.over hints.new))) }
{
    let next = machine.settle();
    let hint = hint_for(&machine.demands, next, hints);
    match machine.choose(next, hint) {
        Some(action) => Step::Did(make_step(round, pass, machine, pace, action)),
        None => Step::Finished,
    }
}
