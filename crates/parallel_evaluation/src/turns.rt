//! Workers that step one at a time, each in its turn.

ghost use Rattle.std.specs.Prelude.{◌≡◌, ℕ, ◌+◌, ◌*◌, ◌<◌, ◌≤◌, ◌++◌, false, length, All, List, IfOk, OnOk};
ghost use Rattle.claim_core.specs.Passes.{IsTurnOf};
ghost use Rattle.speculative_eval.specs.Steps.{event_in, steps_in};
ghost use Rattle.parallel_evaluation.specs.declared.trace.Traced.{Traced as Entry};
ghost use Rattle.parallel_evaluation.specs.Order.{traced, run, to_end, most_turns, is_stopped, ended, all_ended};
ghost use Rattle.parallel_evaluation.specs.Turns.{AreWorkers, board, steps_at, IsTurnOn, EndsAt, HasEndedAt, HaveEnded, OthersStay};

use crate::trace::Traced;
use claim_core::{Round, Turn};
use speculative_eval::{Step, Worker};
use std::alloc::AllocError;
use workbook_core::Workbook;
use worker_machine::{NoHints, NoPace};

// One turn of the worker `by`.
fn give_turn(
    round: &Round<'_, Workbook>,
    workers: &mut [Worker<'_, NoHints>],
    turn: Turn,
    by: u8,
) -> (Step, Turn)
    requires turn { IsTurnOf round.now turn }
    requires workers { AreWorkers round.now workers.old × (by < length workers.old) }
    ensures turn { IsTurnOf round.now result.1 }
    ensures workers { AreWorkers round.now workers.new × (length workers.new ≡ length workers.old) }
    ensures turned { (events : List Entry) → IsTurnOn round.now.setup by result.0 (board events turn.words workers.old) (board (events ++ traced by (event_in result.0)) result.1.words workers.new) }
    ensures made { steps_at workers.new by ≡ steps_at workers.old by + steps_in result.0 }
    ensures few { steps_at workers.new by ≤ 16 * length round.now.setup.cells + 16 }
    ensures ends { EndsAt result.0 workers.new by }
    ensures others { OthersStay by workers.old workers.new }
{
    workers[by as usize].step_in_turn(round, turn, &NoPace)
}

// Appends what a turn was, if a step was made.
fn note(events: &mut Vec<Traced>, by: u8, step: Step) -> Result<(), AllocError>
    ensures { OnOk result (events.new.items ≡ events.old.items ++ traced by (event_in step)) }
{
    if let Step::Did(event) = step {
        events.push(Traced { worker: by, event })?;
    }
    Ok(())
}

// Gives a turn to each worker that the order names.
fn run_turns(
    round: &Round<'_, Workbook>,
    workers: &mut [Worker<'_, NoHints>],
    mut turn: Turn,
    order: &[u8],
    events: &mut Vec<Traced>,
) -> Result<Turn, AllocError>
    requires turn { IsTurnOf round.now turn }
    requires workers { AreWorkers round.now workers.old }
    requires order { All (λ w. w < length workers.old) order.now }
    ensures turn { IfOk result (IsTurnOf round.now) }
    ensures workers { OnOk result (AreWorkers round.now workers.new × (length workers.new ≡ length workers.old)) }
    ensures run { IfOk result (λ t. board events.new.items t.words workers.new ≡ run round.now.setup order.now (board events.old.items turn.words workers.old)) }
{
    for i in 0..order.len() {
        let by = order[i];
        let (step, next) = give_turn(round, workers, turn, by);
        turn = next;
        note(events, by, step)?;
    }
    Ok(turn)
}

// Gives turns to one worker until it is finished.
fn run_to_end(
    round: &Round<'_, Workbook>,
    workers: &mut [Worker<'_, NoHints>],
    mut turn: Turn,
    by: u8,
    events: &mut Vec<Traced>,
) -> Result<Turn, AllocError>
    requires turn { IsTurnOf round.now turn }
    requires workers { AreWorkers round.now workers.old × (by < length workers.old) }
    ensures turn { IfOk result (IsTurnOf round.now) }
    ensures workers { OnOk result (AreWorkers round.now workers.new × (length workers.new ≡ length workers.old)) }
    ensures run { IfOk result (λ t. board events.new.items t.words workers.new ≡ to_end round.now.setup by (most_turns (length round.now.setup.cells)) (board events.old.items turn.words workers.old)) }
    ensures ended { OnOk result (HasEndedAt workers.new by) }
    ensures others { OnOk result (OthersStay by workers.old workers.new) }
{
    loop {
        let (step, next) = give_turn(round, workers, turn, by);
        turn = next;
        let Step::Did(event) = step else {
            return Ok(turn);
        };
        events.push(Traced { worker: by, event })?;
    }
}

// The same, unless the worker is stopped.
fn run_unless_stopped(
    round: &Round<'_, Workbook>,
    workers: &mut [Worker<'_, NoHints>],
    turn: Turn,
    stopped: &[u8],
    by: u8,
    events: &mut Vec<Traced>,
) -> Result<Turn, AllocError>
    requires turn { IsTurnOf round.now turn }
    requires workers { AreWorkers round.now workers.old × (by < length workers.old) }
    ensures turn { IfOk result (IsTurnOf round.now) }
    ensures workers { OnOk result (AreWorkers round.now workers.new × (length workers.new ≡ length workers.old)) }
    ensures run { IfOk result (λ t. board events.new.items t.words workers.new ≡ ended round.now.setup stopped.now by (board events.old.items turn.words workers.old)) }
    ensures ended { OnOk result (is_stopped stopped.now by ≡ false → HasEndedAt workers.new by) }
    ensures others { OnOk result (OthersStay by workers.old workers.new) }
{
    if stopped.contains(&by) {
        return Ok(turn);
    }
    run_to_end(round, workers, turn, by, events)
}

// Runs each worker that is not stopped to its end, worker 0 first.
fn run_rest(
    round: &Round<'_, Workbook>,
    workers: &mut [Worker<'_, NoHints>],
    mut turn: Turn,
    stopped: &[u8],
    events: &mut Vec<Traced>,
) -> Result<Turn, AllocError>
    requires turn { IsTurnOf round.now turn }
    requires workers { AreWorkers round.now workers.old × (length workers.old ≤ 64) }
    ensures workers { OnOk result (AreWorkers round.now workers.new × (length workers.new ≡ length workers.old)) }
    ensures run { IfOk result (λ t. board events.new.items t.words workers.new ≡ all_ended round.now.setup stopped.now (length workers.old) 0 (board events.old.items turn.words workers.old)) }
    ensures ended { OnOk result (HaveEnded stopped.now workers.new (length workers.old)) }
{
    let count = workers.len() as u8;
    for by in 0..count {
        turn = run_unless_stopped(round, workers, turn, stopped, by, events)?;
    }
    Ok(turn)
}

/// Gives a turn to each worker that the order names, and then runs each that is not stopped to its end,
/// worker 0 first. The events are appended.
pub(crate) fn run_all(
    round: &Round<'_, Workbook>,
    workers: &mut [Worker<'_, NoHints>],
    turn: Turn,
    order: &[u8],
    stopped: &[u8],
    events: &mut Vec<Traced>,
) -> Result<(), AllocError>
    requires turn { IsTurnOf round.now turn }
    requires workers { AreWorkers round.now workers.old × (length workers.old ≤ 64) }
    requires order { All (λ w. w < length workers.old) order.now }
    ensures workers { OnOk result (AreWorkers round.now workers.new × (length workers.new ≡ length workers.old)) }
    ensures events { OnOk result (events.new.items ≡ (all_ended round.now.setup stopped.now (length workers.old) 0 (run round.now.setup order.now (board events.old.items turn.words workers.old))).events) }
    ensures ended { OnOk result (HaveEnded stopped.now workers.new (length workers.old)) }
{
    let turn = run_turns(round, workers, turn, order, events)?;
    run_rest(round, workers, turn, stopped, events)?;
    Ok(())
}
