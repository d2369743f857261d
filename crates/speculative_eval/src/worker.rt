//! A worker of a round.

ghost use Rattle.std.specs.Prelude.{◌≡◌, ◌+◌, length, IfSome, MatchResult, get_or, None};
ghost use Rattle.claim_core.specs.Passes.{Belongs, IsIdle, IsTurnOf};
ghost use Rattle.worker_machine.specs.Jobs.{shows};
ghost use Rattle.worker_machine.specs.States.{known_at};
ghost use Rattle.demand_stack.specs.StackSeen.{AreStored};
ghost use Rattle.speculative_eval.specs.Hinted.{hints_with};
ghost use Rattle.speculative_eval.specs.Machines.{IsKept};
ghost use Rattle.speculative_eval.specs.Workers.{BelongsTo, IsWorkerOf, TakesHints, begun, worker_with};
ghost use Rattle.speculative_eval.specs.Steps.{EndsWith, HasAll, HasFewEvents, IsTurned, Makes, steps_in};

use crate::machine::Machine;
use crate::step::Step;
use crate::steps::step_parts;
use cell_values::{Addr, Shown};
use claim_core::{Pass, Round, Turn};
use demand_spec::Results;
use result_list::ResultList;
use std::alloc::Global;
use std::marker::Model;
use workbook_core::Workbook;
use worker_machine::{Hints, Pace};

/// A worker of a round: it has a pass, a stack of the cells that it has begun, and all results that it
/// knows. No call but `new` takes memory.
#[derive(Drop)]
pub struct Worker<'b, H: Hints> {
    pass: Pass,
    machine: Machine<'b>,
    hints: H,
}

impl<'b, H: Hints> Model for Worker<'b, H> {
    ghost use Rattle.speculative_eval.specs.Hinted.{hints_with};
    ghost use Rattle.speculative_eval.specs.Machines.{IsKept};
    ghost use Rattle.speculative_eval.specs.Workers.{WorkerSeen, worker_with};

    ghost Value = { WorkerSeen };

    ghost use Rattle.std.specs.Coded.{codes};
    ghost use Rattle.claim_core.specs.BookCode.{book_code};

    ghost coded = { Prim.hlevel (codes, book_code) };

    ghost view = { λ w. worker_with w.pass w.machine (hints_with (H.left w.hints) (H.last w.hints) (H.over w.hints)) };

    ghost invariant = { λ w. IsKept w.pass w.machine };
}

impl<'b, H: Hints> Worker<'b, H> {
    // A worker of these parts.
    fn with_parts(pass: Pass, machine: Machine<'b>, hints: H) -> Worker<'b, H>
        requires { IsKept pass machine }
        ensures { result ≡ worker_with pass machine.entry (hints_with (H.left hints) (H.last hints) (H.over hints)) }
    {
        Worker {
            pass,
            machine,
            hints,
        }
    }

    /// A worker that has done nothing, for a pass of the round that has done nothing. `stored` has what
    /// the book shows at the formula cells that are not pending; what stands there at pending cells
    /// plays no part. Where there is no memory, the pass is handed back and the hints are dropped.
    pub fn new(
        alloc: Global,
        round: &Round<'_, Workbook>,
        pass: Pass,
        book: &'b Workbook,
        cells: &'b [Addr],
        stored: &'b Results,
        hints: H,
    ) -> Result<Worker<'b, H>, Pass>
        requires pass { IsIdle round.now pass }
        requires book { (book.now.book ≡ round.now.setup.book) × (cells.now ≡ round.now.setup.cells) }
        requires stored { AreStored (record { book = book.now.book; cells = cells.now }) stored.now.entries }
        ensures { MatchResult result (λ w. w ≡ begun round.now pass (hints_with (H.left hints) (H.last hints) (H.over hints))) (λ p. p ≡ pass) }
    {
        let workers = round.workers();
        match Machine::new(alloc, pass.worker(), workers, book, cells, stored) {
            Ok(machine) => Ok(Worker::with_parts(pass, machine, hints)),
            Err(_) => Err(pass),
        }
    }

    /// Makes the one next atomic step. Right before it, `pace` hears of it. `Finished` comes exactly where
    /// the machine has no step; what the worker changes on its own on the way is kept then too.
    pub fn step<P: Pace>(&mut self, round: &Round<'_, Workbook>, pace: &P) -> Step
        requires { IsWorkerOf round.now self.old }
        ensures worker { IsWorkerOf round.now self.new × (self.new.job ≡ self.old.job) }
        ensures step { Makes self.old result self.new }
        ensures hints { TakesHints self.old self.new.hints }
        ensures ends { EndsWith result self.new }
        ensures few { HasFewEvents self.new }
    {
        step_parts(
            round,
            &mut self.pass,
            &mut self.machine,
            &mut self.hints,
            pace,
        )
    }

    /// The same for a worker of a round whose workers step in a given order: it takes the turn, and
    /// gives it back.
    pub fn step_in_turn<P: Pace>(
        &mut self,
        round: &Round<'_, Workbook>,
        turn: Turn,
        pace: &P,
    ) -> (Step, Turn)
        requires { BelongsTo round.now self.old × IsTurnOf round.now turn }
        ensures worker { BelongsTo round.now self.new × (self.new.job ≡ self.old.job) }
        ensures turn { IsTurnOf round.now result.1 }
        ensures step { IsTurned self.old turn.words result.0 result.1.words self.new }
        ensures made { length self.new.pass.view.events ≡ length self.old.pass.view.events + steps_in result.0 }
        ensures hints { TakesHints self.old self.new.hints }
        ensures ends { EndsWith result.0 self.new }
        ensures few { HasFewEvents self.new }
    {
        round.take_turn(&mut self.pass, turn);
        let step = step_parts(
            round,
            &mut self.pass,
            &mut self.machine,
            &mut self.hints,
            pace,
        );
        let turn = round.give_turn(&mut self.pass);
        (step, turn)
    }

    /// Makes all steps that are left.
    pub fn finish<P: Pace>(&mut self, round: &Round<'_, Workbook>, pace: &P)
        requires { IsWorkerOf round.now self.old }
        ensures worker { IsWorkerOf round.now self.new × (self.new.job ≡ self.old.job) }
        ensures all { HasAll self.new }
        ensures few { HasFewEvents self.new }
    {
        loop {
            match self.step(round, pace) {
                Step::Did(_) => {}
                Step::Finished => return,
            }
        }
    }

    /// What the cell with this number shows, None where the worker does not know it yet.
    pub fn result(&self, cell: u32) -> Option<Shown>
        ensures known { result ≡ known_at self.now.state cell }
        ensures right { IfSome result (λ r. r ≡ shows self.now.job.pending cell) }
    {
        self.machine.demands.known(cell)
    }

    /// Its pass, at any time.
    pub fn into_pass(self) -> Pass
        ensures pass { result ≡ self.entry.pass }
        ensures few { HasFewEvents self.entry }
    {
        let Worker {
            pass,
            machine: _,
            hints: _,
        } = self;
        pass
    }

    /// Its pass, and the list of what it knows, at any time: one entry for each pending cell.
    pub fn into_parts(self) -> (Pass, ResultList)
        ensures pass { result.0 ≡ self.entry.pass }
        ensures known { result.1 ≡ self.entry.state.known }
        ensures count { length result.1 ≡ length self.entry.job.pending.cells }
        ensures few { HasFewEvents self.entry }
    {
        let Worker {
            pass,
            machine,
            hints: _,
        } = self;
        (pass, machine.into_results())
    }
}
