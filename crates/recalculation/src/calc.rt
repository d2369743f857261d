//! A workbook with what its cells show, as far as it is computed.

ghost use Rattle.std.specs.Prelude.{◌≡◌, false, ℕ, ◌≤◌, ◌<◌, ◌++◌, [], length, All, option_map, IfOk, OnOk, OnErr, IfErr, MatchResult, MatchOption};
ghost use Rattle.cell_values.specs.Fields.{raw_of, IsRawOf};
ghost use Rattle.cell_values.specs.Interned.{KeepsTexts};
ghost use Rattle.cell_values.specs.Values.{IsShownOf};
ghost use Rattle.formula_grammar.specs.declared.faults.FaultKind.{FaultKind};
ghost use Rattle.demand_spec.specs.Book.{formulas, shown, own_of};
ghost use Rattle.shared_expressions.specs.Trees.{Trees, KeepsTrees};
ghost use Rattle.workbook_core.specs.Edits.{IsField, IsThisFault, IsTooMany};
ghost use Rattle.workbook_core.specs.Held.{content_in};
ghost use Rattle.support_graph.specs.Support.{IsSupportOf};
ghost use Rattle.parallel_evaluation.specs.Order.{run_order};
ghost use Rattle.parallel_evaluation.specs.Summaries.{IsSummaryOf};
ghost use Rattle.recalculation.specs.Calculations.{has_result, stored_at, AreResultsOf};
ghost use Rattle.recalculation.specs.Standing.{pending_in, seen, IsProgress};
ghost use Rattle.row_shift.specs.Moves.{IsChange};
ghost use Rattle.row_shift.specs.MovedBook.{moved_book, pending_moved};
ghost use Rattle.row_shift.specs.Pushed.{pushes_out};
ghost use Rattle.recalculation.specs.Shifts.{IsShiftFault};
ghost use Rattle.recalculation.specs.Edits.{area_of, pending_by, IsEditOf, IsEdited, PutsFault, MakesTooLarge, IsFaultOf, IsLeft};

use crate::book::{area, change, known};
use crate::edit::Edit;
use crate::progress::Progress;
use crate::shift::{ShiftFault, shift_both};
use cell_values::{Addr, Raw, Shown, Value};
use demand_spec::{BookView, Results};
use moved_books::pushes_out;
use parallel_evaluation::{Summary, Traced};
use row_shift::RowChange;
use std::alloc::{AllocError, Global};
use std::marker::{Model, Sync};
use std::thread::Threads;
use support_graph::Support;
use workbook_core::{Content, EditFault, Workbook};
use worker_machine::Pace;

/// A workbook, with the results of its formula cells but for the pending ones: those that an edit changed or that
/// depend on what changed, and that no recalculation has computed since. Contracts see the workbook and the list of
/// the pending cells, in order of address.
#[derive(Drop)]
pub struct Calc {
    book: Workbook,
    progress: Progress,
}

impl Model for Calc {
    ghost use Rattle.recalculation.specs.Calculations.{Calculation};

    ghost Value = { Calculation };

    ghost use Rattle.std.specs.Coded.{codes};
    ghost use Rattle.formula_trees.specs.ExprCode.{expr_code};

    ghost coded = { Prim.hlevel (codes, expr_code) };

    ghost use Rattle.recalculation.specs.Standing.{seen, IsProgress};

    ghost view = { λ c. seen c.book c.progress };

    ghost invariant = { λ c. IsProgress c.book.book c.progress };
}

impl Calc {
    /// All formula cells of the workbook are pending. Takes no memory, and no time: the first recalculation looks at
    /// the cells.
    pub fn new(alloc: Global, book: Workbook) -> Calc
        ensures { result ≡ record { shared = book; pending = formulas book.book } }
    {
        Calc {
            book,
            progress: Progress::new(alloc),
        }
    }

    /// The workbook.
    pub fn book(&self) -> &Workbook
        ensures { result.now ≡ self.now.shared }
    {
        &self.book
    }

    /// Reads a field on the workbook's own texts. Results and pending cells stay.
    pub fn read_raw(&mut self, field: &str) -> Result<Raw, AllocError>
        ensures ok { IfOk result (λ raw. (self.new.shared.book.texts, raw) ≡ raw_of self.old.shared.book.texts field.now) }
        ensures there { IfOk result (IsRawOf self.new.shared.book.texts) }
        ensures field { IfOk result IsField }
        ensures pending { self.new.pending ≡ self.old.pending }
        ensures cells { self.new.shared.book.cells ≡ self.old.shared.book.cells }
        ensures names { self.new.shared.names ≡ self.old.shared.names }
        ensures pool { self.new.shared.pool ≡ self.old.shared.pool }
        ensures kept { KeepsTexts self.old.shared.book.texts self.new.shared.book.texts }
        ensures err { OnErr result (self.new ≡ self.old) }
    {
        known(&self.book);
        self.book.read_raw(self.progress.alloc, field)
    }

    /// Makes an edit, and lets pend what it changed and all that depends on that.
    ///
    /// A refused formula or an edit that makes the workbook too large changes nothing but that there may be more texts. Where
    /// memory runs out, the cells are those before the edit or those after it, and all formula cells are pending.
    pub fn edit(&mut self, edit: &Edit) -> Result<(), EditFault>
        requires { IsEditOf self.old.shared edit.now }
        ensures ok { OnOk result (IsEdited self.old.shared edit.now self.new.shared) }
        ensures pending { OnOk result (self.new.pending ≡ pending_by self.old (area_of edit.now) self.new) }
        ensures fault { IfErr result (IsFaultOf self.old.shared edit.now) }
        ensures left { IfErr result (IsLeft self.old edit.now self.new) }

        // A formula with a fault is refused for it, and an edit that makes the workbook too large for that, want of
        // memory apart.
        ensures refused { (place : ℕ) (kind : FaultKind) → PutsFault self.old.shared edit.now place kind → MatchResult result (λ _. ⊥) (IsThisFault place kind) }
        ensures large { MakesTooLarge self.old.shared edit.now → MatchResult result (λ _. ⊥) IsTooMany }
        ensures names { self.new.shared.names ≡ self.old.shared.names }
        ensures kept_texts { KeepsTexts self.old.shared.book.texts self.new.shared.book.texts }
        ensures kept_trees { KeepsTrees self.old.shared.pool self.new.shared.pool }
    {
        edit_both(&mut self.book, &mut self.progress, edit)
    }

    /// Inserts or deletes rows. The cells below move, and what formulas name moves along; formula cells that lose a
    /// reference or a range, or of which a range gets more rows or fewer, are pending then, with all that depends on them.
    /// Every other result stays.
    ///
    /// An insertion that would push a cell that is not empty past the last row is refused. That, and want of memory, leaves
    /// all as it was.
    pub fn shift_rows(&mut self, change: RowChange) -> Result<(), ShiftFault>
        requires { IsChange change }
        ensures ok { OnOk result (self.new.shared.book ≡ moved_book change self.old.shared.book) }
        ensures pending { OnOk result (self.new.pending ≡ pending_moved change self.old.shared.book self.old.pending) }
        ensures fits { OnOk result (pushes_out change self.old.shared.book.cells ≡ false) }
        ensures fault { IfErr result (IsShiftFault change self.old.shared.book.cells) }
        ensures names { self.new.shared.names ≡ self.old.shared.names }
        ensures err { OnErr result (self.new ≡ self.old) }
    {
        if pushes_out(&self.book, change) {
            return Err(ShiftFault::RowsFull);
        }
        shift_both(&mut self.book, &mut self.progress, change)?;
        Ok(())
    }

    /// Builds what tells which cells an edit leaves pending, if that was not done since the workbook came or since
    /// memory ran out. A recalculation does it by itself.
    pub fn build(&mut self) -> Result<(), AllocError>
        ensures { self.new ≡ self.old }
    {
        self.pack()?;
        self.progress.build(&self.book)
    }

    /// Lays the workbook out anew where its support is still to be built.
    fn pack(&mut self) -> Result<(), AllocError>
        ensures { self.new ≡ self.old }
    {
        if self.progress.built {
            return Ok(());
        }
        self.book.pack(self.progress.alloc)
    }

    /// The pending cells, in order of address. None where `build` is still due: then all formula cells are pending.
    pub fn pending(&self) -> Option<&[Addr]>
        ensures { MatchOption result (self.now.pending ≡ formulas self.now.shared.book) (λ cells. cells.now ≡ self.now.pending) }
    {
        if self.progress.built {
            Some(self.progress.stale.cells())
        } else {
            None
        }
    }

    /// Computes the pending cells in one round with 1 to 64 workers, in threads of their own: each cell then shows what
    /// the workbook means, whatever the number of workers and the order of their steps. `pace` hears of each step. Nothing
    /// is pending after that; where nothing was, no round is opened.
    ///
    /// It fails where memory runs out, before any worker starts, and leaves all as it was.
    pub fn recalculate<R: Threads + Sync, P: Pace>(
        &mut self,
        rt: &R,
        workers: u8,
        pace: &P,
    ) -> Result<Summary, AllocError>
        requires { (1 ≤ workers) × (workers ≤ 64) }
        ensures book { self.new.shared ≡ self.old.shared }
        ensures done { OnOk result (self.new.pending ≡ []) }
        ensures summary { IfOk result (IsSummaryOf self.old.shared.book self.old.pending workers) }
        ensures err { OnErr result (self.new ≡ self.old) }
    {
        self.pack()?;
        self.progress.compute(rt, &self.book, workers, pace)
    }

    /// The same with workers that step one at a time in this thread: each worker that `order` names makes one step, and
    /// then each that is not `stopped` runs to its end, worker 0 first. A worker is named by its number, from 0; one that
    /// is finished makes no step. The steps are appended to `trace`.
    ///
    /// It fails where memory runs out, and leaves all as it was, the trace too.
    pub fn recalculate_in_order(
        &mut self,
        workers: u8,
        order: &[u8],
        stopped: &[u8],
        trace: &mut Vec<Traced>,
    ) -> Result<Summary, AllocError>
        requires workers { (1 ≤ workers) × (workers ≤ 64) }
        requires order { All (λ w. w < workers) order.now }
        requires stopped { length stopped.now < workers }
        ensures book { self.new.shared ≡ self.old.shared }
        ensures done { OnOk result (self.new.pending ≡ []) }
        ensures summary { IfOk result (IsSummaryOf self.old.shared.book self.old.pending workers) }
        ensures trace { OnOk result (trace.new.items ≡ trace.old.items ++ run_order self.old.shared.book self.old.pending workers order.now stopped.now) }
        ensures err { OnErr result ((self.new ≡ self.old) × (trace.new.items ≡ trace.old.items)) }
    {
        self.pack()?;
        self.progress
            .compute_in_order(&self.book, workers, order, stopped, trace)
    }

    /// What a cell shows.
    pub fn shown(&self, at: Addr) -> Shown
        requires { self.now.pending ≡ [] }
        ensures shown { result ≡ shown self.now.shared.book at }
        ensures text { IsShownOf self.now.shared.book.texts result }
    {
        let own = own_value(self.book.content(at));
        self.stored(at).unwrap_or(Shown::Val(own))
    }

    /// What a formula cell that is not pending shows. None at every other cell.
    pub fn stored(&self, at: Addr) -> Option<Shown>
        ensures { result ≡ stored_at self.now.shared.book self.now.pending at }
    {
        if self.has_result(at) {
            self.progress.stored.get(&at).copied()
        } else {
            None
        }
    }

    /// Whether the cell has a formula and is not pending.
    fn has_result(&self, at: Addr) -> bool
        ensures { result ≡ has_result self.now.shared.book self.now.pending at }
    {
        self.book.has_formula(at) && !self.progress.is_pending(at)
    }

    /// The results of the formula cells that are not pending. What the map holds for other cells has no meaning.
    pub fn results(&self) -> &Results
        ensures { AreResultsOf self.now.shared.book self.now.pending result.now.entries }
    {
        &self.progress.stored
    }

    /// Which cells read which.
    pub fn support(&self) -> &Support
        requires { self.now.pending ≡ [] }
        ensures { IsSupportOf self.now.shared.book result.now }
    {
        &self.progress.support
    }
}

/// Makes an edit, and follows it.
fn edit_both(book: &mut Workbook, progress: &mut Progress, edit: &Edit) -> Result<(), EditFault>
    requires edit { IsEditOf book.old edit.now }
    requires progress { IsProgress book.old.book progress.old }
    ensures progress { IsProgress book.new.book progress.new }
    ensures ok { OnOk result (IsEdited book.old edit.now book.new) }
    ensures pending { OnOk result (pending_in book.new.book progress.new ≡ pending_by (seen book.old progress.old) (area_of edit.now) (seen book.new progress.new)) }
    ensures fault { IfErr result (IsFaultOf book.old edit.now) }
    ensures left { IfErr result (IsLeft (seen book.old progress.old) edit.now (seen book.new progress.new)) }
    ensures refused { (place : ℕ) (kind : FaultKind) → PutsFault book.old edit.now place kind → MatchResult result (λ _. ⊥) (IsThisFault place kind) }
    ensures large { MakesTooLarge book.old edit.now → MatchResult result (λ _. ⊥) IsTooMany }
    ensures names { book.new.names ≡ book.old.names }
    ensures kept_texts { KeepsTexts book.old.book.texts book.new.book.texts }
    ensures kept_trees { KeepsTrees book.old.pool book.new.pool }
{
    known(book);
    let written = area(book, edit);
    match change(progress.alloc, book, edit) {
        Ok(()) => {
            progress.follow(book, written)?;
            Ok(())
        }
        Err(fault) => {
            progress.fail(fault);
            Err(fault)
        }
    }
}

/// The value of a cell without a formula, by what it holds.
fn own_value(content: Option<Content>) -> Value
    ensures { (p : Trees) → result ≡ own_of (option_map (content_in p) content) }
{
    match content {
        Some(Content::Number(n)) => Value::Number(n),
        Some(Content::Text(t)) => Value::Text(t),
        Some(Content::Bool(b)) => Value::Bool(b),
        Some(Content::Formula(_)) | None => Value::Blank,
    }
}
