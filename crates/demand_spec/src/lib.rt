//! The definitions of demand evaluation, the laws on them, and a plain evaluator.
#![tactic(auto)]

ghost use Rattle.demand_spec.specs.Laws.{AskGrows, RoundsEnd, NeedIsThere, NeedIsMentioned, StackCloses, Carried, LoopsAreFound, ValuesShow, CyclesShow, LoopShows, OthersLead, PendingIsClosed, LoopInClosed, ShowsSame};
ghost use Rattle.demand_spec.specs.Like.{MirroredBy, MirroredOutsideBy};
ghost use Rattle.demand_spec.specs.Results.{ShowsOwn, ShowsItsTexts, NeedsAreLacking, DemandsAreNeeds};
ghost use Rattle.demand_spec.specs.Edits.{CellsAreLookups, ListsAreMembers, EditApplies, AppliedOnly, TooLargeByLength, PendingListed, PendingListIsClosed, AllStayPending};
ghost use Rattle.demand_spec.specs.Recursion.{LiteralGives, ReferenceGives, SignGives, OperatorGives, JoinGives, LeftGives, ShortLeftGives, RightGives, ShortRightGives, MidGives, LenGives, ModGives, QuotientGives, AbsGives, IfGives, ShortIfGives, AndGives, OrGives, NoneGive, NotGives, IfErrorGives, IsErrorGives, ChooseGives, FoldGives, FoldEnds, IndexGives, MatchGives, VLookupGives, HLookupGives};

mod all_rounds;
mod arguments;
mod ask;
pub mod book;
mod calls;
mod cells;
mod context;
mod lookups;
pub mod operators;
mod outcomes;
pub mod shown_cells;
#[cfg(test)]
mod tests;
pub mod view;

pub use book::PlainBook;
use cell_values::{Addr, Int, TextId, Value};
use formula_trees::Tree;
pub use operators::{operator_value, sign_value};
pub use shown_cells::slow_shown;
pub use view::{BookView, Results};

/// What a cell holds.
#[derive(Debug, Drop, PartialEq, Eq)]
pub enum Cell {
    Number(Int),
    Text(TextId),
    Bool(bool),
    Formula(Tree),
}

/// What a formula gives, asked over the values that are known: its value, or the first formula cell
/// that it demands and that has no value yet.
#[derive(Clone, Copy, Debug, PartialEq, Eq)]
pub enum Asked {
    Val(Value),
    Needs(Addr),
}

/// What is asked over more known values: a value stays, and so does a need that is still lacking.
pub fn law_asks_grow()
    ensures { AskGrows }
{}

/// Rounds grow and end, and a formula cell that is not finished needs a mentioned one.
pub fn law_rounds_end()
    ensures grow { RoundsEnd }
    ensures there { NeedIsThere }
    ensures mentioned { NeedIsMentioned }
{}

/// A stack whose top needs one of its own cells closes exactly one loop.
pub fn law_stack_closes()
    ensures { StackCloses }
{}

/// A cell that needs a cell on no loop is on no loop.
pub fn law_carried()
    ensures { Carried }
{}

/// The bounded search finds the length of every loop.
pub fn law_loops_are_found()
    ensures { LoopsAreFound }
{}

/// What a formula cell shows: the value that rounds give it, its loop's length, or that it leads into one.
pub fn law_marks()
    ensures values { ValuesShow }
    ensures cycles { CyclesShow }
    ensures members { LoopShows }
    ensures others { OthersLead }
{}

/// Pending sets are closed, and a loop that meets a closed set lies in it.
pub fn law_closed()
    ensures pending { PendingIsClosed }
    ensures loops { LoopInClosed }
{}

/// What an edit does not reach shows the same.
pub fn law_shows_same()
    ensures { ShowsSame }
{}

/// What corresponds in two books: cells, and values.
pub trait Correspondence {
    ghost use Rattle.demand_spec.specs.Like.{OnCells, OnValues};

    ghost on_cells: { OnCells };

    ghost on_values: { OnValues };
}

/// Cells of two books that correspond show what corresponds; where cells were touched, those that none of these reaches.
pub fn law_mirrored<C: Correspondence>()
    ensures all { MirroredBy C.on_cells C.on_values }
    ensures outside { MirroredOutsideBy C.on_cells C.on_values }
{}

/// Cells in order are told by what is found at each address, and addresses in order by which they are.
pub fn law_one_list()
    ensures cells { CellsAreLookups }
    ensures addresses { ListsAreMembers }
{}

/// An edit makes exactly the cells that `applied` says, and is too large exactly where these are too many.
pub fn law_edits_apply()
    ensures applies { EditApplies }
    ensures alone { AppliedOnly }
    ensures too_large { TooLargeByLength }
{}

/// The cells that an edit leaves pending are a list that a function tells, and they stay closed.
pub fn law_pending_listed()
    ensures listed { PendingListed }
    ensures closed { PendingListIsClosed }
    ensures all { AllStayPending }
{}

/// A cell without a formula shows its own value, and each value that is shown has a text number of the book.
pub fn law_shown_values()
    ensures others { ShowsOwn }
    ensures texts { ShowsItsTexts }
{}

/// What a formula needs is mentioned and lacking, and what it demands it needs in the end.
pub fn law_needs()
    ensures lacking { NeedsAreLacking }
    ensures demanded { DemandsAreNeeds }
{}

/// What an operator gives, from what its operands give, the left one first.
pub fn law_operators_recur()
    ensures literal { LiteralGives }
    ensures reference { ReferenceGives }
    ensures sign { SignGives }
    ensures operator { OperatorGives }
    ensures modulo { ModGives }
    ensures quotient { QuotientGives }
    ensures absolute { AbsGives }
{}

/// What `&`, LEFT, RIGHT, MID and LEN give, from what their arguments give, the first one first.
pub fn law_texts_recur()
    ensures joined { JoinGives }
    ensures left { LeftGives }
    ensures one_left { ShortLeftGives }
    ensures right { RightGives }
    ensures one_right { ShortRightGives }
    ensures middle { MidGives }
    ensures length { LenGives }
{}

/// What a function of conditions gives, from what its arguments give.
pub fn law_conditions_recur()
    ensures choice { IfGives }
    ensures one_choice { ShortIfGives }
    ensures all { AndGives }
    ensures some { OrGives }
    ensures none { NoneGive }
    ensures other { NotGives }
    ensures unless_error { IfErrorGives }
    ensures is_error { IsErrorGives }
    ensures chosen { ChooseGives }
{}

/// What SUM, MIN, MAX and COUNT give, argument by argument.
pub fn law_folds_recur()
    ensures more { FoldGives }
    ensures end { FoldEnds }
{}

/// What INDEX, MATCH, VLOOKUP and HLOOKUP give, step by step.
pub fn law_searches_recur()
    ensures index { IndexGives }
    ensures position { MatchGives }
    ensures down { VLookupGives }
    ensures along { HLookupGives }
{}
