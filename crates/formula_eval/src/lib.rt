//! The evaluation of one formula: begun, stopped at a missing cell, taken up again, dropped.
#![tactic(auto)]

ghost use Rattle.formula_eval.specs.Laws.{StandsOn, LooksOnceMore, StandsReady, AnswersPlan, DropsToBase};

mod calls;
mod cells;
mod continuations;
pub mod frames;
mod machine;
mod site;
#[cfg(test)]
mod tests;
mod text_values;
mod walks;
pub mod work;

pub use demand_spec::Asked;
pub use frames::Frames;
pub use machine::{Known, Look, abandon, ask, begin, resume};

/// More known values keep an evaluation open.
pub fn law_stands_on()
    ensures { StandsOn }
{}

/// A `resume` costs one look more than an evaluation from the start would.
pub fn law_looks_once_more()
    ensures { LooksOnceMore }
{}

/// An open evaluation may be taken up again, and another one begun above it.
pub fn law_stands_ready()
    ensures { StandsReady }
{}

/// What `begin` and `resume` answer is what the formula gives.
pub fn law_answers_plan()
    ensures { AnswersPlan }
{}

/// `abandon` leaves what lay below the open evaluation.
pub fn law_drops_to_base()
    ensures { DropsToBase }
{}
