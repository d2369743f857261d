//! The loops of a book whose results are known.
#![tactic(auto)]

ghost use Rattle.cycle_finder.specs.Laws.{AreWholeLoops, MembersShow, EachInOne, AreInOrder};

pub mod finder;
mod recalled;
#[cfg(test)]
mod tests;
mod walker;

pub use finder::{Loop, cycles};

/// The listed loops are whole, each cell that shows a loop's length is in exactly one of them, and they stand in the
/// order of their first cells.
pub fn law_loops()
    ensures whole { AreWholeLoops }
    ensures members { MembersShow }
    ensures each { EachInOne }
    ensures order { AreInOrder }
{}
