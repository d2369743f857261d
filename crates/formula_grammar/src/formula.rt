//! Texts as formulas.

ghost use Rattle.formula_trees.specs.declared.TheConstants.{MAX_FORMULA_BYTES};
ghost use Rattle.std.specs.Prelude.{◌≡◌, ◌<◌, ◌≤◌, ℕ, true, length, IfOk, IfErr, OnOk, MatchResult};
ghost use Rattle.cell_values.specs.Addresses.{IsOnSheet};
ghost use Rattle.cell_values.specs.Interned.{KeepsTexts};
ghost use Rattle.formula_trees.specs.Expr.{Expr, expr_of};
ghost use Rattle.formula_trees.specs.SheetNumbers.{SheetsBelow};
ghost use Rattle.formula_trees.specs.Sound.{IsSound};
ghost use Rattle.formula_trees.specs.TextNumbers.{TextsBelow};
ghost use Rattle.formula_tokens.specs.Tokens.{with_literals};
ghost use Rattle.formula_tokens.specs.Words.{begins_with};
ghost use Rattle.formula_grammar.specs.declared.faults.FaultKind.{FaultKind};
ghost use Rattle.formula_grammar.specs.declared.faults.FormulaFault.{FormulaFault};
ghost use Rattle.formula_grammar.specs.Fault.{Reads, tokens_of};
ghost use Rattle.formula_grammar.specs.Faulty.{IsFault};
ghost use Rattle.formula_grammar.specs.Reading.{Means, HasFault, IsFaultOf, IsThisFault};

use crate::faults::{FaultKind, FormulaFault};
use crate::parser::read_all;
use cell_values::{Addr, SheetNames, Texts};
use formula_tokens::{Spot, read_tokens};
use formula_trees::{MAX_FORMULA_BYTES, Tree};
use std::alloc::Global;

/// Reads the formula of the cell `at`: its tree, or the place and kind of its first fault. The texts of its
/// literals are interned in order. After a fault the texts may hold more entries than before.
#[tactic(auto, using(crate::proofs::Known::tokens_known, crate::proofs::Known::tree_known, crate::proofs::TokenCounts::spots_few))]
pub fn read_formula(
    alloc: Global,
    text: &str,
    at: Addr,
    sheets: &SheetNames,
    texts: &mut Texts,
) -> Result<Tree, FormulaFault>
    requires formula { begins_with 61 text.now ≡ true }
    requires on_sheet { IsOnSheet at }
    ensures tree { IfOk result (λ tree. Means sheets.now texts.new at text.now (expr_of tree)) }
    ensures fault { IfErr result (IsFaultOf sheets.now (with_literals sheets.now texts.old text.now) text.now) }

    // A text that has a tree is read, and one that has a fault is refused for it, want of memory apart.
    ensures read { (tree : Expr) → Means sheets.now (with_literals sheets.now texts.old text.now) at text.now tree →
        MatchResult result (λ t. expr_of t ≡ tree) (λ e. e ≡ FormulaFault.OutOfMemory) }
    ensures refused { (place : ℕ) (kind : FaultKind) → HasFault sheets.now (with_literals sheets.now texts.old text.now) text.now place kind →
        MatchResult result (λ t. ⊥) (IsThisFault place kind) }

    ensures texts { OnOk result (texts.new ≡ with_literals sheets.now texts.old text.now) }
    ensures kept { KeepsTexts texts.old texts.new }
    ensures sound { IfOk result (λ tree. IsSound at (expr_of tree)) }
    ensures known_texts { IfOk result (λ tree. TextsBelow (λ i. i < length texts.new) (expr_of tree)) }
    ensures known_sheets { IfOk result (λ tree. SheetsBelow (length sheets.now) (expr_of tree)) }
{
    if text.len() > MAX_FORMULA_BYTES {
        return Err(FormulaFault::Bad {
            place: 0,
            kind: FaultKind::TooLong,
        });
    }
    match read_tokens(alloc, text, sheets, texts) {
        Ok(spots) => read_spots(alloc, &spots, text.len() as u32, at),
        Err(_) => Err(FormulaFault::OutOfMemory),
    }
}

/// The tree that the tokens of a formula spell at the cell `at`, or their first fault. The text of the formula ends
/// at the place `end`.
fn read_spots(alloc: Global, spots: &[Spot], end: u32, at: Addr) -> Result<Tree, FormulaFault>
    requires on_sheet { IsOnSheet at }
    requires short { length spots.now ≤ MAX_FORMULA_BYTES }
    // What is read is a formula within the limits, with its meaning.
    ensures ok { IfOk result (λ tree. Reads at (tokens_of spots.now) (expr_of tree)) }
    ensures sound { IfOk result (λ tree. IsSound at (expr_of tree)) }
    // A fault is the first one at the first token that has one.
    ensures bad { IfErr result (IsFault spots.now end) }
    // A formula is read as its meaning, unless memory runs out.
    ensures read { (x : Expr) → Reads at (tokens_of spots.now) x → MatchResult result (λ tree. expr_of tree ≡ x) (λ e. e ≡ FormulaFault.OutOfMemory) }
{
    match read_all(alloc, spots, end, at) {
        Ok(tree) => Ok(tree),
        Err(fault) => Err(fault),
    }
}
