//! What may be wrong with a formula, and what is wrong with a token by itself.

ghost use Rattle.std.specs.Prelude.{◌≡◌};
ghost use Rattle.formula_grammar.specs.FaultKinds.{number_of};
ghost use Rattle.formula_grammar.specs.Fault.{is_inside, own_fault, named_fault, corner_fault, word_fault, literal_fault};
ghost use Rattle.formula_grammar.specs.Rest.{misfit};

use cell_values::{LAST_COLUMN, LAST_ROW};
use formula_tokens::{Corner, Literal, Token, Word};
use std::alloc::AllocFailed;

/// What is wrong with a formula.
#[derive(Clone, Copy, Debug, PartialEq, Eq)]
pub enum FaultKind {
    /// A character that begins no token.
    BadCharacter,
    /// A token that cannot stand where it is.
    Misplaced,
    /// A name that the language does not have.
    UnknownName,
    /// A number above the greatest.
    HugeNumber,
    /// A call with too few or too many arguments.
    ArgumentCount,
    /// The 33rd level that is open at once.
    TooDeep,
    /// The 513th node, or more than 1,024 bytes.
    TooLong,
    /// A range of more than 65,536 cells.
    LargeRange,
    /// A prefix that names no sheet.
    UnknownSheet,
    /// A reference outside the sheet.
    OutsideSheet,
}

impl FaultKind {
    /// The number by which it is told, from 1 to 10. Of several at one token the least is told.
    pub fn number(self) -> u8
        ensures { result ≡ number_of self }
    {
        match self {
            FaultKind::BadCharacter => 1,
            FaultKind::Misplaced => 2,
            FaultKind::UnknownName => 3,
            FaultKind::HugeNumber => 4,
            FaultKind::ArgumentCount => 5,
            FaultKind::TooDeep => 6,
            FaultKind::TooLong => 7,
            FaultKind::LargeRange => 8,
            FaultKind::UnknownSheet => 9,
            FaultKind::OutsideSheet => 10,
        }
    }
}

/// Why a formula is not read.
#[derive(Clone, Copy, Debug, PartialEq, Eq)]
pub enum FormulaFault {
    /// The first fault: the place in bytes from 0 at the `=`, and what is wrong there.
    Bad { place: u32, kind: FaultKind },
    OutOfMemory,
}

impl<T: Drop> From<AllocFailed<T>> for FormulaFault {
    ghost use Rattle.formula_grammar.specs.declared.faults.FormulaFault.TheVariants.{OutOfMemory};

    ghost from_gives = { λ _ e. e ≡ OutOfMemory };

    fn from(_e: AllocFailed<T>) -> FormulaFault {
        FormulaFault::OutOfMemory
    }
}

/// What is wrong with a token by itself.
pub(crate) fn own_fault(token: Token) -> Option<FaultKind>
    ensures { result ≡ own_fault token }
{
    match token {
        Token::BadCharacter => Some(FaultKind::BadCharacter),
        Token::Reference(word) | Token::SheetReference(word) => word_fault(word),
        Token::Function(None) => Some(FaultKind::UnknownName),
        Token::Literal(literal) => literal_fault(literal),
        _ => None,
    }
}

/// The word may be unknown.
fn word_fault(word: Word) -> Option<FaultKind>
    ensures { result ≡ word_fault word }
{
    match word {
        Word::Cell(_) => None,
        Word::Unknown => Some(FaultKind::UnknownName),
    }
}

/// The number may be too large.
fn literal_fault(literal: Literal) -> Option<FaultKind>
    ensures { result ≡ literal_fault literal }
{
    match literal {
        Literal::Number(n) => {
            if n >= 0 {
                None
            } else {
                Some(FaultKind::HugeNumber)
            }
        }
        Literal::HugeNumber => Some(FaultKind::HugeNumber),
        _ => None,
    }
}

/// What is wrong with what a token names.
pub(crate) fn named_fault(token: Token) -> Option<FaultKind>
    ensures { result ≡ named_fault token }
{
    match token {
        Token::Reference(word) | Token::SheetReference(word) => corner_fault(word),
        Token::Prefix(None) => Some(FaultKind::UnknownSheet),
        _ => None,
    }
}

/// The cell may lie outside the sheet.
fn corner_fault(word: Word) -> Option<FaultKind>
    ensures { result ≡ corner_fault word }
{
    match word {
        Word::Cell(corner) => {
            if is_inside(corner) {
                None
            } else {
                Some(FaultKind::OutsideSheet)
            }
        }
        Word::Unknown => None,
    }
}

/// The corner lies inside the sheet.
fn is_inside(corner: Corner) -> bool
    ensures { result ≡ is_inside corner }
{
    1 <= corner.col.number
        && corner.col.number <= u32::from(LAST_COLUMN)
        && 1 <= corner.row.number
        && corner.row.number <= LAST_ROW
}

/// What is wrong where a token cannot stand.
pub(crate) fn misfit(token: Token) -> FaultKind
    ensures { result ≡ misfit token }
{
    match token {
        Token::BadCharacter => FaultKind::BadCharacter,
        _ => FaultKind::Misplaced,
    }
}
