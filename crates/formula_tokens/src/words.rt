//! The words of formulas.

ghost use Rattle.std.specs.Prelude.{◌≡◌, ◌<◌, All, IsTrue, length};
ghost use Rattle.std.specs.List.{prefix_len};
ghost use Rattle.std.specs.Char.{IsAsciiAlphabetic, is_ascii_alphabetic};
ghost use Rattle.std.specs.Str.{bytes_eq, all_ascii_digits};
ghost use Rattle.std.specs.Str.Parse.{digits_value};
ghost use Rattle.cell_values.specs.CellText.{column_number};
ghost use Rattle.formula_tokens.specs.Words.{begins_with, without_dollar, clipped, corner_from, corner_of, upper, truth_of, function_name, named_in, function_named};

use crate::{Coordinate, Corner};
use formula_trees::Fun;

/// Every function.
const FUNCTIONS: [Fun; 22] = [
    Fun::If,
    Fun::And,
    Fun::Or,
    Fun::Not,
    Fun::Choose,
    Fun::IfError,
    Fun::IsError,
    Fun::Sum,
    Fun::Min,
    Fun::Max,
    Fun::Count,
    Fun::Abs,
    Fun::Mod,
    Fun::Quotient,
    Fun::Index,
    Fun::Match,
    Fun::VLookup,
    Fun::HLookup,
    Fun::Left,
    Fun::Right,
    Fun::Mid,
    Fun::Len,
];

/// The name of a function, in capitals.
pub fn function_name(fun: Fun) -> &'static str
    ensures { result.now ≡ function_name fun }
{
    match fun {
        Fun::If => "IF",
        Fun::And => "AND",
        Fun::Or => "OR",
        Fun::Not => "NOT",
        Fun::Choose => "CHOOSE",
        Fun::IfError => "IFERROR",
        Fun::IsError => "ISERROR",
        Fun::Sum => "SUM",
        Fun::Min => "MIN",
        Fun::Max => "MAX",
        Fun::Count => "COUNT",
        Fun::Abs => "ABS",
        Fun::Mod => "MOD",
        Fun::Quotient => "QUOTIENT",
        Fun::Index => "INDEX",
        Fun::Match => "MATCH",
        Fun::VLookup => "VLOOKUP",
        Fun::HLookup => "HLOOKUP",
        Fun::Left => "LEFT",
        Fun::Right => "RIGHT",
        Fun::Mid => "MID",
        Fun::Len => "LEN",
    }
}

/// The function with this name, in either case.
#[tactic(auto, unfolding(crate::specs::Words::function_named))]
pub(crate) fn function_named(word: &str) -> Option<Fun>
    ensures { result ≡ function_named word.now }
{
    named_in(&FUNCTIONS, word)
}

/// The first of the functions with this name, in either case.
#[tactic(auto, using(crate::proofs::Names::name_is_upper, crate::proofs::Names::named_here, crate::proofs::Names::named_later, crate::proofs::Names::named_nowhere))]
fn named_in(functions: &[Fun], word: &str) -> Option<Fun>
    ensures { result ≡ named_in functions.now (upper word.now) }
{
    for fun in functions {
        if is_named(word, function_name(*fun)) {
            return Some(*fun);
        }
    }
    None
}

/// `TRUE` or `FALSE`, in either case.
#[tactic(auto, unfolding(crate::specs::Words::truth_of))]
pub(crate) fn read_truth(word: &str) -> Option<bool>
    ensures { result ≡ truth_of word.now }
{
    if is_named(word, "TRUE") {
        Some(true)
    } else if is_named(word, "FALSE") {
        Some(false)
    } else {
        None
    }
}

/// The word is this name, in either case. The name is in capitals.
fn is_named(word: &str, name: &str) -> bool
    requires { upper name.now ≡ name.now }
    ensures { result ≡ bytes_eq (upper word.now) name.now }
{
    word.eq_ignore_ascii_case(name)
}

/// The cell that a word of the form `$A$1` names, with or without each `$`.
pub(crate) fn read_corner(word: &str) -> Option<Corner>
    ensures { result ≡ corner_of word.now }
{
    let (absolute, bare) = split_dollar(word);
    let (letters, row) = bare.split_at(letter_count(bare));
    corner_from(absolute, letters, row)
}

/// The cell of letters and a row's text: digits with or without a `$` in front.
fn corner_from(absolute: bool, letters: &str, row: &str) -> Option<Corner>
    requires { All IsAsciiAlphabetic letters.now }
    ensures { result ≡ corner_from absolute letters.now row.now }
{
    let (row_absolute, digits) = split_dollar(row);
    if letters.is_empty() || digits.is_empty() || !is_digits(digits) {
        return None;
    }
    Some(Corner {
        col: Coordinate {
            number: column_number(letters),
            absolute,
        },
        row: Coordinate {
            number: row_number(digits),
            absolute: row_absolute,
        },
    })
}

/// Whether the text begins with `$`, and the text without it.
fn split_dollar(text: &str) -> (bool, &str)
    ensures dollar { result.0 ≡ begins_with 36 text.now }
    ensures bare { result.1.now ≡ without_dollar text.now }
{
    match text.strip_prefix('$') {
        Some(bare) => (true, bare),
        None => (false, text),
    }
}

/// How many letters a text begins with.
fn letter_count(text: &str) -> usize
    ensures { result ≡ prefix_len is_ascii_alphabetic text.now }
{
    text.as_bytes()
        .iter()
        .take_while(|c| c.is_ascii_alphabetic())
        .count()
}

/// Each byte is a digit.
fn is_digits(text: &str) -> bool
    ensures { result ≡ all_ascii_digits text.now }
{
    text.bytes().all(|c| c.is_ascii_digit())
}

/// The column that letters name. One above the greatest `u32` counts as that.
#[tactic(auto, using(crate::proofs::Numbers::column_step, crate::proofs::Numbers::column_done))]
fn column_number(letters: &str) -> u32
    requires { All IsAsciiAlphabetic letters.now }
    ensures { result ≡ clipped (column_number letters.now) }
{
    let mut number: u32 = 0;
    for letter in letters.as_bytes() {
        let value = u32::from(letter.to_ascii_uppercase() - b'@');
        number = number.saturating_mul(26).saturating_add(value);
    }
    number
}

/// The row that digits write. One above the greatest `u32` counts as that.
#[tactic(auto, using(crate::proofs::Numbers::row_parsed))]
fn row_number(digits: &str) -> u32
    requires some { 0 < length digits.now }
    requires digits { IsTrue (all_ascii_digits digits.now) }
    ensures { result ≡ clipped (digits_value 10 digits.now) }
{
    digits.parse().unwrap_or(u32::MAX)
}
