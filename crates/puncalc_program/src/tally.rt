//! What formula cells show, counted.

ghost use Rattle.std.specs.Prelude.{◌≡◌, ◌++◌, IfOk, codes, string_bytes};
ghost use Rattle.std.specs.List.{count_by};
ghost use Rattle.std.specs.Fmt.{signed_decimal};
ghost use Rattle.std.specs.Int.{w128, int_wrap};
ghost use Rattle.puncalc_program.specs.Demo.{number_shown, numbered, shows_cycle, shows_error, shows_to_cycle, shows_value, sum_shown, tally_line};

use cell_values::{Int, Shown, Value};
use std::alloc::{AllocError, Global};

/// The line of a recalculation: how many cells were pending, and of what all formula cells show how many values, errors
/// and marks there are, and the sum of the numbers.
pub(crate) fn tally_line(alloc: Global, pending: u32, shows: &[Shown]) -> Result<String, AllocError>
    ensures { IfOk result (λ line. string_bytes line ≡ tally_line pending shows.now) }
{
    let marks = marks_part(alloc, shows)?;
    let from_errors = numbered(alloc, " errors ", errors(shows), &marks)?;
    let from_values = numbered(alloc, " values ", values(shows), &from_errors)?;
    numbered(alloc, "recalculated ", pending as usize, &from_values)
}

/// The part of the line that tells of marks and of the sum.
fn marks_part(alloc: Global, shows: &[Shown]) -> Result<String, AllocError>
    ensures { IfOk result (λ text. string_bytes text ≡ numbered (codes " cycle ") (count_by shows_cycle shows.now) (numbered (codes " tocycle ") (count_by shows_to_cycle shows.now) (codes " sum " ++ (signed_decimal (int_wrap w128 (sum_shown shows.now)) ++ codes "\n")))) }
{
    let sum = sum_part(alloc, shows)?;
    let from_to_cycles = numbered(alloc, " tocycle ", to_cycles(shows), &sum)?;
    numbered(alloc, " cycle ", cycles(shows), &from_to_cycles)
}

/// The end of the line, with the sum.
fn sum_part(alloc: Global, shows: &[Shown]) -> Result<String, AllocError>
    ensures { IfOk result (λ text. string_bytes text ≡ codes " sum " ++ (signed_decimal (int_wrap w128 (sum_shown shows.now)) ++ codes "\n")) }
{
    let total = sum_shown(shows);
    let sum = sum_text(alloc, total)?;
    format!(in alloc; " sum {sum}\n")
}

fn sum_text(alloc: Global, sum: Int) -> Result<String, AllocError>
    ensures { IfOk result (λ text. string_bytes text ≡ signed_decimal sum) }
{
    format!(in alloc; "{sum}")
}

/// A word, a number and what follows.
fn numbered(alloc: Global, word: &str, number: usize, rest: &str) -> Result<String, AllocError>
    ensures { IfOk result (λ text. string_bytes text ≡ numbered word.now number rest.now) }
{
    format!(in alloc; "{word}{number}{rest}")
}

/// How many values there are.
fn values(shows: &[Shown]) -> usize
    ensures { result ≡ count_by shows_value shows.now }
{
    shows.iter().filter(|shown| shows_value(**shown)).count()
}

/// How many errors there are.
fn errors(shows: &[Shown]) -> usize
    ensures { result ≡ count_by shows_error shows.now }
{
    shows.iter().filter(|shown| shows_error(**shown)).count()
}

/// How many cells lie on cycles.
fn cycles(shows: &[Shown]) -> usize
    ensures { result ≡ count_by shows_cycle shows.now }
{
    shows.iter().filter(|shown| shows_cycle(**shown)).count()
}

/// How many cells lead into cycles.
fn to_cycles(shows: &[Shown]) -> usize
    ensures { result ≡ count_by shows_to_cycle shows.now }
{
    shows.iter().filter(|shown| shows_to_cycle(**shown)).count()
}

fn shows_value(shown: Shown) -> bool
    ensures { result ≡ shows_value shown }
{
    matches!(shown, Shown::Val(value) if !value.is_error())
}

fn shows_error(shown: Shown) -> bool
    ensures { result ≡ shows_error shown }
{
    matches!(shown, Shown::Val(value) if value.is_error())
}

fn shows_cycle(shown: Shown) -> bool
    ensures { result ≡ shows_cycle shown }
{
    matches!(shown, Shown::Cycle(_))
}

fn shows_to_cycle(shown: Shown) -> bool
    ensures { result ≡ shows_to_cycle shown }
{
    matches!(shown, Shown::ToCycle)
}

/// The sum of the numbers, of which 128 bits are kept.
fn sum_shown(shows: &[Shown]) -> Int
    ensures { result ≡ int_wrap w128 (sum_shown shows.now) }
{
    let mut sum: Int = 0;
    for shown in shows {
        sum = sum.wrapping_add(number_shown(*shown));
    }
    sum
}

/// A number itself, and 0 for all else.
fn number_shown(shown: Shown) -> Int
    ensures { result ≡ number_shown shown }
{
    match shown {
        Shown::Val(Value::Number(n)) => n,
        Shown::Val(_) | Shown::Cycle(_) | Shown::ToCycle => 0,
    }
}
