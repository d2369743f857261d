//! The numbers that a line names.

ghost use Rattle.std.specs.Prelude.{◌≡◌, IfSome};
ghost use Rattle.cell_values.specs.Fields.{number_of_field};
ghost use Rattle.edit_script.specs.Numbers.{numbers_to, range_in, IsRange};

use cell_values::Int;

/// The number that a text writes. A `+` in front, which `parse` takes, is no part of a number.
#[tactic(auto, using(cell_values::proofs::FieldNumbers::parsed_number, cell_values::proofs::FieldNumbers::plus_number))]
pub(crate) fn read_number(text: &str) -> Option<Int>
    ensures { result ≡ number_of_field text.now }
{
    if text.starts_with('+') {
        return None;
    }
    text.parse().ok()
}

/// How many numbers there are from one to another, if they are 1 to 1,000.
fn count_to(low: Int, high: Int) -> Option<u32>
    ensures same { result ≡ numbers_to low high }
    ensures within { IfSome result (IsRange low) }
{
    let more = high.checked_sub(low)?;
    if 0 <= more && more < 1000 {
        Some(more as u32 + 1)
    } else {
        None
    }
}

/// The first of the numbers from one text to another, and how many they are.
pub(crate) fn read_range(low: &str, high: &str) -> Option<(Int, u32)>
    ensures same { result ≡ range_in low.now high.now }
    ensures within { IfSome result (λ range. IsRange range.0 range.1) }
{
    let low = read_number(low)?;
    let count = count_to(low, read_number(high)?)?;
    Some((low, count))
}
