//! How a line falls into pieces.

ghost use Rattle.std.specs.Prelude.{◌≡◌, ◌==◌, ◌<◌};
ghost use Rattle.std.specs.List.{before_first, after_first};
ghost use Rattle.edit_script.specs.Pieces.{behind_spaces, trimmed, without_cr};

/// The line without one CR at its end.
#[tactic(auto, using(crate::proofs::Cuts::no_cr))]
pub(crate) fn without_cr(line: &str) -> &str
    ensures { result.now ≡ without_cr line.now }
{
    match line.strip_suffix('\r') {
        Some(front) => front,
        None => line,
    }
}

/// The text without the spaces in front.
pub(crate) fn behind_spaces(text: &str) -> &str
    ensures { result.now ≡ behind_spaces text.now }
{
    text.trim_start_matches(' ')
}

/// The text without the spaces at its end.
pub(crate) fn without_end_spaces(text: &str) -> &str
    ensures { result.now ≡ trimmed text.now }
{
    text.trim_end_matches(' ')
}

/// What stands before the first such character, and what stands behind it: nothing where there is none.
pub(crate) fn split_at_mark(text: &str, mark: char) -> (&str, &str)
    requires { mark < 128 }
    ensures front { result.0.now ≡ before_first (λ c. c == mark) text.now }
    ensures back { result.1.now ≡ after_first (λ c. c == mark) text.now }
{
    match text.split_once(mark) {
        Some((front, back)) => (front, back),
        None => (text, ""),
    }
}
