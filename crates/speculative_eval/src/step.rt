//! What one call for a step came to.

use claim_core::Event;

/// A step that was made, or that the worker has none left: it knows all cells then.
#[derive(Clone, Copy, Debug, PartialEq, Eq)]
pub enum Step {
    Did(Event),
    Finished,
}
