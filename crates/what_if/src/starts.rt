//! A word to the outside before each scenario, so that a test or a tool can hold workers back.

/// Hears of each scenario right before it is evaluated. Nothing is asked of it and nothing is known of what it does, so
/// the answers do not rest on it.
pub trait Starts: Sync {
    /// The worker with this number is about to evaluate the scenario with this number, both from 0.
    fn begin(&self, worker: u8, scenario: u32);
}

/// Does nothing.
#[derive(Clone, Copy, Debug, PartialEq, Eq, Drop)]
pub struct NoStarts;

impl Starts for NoStarts {
    fn begin(&self, _worker: u8, _scenario: u32) {}
}
