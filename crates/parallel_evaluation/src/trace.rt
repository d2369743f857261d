//! What is told of a run in a given order.

use claim_core::Event;

/// A step of a round, and the number of the worker that made it, from 0.
#[derive(Clone, Copy, Debug, PartialEq, Eq)]
pub struct Traced {
    pub worker: u8,
    pub event: Event,
}
