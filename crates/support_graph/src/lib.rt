//! Which cells read which, and the cells that edits leave pending.
#![tactic(auto)]

mod block;
mod index;
mod search;
mod sorted;
pub mod stale;
pub mod support;
#[cfg(test)]
mod tests;

pub use stale::Stale;
pub use support::Support;
