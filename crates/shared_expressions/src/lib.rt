//! Expressions kept once each: copies of a formula share one expression.
#![tactic(auto)]

ghost use Rattle.shared_expressions.specs.Laws.{MentionsAreAreas, DepthWithinNodes};

mod areas;
mod copies;
mod keys;
pub mod nodes;
pub mod pool;
mod store;
#[cfg(test)]
mod tests;

pub use nodes::{ExprId, Node};
pub use pool::Pool;

/// What a formula mentions is what its areas hold, one after the other.
pub fn law_mentions_are_areas()
    ensures { MentionsAreAreas }
{}

/// A formula is no deeper than it has nodes.
pub fn law_depth_within_nodes()
    ensures { DepthWithinNodes }
{}
