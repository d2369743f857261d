//! Formulas as trees: what they are made of, what they name at a cell, and which are sound there.
#![tactic(auto)]

pub mod functions;
pub mod levels;
pub mod place;
pub mod places;
pub mod repoint;
pub mod shift;
pub mod tree;

pub use functions::{Kind, Signature, are_enough, kind_of, may_go_on};
pub use place::Place;
pub use places::{area_of, place_from, place_of, resolve};
pub use repoint::{Repoint, map_tree};
pub use tree::{Args, Fun, Op, Part, Reference, Sign, Tree};

/// The most nodes of a formula.
pub const MAX_NODES: usize = 512;

/// The most levels of a formula that are open at once.
pub const MAX_LEVELS: usize = 32;

/// The most bytes of a formula's text.
pub const MAX_FORMULA_BYTES: usize = 1_024;
