//! Texts that formulas compute: `&`, LEFT, RIGHT, MID and LEN, on values alone and without memory.
//!
//! The text of a value is the one that a cell with this value shows. A character is a Unicode scalar
//! value, and limits are in bytes: a computed text has at most 48 of them, and a longer one is
//! `#VALUE!`.
#![tactic(auto)]

pub mod functions;
mod parts;

pub use functions::{join, left, length, mid, right};

#[cfg(test)]
mod tests;
