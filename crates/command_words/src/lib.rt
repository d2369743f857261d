//! The words behind the program's name, as what they ask for.
#![tactic(auto)]

mod commands;
mod numbers;
mod sorting;

ghost use Rattle.std.specs.Prelude.{◌≡◌, IfOk, IfSome, map, option_map, string_bytes};
ghost use Rattle.command_words.specs.Asking.{asked, request_of};
ghost use Rattle.command_words.specs.Sound.{IsSound};

use commands::{read_demo, read_edit, read_show, read_trace};
use std::alloc::{AllocError, Global};

/// The most workers of a round.
pub const MAX_WORKERS: u8 = 64;

/// The number of workers where the words give none.
pub const USUAL_WORKERS: u8 = 4;

/// The most files of `edit`.
pub const MAX_FILES: usize = 16;

/// The most entries of the order of `trace`.
pub const MAX_ORDERED: usize = 10_000;

/// The most workers of `trace` that stop: one goes on.
pub const MAX_STOPPED: usize = 63;

/// The most cells of `demo`.
pub const MAX_DEMO_CELLS: u32 = 200_000;

/// What the words ask for.
#[derive(Drop)]
pub enum Asked {
    /// One sheet from the input is recalculated and written.
    Show {
        workers: u8,
    },
    /// The sheets of these files are edited by the script of the input.
    Edit {
        workers: u8,
        files: Vec<String>,
    },
    /// One sheet from the input is recalculated by workers that take their steps in this order, of which some
    /// stop for good; each step is written.
    Trace {
        workers: u8,
        order: Vec<u8>,
        stopped: Vec<u8>,
    },
    /// A book of so many cells is made, recalculated, changed and recalculated again.
    Demo {
        workers: u8,
        count: u32,
    },
}

/// What the words behind the program's name ask for. None where they are refused.
///
/// The first word is the command. Options stand before, between or behind the other words, as `--workers 4` or
/// `--workers=4`, each once; behind `--` there are no options. Numbers are digits without a sign and without a zero in
/// front. Every other word that begins with `-` and has more bytes is refused.
#[tactic(auto, using(crate::proofs::Requests::no_words, crate::proofs::Requests::first_word), unfolding(crate::specs::Asking::asked))]
pub fn read_words(alloc: Global, words: &[String]) -> Result<Option<Asked>, AllocError>
    ensures exact { IfOk result (λ read. option_map request_of read ≡ asked (map string_bytes words.now)) }
    ensures sound { IfOk result (λ read. IfSome read (λ a. IsSound (request_of a))) }
{
    let Some(command) = words.first() else {
        return Ok(None);
    };
    match command.as_str() {
        "show" => read_show(alloc, words),
        "edit" => read_edit(alloc, words),
        "trace" => read_trace(alloc, words),
        "demo" => read_demo(alloc, words),
        _ => Ok(None),
    }
}

#[cfg(test)]
mod tests;
