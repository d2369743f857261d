//! What is written to the sink of a run.

ghost use Rattle.std.specs.Prelude.{◌≡◌, [], ◌∷◌, IfOk};
ghost use Rattle.puncalc_program.specs.Refusals.{refusal_line};
ghost use Rattle.puncalc_program.specs.Writing.{sunk, Writes};

use crate::refusals::refusal_line;
use crate::stop::Stop;
use byte_streams::{Sink, write_whole};
use std::alloc::Global;

/// Writes a piece whole.
#[tactic(auto, using(crate::proofs::Written::one_written, crate::proofs::Written::one_part))]
pub(crate) fn put<K: Sink>(out: &mut K, piece: &[u8]) -> Result<(), Stop>
    ensures { Writes (piece.now ∷ []) (sunk K.written K.faults K.calls out.old) (sunk K.written K.faults K.calls out.new) result }
{
    match write_whole(out, piece) {
        Ok(()) => Ok(()),
        Err(_) => Err(Stop::Write),
    }
}

/// Writes the line that tells what is refused, and answers the status.
#[tactic(auto, using(crate::proofs::Written::no_part))]
pub(crate) fn refuse<K: Sink>(
    alloc: Global,
    status: u8,
    what: &str,
    out: &mut K,
) -> Result<u8, Stop>
    ensures writes { Writes (refusal_line what.now ∷ []) (sunk K.written K.faults K.calls out.old) (sunk K.written K.faults K.calls out.new) result }
    ensures status { IfOk result (λ answer. answer ≡ status) }
{
    let line = refusal_line(alloc, what)?;
    put(out, line.as_bytes())?;
    Ok(status)
}
