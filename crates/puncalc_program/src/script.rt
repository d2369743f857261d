//! A script, line by line.

ghost use Rattle.std.specs.Prelude.{◌≡◌, ◌≤◌, ◌==◌, ◌⊎◌, ◌∷◌, [], length, IfOk};
ghost use Rattle.std.specs.List.{position_or_len};
ghost use Rattle.command_words.specs.Sound.{IsWithin};
ghost use Rattle.command_words.specs.declared.TheConstants.{MAX_WORKERS};
ghost use Rattle.edit_script.specs.Lines.{line_of};
ghost use Rattle.formula_grammar.specs.Reading.{Reading, IsReading};
ghost use Rattle.puncalc_program.specs.declared.script.TheConstants.{SCRIPT_BYTES};
ghost use Rattle.puncalc_program.specs.Desks.{Makes, Runs};
ghost use Rattle.puncalc_program.specs.Script.{lines_of, script_from, turn_of};
ghost use Rattle.puncalc_program.specs.Refusals.{line_refused, refusal_line};
ghost use Rattle.puncalc_program.specs.Writing.{sunk, Stops, Writes};

use crate::desk::{Desk, Workers};
use crate::refusals::{LineRefusal, line_refused};
use crate::stop::Stop;
use crate::writing::refuse;
use byte_streams::Sink;
use edit_script::{LineFault, read_line};
use formula_grammar::laws::law_one_reading;
use recalculation::Pace;
use std::alloc::Global;
use std::thread::Threads;

/// The most bytes of a script: 16 MiB.
pub(crate) const SCRIPT_BYTES: usize = 16_777_216;

impl Desk {
    /// Does what the lines of a script ask for, up to the first that is refused. Answers the status.
    pub(crate) fn run_script<R: Threads + Sync, P: Pace, K: Sink>(
        &mut self,
        workers: &Workers<'_, R, P>,
        script: &[u8],
        out: &mut K,
    ) -> Result<u8, Stop>
        requires workers { IsWithin 1 MAX_WORKERS workers.now.count }
        requires few { length script.now ≤ SCRIPT_BYTES }
        ensures runs { (read : Reading) → IsReading self.old.names read →
            Runs (script_from read self.old.names workers.now.count 1 self.old.standing (lines_of script.now)) self.new.standing
            (sunk K.written K.faults K.calls out.old) (sunk K.written K.faults K.calls out.new) result }
        ensures ended { IfOk result (λ status. (status ≡ 0) ⊎ (status ≡ 4)) }
        ensures causes { Stops (sunk K.written K.faults K.calls out.old) (sunk K.written K.faults K.calls out.new) result }
    {
        law_one_reading();
        let mut start = 0;
        let mut number = 0;
        while start < script.len() {
            let end = start + line_length(&script[start..]);
            let line = &script[start..end];
            start = end + 1;
            number += 1;
            if let Some(why) = self.read_and_run(workers, line, out)? {
                return refuse_line(self.alloc, number, why, out);
            }
        }
        Ok(0)
    }

    /// Does what a line asks for, whatever its bytes are. Answers why it is refused, if it is.
    fn read_and_run<R: Threads + Sync, P: Pace, K: Sink>(
        &mut self,
        workers: &Workers<'_, R, P>,
        line: &[u8],
        out: &mut K,
    ) -> Result<Option<LineRefusal>, Stop>
        requires { IsWithin 1 MAX_WORKERS workers.now.count }
        ensures makes { (read : Reading) → IsReading self.old.names read →
            Makes (turn_of read self.old.names workers.now.count (line_of self.old.names line.now) self.old.standing) self.old.standing self.new.standing
            (sunk K.written K.faults K.calls out.old) (sunk K.written K.faults K.calls out.new) result }
        ensures names { self.new.names ≡ self.old.names }
    {
        match read_line(self.alloc, line, self.names()) {
            Ok(line) => self.run_line(workers, line, out),
            Err(LineFault::UnknownCommand) => Ok(Some(LineRefusal::UnknownCommand)),
            Err(LineFault::BadReference) => Ok(Some(LineRefusal::BadReference)),
            Err(LineFault::NotUtf8) => Ok(Some(LineRefusal::NotUtf8)),
            Err(LineFault::OutOfMemory) => Err(Stop::Memory),
        }
    }
}

/// Writes the line that tells why a line is refused, and answers the status.
fn refuse_line<K: Sink>(
    alloc: Global,
    number: usize,
    why: LineRefusal,
    out: &mut K,
) -> Result<u8, Stop>
    ensures writes { Writes (refusal_line (line_refused number why) ∷ []) (sunk K.written K.faults K.calls out.old) (sunk K.written K.faults K.calls out.new) result }
    ensures status { IfOk result (λ status. status ≡ 4) }
{
    let what = line_refused(alloc, number, why)?;
    refuse(alloc, 4, &what, out)
}

/// How many bytes stand before the first LF, or in all.
fn line_length(script: &[u8]) -> usize
    ensures { result ≡ position_or_len (λ c. c == 10) script.now }
{
    script.iter().take_while(|c| **c != b'\n').count()
}
