//! The lines of a whole run, made one at a time.

ghost use Rattle.std.specs.Prelude.{◌≡◌, ◌∷◌, [], All, IfOk, MatchOption, OnErr, string_bytes};
ghost use Rattle.cell_values.specs.Addresses.{IsOnSheet};
ghost use Rattle.trace_text.specs.TraceText.{trace_lines, finished_line};

use crate::counting::{count_events, ended_with};
use crate::events::event_line;
use cell_values::Addr;
use parallel_evaluation::Traced;
use std::alloc::{AllocError, Global};
use std::marker::Model;

/// The lines of a run that are still to come. A caller sees the list of them, each with its end: one for each step,
/// and `W finished` behind the last step of a worker W that is not stopped. Workers and records go by their numbers,
/// from 0, cells by their names without the sheet.
///
/// A step reads `W look A1` or `W claim A1` and what was found, `W take R` of a new record, `W value R X` and `W tag R X`
/// of what was written to it, `W publish A1 R` with `won`, or with `lost` and the publisher, the claimer and the record
/// that are there, `W load-tag R X` or `W load-value R X`. What was found is `stale`, `claimed C` by a worker, or `done`
/// with its publisher, its claimer and its record; a claim of a stale cell has `won`.
#[derive(Drop)]
pub struct TraceText<'a> {
    alloc: Global,
    cells: &'a [Addr],
    stopped: &'a [u8],
    events: &'a [Traced],
    // the first event whose line is still to come
    next: usize,
    // for each worker, how many events it has from there on
    counts: Vec<usize>,
    // the worker whose end comes before that event
    ended: Option<u8>,
}

impl<'a> Model for TraceText<'a> {
    ghost use Rattle.std.specs.Prelude.{ℕ, All, List, ◌++◌, ◌≤◌, drop, length, option_to_list, map};
    ghost use Rattle.cell_values.specs.Addresses.{IsOnSheet};
    ghost use Rattle.trace_text.specs.Counting.{AreCounted};
    ghost use Rattle.trace_text.specs.TraceText.{finished_line, trace_lines};

    ghost Value = { List (List ℕ) };

    ghost view = { λ t. map finished_line (option_to_list t.ended) ++ trace_lines t.cells.now t.stopped.now (drop t.next t.events.now) };

    ghost invariant = { λ t. All IsOnSheet t.cells.now × (t.next ≤ length t.events.now) × AreCounted t.counts.items (drop t.next t.events.now) };
}

// The line of a worker that is finished, with its end.
#[tactic(auto, unfolding(crate::specs::TraceText::finished_line))]
fn finished_line(alloc: Global, worker: u8) -> Result<String, AllocError>
    ensures { IfOk result (λ line. string_bytes line ≡ finished_line worker) }
{
    format!(in alloc; "{worker} finished\n")
}

impl<'a> TraceText<'a> {
    /// The lines of these events, the first one first: of a round over `cells`, with the workers that are `stopped`. It
    /// fails where memory runs out.
    pub fn new(
        alloc: Global,
        cells: &'a [Addr],
        stopped: &'a [u8],
        events: &'a [Traced],
    ) -> Result<TraceText<'a>, AllocError>
        requires { All IsOnSheet cells.now }
        ensures { IfOk result (λ lines. lines ≡ trace_lines cells.now stopped.now events.now) }
    {
        let counts = count_events(alloc, events)?;
        Ok(TraceText {
            alloc,
            cells,
            stopped,
            events,
            next: 0,
            counts,
            ended: None,
        })
    }

    /// Takes the next line, with its end. None where all are taken. It fails where memory runs out, and leaves all as it
    /// was.
    pub fn next_line(&mut self) -> Result<Option<String>, AllocError>
        ensures line { IfOk result (λ next. MatchOption next ((self.old ≡ []) × (self.new ≡ [])) (λ line. self.old ≡ string_bytes line ∷ self.new)) }
        ensures err { OnErr result (self.new ≡ self.old) }
    {
        if let Some(worker) = self.ended {
            let line = finished_line(self.alloc, worker)?;
            self.ended = None;
            return Ok(Some(line));
        }
        if self.next >= self.events.len() {
            return Ok(None);
        }
        let traced = &self.events[self.next];
        let line = event_line(self.alloc, self.cells, traced)?;
        self.ended = ended_with(&mut self.counts, self.stopped, self.events, self.next);
        self.next += 1;
        Ok(Some(line))
    }
}
