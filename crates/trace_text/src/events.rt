//! The line of a step.

ghost use Rattle.std.specs.Prelude.{◌≡◌, All, IfOk, string_bytes};
ghost use Rattle.cell_values.specs.Addresses.{IsOnSheet};
ghost use Rattle.trace_text.specs.TraceText.{cell_at, claim_text, event_line, event_text, publish_text, word_text};

use cell_values::Addr;
use cell_words::CellWord;
use claim_core::{Claim, Event, Publish};
use parallel_evaluation::Traced;
use std::alloc::{AllocError, Global};

// What a cell's word says, behind a space.
fn word_text(alloc: Global, word: CellWord) -> Result<String, AllocError>
    ensures { IfOk result (λ text. string_bytes text ≡ word_text word) }
{
    match word {
        CellWord::Stale => String::from_str(alloc, " stale"),
        CellWord::Claimed(claimer) => format!(in alloc; " claimed {claimer}"),
        CellWord::Done {
            publisher,
            claimer,
            rec,
        } => format!(in alloc; " done {publisher} {claimer} {rec}"),
    }
}

// What a claim found, behind a space.
fn claim_text(alloc: Global, answer: Claim) -> Result<String, AllocError>
    ensures { IfOk result (λ text. string_bytes text ≡ claim_text answer) }
{
    match answer {
        Claim::Won => String::from_str(alloc, " won"),
        Claim::Found(word) => word_text(alloc, word),
    }
}

// What a publish found, behind a space.
fn publish_text(alloc: Global, answer: Publish) -> Result<String, AllocError>
    ensures { IfOk result (λ text. string_bytes text ≡ publish_text answer) }
{
    match answer {
        Publish::Won => String::from_str(alloc, " won"),
        Publish::Lost {
            publisher,
            claimer,
            rec,
        } => format!(in alloc; " lost {publisher} {claimer} {rec}"),
    }
}

// The cell with this number, counted from 0. No step of a round over the cells has a number that is not there.
fn cell_at(cells: &[Addr], cell: u32) -> Addr
    requires { All IsOnSheet cells.now }
    ensures same { result ≡ cell_at cells.now cell }
    ensures on_sheet { IsOnSheet result }
{
    match cells.get(cell as usize) {
        Some(at) => *at,
        None => Addr {
            sheet: 0,
            row: 1,
            col: 1,
        },
    }
}

// What was done and what was found, behind a space.
fn event_text(alloc: Global, cells: &[Addr], event: Event) -> Result<String, AllocError>
    requires { All IsOnSheet cells.now }
    ensures { IfOk result (λ text. string_bytes text ≡ event_text cells.now event) }
{
    match event {
        Event::Look { cell, seen } => {
            let name = cell_at(cells, cell).cell_text(alloc)?;
            let found = word_text(alloc, seen)?;
            format!(in alloc; " look {name}{found}")
        }
        Event::Claim { cell, answer } => {
            let name = cell_at(cells, cell).cell_text(alloc)?;
            let found = claim_text(alloc, answer)?;
            format!(in alloc; " claim {name}{found}")
        }
        Event::TakeRecord { rec } => format!(in alloc; " take {rec}"),
        Event::StoreValue { rec, word, .. } => format!(in alloc; " value {rec} {word}"),
        Event::StoreTag { rec, word } => format!(in alloc; " tag {rec} {word}"),
        Event::Publish { cell, rec, answer } => {
            let name = cell_at(cells, cell).cell_text(alloc)?;
            let found = publish_text(alloc, answer)?;
            format!(in alloc; " publish {name} {rec}{found}")
        }
        Event::LoadTag { rec, word } => format!(in alloc; " load-tag {rec} {word}"),
        Event::LoadValue { rec, word, .. } => format!(in alloc; " load-value {rec} {word}"),
    }
}

// The line of a step, with its end: the worker, what it did, and what it found.
#[tactic(auto, unfolding(crate::specs::TraceText::event_line))]
pub(crate) fn event_line(
    alloc: Global,
    cells: &[Addr],
    traced: &Traced,
) -> Result<String, AllocError>
    requires { All IsOnSheet cells.now }
    ensures { IfOk result (λ line. string_bytes line ≡ event_line cells.now traced.now) }
{
    let worker = traced.worker;
    let text = event_text(alloc, cells, traced.event)?;
    format!(in alloc; "{worker}{text}\n")
}
