//! The list, and how it keeps a result.
ghost use Rattle.std.specs.Prelude.{◌≡◌, ◌<◌, ◌≤◌, ◌++◌, ℕ, Some, None, List, length, get_or, set, replicate, is_some, vec_capacity, IfOk};
ghost use Rattle.cell_values.specs.declared.short.ShortText.{ShortText as Short};
ghost use Rattle.cell_values.specs.declared.values.Shown.{Shown as Result};
ghost use Rattle.result_list.specs.Lists.{result_of, IsWithin};

use cell_values::{Code, Int, ShortText, Shown, TextId, Value};
use std::alloc::{AllocError, Global};
use std::marker::Model;

/// What is known of a cell as it is kept: a short text by its place among those of the list.
#[derive(Clone, Copy, Debug, PartialEq, Eq)]
pub enum Kept {
    Unknown,
    Number(Int),
    Text(TextId),
    Short(usize),
    Bool(bool),
    Blank,
    Error(Code),
    Cycle(u32),
    ToCycle,
}

// A cell takes 32 bytes.
const _: () = prove!(size_of::<Kept>() == 32);

/// What is known of each cell, by its number from 0. All memory is taken by `new`: for each cell 32 bytes, and 49 that are
/// touched only where a cell shows a short text.
#[derive(Drop)]
pub struct ResultList {
    kept: Vec<Kept>,
    texts: Vec<ShortText>,
}

impl Model for ResultList {
    ghost use Rattle.std.specs.Prelude.{List, Option};
    ghost use Rattle.std.specs.Vec.{vec_capacity};
    ghost use Rattle.cell_values.specs.declared.values.Shown.{Shown};
    ghost use Rattle.result_list.specs.Lists.{results_of, IsRoomy};

    ghost Value = { List (Option Shown) };

    ghost view = { λ l. results_of l.texts.items l.kept.items };

    ghost invariant = { λ l. IsRoomy l.kept.items l.texts.items (vec_capacity l.texts) };
}

impl ResultList {
    /// As many cells as are given, of which nothing is known. Fails where memory runs out.
    pub fn new(alloc: Global, count: usize) -> Result<ResultList, AllocError>
        ensures { IfOk result (λ l. l ≡ replicate count None) }
    {
        let kept = vec![in alloc; Kept::Unknown; count]?;
        let texts = Vec::with_capacity(alloc, count)?;
        Ok(ResultList { kept, texts })
    }

    /// How many cells there are.
    pub fn len(&self) -> usize
        ensures { result ≡ length self.now }
    {
        self.kept.len()
    }

    /// What is known of a cell. None of a number behind the last.
    pub fn get(&self, i: usize) -> Option<Shown>
        ensures { result ≡ get_or self.now i None }
    {
        if i < self.kept.len() {
            result_of(&self.texts, self.kept[i])
        } else {
            None
        }
    }

    /// Whether a cell is known.
    pub fn is_known(&self, i: usize) -> bool
        ensures { result ≡ is_some (get_or self.now i None) }
    {
        if i < self.kept.len() {
            is_known(self.kept[i])
        } else {
            false
        }
    }

    /// This is the result of a cell that is not known. Takes no memory.
    pub fn learn(&mut self, i: usize, shown: Shown)
        requires there { i < length self.old }
        requires unknown { get_or self.old i None ≡ None }
        ensures { self.new ≡ set self.old i (Some shown) }
    {
        self.kept[i] = keep(&mut self.texts, shown);
    }

    /// A cell is on a cycle of that many cells, whatever was known of it.
    pub fn mark_cycle(&mut self, i: usize, length_of_cycle: u32)
        requires { i < length self.old }
        ensures { self.new ≡ set self.old i (Some (Result.Cycle length_of_cycle)) }
    {
        self.kept[i] = Kept::Cycle(length_of_cycle);
    }

    /// Nothing is known of any cell. Takes no memory.
    pub fn forget_all(&mut self)
        ensures { self.new ≡ replicate (length self.old) None }
    {
        self.kept.fill(Kept::Unknown);
        self.texts.clear();
    }
}

/// What is kept as this.
fn result_of(texts: &[ShortText], kept: Kept) -> Option<Shown>
    requires { IsWithin (length texts.now) kept }
    ensures { result ≡ result_of texts.now kept }
{
    match kept {
        Kept::Unknown => None,
        Kept::Number(number) => Some(Shown::Val(Value::Number(number))),
        Kept::Text(id) => Some(Shown::Val(Value::Text(id))),
        Kept::Short(place) => Some(Shown::Val(Value::Short(texts[place]))),
        Kept::Bool(truth) => Some(Shown::Val(Value::Bool(truth))),
        Kept::Blank => Some(Shown::Val(Value::Blank)),
        Kept::Error(code) => Some(Shown::Val(Value::Error(code))),
        Kept::Cycle(length_of_cycle) => Some(Shown::Cycle(length_of_cycle)),
        Kept::ToCycle => Some(Shown::ToCycle),
    }
}

/// Whether this is a result.
fn is_known(kept: Kept) -> bool
    ensures { (texts : List Short) → result ≡ is_some (result_of texts kept) }
{
    match kept {
        Kept::Unknown => false,
        Kept::Number(_)
        | Kept::Text(_)
        | Kept::Short(_)
        | Kept::Bool(_)
        | Kept::Blank
        | Kept::Error(_)
        | Kept::Cycle(_)
        | Kept::ToCycle => true,
    }
}

/// How a result is kept. A short text is put behind the others.
fn keep(texts: &mut Vec<ShortText>, shown: Shown) -> Kept
    requires { length texts.old.items < vec_capacity texts.old }
    ensures kept { result_of texts.new.items result ≡ Some shown }
    ensures within { IsWithin (length texts.new.items) result }
    ensures behind { (more : List Short) × ((texts.new.items ≡ texts.old.items ++ more) × (length more ≤ 1)) }
    ensures room { vec_capacity texts.new ≡ vec_capacity texts.old }
{
    match shown {
        Shown::Val(Value::Number(number)) => Kept::Number(number),
        Shown::Val(Value::Text(id)) => Kept::Text(id),
        Shown::Val(Value::Short(text)) => {
            texts.push_reserved(text);
            Kept::Short(texts.len() - 1)
        }
        Shown::Val(Value::Bool(truth)) => Kept::Bool(truth),
        Shown::Val(Value::Blank) => Kept::Blank,
        Shown::Val(Value::Error(code)) => Kept::Error(code),
        Shown::Cycle(length_of_cycle) => Kept::Cycle(length_of_cycle),
        Shown::ToCycle => Kept::ToCycle,
    }
}
