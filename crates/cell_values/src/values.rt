//! What formulas compute with, and what a cell shows.

ghost use Rattle.std.specs.Prelude.{◌≡◌, IfOk, IfNone, IfSome, None, Some, string_bytes};

use crate::{Int, ShortText, TextId, Texts};
use std::alloc::{AllocError, Global};
use std::fmt;

/// An error value.
#[derive(Clone, Copy, Debug, PartialEq, Eq)]
pub enum Code {
    /// `#DIV/0!`: a division by zero.
    Div,
    /// `#VALUE!`: a value of the wrong kind.
    Value,
    /// `#REF!`: no such cell.
    Ref,
    /// `#NUM!`: a number that does not fit.
    Num,
    /// `#N/A`: nothing found.
    Na,
}

/// What a formula gives, and what a cell without a formula holds.
#[derive(Clone, Copy, Debug, PartialEq, Eq)]
pub enum Value {
    Number(Int),
    /// A text of the book.
    Text(TextId),
    /// A text that was computed, with its bytes.
    Short(ShortText),
    Bool(bool),
    Blank,
    Error(Code),
}

/// What a cell shows: its value, or why it has none.
#[derive(Clone, Copy, Debug, PartialEq, Eq)]
pub enum Shown {
    Val(Value),
    /// Following first unfinished demands from the cell returns to it, first after this many demands: the
    /// number of cells of the cycle.
    Cycle(u32),
    /// The cell's first unfinished demands lead into a cycle that it is not on.
    ToCycle,
}

impl Code {
    ghost use Rattle.cell_values.specs.ShownText.{code_text};

    /// The text that a cell shows.
    pub fn text(&self) -> &'static str
        ensures { result.now ≡ code_text self.now }
    {
        match self {
            Code::Div => "#DIV/0!",
            Code::Value => "#VALUE!",
            Code::Ref => "#REF!",
            Code::Num => "#NUM!",
            Code::Na => "#N/A",
        }
    }
}

impl fmt::Display for Code {
    fn fmt<W: fmt::Write>(&self, f: &mut fmt::Formatter<W>) -> fmt::Result {
        f.write_str(self.text())
    }
}

impl Value {
    ghost use Rattle.cell_values.specs.ShownText.{value_text};
    ghost use Rattle.cell_values.specs.Values.{as_number, is_error, text_of, IsValueOf};

    /// Whether it is an error.
    pub fn is_error(&self) -> bool
        ensures { result ≡ is_error self.now }
    {
        matches!(self, Value::Error(_))
    }

    /// What arithmetic takes it as: a Number as it is, and Blank as 0. Other values have no number.
    pub fn as_number(&self) -> Option<Int>
        ensures { result ≡ as_number self.now }
    {
        match self {
            Value::Number(number) => Some(*number),
            Value::Blank => Some(0),
            Value::Text(_) | Value::Short(_) | Value::Bool(_) | Value::Error(_) => None,
        }
    }

    /// The text that it is, of either kind. Other values are none.
    pub fn as_text<'a>(&'a self, texts: &'a Texts) -> Option<&'a str>
        requires { IsValueOf texts.now self.now }
        ensures some { IfSome result (λ text. text_of texts.now self.now ≡ Some text.now) }
        ensures none { IfNone result (text_of texts.now self.now ≡ None) }
    {
        match self {
            Value::Text(id) => Some(texts.get(*id)),
            Value::Short(text) => Some(text.as_str()),
            Value::Number(_) | Value::Bool(_) | Value::Blank | Value::Error(_) => None,
        }
    }

    /// The text that a cell with this value shows.
    pub fn show_text(&self, alloc: Global, texts: &Texts) -> Result<String, AllocError>
        requires { IsValueOf texts.now self.now }
        ensures { IfOk result (λ text. string_bytes text ≡ value_text texts.now self.now) }
    {
        match *self {
            Value::Number(number) => format!(in alloc; "{number}"),
            Value::Text(id) => String::from_str(alloc, texts.get(id)),
            Value::Short(text) => String::from_str(alloc, text.as_str()),
            Value::Bool(true) => String::from_str(alloc, "TRUE"),
            Value::Bool(false) => String::from_str(alloc, "FALSE"),
            Value::Blank => Ok(String::new(alloc)),
            Value::Error(code) => String::from_str(alloc, code.text()),
        }
    }
}

impl Shown {
    ghost use Rattle.cell_values.specs.ShownText.{shown_text};
    ghost use Rattle.cell_values.specs.Values.{IsShownOf};

    /// The text that the cell shows.
    pub fn show_text(&self, alloc: Global, texts: &Texts) -> Result<String, AllocError>
        requires { IsShownOf texts.now self.now }
        ensures { IfOk result (λ text. string_bytes text ≡ shown_text texts.now self.now) }
    {
        match self {
            Shown::Val(value) => value.show_text(alloc, texts),
            Shown::Cycle(length) => format!(in alloc; "#CYCLE({length})!"),
            Shown::ToCycle => String::from_str(alloc, "#TOCYCLE!"),
        }
    }
}
