//! Fields of a sheet, as read.

ghost use Rattle.std.specs.Prelude.{◌≡◌, IfOk, OnErr};

use crate::{Int, TextId, Texts};
use std::alloc::{AllocError, Global};
use std::marker::Model;

/// A text that is owned. Contracts see its bytes.
#[derive(Drop)]
pub struct FieldText {
    text: String,
}

impl Model for FieldText {
    ghost use Rattle.std.specs.Prelude.{ℕ, List, string_bytes};

    ghost Value = { List ℕ };

    ghost view = { λ f. string_bytes f.text };
}

impl FieldText {
    /// A copy of the text.
    pub fn new(alloc: Global, text: &str) -> Result<FieldText, AllocError>
        ensures { IfOk result (λ field. field ≡ text.now) }
    {
        Ok(FieldText {
            text: String::from_str(alloc, text)?,
        })
    }

    /// The text.
    pub fn as_str(&self) -> &str
        ensures { result.now ≡ self.now }
    {
        self.text.as_str()
    }
}

/// A field as read.
#[derive(Drop)]
pub enum Raw {
    Nothing,
    Number(Int),
    Text(TextId),
    Bool(bool),
    /// The whole field, `=` included.
    Formula(FieldText),
}

impl Raw {
    ghost use Rattle.cell_values.specs.Fields.{raw_of, IsRawOf};
    ghost use Rattle.cell_values.specs.Interned.{KeepsTexts};

    /// Reads a field by the first rule that applies: the empty field is nothing; what begins with `=` is a
    /// formula; what stands behind a `'` in front is a text; `-?[0-9]+` that fits is a number; `TRUE` and
    /// `FALSE` are themselves; everything else is a text. A text is interned.
    #[tactic(auto, using(crate::proofs::FieldNumbers::quote_boundary))]
    pub fn read(alloc: Global, field: &str, texts: &mut Texts) -> Result<Raw, AllocError>
        ensures ok { IfOk result (λ raw. (texts.new, raw) ≡ raw_of texts.old field.now) }
        ensures there { IfOk result (IsRawOf texts.new) }
        ensures kept { KeepsTexts texts.old texts.new }
        ensures err { OnErr result (texts.new ≡ texts.old) }
    {
        match field.as_bytes() {
            [] => Ok(Raw::Nothing),
            [b'=', ..] => Ok(Raw::Formula(FieldText::new(alloc, field)?)),
            [b'\'', ..] => Ok(Raw::Text(texts.intern(&field[1..])?)),
            _ => read_plain(field, texts),
        }
    }
}

ghost use Rattle.cell_values.specs.Fields.{number_of_field, plain_raw, IsRawOf};
ghost use Rattle.cell_values.specs.Interned.{KeepsTexts};

/// Reads a field that begins with no sign of its kind.
fn read_plain(field: &str, texts: &mut Texts) -> Result<Raw, AllocError>
    ensures ok { IfOk result (λ raw. (texts.new, raw) ≡ plain_raw texts.old field.now (number_of_field field.now)) }
    ensures there { IfOk result (IsRawOf texts.new) }
    ensures kept { KeepsTexts texts.old texts.new }
    ensures err { OnErr result (texts.new ≡ texts.old) }
{
    if let Some(number) = read_number(field) {
        return Ok(Raw::Number(number));
    }
    match field {
        "TRUE" => Ok(Raw::Bool(true)),
        "FALSE" => Ok(Raw::Bool(false)),
        _ => Ok(Raw::Text(texts.intern(field)?)),
    }
}

/// The number that a field writes. A `+` in front, which `parse` takes, is no part of a number.
#[tactic(auto, using(crate::proofs::FieldNumbers::parsed_number, crate::proofs::FieldNumbers::plus_number))]
fn read_number(field: &str) -> Option<Int>
    ensures { result ≡ number_of_field field.now }
{
    if field.starts_with('+') {
        return None;
    }
    field.parse().ok()
}
