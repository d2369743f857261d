//! How a text falls into tokens.

ghost use Rattle.std.specs.Prelude.{◌≡◌, ◌+◌, ◌<◌, length, ◌≤◌, drop, IfOk, OnOk};
ghost use Rattle.cell_values.specs.Interned.{KeepsTexts};
ghost use Rattle.formula_trees.specs.declared.TheConstants.{MAX_FORMULA_BYTES};
ghost use Rattle.formula_tokens.specs.Lexemes.{literal_from, literal_cut, first_lexeme};
ghost use Rattle.formula_tokens.specs.Tokens.{spots_of, with_texts, with_literals, literal_of, token_of, TextsAreOf};

use crate::lexemes::{BAD, Measured, is_bad, is_blank, is_prefix, read_literal, read_plain};
use crate::{Literal, Spot, Token};
use cell_values::{SheetNames, Texts};
use std::alloc::{AllocError, Global};

/// The tokens of the formula, from behind its `=`. The texts of its literals are interned in order.
/// Behind a character that begins no token nothing is read.
pub fn read_tokens(
    alloc: Global,
    text: &str,
    sheets: &SheetNames,
    texts: &mut Texts,
) -> Result<Vec<Spot>, AllocError>
    requires { length text.now ≤ MAX_FORMULA_BYTES }
    ensures tokens { IfOk result (λ spots. spots.items ≡ spots_of sheets.now texts.new text.now) }
    ensures interned { OnOk result (texts.new ≡ with_literals sheets.now texts.old text.now) }
    ensures there { IfOk result (λ spots. TextsAreOf texts.new spots.items) }
    ensures kept { KeepsTexts texts.old texts.new }
{
    let mut spots = Vec::new(alloc);
    let mut place = 1;
    let mut prefixed = false;
    while place < text.len() {
        if is_blank(text.as_bytes()[place]) {
            prefixed = false;
            place += 1;
            continue;
        }
        let read = read_token(alloc, text, place, prefixed, sheets, texts)?;
        spots.push(Spot {
            token: read.token,
            place: place as u32,
        })?;
        if is_bad(read.token) {
            return Ok(spots);
        }
        prefixed = is_prefix(read.token);
        place += read.size;
    }
    Ok(spots)
}

/// The token at a place. No token begins inside a character.
fn read_token(
    alloc: Global,
    text: &str,
    place: usize,
    prefixed: bool,
    sheets: &SheetNames,
    texts: &mut Texts,
) -> Result<Measured, AllocError>
    requires inside { place < length text.now }
    ensures token { IfOk result (λ read. read.token ≡ token_of texts.new (first_lexeme sheets.now prefixed (drop place text.now)).lexeme) }
    ensures size { IfOk result (λ read. read.size ≡ (first_lexeme sheets.now prefixed (drop place text.now)).more + 1) }
    ensures fits { IfOk result (λ read. place + read.size ≤ length text.now) }
    ensures interned { OnOk result (texts.new ≡ with_texts texts.old (literal_of (place, (first_lexeme sheets.now prefixed (drop place text.now)).lexeme))) }
    ensures kept { KeepsTexts texts.old texts.new }
{
    let Some(rest) = text.get(place..) else {
        return Ok(BAD);
    };
    match rest.strip_prefix('"') {
        Some(behind) => read_text(alloc, behind, texts),
        None => Ok(read_plain(rest, prefixed, sheets)),
    }
}

/// A text literal, from behind its first quote.
fn read_text(alloc: Global, text: &str, texts: &mut Texts) -> Result<Measured, AllocError>
    ensures token { IfOk result (λ read. read.token ≡ token_of texts.new (literal_cut (literal_from text.now)).lexeme) }
    ensures size { IfOk result (λ read. read.size ≡ (literal_cut (literal_from text.now)).more + 1) }
    ensures fits { IfOk result (λ read. read.size ≤ 1 + length text.now) }
    ensures interned { OnOk result (texts.new ≡ with_texts texts.old (literal_of (0, (literal_cut (literal_from text.now)).lexeme))) }
    ensures kept { KeepsTexts texts.old texts.new }
{
    let Some((literal, size)) = read_literal(alloc, text)? else {
        return Ok(BAD);
    };
    let id = texts.intern(literal.as_str())?;
    Ok(Measured {
        token: Token::Literal(Literal::Text(id)),
        size: size + 1,
    })
}
