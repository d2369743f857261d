//! The token at the head of a text.

ghost use Rattle.std.specs.Prelude.{◌≡◌, ◌+◌, ◌≤◌, ◌<◌, length, slice_index, IfOk, IfSome, IsTrue, option_map, string_bytes};
ghost use Rattle.std.specs.List.{prefix_len};
ghost use Rattle.std.specs.Char.{is_ascii_digit};
ghost use Rattle.std.specs.Str.{all_ascii_digits};
ghost use Rattle.formula_tokens.specs.Words.{begins_word, is_word_byte, leading, behind, begins_with, corner_of, truth_of};
ghost use Rattle.formula_tokens.specs.Lexemes.{Other, cut, is_blank, number_token, reference, apart, other_word, plain_word, has_no_dollar, word_cut, quoted_prefix, literal_from, sign_of, sign_cut, first_lexeme, is_bad, is_prefix};

use crate::words::{function_named, read_corner, read_truth};
use crate::{Literal, Token, Word};
use cell_values::SheetNames;
use formula_trees::Op;
use std::alloc::{AllocError, Global};

/// A token and how many bytes it takes.
#[derive(Clone, Copy)]
pub(crate) struct Measured {
    pub token: Token,
    pub size: usize,
}

/// The token of a character that begins none.
pub(crate) const BAD: Measured = Measured {
    token: Token::BadCharacter,
    size: 1,
};

/// The token is a character that begins none.
pub(crate) fn is_bad(token: Token) -> bool
    ensures { result ≡ is_bad (Other token) }
{
    matches!(token, Token::BadCharacter)
}

/// The token is a sheet prefix.
pub(crate) fn is_prefix(token: Token) -> bool
    ensures { result ≡ is_prefix (Other token) }
{
    matches!(token, Token::Prefix(_))
}

/// The token that a text begins with, if that is no text literal.
pub(crate) fn read_plain(text: &str, prefixed: bool, sheets: &SheetNames) -> Measured
    requires some { 0 < length text.now }
    requires plain { ¬ (slice_index text.now 0 ≡ 34) }
    ensures cut { first_lexeme sheets.now prefixed text.now ≡ cut result.size (Other result.token) }
    ensures some { 1 ≤ result.size }
    ensures fits { result.size ≤ length text.now }
{
    let first = text.as_bytes()[0];
    if first.is_ascii_digit() {
        read_number(text)
    } else if begins_word(first) {
        read_word(text, prefixed, sheets)
    } else if first == b'\'' {
        read_quoted_prefix(&text[1..], sheets)
    } else {
        read_sign(text)
    }
}

/// The byte may begin a word.
fn begins_word(byte: u8) -> bool
    ensures { result ≡ begins_word byte }
{
    byte.is_ascii_alphabetic() || byte == b'_' || byte == b'$'
}

/// A number.
fn read_number(text: &str) -> Measured
    requires { IsTrue (is_ascii_digit (slice_index text.now 0)) }
    ensures cut { cut (prefix_len is_ascii_digit text.now) (Other (number_token (leading is_ascii_digit text.now))) ≡ cut result.size (Other result.token) }
    ensures some { 1 ≤ result.size }
    ensures fits { result.size ≤ length text.now }
{
    let digits = &text[..digit_count(text)];
    Measured {
        token: Token::Literal(number_literal(digits)),
        size: digits.len(),
    }
}

/// How many digits a text begins with.
fn digit_count(text: &str) -> usize
    ensures { result ≡ prefix_len is_ascii_digit text.now }
{
    text.as_bytes()
        .iter()
        .take_while(|c| c.is_ascii_digit())
        .count()
}

/// The number that digits write.
fn number_literal(digits: &str) -> Literal
    requires some { 0 < length digits.now }
    requires digits { IsTrue (all_ascii_digits digits.now) }
    ensures { Token.Literal result ≡ number_token digits.now }
{
    match digits.parse() {
        Ok(number) => Literal::Number(number),
        Err(_) => Literal::HugeNumber,
    }
}

/// A word, or a plain sheet prefix.
fn read_word(text: &str, prefixed: bool, sheets: &SheetNames) -> Measured
    requires { IsTrue (begins_word (slice_index text.now 0)) }
    ensures cut { word_cut sheets.now prefixed (leading is_word_byte text.now) (behind is_word_byte text.now) ≡ cut result.size (Other result.token) }
    ensures some { 1 ≤ result.size }
    ensures fits { result.size ≤ length text.now }
{
    let (word, rest) = text.split_at(word_length(text));
    if has_no_dollar(word) && begins_with(b'!', rest.as_bytes()) {
        return Measured {
            token: Token::Prefix(sheets.find(word)),
            size: word.len() + 1,
        };
    }
    let token = if opens_call(rest) {
        apart(prefixed, Token::Function(function_named(word)))
    } else {
        read_plain_word(prefixed, word)
    };
    Measured {
        token,
        size: word.len(),
    }
}

/// How many bytes of a word a text begins with.
fn word_length(text: &str) -> usize
    ensures { result ≡ prefix_len is_word_byte text.now }
{
    text.as_bytes()
        .iter()
        .take_while(|c| c.is_ascii_alphanumeric() || **c == b'_' || **c == b'$')
        .count()
}

/// No byte is `$`.
fn has_no_dollar(word: &str) -> bool
    ensures { result ≡ has_no_dollar word.now }
{
    word.as_bytes().iter().all(|c| *c != b'$')
}

/// The text begins with this byte.
fn begins_with(byte: u8, text: &[u8]) -> bool
    ensures { result ≡ begins_with byte text.now }
{
    match text {
        [] => false,
        [first, ..] => *first == byte,
    }
}

/// The next token is `(`.
#[tactic(auto, using(crate::proofs::Runs::blanks_within))]
fn opens_call(rest: &str) -> bool
    ensures { result ≡ begins_with 40 (behind is_blank rest.now) }
{
    let rest = rest.as_bytes();
    begins_with(b'(', &rest[blank_count(rest)..])
}

/// How many blanks a text begins with.
fn blank_count(text: &[u8]) -> usize
    ensures { result ≡ prefix_len is_blank text.now }
{
    text.iter().take_while(|c| is_blank(**c)).count()
}

/// Space, tab, LF or CR.
pub(crate) fn is_blank(byte: u8) -> bool
    ensures { result ≡ is_blank byte }
{
    byte == b' ' || byte == b'\t' || byte == b'\n' || byte == b'\r'
}

/// A token that cannot stand at once behind a sheet prefix.
fn apart(prefixed: bool, token: Token) -> Token
    ensures { result ≡ apart prefixed token }
{
    if prefixed { Token::Misplaced } else { token }
}

/// A token of a word that may stand where a reference may.
fn reference(prefixed: bool, word: Word) -> Token
    ensures { result ≡ reference prefixed word }
{
    if prefixed {
        Token::SheetReference(word)
    } else {
        Token::Reference(word)
    }
}

/// What a word is that is no sheet prefix and no function's name.
fn read_plain_word(prefixed: bool, word: &str) -> Token
    ensures { result ≡ plain_word prefixed word.now (corner_of word.now) }
{
    match read_corner(word) {
        Some(corner) => reference(prefixed, Word::Cell(corner)),
        None => read_other_word(prefixed, word),
    }
}

/// What a word is that is no reference either.
fn read_other_word(prefixed: bool, word: &str) -> Token
    ensures { result ≡ other_word prefixed (truth_of word.now) }
{
    match read_truth(word) {
        Some(truth) => apart(prefixed, Token::Literal(Literal::Truth(truth))),
        None => reference(prefixed, Word::Unknown),
    }
}

/// A sheet's name in single quotes and `!`, from behind the first quote.
fn read_quoted_prefix(text: &str, sheets: &SheetNames) -> Measured
    ensures cut { quoted_prefix sheets.now text.now ≡ cut result.size (Other result.token) }
    ensures some { 1 ≤ result.size }
    ensures fits { result.size ≤ 1 + length text.now }
{
    match text.split_once('\'') {
        Some((name, rest)) if begins_with(b'!', rest.as_bytes()) => Measured {
            token: Token::Prefix(sheets.find(name)),
            size: name.len() + 3,
        },
        _ => BAD,
    }
}

/// The longest sign.
fn read_sign(text: &str) -> Measured
    requires { 0 < length text.now }
    ensures cut { sign_cut text.now ≡ cut result.size (Other result.token) }
    ensures some { 1 ≤ result.size }
    ensures fits { result.size ≤ length text.now }
{
    if text.starts_with("<>") {
        operator(Op::Ne, 2)
    } else if text.starts_with("<=") {
        operator(Op::Le, 2)
    } else if text.starts_with(">=") {
        operator(Op::Ge, 2)
    } else if text.starts_with("#REF!") {
        Measured {
            token: Token::Literal(Literal::RefError),
            size: 5,
        }
    } else {
        Measured {
            token: sign(text.as_bytes()[0]),
            size: 1,
        }
    }
}

/// An operator of so many bytes.
fn operator(op: Op, size: usize) -> Measured
    ensures token { result.token ≡ Token.Operator op }
    ensures size { result.size ≡ size }
{
    Measured {
        token: Token::Operator(op),
        size,
    }
}

/// A sign of one byte.
fn sign(byte: u8) -> Token
    ensures { result ≡ sign_of byte }
{
    match byte {
        b'(' => Token::LeftParen,
        b')' => Token::RightParen,
        b',' => Token::Comma,
        b':' => Token::Colon,
        b'+' => Token::Operator(Op::Add),
        b'-' => Token::Operator(Op::Sub),
        b'*' => Token::Operator(Op::Mul),
        b'/' => Token::Operator(Op::Div),
        b'&' => Token::Operator(Op::Join),
        b'=' => Token::Operator(Op::Eq),
        b'<' => Token::Operator(Op::Lt),
        b'>' => Token::Operator(Op::Gt),
        _ => Token::BadCharacter,
    }
}

/// The text of a literal from behind its first quote, where a doubled quote is one, and how many bytes
/// write it with the last quote. None where no quote closes it.
pub(crate) fn read_literal(alloc: Global, text: &str) -> Result<Option<(String, usize)>, AllocError>
    ensures exact { IfOk result (λ read. option_map (λ p. (string_bytes p.0, p.1)) read ≡ literal_from text.now) }
    ensures fits { IfOk result (λ read. IfSome read (λ p. p.1 ≤ length text.now)) }
{
    let mut literal = String::new(alloc);
    let mut start = 0;
    while let Some(length) = text[start..].find('"') {
        let quote = start + length;
        literal.push_str(&text[start..quote])?;
        if !begins_with(b'"', &text.as_bytes()[quote + 1..]) {
            return Ok(Some((literal, quote + 1)));
        }
        literal.push('"')?;
        start = quote + 2;
    }
    Ok(None)
}
