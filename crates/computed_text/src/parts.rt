//! Parts of texts by characters, and two texts behind each other.

ghost use Rattle.std.specs.Prelude.{◌≡◌, ◌++◌, ◌≤◌, ◌<◌, length, take, drop, IfSome, IfNone};
ghost use Rattle.std.specs.Str.{chars};
ghost use Rattle.cell_values.specs.declared.TheConstants.{MAX_SHORT_BYTES};
ghost use Rattle.cell_values.specs.ShortTexts.{short_of, IsShort};
ghost use Rattle.computed_text.specs.Computed.{part};

use cell_values::{MAX_SHORT_BYTES, ShortText};

/// The `count` characters of a text from number `from` on, counted from 0, or those that there are. None
/// where they take more than 48 bytes.
pub(crate) fn part(text: &str, from: u128, count: u128) -> Option<ShortText>
    ensures value { result ≡ short_of (part text.now from count) }
    ensures short { IfSome result IsShort }
{
    let tail = behind(text, from);
    match front_len(tail, count) {
        None => None,
        Some(end) => ShortText::of(&tail.as_bytes()[..end]),
    }
}

/// Two texts, the second one behind the first one. None where they take more than 48 bytes.
pub(crate) fn joined(front: &str, back: &str) -> Option<ShortText>
    ensures value { result ≡ short_of (front.now ++ back.now) }
    ensures short { IfSome result IsShort }
{
    if front.len() > MAX_SHORT_BYTES || back.len() > MAX_SHORT_BYTES - front.len() {
        return None;
    }
    let end = front.len() + back.len();
    let mut bytes = [0; MAX_SHORT_BYTES];
    bytes[..front.len()].copy_from_slice(front.as_bytes());
    bytes[front.len()..end].copy_from_slice(back.as_bytes());
    ShortText::of(&bytes[..end])
}

/// How many characters a text has.
#[tactic(auto, using(std::proofs::lemmas::Str::chars_from_encodes))]
pub(crate) fn char_count(text: &str) -> usize
    ensures { result ≡ length (chars text.now) }
{
    text.chars().count()
}

// The text behind its first `count` characters.
fn behind(text: &str, count: u128) -> &str
    ensures { chars result.now ≡ drop count (chars text.now) }
{
    let mut rest = text.chars();
    let mut left = count;
    while left > 0 {
        match rest.next() {
            None => break,
            Some(_) => left -= 1,
        }
    }
    rest.as_str()
}

// How many bytes the first `count` characters take. None where they take more than 48.
fn front_len(text: &str, count: u128) -> Option<usize>
    ensures some { IfSome result (λ n. (n ≤ length text.now) × (take n text.now ≡ part text.now 0 count)) }
    ensures none { IfNone result (MAX_SHORT_BYTES < length (part text.now 0 count)) }
{
    let mut rest = text.chars();
    let mut left = count;
    let mut end = 0;
    while left > 0 {
        match rest.next() {
            None => break,
            Some(c) => {
                end += c.len_utf8();
                if end > MAX_SHORT_BYTES {
                    return None;
                }
                left -= 1;
            }
        }
    }
    Some(end)
}
