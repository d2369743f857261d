//! Texts of at most 48 bytes that need no table: a value has such a text in itself.

ghost use Rattle.std.specs.Prelude.{◌≡◌, ◌↔◌, ◌≤◌, length, Some, IfSome};
ghost use Rattle.cell_values.specs.declared.TheConstants.{MAX_SHORT_BYTES};
ghost use Rattle.cell_values.specs.declared.short.ShortText.{ShortText};
ghost use Rattle.cell_values.specs.ShortTexts.{padded, padded_of, short_of, short_bytes, IsShort, IsPadded};

use crate::MAX_SHORT_BYTES;
use std::str;

/// A text of at most 48 bytes of UTF-8. The bytes behind the text are 0, so two texts with the same bytes
/// are equal.
#[derive(Clone, Copy, Debug, PartialEq, Eq)]
pub struct ShortText {
    len: u8,
    bytes: [u8; MAX_SHORT_BYTES],
}

impl ShortText {
    /// The text with these bytes. None where there are more than 48 of them, or they are no UTF-8.
    pub fn of(bytes: &[u8]) -> Option<ShortText>
        ensures value { result ≡ short_of bytes.now }
        ensures short { IfSome result IsShort }
        ensures bytes { IfSome result (λ t. short_bytes t ≡ bytes.now) }
    {
        if bytes.len() > MAX_SHORT_BYTES {
            return None;
        }
        match str::from_utf8(bytes) {
            Err(_) => None,
            Ok(_) => Some(ShortText {
                len: bytes.len() as u8,
                bytes: padded_bytes(bytes),
            }),
        }
    }

    /// The text.
    pub fn as_str(&self) -> &str
        requires { IsShort self.now }
        ensures { result.now ≡ short_bytes self.now }
    {
        unsafe { str::from_utf8_unchecked(&self.bytes[..self.len as usize]) }
    }

    /// How many bytes the text has.
    pub fn len(&self) -> u8
        ensures { result ≡ self.now.len }
    {
        self.len
    }

    /// The bytes of the text, and zeros up to 48.
    pub fn padded(&self) -> &[u8; MAX_SHORT_BYTES]
        ensures { result.now ≡ self.now.bytes }
    {
        &self.bytes
    }

    /// The text with this length and these bytes, zeros behind them. None where there is no such text.
    pub fn from_padded(len: u64, bytes: &[u8; MAX_SHORT_BYTES]) -> Option<ShortText>
        ensures read { result ≡ padded_of len bytes.now }
        ensures exact { (t : ShortText) → (result ≡ Some t) ↔ IsPadded len bytes.now t }
        ensures value { IfSome result (IsPadded len bytes.now) }
    {
        if len > MAX_SHORT_BYTES as u64 {
            return None;
        }
        match ShortText::of(&bytes[..len as usize]) {
            None => None,
            Some(text) => {
                if text.padded() == bytes {
                    Some(text)
                } else {
                    None
                }
            }
        }
    }
}

// The bytes, and zeros up to 48.
fn padded_bytes(bytes: &[u8]) -> [u8; MAX_SHORT_BYTES]
    requires { length bytes.now ≤ MAX_SHORT_BYTES }
    ensures { result ≡ padded bytes.now }
{
    let mut kept = [0; MAX_SHORT_BYTES];
    kept[..bytes.len()].copy_from_slice(bytes);
    kept
}

ghost use Rattle.cell_values.specs.ShortTexts.{AreOneByBytes};

/// Two short texts with the same bytes are equal.
#[tactic(auto, using(crate::proofs::Shorts::same_short))]
pub fn law_short_texts_by_bytes()
    ensures { AreOneByBytes }
{}
