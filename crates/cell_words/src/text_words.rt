//! The words of a short text: its length, and then its bytes, eight to a word.

ghost use Rattle.std.specs.Prelude.{◌≡◌, ◌<◌, slice_index, drop};
ghost use Rattle.cell_words.specs.TextWords.{text_read, text_words, unpacked, word_at};

use crate::WORDS;
use cell_values::{MAX_SHORT_BYTES, ShortText};

// How many bytes a word has.
const WORD_BYTES: usize = 8;

/// The value word `k`, from 0, of a short text's record: its length, or eight of its bytes.
pub(crate) fn text_word(text: &ShortText, k: u32) -> u64
    requires { k < WORDS }
    ensures { result ≡ slice_index (text_words text.now) k }
{
    if k == 0 {
        u64::from(text.len())
    } else {
        word(text.padded(), k as usize - 1)
    }
}

// The word of the eight bytes from number `8 * k` on, the first one lowest.
fn word(bytes: &[u8; MAX_SHORT_BYTES], k: usize) -> u64
    requires { k < 6 }
    ensures { result ≡ word_at bytes.now k }
{
    let mut eight = [0; WORD_BYTES];
    eight.copy_from_slice(&bytes[8 * k..8 * k + 8]);
    u64::from_le_bytes(eight)
}

/// The short text whose record has these value words. None where there is none.
pub(crate) fn read_text(words: &[u64; WORDS as usize]) -> Option<ShortText>
    ensures { result ≡ text_read words.now }
{
    let bytes = bytes_of(words);
    ShortText::from_padded(words[0], &bytes)
}

// The bytes of the words behind the first one, eight of each, the lowest first.
fn bytes_of(words: &[u64; WORDS as usize]) -> [u8; MAX_SHORT_BYTES]
    ensures { result ≡ unpacked (drop 1 words.now) }
{
    let mut bytes = [0; MAX_SHORT_BYTES];
    for k in 0..6 {
        let eight = words[k + 1].to_le_bytes();
        bytes[8 * k..8 * k + 8].copy_from_slice(&eight);
    }
    bytes
}
