//! The words of a record: what a cell shows as a tag word and value words, and back.

ghost use Rattle.std.specs.Prelude.{◌≡◌, ◌↔◌, ◌<◌, ◌≤◌, ◌^◌, Bool, cond, IfSome, IsTrue};
ghost use Rattle.cell_values.specs.declared.values.Code.{Code};
ghost use Rattle.cell_values.specs.declared.values.Shown.{Shown};
ghost use Rattle.cell_values.specs.Numbers.{fits};
ghost use Rattle.cell_values.specs.Texts.{Texts};
ghost use Rattle.cell_values.specs.Values.{IsShownOf};
ghost use Rattle.cell_words.specs.Records.{IsShown, Spells, are_zero, bool_of, code_number, code_of, high_word, length_of, low_word, number_of, read_by, read_one, record_words, shown_read, tag_of, tag_words, value_of};

use crate::WORDS;
use crate::text_words::{read_text, text_word};
use cell_values::{Code, Int, Shown, TextId, Value};

const NUMBER: u64 = 1;

const TEXT: u64 = 2;

const BOOL: u64 = 3;

const BLANK: u64 = 4;

const ERROR: u64 = 5;

const CYCLE: u64 = 6;

const TO_CYCLE: u64 = 7;

const SHORT_TEXT: u64 = 8;

// How many value words a number has.
const NUMBER_WORDS: u32 = 2;

// How many value words a short text has.
const SHORT_TEXT_WORDS: u32 = 7;

// 2^64, from which on the high word of a number stands.
const HIGH_WORD: u128 = 0x1_0000_0000_0000_0000;

/// The tag word of what a cell shows.
#[tactic(auto, unfolding(crate::specs::Records::tag_of))]
pub fn record_tag(shown: Shown) -> u64
    ensures value { result ≡ tag_of shown }
    ensures shown { (ts : Texts) → IsShownOf ts shown → IsShown shown }
{
    match shown {
        Shown::Val(Value::Number(number)) => number_tag(number),
        Shown::Val(Value::Text(text)) => text_tag(text.0),
        Shown::Val(Value::Short(_)) => SHORT_TEXT,
        Shown::Val(Value::Bool(_)) => BOOL,
        Shown::Val(Value::Blank) => BLANK,
        Shown::Val(Value::Error(_)) => ERROR,
        Shown::Cycle(length) => cycle_tag(length),
        Shown::ToCycle => TO_CYCLE,
    }
}

// The tag word of a number.
fn number_tag(number: Int) -> u64
    ensures { (result ≡ 1) × IsTrue (fits number) }
{
    let _number = number;
    NUMBER
}

fn text_tag(id: usize) -> u64
    ensures { (result ≡ 2) × (id < 2 ^ 64) }
{
    let _id = id;
    TEXT
}

fn cycle_tag(length: u32) -> u64
    ensures { (result ≡ 6) × (length < 2 ^ 32) }
{
    let _length = length;
    CYCLE
}

/// The value word `k`, from 0, of what a cell shows. It is 0 from `record_words` on.
#[tactic(auto, unfolding(crate::specs::Records::stored_words))]
pub fn record_value(shown: Shown, k: u32) -> u64
    requires { k < WORDS }
    ensures value { result ≡ value_of shown k }
    ensures rest { record_words shown ≤ k → result ≡ 0 }
{
    if k >= record_words(shown) {
        return 0;
    }
    match shown {
        Shown::Val(Value::Number(number)) if k == 0 => low_word(number),
        Shown::Val(Value::Number(number)) => high_word(number),
        Shown::Val(Value::Text(text)) => text.0 as u64,
        Shown::Val(Value::Short(text)) => text_word(&text, k),
        Shown::Val(Value::Bool(holds)) => u64::from(holds),
        Shown::Val(Value::Blank) | Shown::ToCycle => 0,
        Shown::Val(Value::Error(code)) => code_number(code),
        Shown::Cycle(length) => u64::from(length),
    }
}

// The low 64 bits of a number in two's complement.
fn low_word(number: Int) -> u64
    ensures { result ≡ low_word number }
{
    (number.cast_unsigned() % HIGH_WORD) as u64
}

// The high 64 bits.
fn high_word(number: Int) -> u64
    ensures { result ≡ high_word number }
{
    (number.cast_unsigned() / HIGH_WORD) as u64
}

fn code_number(code: Code) -> u64
    ensures { result ≡ code_number code }
{
    match code {
        Code::Div => 1,
        Code::Value => 2,
        Code::Ref => 3,
        Code::Num => 4,
        Code::Na => 5,
    }
}

/// How many value words of the record of what a cell shows are stored, from the first on. The others
/// are 0.
#[tactic(auto, unfolding(crate::specs::Records::tag_of, crate::specs::Records::stored_words, crate::specs::Records::tag_words, crate::specs::TextWords::packed))]
pub fn record_words(shown: Shown) -> u32
    ensures value { result ≡ record_words shown }
    ensures tag { result ≡ tag_words (tag_of shown) }
    ensures range { (1 ≤ result) × (result ≤ WORDS) }
{
    match shown {
        Shown::Val(Value::Number(_)) => NUMBER_WORDS,
        Shown::Val(Value::Short(_)) => SHORT_TEXT_WORDS,
        Shown::Val(Value::Text(_) | Value::Bool(_) | Value::Blank | Value::Error(_)) => 1,
        Shown::Cycle(_) | Shown::ToCycle => 1,
    }
}

/// The same number, for a record with this tag.
#[tactic(auto, unfolding(crate::specs::Records::tag_words))]
pub fn tag_words(tag: u64) -> u32
    requires { (1 ≤ tag) × (tag ≤ 8) }
    ensures value { result ≡ tag_words tag }
    ensures range { (1 ≤ result) × (result ≤ WORDS) }
{
    match tag {
        NUMBER => NUMBER_WORDS,
        SHORT_TEXT => SHORT_TEXT_WORDS,
        _ => 1,
    }
}

/// What a cell shows whose record has these words. A word that is not stored is handed in as 0. None
/// where no record has these words.
pub fn read_record(tag: u64, words: &[u64; WORDS as usize]) -> Option<Shown>
    ensures read { result ≡ shown_read tag words.now }
    ensures exact { (s : Shown) → (result ≡ Some s) ↔ Spells tag words.now s }
{
    read_words(tag, words)
}

// The same by parts: the words that the tag does not use are 0, and the others are read.
#[tactic(auto, unfolding(crate::specs::Records::shown_read))]
fn read_words(tag: u64, words: &[u64; WORDS as usize]) -> Option<Shown>
    ensures { result ≡ shown_read tag words.now }
{
    if tag < NUMBER || tag > SHORT_TEXT {
        return None;
    }
    let used = tag_words(tag) as usize;
    if !are_zero(&words[used..]) {
        return None;
    }
    read_by(tag, words)
}

// What a record shows by its tag and its value words.
fn read_by(tag: u64, words: &[u64; WORDS as usize]) -> Option<Shown>
    ensures { result ≡ read_by tag words.now }
{
    match tag {
        NUMBER => Some(Shown::Val(Value::Number(number_of(words[0], words[1])))),
        SHORT_TEXT => Some(Shown::Val(Value::Short(read_text(words)?))),
        _ => read_one(tag, words[0]),
    }
}

// What a record shows whose kind has one value word.
fn read_one(tag: u64, word: u64) -> Option<Shown>
    ensures { result ≡ read_one tag word }
{
    match tag {
        TEXT => Some(Shown::Val(Value::Text(TextId(word as usize)))),
        BOOL => Some(Shown::Val(Value::Bool(bool_of(word)?))),
        BLANK if word == 0 => Some(Shown::Val(Value::Blank)),
        ERROR => Some(Shown::Val(Value::Error(code_of(word)?))),
        CYCLE => Some(Shown::Cycle(length_of(word)?)),
        TO_CYCLE if word == 0 => Some(Shown::ToCycle),
        _ => None,
    }
}

// The number with these low and high 64 bits.
fn number_of(low: u64, high: u64) -> Int
    ensures { result ≡ number_of low high }
{
    (u128::from(high) * HIGH_WORD + u128::from(low)).cast_signed()
}

fn bool_of(word: u64) -> Option<bool>
    ensures { result ≡ bool_of word }
{
    match word {
        0 => Some(false),
        1 => Some(true),
        _ => None,
    }
}

fn code_of(word: u64) -> Option<Code>
    ensures { result ≡ code_of word }
{
    match word {
        1 => Some(Code::Div),
        2 => Some(Code::Value),
        3 => Some(Code::Ref),
        4 => Some(Code::Num),
        5 => Some(Code::Na),
        _ => None,
    }
}

fn length_of(word: u64) -> Option<u32>
    ensures { result ≡ length_of word }
{
    u32::try_from(word).ok()
}

// Whether all words are 0.
fn are_zero(words: &[u64]) -> bool
    ensures { result ≡ are_zero words.now }
{
    match words {
        [] => true,
        [word, rest @ ..] => *word == 0 && are_zero(rest),
    }
}
