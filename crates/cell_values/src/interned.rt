//! Texts, each kept once.

ghost use Rattle.std.specs.Prelude.{◌≡◌, List, [], ◌∷◌, ◌++◌, length, IfOk, OnErr, All};

use std::alloc::{AllocError, Global};
use std::collections::BTreeMap;
use std::marker::Model;

/// The number of an interned text.
#[derive(Clone, Copy, Debug, PartialEq, Eq)]
pub struct TextId(pub usize);

/// Interned texts: distinct texts, numbered from 0. Contracts see the list of their bytes.
#[derive(Drop)]
pub struct Texts {
    texts: Vec<String>,
    numbers: BTreeMap<String, usize>,
}

impl Model for Texts {
    ghost use Rattle.std.specs.Prelude.{◌≡◌, ℕ, List, map};
    ghost use Rattle.std.specs.Prelude.{string_bytes};
    ghost use Rattle.std.specs.BTreeMap.{get_by_text};

    ghost Value = { List (List ℕ) };

    ghost use Rattle.cell_values.specs.Interned.{number_of, AreDistinct};

    ghost view = { λ t. map string_bytes t.texts.items };

    ghost invariant = { λ t. AreDistinct (map string_bytes t.texts.items)
        × ((q : List ℕ) → get_by_text t.numbers q ≡ number_of (map string_bytes t.texts.items) q) };
}

impl Texts {
    ghost use Rattle.std.specs.Str.{IsUtf8};
    ghost use Rattle.cell_values.specs.Texts.{IsTextOf, text_at};
    ghost use Rattle.cell_values.specs.Interned.{number_of, interned, AreDistinct, KeepsTexts};

    /// No texts.
    #[tactic(auto, using(crate::proofs::Numbering::none_distinct, crate::proofs::Numbering::none_numbered))]
    pub fn new(alloc: Global) -> Texts
        ensures { result ≡ [] }
    {
        Texts {
            texts: Vec::new(alloc),
            numbers: BTreeMap::new(alloc),
        }
    }

    /// How many texts there are.
    pub fn count(&self) -> usize
        ensures count { result ≡ length self.now }
        ensures distinct { AreDistinct self.now }
        ensures utf8 { All IsUtf8 self.now }
    {
        self.texts.len()
    }

    /// The text with this number.
    pub fn get(&self, id: TextId) -> &str
        requires { IsTextOf self.now id }
        ensures text { result.now ≡ text_at self.now id }
        ensures distinct { AreDistinct self.now }
    {
        self.texts[id.0].as_str()
    }

    /// The number of a text. A text that is not there gets the next number, and the others keep theirs.
    #[tactic(auto, using(crate::proofs::Numbering::number_is_there, crate::proofs::Numbering::number_has_text))]
    pub fn intern(&mut self, text: &str) -> Result<TextId, AllocError>
        ensures ok { IfOk result (λ id. (self.new, id) ≡ interned self.old text.now) }
        ensures there { IfOk result (IsTextOf self.new) }
        ensures text { IfOk result (λ id. text_at self.new id ≡ text.now) }
        ensures kept { KeepsTexts self.old self.new }
        ensures distinct { AreDistinct self.new }
        ensures err { OnErr result (self.new ≡ self.old) }
    {
        match self.number_of(text) {
            Some(number) => Ok(TextId(number)),
            None => self.add(text),
        }
    }

    /// The number of a text that is there.
    fn number_of(&self, text: &str) -> Option<usize>
        ensures number { result ≡ number_of self.now text.now }
        ensures distinct { AreDistinct self.now }
    {
        self.numbers.get(text).copied()
    }

    /// Gives a new text the next number.
    fn add(&mut self, text: &str) -> Result<TextId, AllocError>
        requires { number_of self.old text.now ≡ None }
        ensures ok { IfOk result (λ id. (id.0 ≡ length self.old) × (self.new ≡ self.old ++ text.now ∷ [])) }
        ensures distinct { AreDistinct self.new }
        ensures err { OnErr result (self.new ≡ self.old) }
    {
        let alloc = *self.texts.allocator();
        let key = String::from_str(alloc, text)?;
        let kept = String::from_str(alloc, text)?;
        let number = self.texts.len();
        self.texts.push(kept)?;
        match self.numbers.insert(key, number) {
            Ok(_) => Ok(TextId(number)),
            Err(failed) => {
                self.texts.pop();
                Err(failed.into())
            }
        }
    }
}
