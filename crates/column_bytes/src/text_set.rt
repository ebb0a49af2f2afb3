// Distinct texts, in the order of their first occurrence.
ghost use Rattle.std.specs.Prelude.{◌≡◌, ◌<◌, [], length, slice_index_or, IfOk, IfSome, IsTrue, IsUtf8, OnOk};
ghost use Rattle.dictionaries.specs.Dictionary.{lent, with_text};

use crate::guesses::Guesses;
use indexmap::IndexSet;
use std::alloc::{AllocError, Global};
use std::marker::Model;

/// Whether the text at `place` is this one.
fn stands_at(texts: &[&str], place: usize, text: &str) -> bool
    ensures below { IsTrue result → place < length texts.now }
    ensures same { IsTrue result → slice_index_or (lent texts.now) place [] ≡ text.now }
{
    match texts.get(place) {
        None => false,
        Some(other) => other.as_bytes() == text.as_bytes(),
    }
}

/// Distinct texts. Contracts see them in the order of their codes. A text is tried at the code that it had last, before
/// it is looked up.
#[derive(Drop)]
pub struct TextSet<'a> {
    texts: IndexSet<&'a str>,
    guesses: Guesses,
}

impl<'a> Model for TextSet<'a> {
    ghost use Rattle.std.specs.Prelude.{List, ℕ};
    ghost use Rattle.dictionaries.specs.Dictionary.{lent};

    ghost Value = { List (List ℕ) };

    ghost view = { λ set. lent set.texts.keys };
}

impl<'a> TextSet<'a> {
    pub fn new(alloc: Global) -> TextSet<'a>
        ensures { result ≡ [] }
    {
        TextSet {
            texts: IndexSet::new(alloc),
            guesses: Guesses::new(alloc),
        }
    }

    /// The guessed code of a text. None if another text has that code.
    fn guessed(&self, text: &str) -> Option<usize>
        ensures below { IfSome result (λ code. code < length self.now) }
        ensures code { IfSome result (λ code. slice_index_or self.now code [] ≡ text.now) }
    {
        let guess = self.guesses.guess(text.as_bytes());
        if stands_at(self.texts.as_slice(), guess, text) {
            Some(guess)
        } else {
            None
        }
    }

    /// Looks the code of a text up, and notes it for the next guess. A new text is appended.
    fn looked_up(&mut self, text: &'a str) -> Result<u64, AllocError>
        ensures texts { OnOk result (self.new ≡ with_text self.old text.now) }
        ensures below { IfOk result (λ code. code < length self.new) }
        ensures code { IfOk result (λ code. slice_index_or self.new code [] ≡ text.now) }
        ensures utf8 { IsUtf8 text.now }
    {
        let (code, _) = self.texts.insert_full(text)?;
        self.guesses.keep(text.as_bytes(), code)?;
        Ok(code as u64)
    }

    /// The code of a text. A new text is appended, and its code is its index.
    pub(crate) fn code_of(&mut self, text: &'a str) -> Result<u64, AllocError>
        ensures texts { OnOk result (self.new ≡ with_text self.old text.now) }
        ensures below { IfOk result (λ code. code < length self.new) }
        ensures code { IfOk result (λ code. slice_index_or self.new code [] ≡ text.now) }
        ensures utf8 { IsUtf8 text.now }
    {
        match self.guessed(text) {
            Some(code) => Ok(code as u64),
            None => self.looked_up(text),
        }
    }

    /// The texts, in the order of their codes.
    pub(crate) fn as_slice(&self) -> &[&'a str]
        ensures { lent result.now ≡ self.now }
    {
        self.texts.as_slice()
    }
}
