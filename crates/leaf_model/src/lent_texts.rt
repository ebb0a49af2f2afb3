// Borrowed texts, either as values or as bytes.
ghost use Rattle.std.specs.Prelude.{◌≡◌, length, nat_le, IfOk, IsSome};
ghost use Rattle.row_model.specs.Sets.{do_ascend, is_set};
ghost use Rattle.row_model.specs.Values.{bytes_in};
ghost use Rattle.row_model.specs.Texts.{texts_cmp};
ghost use Rattle.row_model.specs.Names.{is_among};
ghost use Rattle.leaf_model.specs.Reading.{texts_at};
ghost use Rattle.leaf_model.specs.Fronts.{front_of};
ghost use Rattle.leaf_model.specs.Lent.{lent_texts, spelled_texts, texts_before, texts_parted};

use crate::fronts::SpelledTexts;
use crate::spelled::long_text_in;
use row_model::{MAX_MEMBERS, MAX_TEXT, Text, Texts};
use std::alloc::{AllocError, Global};
use std::cmp::Ordering;

impl<'a> SpelledTexts<'a> {
    /// The first `count` texts of the bytes.
    pub fn of(bytes: &'a [u8], count: u16) -> SpelledTexts<'a>
        requires { IsSome (texts_at count bytes.now) }
        ensures { spelled_texts result ≡ front_of (texts_at count bytes.now) }
    {
        SpelledTexts { bytes, count }
    }

    fn len(&self) -> usize
        ensures { result ≡ length (spelled_texts self.now) }
    {
        self.count as usize
    }

    fn split_first(&self) -> Option<(&'a str, SpelledTexts<'a>)>
        ensures { texts_before result ≡ spelled_texts self.now }
    {
        if self.count == 0 {
            return None;
        }
        let (text, bytes) = long_text_in(self.bytes);
        let count = self.count - 1;
        Some((text, SpelledTexts { bytes, count }))
    }
}

/// The borrowed texts of a set: a slice of values, or the bytes that spell them.
#[derive(Clone, Copy)]
pub enum LentTexts<'a> {
    Owned(&'a [Text]),
    Spelled(SpelledTexts<'a>),
}

impl<'a> LentTexts<'a> {
    pub fn of(texts: &'a Texts) -> LentTexts<'a>
        ensures { lent_texts result ≡ texts.now }
    {
        LentTexts::Owned(texts.as_slice())
    }

    /// The number of texts.
    pub fn len(&self) -> usize
        ensures { result ≡ length (lent_texts self.now) }
    {
        match self {
            LentTexts::Owned(texts) => texts.len(),
            LentTexts::Spelled(texts) => texts.len(),
        }
    }

    /// The first text and the others. None if there is no text.
    pub fn split_first(&self) -> Option<(&'a str, LentTexts<'a>)>
        ensures { texts_parted result ≡ lent_texts self.now }
    {
        match self {
            LentTexts::Owned([]) => None,
            LentTexts::Owned([first, others @ ..]) => {
                Some((first.as_str(), LentTexts::Owned(others)))
            }
            LentTexts::Spelled(texts) => {
                let (first, others) = texts.split_first()?;
                Some((first, LentTexts::Spelled(others)))
            }
        }
    }

    /// Whether `text` is one of them.
    pub fn holds(&self, text: &str) -> bool
        ensures { result ≡ is_among (lent_texts self.now) text.now }
    {
        let mut left = *self;
        while let Some((first, others)) = left.split_first() {
            if first == text {
                return true;
            }
            left = others;
        }
        false
    }

    /// Lexicographic order: text by text from the left; a proper prefix is less.
    pub fn compare(&self, other: &LentTexts) -> Ordering
        ensures { result ≡ texts_cmp (lent_texts self.now) (lent_texts other.now) }
    {
        let mut mine = *self;
        let mut theirs = *other;
        loop {
            match (mine.split_first(), theirs.split_first()) {
                (None, None) => return Ordering::Equal,
                (None, Some(_)) => return Ordering::Less,
                (Some(_), None) => return Ordering::Greater,
                (Some((a, after)), Some((b, behind))) => match a.cmp(b) {
                    Ordering::Equal => {
                        mine = after;
                        theirs = behind;
                    }
                    order => return order,
                },
            }
        }
    }

    /// Whether they are a set: strictly ascending by bytes, at most 1,024 texts, at most 65,535 bytes together.
    pub fn is_set(&self) -> bool
        ensures { result ≡ is_set (lent_texts self.now) }
    {
        self.len() <= MAX_MEMBERS && self.do_ascend() && self.are_within(MAX_TEXT)
    }

    fn do_ascend(&self) -> bool
        ensures { result ≡ do_ascend (lent_texts self.now) }
    {
        let Some((first, others)) = self.split_first() else {
            return true;
        };
        let mut last = first.as_bytes();
        let mut left = others;
        while let Some((next, others)) = left.split_first() {
            if !last.cmp(next.as_bytes()).is_lt() {
                return false;
            }
            last = next.as_bytes();
            left = others;
        }
        true
    }

    /// Whether the texts have at most `most` bytes together.
    fn are_within(&self, most: usize) -> bool
        ensures { result ≡ nat_le (bytes_in (lent_texts self.now)) most }
    {
        let mut room = most;
        let mut left = *self;
        while let Some((first, others)) = left.split_first() {
            if first.len() > room {
                return false;
            }
            room -= first.len();
            left = others;
        }
        true
    }

    /// An owned copy. Err if memory runs out.
    pub fn own(&self, alloc: Global) -> Result<Texts, AllocError>
        ensures { IfOk result (λ texts. texts ≡ lent_texts self.now) }
    {
        let mut texts = Vec::with_capacity(alloc, self.len())?;
        let mut left = *self;
        while let Some((first, others)) = left.split_first() {
            texts.push(Text::of(String::from_str(alloc, first)?))?;
            left = others;
        }
        Ok(Texts::of(texts))
    }
}
