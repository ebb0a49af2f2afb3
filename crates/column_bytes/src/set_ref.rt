// A set in the bytes of a column.
ghost use Rattle.std.specs.Prelude.{◌≡◌, ◌<◌, [], length, slice_index_or};
ghost use Rattle.dictionaries.specs.Dictionary.{text_count};
ghost use Rattle.dictionaries.specs.Sets.{IsSetDictionary, set_in, sets_part};

use dictionaries::{text_of_set, texts_in_set};
use std::marker::Model;

/// The texts of a set, strictly ascending, borrowed from the column. Contracts see them as the list.
#[derive(Drop)]
pub struct SetRef<'a> {
    extra: &'a [u8],
    set: usize,
}

impl<'a> Model for SetRef<'a> {
    ghost use Rattle.std.specs.Prelude.{List, ℕ, ◌<◌};
    ghost use Rattle.dictionaries.specs.Dictionary.{text_count};
    ghost use Rattle.dictionaries.specs.Sets.{IsSetDictionary, set_in, sets_part};

    ghost Value = { List (List ℕ) };

    ghost view = { λ s. set_in s.extra.now s.set };

    ghost invariant = { λ s. IsSetDictionary s.extra.now × (s.set < text_count (sets_part s.extra.now)) };
}

impl<'a> SetRef<'a> {
    pub(crate) fn of(extra: &'a [u8], set: usize) -> SetRef<'a>
        requires dictionary { IsSetDictionary extra.now }
        requires within { set < text_count (sets_part extra.now) }
        ensures { result ≡ set_in extra.now set }
    {
        SetRef { extra, set }
    }

    /// The number of texts, at most 1,024.
    pub fn len(&self) -> u32
        ensures { result ≡ length self.now }
    {
        texts_in_set(self.extra, self.set)
    }

    /// Text i of the set.
    pub fn text(&self, i: u32) -> &'a str
        requires { i < length self.now }
        ensures { result.now ≡ slice_index_or self.now i [] }
    {
        text_of_set(self.extra, self.set, i)
    }
}
