// Distinct sets as indices of their texts, in the order of their first occurrence.
ghost use Rattle.std.specs.Prelude.{◌≡◌, ◌<◌, ℕ, List, [], length, slice_index_or, IfOk, OnOk};
ghost use Rattle.dictionaries.specs.Dictionary.{with_text};
ghost use Rattle.dictionaries.specs.Sets.{numbers_in};

use indexmap::IndexSet;
use std::alloc::{AllocError, Global};
use std::marker::Model;

/// Distinct sets as lists of indices. Contracts see them in the order of their codes.
#[derive(Drop)]
pub(crate) struct SetNumbers {
    sets: IndexSet<Vec<u32>>,
}

impl Model for SetNumbers {
    ghost use Rattle.std.specs.Prelude.{List, ℕ};
    ghost use Rattle.dictionaries.specs.Sets.{numbers_in};

    ghost Value = { List (List ℕ) };

    ghost view = { λ s. numbers_in s.sets.keys };
}

impl SetNumbers {
    pub(crate) fn new(alloc: Global) -> SetNumbers
        ensures { result ≡ [] }
    {
        SetNumbers {
            sets: IndexSet::new(alloc),
        }
    }

    /// The code of a set. A new set is appended, and its code is its index.
    pub(crate) fn code_of(&mut self, numbers: Vec<u32>) -> Result<u64, AllocError>
        ensures sets { OnOk result (self.new ≡ with_text self.old numbers.items) }
        ensures below { IfOk result (λ code. code < length self.new) }
        ensures code { IfOk result (λ code. slice_index_or self.new code [] ≡ numbers.items) }
    {
        let (code, _) = self.sets.insert_full(numbers)?;
        Ok(code as u64)
    }

    /// The sets, in the order of their codes.
    pub(crate) fn as_slice(&self) -> &[Vec<u32>]
        ensures { numbers_in result.now ≡ self.now }
    {
        self.sets.as_slice()
    }
}
