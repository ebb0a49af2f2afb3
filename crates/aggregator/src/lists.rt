// Lists of leaves.
ghost use Rattle.std.specs.Prelude.{◌≡◌, ◌++◌, ◌∷◌, [], OnOk};

use std::alloc::AllocError;
use std::marker::Model;

/// A leaf, and the number of the entry at its table.
#[derive(Clone, Copy, PartialEq, Eq)]
pub struct Named {
    pub leaf: u32,
    pub number: u64,
}

/// Leaves, with the numbers of their entries. Contracts see them as the list.
#[derive(Drop)]
pub struct NamedList {
    inner: Vec<Named>,
}

impl Model for NamedList {
    ghost use Rattle.std.specs.Prelude.{List};
    ghost use Rattle.aggregator.specs.declared.lists.Named.{Named};

    ghost Value = { List Named };

    ghost view = { λ list. list.inner.items };
}

impl NamedList {
    pub fn of(inner: Vec<Named>) -> NamedList
        ensures { result ≡ inner.items }
    {
        NamedList { inner }
    }

    pub fn as_slice(&self) -> &[Named]
        ensures { result.now ≡ self.now }
    {
        self.inner.as_slice()
    }

    pub fn into_inner(self) -> Vec<Named>
        ensures { result.items ≡ self }
    {
        self.inner
    }

    // Appends a leaf.
    pub(crate) fn push(&mut self, named: Named) -> Result<(), AllocError>
        ensures { OnOk result (self.new ≡ self.old ++ named ∷ []) }
    {
        self.inner.push(named)?;
        Ok(())
    }
}

/// Leaves without entries. Contracts see them as the list.
#[derive(Drop)]
pub struct Leaves {
    inner: Vec<u32>,
}

impl Model for Leaves {
    ghost use Rattle.std.specs.Prelude.{List, ℕ};

    ghost Value = { List ℕ };

    ghost view = { λ list. list.inner.items };
}

impl Leaves {
    pub fn of(inner: Vec<u32>) -> Leaves
        ensures { result ≡ inner.items }
    {
        Leaves { inner }
    }

    pub fn as_slice(&self) -> &[u32]
        ensures { result.now ≡ self.now }
    {
        self.inner.as_slice()
    }

    pub fn into_inner(self) -> Vec<u32>
        ensures { result.items ≡ self }
    {
        self.inner
    }

    // Appends a leaf.
    pub(crate) fn push(&mut self, leaf: u32) -> Result<(), AllocError>
        ensures { OnOk result (self.new ≡ self.old ++ leaf ∷ []) }
    {
        self.inner.push(leaf)?;
        Ok(())
    }
}
