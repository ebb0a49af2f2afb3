// The two lists of the delta form.
ghost use Rattle.std.specs.Prelude.{◌≡◌};

use std::marker::Model;

/// The values at the places 0, 64, 128 and so on. Contracts see them as the list.
#[derive(Drop)]
pub struct Anchors {
    inner: Vec<i64>,
}

impl Model for Anchors {
    ghost use Rattle.std.specs.Prelude.{List, ℤ};

    ghost Value = { List ℤ };

    ghost view = { λ list. list.inner.items };
}

impl Anchors {
    pub fn of(inner: Vec<i64>) -> Anchors
        ensures { result ≡ inner.items }
    {
        Anchors { inner }
    }

    pub fn as_slice(&self) -> &[i64]
        ensures { result.now ≡ self.now }
    {
        self.inner.as_slice()
    }

    pub fn into_inner(self) -> Vec<i64>
        ensures { result.items ≡ self }
    {
        self.inner
    }
}

/// One code for each value, in their order. Contracts see them as the list.
#[derive(Drop)]
pub struct Codes {
    inner: Vec<u64>,
}

impl Model for Codes {
    ghost use Rattle.std.specs.Prelude.{List, ℕ};

    ghost Value = { List ℕ };

    ghost view = { λ list. list.inner.items };
}

impl Codes {
    pub fn of(inner: Vec<u64>) -> Codes
        ensures { result ≡ inner.items }
    {
        Codes { inner }
    }

    pub fn as_slice(&self) -> &[u64]
        ensures { result.now ≡ self.now }
    {
        self.inner.as_slice()
    }

    pub fn into_inner(self) -> Vec<u64>
        ensures { result.items ≡ self }
    {
        self.inner
    }
}
