// The waves of a rollover as lists.
ghost use Rattle.std.specs.Prelude.{◌≡◌};

use std::marker::Model;

/// The leaves that restart together. Contracts see them as the list.
#[derive(Drop)]
pub struct Wave {
    inner: Vec<u32>,
}

impl Model for Wave {
    ghost use Rattle.std.specs.Prelude.{List, ℕ};

    ghost Value = { List ℕ };

    ghost view = { λ list. list.inner.items };
}

impl Wave {
    pub fn of(inner: Vec<u32>) -> Wave
        ensures { result ≡ inner.items }
    {
        Wave { inner }
    }

    pub fn as_slice(&self) -> &[u32]
        ensures { result.now ≡ self.now }
    {
        self.inner.as_slice()
    }

    pub fn into_inner(self) -> Vec<u32>
        ensures { result.items ≡ self }
    {
        self.inner
    }
}

/// Waves, one after another. Contracts see them as the list.
#[derive(Drop)]
pub struct Waves {
    inner: Vec<Wave>,
}

impl Model for Waves {
    ghost use Rattle.std.specs.Prelude.{List};
    ghost use Rattle.rollover_plan.specs.declared.wave.Wave.{Wave};

    ghost Value = { List Wave };

    ghost view = { λ list. list.inner.items };
}

impl Waves {
    pub fn of(inner: Vec<Wave>) -> Waves
        ensures { result ≡ inner.items }
    {
        Waves { inner }
    }

    pub fn as_slice(&self) -> &[Wave]
        ensures { result.now ≡ self.now }
    {
        self.inner.as_slice()
    }

    pub fn into_inner(self) -> Vec<Wave>
        ensures { result.items ≡ self }
    {
        self.inner
    }
}
