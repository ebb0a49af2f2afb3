// Groups: the result of a query before it is ordered and printed.
ghost use Rattle.std.specs.Prelude.{◌≡◌};
ghost use Rattle.leaf_model.specs.Groups.{key_cmp, keys_cmp};

use row_model::{Text, Texts};
use std::cmp::Ordering;
use std::marker::Model;

/// The value of a row under a name of GROUP BY.
#[derive(Drop)]
pub enum Key {
    Missing,
    Int(i64),
    Text(Text),
    Set(Texts),
}

impl Key {
    /// The order of keys: missing, then integers, then texts by their bytes, then sets as lists of texts.
    pub fn compare(&self, other: &Key) -> Ordering
        ensures { result ≡ key_cmp self.now other.now }
    {
        match self {
            Key::Missing => match other {
                Key::Missing => Ordering::Equal,
                Key::Int(_m) => Ordering::Less,
                Key::Text(_u) => Ordering::Less,
                Key::Set(_n) => Ordering::Less,
            },
            Key::Int(n) => match other {
                Key::Missing => Ordering::Greater,
                Key::Int(m) => n.cmp(m),
                Key::Text(_u) => Ordering::Less,
                Key::Set(_n) => Ordering::Less,
            },
            Key::Text(t) => match other {
                Key::Missing => Ordering::Greater,
                Key::Int(_m) => Ordering::Greater,
                Key::Text(u) => t.as_str().cmp(u.as_str()),
                Key::Set(_n) => Ordering::Less,
            },
            Key::Set(members) => match other {
                Key::Missing => Ordering::Greater,
                Key::Int(_m) => Ordering::Greater,
                Key::Text(_u) => Ordering::Greater,
                Key::Set(others) => members.compare(others),
            },
        }
    }
}

fn compare_keys(a: &[Key], b: &[Key]) -> Ordering
    ensures { result ≡ keys_cmp a.now b.now }
{
    let mut i: usize = 0;
    while i < a.len() && i < b.len() {
        match a[i].compare(&b[i]) {
            Ordering::Less => return Ordering::Less,
            Ordering::Equal => i += 1,
            Ordering::Greater => return Ordering::Greater,
        }
    }
    a.len().cmp(&b.len())
}

/// The keys of a group, in the order of GROUP BY. Contracts see them as the list.
#[derive(Drop)]
pub struct Keys {
    inner: Vec<Key>,
}

impl Model for Keys {
    ghost use Rattle.std.specs.Prelude.{List};
    ghost use Rattle.leaf_model.specs.declared.groups.Key.{Key};

    ghost Value = { List Key };

    ghost view = { λ list. list.inner.items };
}

impl Keys {
    pub fn of(inner: Vec<Key>) -> Keys
        ensures { result ≡ inner.items }
    {
        Keys { inner }
    }

    pub fn as_slice(&self) -> &[Key]
        ensures { result.now ≡ self.now }
    {
        self.inner.as_slice()
    }

    /// Lexicographic order: key by key from the left; a proper prefix is less.
    pub fn compare(&self, other: &Keys) -> Ordering
        ensures { result ≡ keys_cmp self.now other.now }
    {
        compare_keys(self.inner.as_slice(), other.inner.as_slice())
    }

    pub fn into_inner(self) -> Vec<Key>
        ensures { result.items ≡ self }
    {
        self.inner
    }
}

/// A fold over integers: their number, sum, least and greatest. `min` and `max` are None if there is none.
#[derive(Clone, Copy)]
pub struct Fold {
    pub seen: u64,
    pub sum: i128,
    pub min: Option<i64>,
    pub max: Option<i64>,
}

/// One fold for each aggregate of a query, in their order. Contracts see them as the list.
#[derive(Drop)]
pub struct Folds {
    inner: Vec<Fold>,
}

impl Model for Folds {
    ghost use Rattle.std.specs.Prelude.{List};
    ghost use Rattle.leaf_model.specs.declared.groups.Fold.{Fold};

    ghost Value = { List Fold };

    ghost view = { λ list. list.inner.items };
}

impl Folds {
    pub fn of(inner: Vec<Fold>) -> Folds
        ensures { result ≡ inner.items }
    {
        Folds { inner }
    }

    pub fn as_slice(&self) -> &[Fold]
        ensures { result.now ≡ self.now }
    {
        self.inner.as_slice()
    }

    pub fn into_inner(self) -> Vec<Fold>
        ensures { result.items ≡ self }
    {
        self.inner
    }
}

/// The rows with the same keys: how many they are, and a fold for each aggregate.
#[derive(Drop)]
pub struct Group {
    pub keys: Keys,
    pub count: u64,
    pub folds: Folds,
}

/// Groups, ascending by keys. Contracts see them as the list.
#[derive(Drop)]
pub struct Groups {
    inner: Vec<Group>,
}

impl Model for Groups {
    ghost use Rattle.std.specs.Prelude.{List};
    ghost use Rattle.leaf_model.specs.declared.groups.Group.{Group};

    ghost Value = { List Group };

    ghost view = { λ list. list.inner.items };
}

impl Groups {
    pub fn of(inner: Vec<Group>) -> Groups
        ensures { result ≡ inner.items }
    {
        Groups { inner }
    }

    pub fn as_slice(&self) -> &[Group]
        ensures { result.now ≡ self.now }
    {
        self.inner.as_slice()
    }

    pub fn into_inner(self) -> Vec<Group>
        ensures { result.items ≡ self }
    {
        self.inner
    }
}
