// The tries of a tail.
ghost use Rattle.std.specs.Prelude.{◌≡◌};

use leaf_table::Reply;
use std::marker::Model;

/// A try: the two leaves that were drawn, and the replies.
#[derive(Drop)]
pub struct Try {
    pub first: u32,
    pub second: u32,
    pub one: Reply,
    /// None if both are the same leaf.
    pub two: Option<Reply>,
    /// None if neither told its free rows.
    pub added: Option<Reply>,
}

/// The tries of a tail, in order. Contracts see them as the list.
#[derive(Drop)]
pub struct Tries {
    inner: Vec<Try>,
}

impl Model for Tries {
    ghost use Rattle.std.specs.Prelude.{List};
    ghost use Rattle.tailer.specs.declared.tries.Try.{Try};

    ghost Value = { List Try };

    ghost view = { λ tries. tries.inner.items };
}

impl Tries {
    pub fn of(inner: Vec<Try>) -> Tries
        ensures { result ≡ inner.items }
    {
        Tries { inner }
    }

    pub fn as_slice(&self) -> &[Try]
        ensures { result.now ≡ self.now }
    {
        self.inner.as_slice()
    }

    pub fn into_inner(self) -> Vec<Try>
        ensures { result.items ≡ self }
    {
        self.inner
    }
}

/// The leaf that took the rows of a tail, if one did.
#[derive(Clone, Copy, PartialEq, Eq)]
pub enum Sent {
    /// The leaf that took them.
    To(u32),
    /// None: no add of 16 tries was accepted.
    Refused,
}

/// How a tail ended, and its tries.
#[derive(Drop)]
pub struct Tailed {
    pub sent: Sent,
    pub tries: Tries,
}
