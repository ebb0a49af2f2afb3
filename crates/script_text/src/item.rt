// The items of a script: commands, and bursts of them.
ghost use Rattle.std.specs.Prelude.{◌≡◌};

use crate::command::{Command, Commands};
use std::marker::Model;

/// A command, or the lanes of a burst, each of them commands.
#[derive(Drop)]
pub enum Item {
    One(Command),
    Burst(LaneList),
}

/// The lanes of a burst, in their order. Contracts see them as the list.
#[derive(Drop)]
pub struct LaneList {
    inner: Vec<Commands>,
}

impl Model for LaneList {
    ghost use Rattle.std.specs.Prelude.{List};
    ghost use Rattle.script_text.specs.declared.command.Command.{Command};

    ghost Value = { List (List Command) };

    ghost view = { λ list. list.inner.items };
}

impl LaneList {
    pub fn of(inner: Vec<Commands>) -> LaneList
        ensures { result ≡ inner.items }
    {
        LaneList { inner }
    }

    pub fn as_slice(&self) -> &[Commands]
        ensures { result.now ≡ self.now }
    {
        self.inner.as_slice()
    }

    pub fn into_inner(self) -> Vec<Commands>
        ensures { result.items ≡ self }
    {
        self.inner
    }
}

/// The items of a script, in their order. Contracts see them as the list.
#[derive(Drop)]
pub struct Items {
    inner: Vec<Item>,
}

impl Model for Items {
    ghost use Rattle.std.specs.Prelude.{List};
    ghost use Rattle.script_text.specs.declared.item.Item.{Item};

    ghost Value = { List Item };

    ghost view = { λ list. list.inner.items };
}

impl Items {
    pub fn of(inner: Vec<Item>) -> Items
        ensures { result ≡ inner.items }
    {
        Items { inner }
    }

    pub fn as_slice(&self) -> &[Item]
        ensures { result.now ≡ self.now }
    {
        self.inner.as_slice()
    }

    pub fn into_inner(self) -> Vec<Item>
        ensures { result.items ≡ self }
    {
        self.inner
    }
}
