// The commands of a script, and to whom each is addressed.
ghost use Rattle.std.specs.Prelude.{◌≡◌};
ghost use Rattle.script_text.specs.Aims.{aim_in, aim_of};

use leaf_model::{Names, Query, Rows, Text};
use std::marker::Model;

/// A command. A leaf is given by its number, from 0, and a table by its place among those of the fleet, from 0.
#[derive(Drop)]
pub enum Command {
    /// `machines` machines with `per_machine` leaves each. Each leaf has these tables.
    Fleet {
        machines: u32,
        per_machine: u32,
        tables: Names,
    },
    Add {
        leaf: u32,
        table: u32,
        rows: Rows,
    },
    /// Removes the rows of the table whose time is below the horizon.
    Expire {
        leaf: u32,
        table: u32,
        horizon: i64,
    },
    /// Keeps the last n rows of the table, and removes the others.
    Keep {
        leaf: u32,
        table: u32,
        n: u64,
    },
    Query(Query),
    /// Sends the rows to one leaf. The key picks the leaves that are tried.
    Tail {
        key: u64,
        table: u32,
        rows: Rows,
    },
    Flush {
        leaf: u32,
        table: u32,
    },
    /// Drains the leaf. If a number of steps is given, it is stopped after them.
    Drain {
        leaf: u32,
        stop: Option<u32>,
    },
    Kill(u32),
    Start(u32),
    /// Restarts every leaf, in waves of at most this percent of the leaves, and at most one leaf of a machine.
    Rollover(u32),
    /// Declares a standing query of a table of the leaf. A later `tell` prints its answer.
    Standing {
        leaf: u32,
        query: Query,
    },
    /// Prints the answer of a standing query, given by its number, from 0, in the order of the declarations.
    Tell(u32),
}

/// The addressee of a command.
#[derive(Clone, Copy)]
pub enum Aim<'a> {
    /// The whole fleet, which the command begins.
    Fleet,
    /// Callers of the table in this place.
    Table(u32),
    /// Callers of the table of this name, at every leaf.
    Named(&'a Text),
    /// The steward of this leaf.
    Leaf(u32),
    /// The steward of each leaf.
    Leaves,
    /// The run alone, which keeps the standing queries.
    Run,
}

impl Command {
    /// The addressee of the command.
    pub fn aim<'a>(&'a self) -> Aim<'a>
        ensures { aim_in result ≡ aim_of self.now }
    {
        match self {
            Command::Fleet { .. } => Aim::Fleet,
            Command::Add { table, .. } => Aim::Table(*table),
            Command::Expire { table, .. } => Aim::Table(*table),
            Command::Keep { table, .. } => Aim::Table(*table),
            Command::Query(query) => Aim::Named(&query.table),
            Command::Tail { table, .. } => Aim::Table(*table),
            Command::Flush { leaf, .. } => Aim::Leaf(*leaf),
            Command::Drain { leaf, .. } => Aim::Leaf(*leaf),
            Command::Kill(leaf) => Aim::Leaf(*leaf),
            Command::Start(leaf) => Aim::Leaf(*leaf),
            Command::Rollover(_) => Aim::Leaves,
            Command::Standing { .. } => Aim::Run,
            Command::Tell(_) => Aim::Run,
        }
    }
}

/// The commands of a script, in their order. Contracts see them as the list.
#[derive(Drop)]
pub struct Commands {
    inner: Vec<Command>,
}

impl Model for Commands {
    ghost use Rattle.std.specs.Prelude.{List};
    ghost use Rattle.script_text.specs.declared.command.Command.{Command};

    ghost Value = { List Command };

    ghost view = { λ list. list.inner.items };
}

impl Commands {
    pub fn of(inner: Vec<Command>) -> Commands
        ensures { result ≡ inner.items }
    {
        Commands { inner }
    }

    pub fn as_slice(&self) -> &[Command]
        ensures { result.now ≡ self.now }
    {
        self.inner.as_slice()
    }

    pub fn into_inner(self) -> Vec<Command>
        ensures { result.items ≡ self }
    {
        self.inner
    }
}
