// Whose a command is, and what it tells them.
ghost use Rattle.std.specs.Prelude.{◌≡◌};
ghost use Rattle.script_text.specs.declared.order.Part.TheVariants.{Leaves};
ghost use Rattle.script_text.specs.Orders.{IsOfLeaves, called, done, part_of};

use crate::command::Command;
use leaf_model::{Query, Rows};
use printed_lines::Deed;

/// What a caller asks of one table of one leaf.
#[derive(Drop)]
pub enum TableRequest {
    Add(Rows),
    /// Removes the rows whose time is below the horizon.
    Expire(i64),
    /// Keeps the last n rows.
    Keep(u64),
    Ask(Query),
}

/// What the leaves of a fleet are told, or one of them.
#[derive(Drop)]
pub enum Order {
    /// Each leaf is started.
    Start,
    /// A call of callers at one table of one leaf.
    Call {
        leaf: u32,
        table: u32,
        request: TableRequest,
    },
    /// A deed of one leaf's steward.
    Deed {
        leaf: u32,
        deed: Deed,
    },
    /// A query of all leaves.
    Query(Query),
    /// Rows for one of the leaves.
    Tail {
        key: u64,
        table: u32,
        rows: Rows,
    },
    /// A restart of each leaf.
    Rollover(u32),
}

/// What the run itself does, which keeps the standing queries.
#[derive(Drop)]
pub enum RunOrder {
    Declare { leaf: u32, query: Query },
    Tell(u32),
}

/// What a command tells, by whose it is.
#[derive(Drop)]
pub enum Part {
    Leaves(Order),
    Run(RunOrder),
}

impl Command {
    /// What the command tells the leaves, or the run itself.
    pub fn split(self) -> Part
        ensures { result ≡ part_of self }
    {
        match self {
            Command::Fleet { .. } => Part::Leaves(Order::Start),
            Command::Add { leaf, table, rows } => call(leaf, table, TableRequest::Add(rows)),
            Command::Expire {
                leaf,
                table,
                horizon,
            } => call(leaf, table, TableRequest::Expire(horizon)),
            Command::Keep { leaf, table, n } => call(leaf, table, TableRequest::Keep(n)),
            Command::Query(query) => Part::Leaves(Order::Query(query)),
            Command::Tail { key, table, rows } => Part::Leaves(Order::Tail { key, table, rows }),
            Command::Flush { leaf, table } => deed(leaf, Deed::Flush(table)),
            Command::Drain { leaf, stop } => deed(leaf, Deed::Drain(stop)),
            Command::Kill(leaf) => deed(leaf, Deed::Kill),
            Command::Start(leaf) => deed(leaf, Deed::Start),
            Command::Rollover(percent) => Part::Leaves(Order::Rollover(percent)),
            Command::Standing { leaf, query } => Part::Run(RunOrder::Declare { leaf, query }),
            Command::Tell(number) => Part::Run(RunOrder::Tell(number)),
        }
    }

    /// What a command of a lane tells the leaves.
    pub fn order(self) -> Order
        requires { IsOfLeaves (part_of self) }
        ensures { part_of self ≡ Leaves result }
    {
        match self.split() {
            Part::Leaves(order) => order,
            Part::Run(_order) => unreachable!(),
        }
    }
}

fn call(leaf: u32, table: u32, request: TableRequest) -> Part
    ensures { result ≡ called leaf table request }
{
    Part::Leaves(Order::Call {
        leaf,
        table,
        request,
    })
}

fn deed(leaf: u32, deed: Deed) -> Part
    ensures { result ≡ done leaf deed }
{
    Part::Leaves(Order::Deed { leaf, deed })
}
