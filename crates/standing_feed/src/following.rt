// How a standing query follows its leaf's table.
ghost use Rattle.std.specs.Prelude.{◌≡◌, ◌<◌, [], true, false, IfOk, OnOk};
ghost use Rattle.std.specs.Option.{option_map};
ghost use Rattle.standing_query.specs.States.{IsSpread};
ghost use Rattle.standing_feed.specs.Answering.{IsAnswerOf};
ghost use Rattle.standing_feed.specs.Hearing.{place_in};
ghost use Rattle.standing_feed.specs.Following.{Follows, Heeds, HeedsAll, calls_for, settled, table_of, table_place_of};
ghost use Rattle.standing_feed.specs.Sharing.{HeedsTable, IsLike, calls_at};

use crate::follower::Follower;
use crate::heard::Heard;
use crate::hearing::hear_table;
use crate::meaning::meant_in;
use crate::place::{QueryPlace, TableAt};
use crate::table_calls::TableCalls;
use crate::teller::Teller;
use leaf_model::{Groups, Texts};
use printed_lines::Line;
use script_text::Item;
use standing_query::Fed;
use std::alloc::{AllocError, Global};
use std::collections::VecDeque;

impl Follower {
    fn at(&self) -> TableAt
        ensures { result ≡ table_of self.now }
    {
        TableAt {
            leaf: self.leaf,
            table: self.table,
        }
    }

    fn place(&self) -> QueryPlace
        ensures { place_in result ≡ table_place_of self.now }
    {
        QueryPlace {
            at: self.at(),
            name: &self.standing.query().table,
        }
    }

    /// The calls of an item at the table, or nothing if the state is stale.
    pub fn note(&self, alloc: Global, item: &Item) -> Result<Option<TableCalls>, AllocError>
        ensures { IfOk result (λ calls. option_map calls_at calls ≡ calls_for item.now self.now) }
    {
        if self.standing.stale() {
            return Ok(None);
        }
        let calls = meant_in(alloc, &self.place(), item)?;
        Ok(Some(TableCalls {
            at: self.at(),
            calls,
        }))
    }

    /// Whether an item means the same to both.
    pub fn is_like(&self, other: &Follower) -> bool
        ensures { result ≡ true → IsLike self.now other.now }
    {
        self.leaf == other.leaf
            && self.table == other.table
            && self.standing.stale() == other.standing.stale()
            && self.standing.query().table.as_str() == other.standing.query().table.as_str()
    }

    /// Feeds the state the entries of the table that the lines of the item tell. It was stale when the item was noted,
    /// so the calls of the item are not known. After an `Err` it is still of the same table, and nothing else is
    /// claimed.
    pub fn follow_unnoted(&mut self, alloc: Global, lines: &[Line]) -> Result<(), AllocError>
        ensures place { table_place_of self.new ≡ table_place_of self.old }
        ensures follows { OnOk result (Follows [] lines.now self.old self.new) }
    {
        if self.standing.stale() {
            return Ok(());
        }
        let none = TableCalls {
            at: self.at(),
            calls: Vec::new(alloc),
        };
        let heard = hear_table(alloc, none, lines)?;
        heed_all(&mut self.standing, heard)
    }

    /// Feeds the state these entries, if it is fresh. After an `Err` it is still of the same table, and nothing else is
    /// claimed.
    pub fn heed(&mut self, heard: Vec<Heard>) -> Result<(), AllocError>
        ensures place { table_place_of self.new ≡ table_place_of self.old }
        ensures heeds { OnOk result (HeedsTable heard.items self.old self.new) }
    {
        if self.standing.stale() {
            return Ok(());
        }
        heed_all(&mut self.standing, heard)
    }

    /// Feeds the state copies of these entries, if it is fresh. After an `Err` it is still of the same table, and
    /// nothing else is claimed.
    pub fn heed_copies(&mut self, heard: &[Heard]) -> Result<(), AllocError>
        ensures place { table_place_of self.new ≡ table_place_of self.old }
        ensures heeds { OnOk result (HeedsTable heard.now self.old self.new) }
    {
        if self.standing.stale() {
            return Ok(());
        }
        heed_copies(&mut self.standing, heard)
    }

    /// Makes a stale state fresh, by the groups that the table answered in the entry of this number.
    pub fn settle(&mut self, number: u64, groups: Groups)
        requires stale { self.old.standing.stale ≡ true }
        requires number { 0 < number }
        requires spread { IsSpread self.old.standing.query groups }
        ensures { self.new ≡ settled number groups self.old }
    {
        self.standing.settle(number, groups);
    }

    /// The lines that a fresh state tells.
    pub fn tell(&mut self, alloc: Global) -> Result<Texts, AllocError>
        requires fresh { self.old.standing.stale ≡ false }
        ensures same { self.new ≡ self.old }
        ensures told { IfOk result (IsAnswerOf self.old.standing) }
    {
        self.standing.tell(alloc)
    }
}

// Entries in the order of their numbers.
fn heed_all(standing: &mut Teller, heard: Vec<Heard>) -> Result<(), AllocError>
    ensures query { standing.new.query ≡ standing.old.query }
    ensures heeds { OnOk result (HeedsAll standing.old heard.items standing.new) }
{
    let mut rest = VecDeque::from_vec(heard);
    while let Some(heard) = rest.pop_front() {
        heed(standing, heard)?;
    }
    Ok(())
}

// Copies of entries in the order of their numbers. One that the state knows already is not copied.
fn heed_copies(standing: &mut Teller, heard: &[Heard]) -> Result<(), AllocError>
    ensures query { standing.new.query ≡ standing.old.query }
    ensures heeds { OnOk result (HeedsAll standing.old heard.now standing.new) }
{
    for entry in heard {
        heed_copy(standing, entry)?;
    }
    Ok(())
}

fn heed_copy(standing: &mut Teller, heard: &Heard) -> Result<(), AllocError>
    ensures query { standing.new.query ≡ standing.old.query }
    ensures heeds { OnOk result (Heeds standing.old heard.now standing.new) }
{
    if heard.number <= standing.upto() {
        return Ok(());
    }
    heed_later(standing, heard.copy()?)
}

// An entry that the state knows already changes nothing.
fn heed(standing: &mut Teller, heard: Heard) -> Result<(), AllocError>
    ensures query { standing.new.query ≡ standing.old.query }
    ensures heeds { OnOk result (Heeds standing.old heard standing.new) }
{
    if heard.number <= standing.upto() {
        return Ok(());
    }
    heed_later(standing, heard)
}

// A state that missed an entry is stale.
fn heed_later(standing: &mut Teller, heard: Heard) -> Result<(), AllocError>
    requires { standing.old.upto < heard.number }
    ensures query { standing.new.query ≡ standing.old.query }
    ensures heeds { OnOk result (Heeds standing.old heard standing.new) }
{
    let next = standing.upto() + 1;
    if heard.number == next {
        return standing.feed(next, heard.fed);
    }
    standing.feed(next, Fed::Opened)
}
