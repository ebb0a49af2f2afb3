// The standing queries of a run.
ghost use Rattle.std.specs.Prelude.{◌≡◌, ◌<◌, ◌^◌, ◌++◌, ◌∷◌, [], map, length, IfOk, IfSome, OnErr, OnOk, slice_index_or};
ghost use Rattle.standing_feed.specs.Following.{AreFor, FollowAll, calls_for, calls_in, meant_for, new_follower, table_place_of};
ghost use Rattle.standing_feed.specs.Sharing.{IsLike};

use crate::followed_calls::FollowedCalls;
use crate::follower::Follower;
use crate::teller::Teller;
use leaf_model::Query;
use printed_lines::Line;
use script_text::Item;
use std::alloc::{AllocError, Global};

/// The standing queries that were declared, in the order of their declarations.
#[derive(Drop)]
pub struct Followers {
    pub list: Vec<Follower>,
}

impl Followers {
    /// No standing query.
    pub fn new(alloc: Global) -> Followers
        ensures { result.list.items ≡ [] }
    {
        Followers {
            list: Vec::new(alloc),
        }
    }

    /// Their number.
    pub fn count(&self) -> u32
        requires { length self.now.list.items < 2 ^ 32 }
        ensures { result ≡ length self.now.list.items }
    {
        self.list.len() as u32
    }

    /// Declares another, of the table in this place of this leaf.
    pub fn declare(
        &mut self,
        alloc: Global,
        leaf: u32,
        table: u32,
        query: Query,
    ) -> Result<(), AllocError>
        ensures declared { OnOk result (self.new.list.items ≡ self.old.list.items ++ new_follower leaf table query
            ∷ []) }
        ensures refused { OnErr result (self.new.list.items ≡ self.old.list.items) }
    {
        let standing = Teller::new(alloc, query)?;
        self.list.push(Follower {
            leaf,
            table,
            standing,
        })?;
        Ok(())
    }

    /// For each standing query the calls of an item at its table.
    pub fn note(&self, alloc: Global, item: &Item) -> Result<FollowedCalls, AllocError>
        ensures calls { IfOk result (λ noted. map calls_in noted ≡ map (meant_for item.now) self.now.list.items) }
        ensures places { IfOk result (λ noted. AreFor noted self.now.list.items) }
    {
        let mut noted = FollowedCalls::new(alloc);
        let list = self.list.as_slice();
        let mut place: usize = 0;
        while place < list.len() {
            note_next(alloc, &list[..place], &list[place], item, &mut noted)?;
            place += 1;
        }
        Ok(noted)
    }

    /// Feeds each what the lines of the item tell of its table. Those that were declared after the notes were taken
    /// stay. After an `Err` they are still of the same tables, and nothing else is claimed.
    pub fn follow(
        &mut self,
        alloc: Global,
        noted: FollowedCalls,
        lines: &[Line],
    ) -> Result<(), AllocError>
        requires places { AreFor noted self.old.list.items }
        ensures places { map table_place_of self.new.list.items ≡ map table_place_of self.old.list.items }
        ensures follow { OnOk result (FollowAll (map calls_in noted) lines.now self.old.list.items
            self.new.list.items) }
    {
        let mut entries = noted.hear(alloc, lines)?;
        let mut place: usize = 0;
        while place < self.list.len() {
            entries.feed_next(alloc, lines, &mut self.list[place])?;
            place += 1;
        }
        Ok(())
    }
}

// Notes one more, after those before it.
fn note_next(
    alloc: Global,
    before: &[Follower],
    follower: &Follower,
    item: &Item,
    noted: &mut FollowedCalls,
) -> Result<(), AllocError>
    requires { noted.old ≡ map (calls_for item.now) before.now }
    ensures { OnOk result (noted.new ≡ noted.old ++ calls_for item.now follower.now ∷ []) }
{
    match first_like(before, follower) {
        Some(place) => noted.share(place),
        None => noted.keep(follower.note(alloc, item)?),
    }
}

fn first_like(before: &[Follower], follower: &Follower) -> Option<usize>
    ensures { IfSome result (λ place. (place < length before.now)
        × IsLike (slice_index_or before.now place follower.now) follower.now) }
{
    let mut place: usize = 0;
    for other in before {
        if other.is_like(follower) {
            return Some(place);
        }
        place += 1;
    }
    None
}
