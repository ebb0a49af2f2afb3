// What the replies of a try tell.
ghost use Rattle.std.specs.Prelude.{◌≡◌, ◌<◌, IfSome, option_and_then};
ghost use Rattle.tail_picks.specs.Tails.{pick_of, picked, sent_by};
ghost use Rattle.tailer.specs.Calls.{free_of, is_added, try_seen};

use crate::tries::Try;
use leaf_table::Reply;
use tail_picks::{free_rows, pick};

/// The leaf to pick by both replies. None if neither told its free rows.
pub(crate) fn pick_by(first: u32, one: &Reply, second: u32, two: &Option<Reply>) -> Option<u32>
    ensures picked { result ≡ picked first (free_of one.now) second (option_and_then free_of two.now) }
{
    let other = match two {
        Some(reply) => free_by(reply),
        None => None,
    };
    pick(first, free_by(one), second, other)
}

// The free rows of a leaf's table, if it answered the count.
fn free_by(reply: &Reply) -> Option<u64>
    ensures { result ≡ free_of reply.now }
{
    match reply {
        Reply::Groups { number: _, groups } => Some(free_rows(groups)),
        Reply::Added { .. }
        | Reply::Removed { .. }
        | Reply::Shut { .. }
        | Reply::Full { .. }
        | Reply::NoMemory { .. }
        | Reply::Worn => None,
    }
}

// Whether the add was accepted.
fn is_taken(reply: &Reply) -> bool
    ensures { result ≡ is_added reply.now }
{
    match reply {
        Reply::Added { .. } => true,
        Reply::Groups { .. }
        | Reply::Removed { .. }
        | Reply::Shut { .. }
        | Reply::Full { .. }
        | Reply::NoMemory { .. }
        | Reply::Worn => false,
    }
}

impl Try {
    /// The leaf that the rows were offered: that with more free rows, the first in a tie. None if neither told its free
    /// rows.
    pub fn picked(&self) -> Option<u32>
        ensures { result ≡ pick_of free_of is_added (try_seen self.now) }
    {
        pick_by(self.first, &self.one, self.second, &self.two)
    }
}

/// The leaf that took the rows, if this try was the last.
pub(crate) fn taker(tried: &Try) -> Option<u32>
    ensures { result ≡ sent_by free_of is_added (try_seen tried.now) }
{
    match &tried.added {
        Some(reply) if is_taken(reply) => tried.picked(),
        Some(_) | None => None,
    }
}
