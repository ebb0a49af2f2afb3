// The calls of an item, while their lines are heard one after another.
ghost use Rattle.std.specs.Prelude.{◌≡◌};
ghost use Rattle.standing_feed.specs.Hearing.{fed_by, fed_by_call, fed_by_tail, fed_called, left_by, left_by_tail, left_called, no_call_yet, rows_left};
ghost use Rattle.standing_feed.specs.declared.meant.Now.TheVariants.{Tail};

use crate::meant::{Meant, Now};
use leaf_model::Rows;
use printed_lines::Said;
use standing_query::Fed;
use std::collections::VecDeque;
use std::marker::Model;
use std::mem::replace;

/// The calls whose lines are still to come: the one that prints its lines now, if it is a tail, and those after it.
#[derive(Drop)]
pub struct Calls {
    current: Now,
    rest: VecDeque<Meant>,
}

impl Model for Calls {
    ghost use Rattle.standing_feed.specs.Hearing.{CallsLeft};

    ghost Value = { CallsLeft };

    ghost view = { λ calls. record { current = calls.current; rest = calls.rest.items } };
}

impl Calls {
    pub fn new(calls: Vec<Meant>) -> Calls
        ensures { result ≡ no_call_yet calls.items }
    {
        Calls {
            current: Now::Between,
            rest: VecDeque::from_vec(calls),
        }
    }

    /// Hears the line of an entry, and returns what it tells of the table's rows.
    pub fn hear(&mut self, said: Said) -> Fed
        ensures fed { result ≡ fed_by self.old said }
        ensures left { self.new ≡ left_by self.old said }
    {
        match said {
            Said::Opened(_) => Fed::Opened,
            Said::Closed(_) => Fed::Closed,
            Said::Took(_) | Said::Flushed(_) | Said::Handed => Fed::Other,
            Said::Added { .. }
            | Said::Removed(_)
            | Said::Asked
            | Said::RefusedShut
            | Said::RefusedFull
            | Said::RefusedMemory => self.hear_call(said),
        }
    }

    /// Hears the line of a call, and returns what it tells of the table's rows.
    pub fn hear_call(&mut self, said: Said) -> Fed
        ensures fed { result ≡ fed_called self.old said }
        ensures left { self.new ≡ left_called self.old said }
    {
        match replace(&mut self.current, Now::Between) {
            Now::Tail(rows) => self.hear_tail(rows, said),
            Now::Between => match self.rest.pop_front() {
                Some(Meant::Tail(rows)) => self.hear_tail(rows, said),
                Some(call) => fed_by_call(call, said),
                None => Fed::Other,
            },
        }
    }

    // Hears the line of a tail's call.
    fn hear_tail(&mut self, rows: Option<Rows>, said: Said) -> Fed
        ensures fed { result ≡ fed_by_tail rows said }
        ensures left { self.new ≡ record self.old { current = Tail (rows_left rows said) } }
    {
        let (fed, rows) = fed_by_tail(rows, said);
        self.current = Now::Tail(rows);
        fed
    }

    /// Hears the line that ends a tail.
    pub fn end_tail(&mut self)
        ensures { self.new ≡ left_by_tail self.old }
    {
        match replace(&mut self.current, Now::Between) {
            Now::Tail(_) => {}
            Now::Between => {
                let _ = self.rest.pop_front();
            }
        }
    }
}

// What an entry tells of a call other than a tail.
fn fed_by_call(call: Meant, said: Said) -> Fed
    ensures { result ≡ fed_by_call call said }
{
    match (call, said) {
        (Meant::Add(rows), Said::Added { late, .. }) => Fed::Added { rows, late },
        (Meant::Expire(horizon), Said::Removed(_)) => Fed::Expired { horizon },
        (Meant::Keep, Said::Removed(removed)) => Fed::Kept { removed },
        _ => Fed::Other,
    }
}

// What an entry tells of a tail with these rows, and the rows that may still be added.
fn fed_by_tail(rows: Option<Rows>, said: Said) -> (Fed, Option<Rows>)
    ensures fed { result.0 ≡ fed_by_tail rows said }
    ensures left { result.1 ≡ rows_left rows said }
{
    match (rows, said) {
        (Some(rows), Said::Added { late, .. }) => (Fed::Added { rows, late }, None),
        (rows, _) => (Fed::Other, rows),
    }
}
