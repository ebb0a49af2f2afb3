// A part of the groups of a spread.
ghost use Rattle.std.specs.Prelude.{◌≡◌, ◌<◌, ◌==◌, ◌++◌, false, length};
ghost use Rattle.std.specs.VecDeque.{deque_len};
ghost use Rattle.standing_query.specs.Parts.{NeverFall, begins_from, groups_from};

use crate::shown::time_in;
use leaf_model::{Group, Groups};
use std::collections::VecDeque;
use std::marker::Model;

/// Groups in the order of their keys, and so of their times. Those below a horizon are removed from the start, one by
/// one, without a move of the others. Contracts see the list.
#[derive(Drop)]
pub struct Part {
    groups: VecDeque<Group>,
}

impl Model for Part {
    ghost use Rattle.std.specs.Prelude.{List};
    ghost use Rattle.leaf_model.specs.declared.groups.Group.{Group};

    ghost Value = { List Group };

    ghost view = { λ p. p.groups.items };
}

impl Part {
    pub fn of(groups: Groups) -> Part
        ensures { result ≡ groups }
    {
        Part {
            groups: VecDeque::from_vec(groups.into_inner()),
        }
    }

    pub fn into_groups(self) -> Groups
        ensures { result ≡ self }
    {
        Groups::of(self.groups.into_vec())
    }

    pub fn len(&self) -> usize
        ensures { result ≡ length self.now }
    {
        self.groups.len()
    }

    pub fn is_empty(&self) -> bool
        ensures { result ≡ (length self.now == 0) }
    {
        self.groups.is_empty()
    }

    /// The groups as they lie in memory: those of the first slice, then those of the second.
    pub fn as_slices(&self) -> (&[Group], &[Group])
        ensures { result.0.now ++ result.1.now ≡ self.now }
    {
        self.groups.as_slices()
    }

    /// Lets go of the groups below the horizon, and looks at no other but one.
    pub fn forget(&mut self, horizon: &i64)
        requires { NeverFall self.old }
        ensures { self.new ≡ groups_from horizon.now self.old }
    {
        pop_below(&mut self.groups, horizon);
    }
}

/// Whether the first of the groups is not below the horizon, or there is none.
fn begins_from(groups: &VecDeque<Group>, horizon: &i64) -> bool
    ensures value { result ≡ begins_from horizon.now groups.now.items }
    ensures some { result ≡ false → 0 < deque_len groups.now }
{
    match groups.front() {
        None => true,
        Some(group) => time_in(group.keys.as_slice()) >= *horizon,
    }
}

fn pop_below(groups: &mut VecDeque<Group>, horizon: &i64)
    requires { NeverFall groups.old.items }
    ensures { groups.new.items ≡ groups_from horizon.now groups.old.items }
{
    while !begins_from(groups, horizon) {
        let _ = groups.pop_front();
    }
}
