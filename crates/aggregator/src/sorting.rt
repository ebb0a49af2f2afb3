// Sorts the leaves by their replies, in the order of the leaves, and merges the groups.
ghost use Rattle.std.specs.Prelude.{◌≡◌, ◌+◌, ◌*◌, ◌^◌, ◌<◌, ◌≤◌, ◌++◌, ◌∷◌, [], ℕ, List, length, IfOk, OnOk};
ghost use Rattle.std.specs.List.{AllByRecursion};
ghost use Rattle.row_model.specs.declared.rows.Row.{Row};
ghost use Rattle.leaf_model.specs.declared.queries.Query.{Query};
ghost use Rattle.leaf_model.specs.Groups.{groups};
ghost use Rattle.group_table.specs.Joined.{IsWithin};
ghost use Rattle.aggregator.specs.Sorts.{Sorts, Divides, PutsOne};
ghost use Rattle.aggregator.specs.Partial.{rows_of_all};
ghost use Rattle.aggregator.specs.Merges.{no_leaf, IsAnswer, IsOver, AreOver, SameRefusals};

use crate::fanned::Fanned;
use crate::lists::{Leaves, Named, NamedList};
use group_table::merge;
use leaf_model::Groups;
use leaf_table::Reply;
use std::alloc::{AllocError, Global};
use std::collections::VecDeque;
use std::mem::replace;

impl Fanned {
    // No leaf has replied yet.
    fn new(alloc: Global) -> Fanned
        ensures { result ≡ no_leaf }
    {
        Fanned {
            groups: Groups::of(Vec::new(alloc)),
            named: NamedList::of(Vec::new(alloc)),
            shut: NamedList::of(Vec::new(alloc)),
            starved: NamedList::of(Vec::new(alloc)),
            worn: Leaves::of(Vec::new(alloc)),
        }
    }

    // Appends the leaf to the list of its reply, and merges its groups with those of the leaves before.
    #[tactic(auto, using(crate::proofs::Sorted::still_within))]
    fn put(&mut self, alloc: Global, leaf: u32, reply: Reply) -> Result<(), AllocError>
        requires few { leaf < 256 }
        requires answer { IsAnswer reply }
        requires within { AllByRecursion (IsWithin (leaf * 2 ^ 40)) self.old.groups }
        ensures puts { OnOk result (PutsOne leaf reply self.old self.new) }
        ensures within { OnOk result (AllByRecursion (IsWithin (leaf * 2 ^ 40 + 2 ^ 40)) self.new.groups) }
        ensures over { (q : Query) (xs ys : List Row) → self.old.groups ≡ groups q xs → IsOver q ys reply
            → OnOk result (self.new.groups ≡ groups q (xs ++ ys)) }
    {
        match reply {
            Reply::Groups { number, groups } => self.put_named(
                alloc,
                Named { leaf, number },
                groups,
            ),
            Reply::Shut { number } => self.shut.push(Named { leaf, number }),
            Reply::NoMemory { number } => self.starved.push(Named { leaf, number }),
            Reply::Worn => self.worn.push(leaf),
            Reply::Added { .. } | Reply::Removed { .. } | Reply::Full { .. } => unreachable!(),
        }
    }

    // Names a leaf, and merges its groups with those of the leaves before.
    fn put_named(&mut self, alloc: Global, named: Named, theirs: Groups) -> Result<(), AllocError>
        requires few { named.leaf < 256 }
        requires mine { AllByRecursion (IsWithin (named.leaf * 2 ^ 40)) self.old.groups }
        requires theirs { AllByRecursion (IsWithin (2 ^ 40)) theirs }
        ensures named { OnOk result (self.new.named ≡ self.old.named ++ named ∷ []) }
        ensures others { OnOk result (SameRefusals self.old self.new) }
        ensures within { OnOk result (AllByRecursion (IsWithin (named.leaf * 2 ^ 40 + 2 ^ 40)) self.new.groups) }
        ensures over { (q : Query) (xs ys : List Row) → self.old.groups ≡ groups q xs → theirs ≡ groups q ys
            → OnOk result (self.new.groups ≡ groups q (xs ++ ys)) }
    {
        let mine = replace(&mut self.groups, Groups::of(Vec::new(alloc)));
        self.groups = merge_few(alloc, named.leaf, mine, theirs)?;
        self.named.push(named)
    }
}

// Merges the groups of `leaves` leaves with those of one more.
fn merge_few(alloc: Global, leaves: u32, mine: Groups, theirs: Groups) -> Result<Groups, AllocError>
    requires few { leaves < 256 }
    requires mine { AllByRecursion (IsWithin (leaves * 2 ^ 40)) mine }
    requires theirs { AllByRecursion (IsWithin (2 ^ 40)) theirs }
    ensures within { IfOk result (λ gs. AllByRecursion (IsWithin (leaves * 2 ^ 40 + 2 ^ 40)) gs) }
    ensures both { (q : Query) (xs ys : List Row) → mine ≡ groups q xs → theirs ≡ groups q ys
        → IfOk result (λ gs. gs ≡ groups q (xs ++ ys)) }
{
    merge(alloc, mine, theirs)
}

/// Sorts all leaves by their replies, and merges the groups of those that answered. Err if memory runs out.
#[tactic(auto, using(crate::proofs::Sorted::sorting_begins, crate::proofs::Sorted::sorting_goes_on, crate::proofs::Sorted::sorting_ends))]
pub fn sort_all(alloc: Global, replies: Vec<Reply>) -> Result<Fanned, AllocError>
    requires few { length replies.items ≤ 256 }
    requires answers { AllByRecursion IsAnswer replies.items }
    ensures sorts { IfOk result (Sorts replies.items) }
    ensures divides { IfOk result (Divides (length replies.items)) }
    ensures over { (q : Query) (rows : ℕ → ℕ → List Row) → AreOver q rows 0 replies.items
        → IfOk result (λ f. f.groups ≡ groups q (rows_of_all rows f.named)) }
{
    let mut fanned = Fanned::new(alloc);
    let mut leaf: u32 = 0;
    let mut rest = VecDeque::from_vec(replies);
    while let Some(reply) = rest.pop_front() {
        fanned.put(alloc, leaf, reply)?;
        leaf += 1;
    }
    Ok(fanned)
}
