// The replies of all leaves, together.
use crate::lists::{Leaves, NamedList};
use leaf_model::Groups;

/// The replies of a fleet to a query. Each leaf is in the list of its reply. Each list ascends.
#[derive(Drop)]
pub struct Fanned {
    /// The groups of the rows of exactly the named leaves.
    pub groups: Groups,
    /// The leaves that answered with groups.
    pub named: NamedList,
    /// The leaves whose table was shut.
    pub shut: NamedList,
    /// The leaves that ran out of memory.
    pub starved: NamedList,
    /// The leaves whose seat is worn, so that no entry was made.
    pub worn: Leaves,
}
