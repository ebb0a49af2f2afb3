// What a standing query is fed of an entry.
ghost use Rattle.std.specs.Prelude.{◌≡◌};
ghost use Rattle.standing_query.specs.States.{is_idle};

use leaf_model::Rows;

/// What an entry tells of its table's rows. Added: the rows of an add, of which the `late` ones with the least times
/// were late. Expired: the horizon. Kept: the number of rows that a keep removed. The others: that the table was opened
/// or closed, or nothing.
#[derive(Drop)]
pub enum Fed {
    Added { rows: Rows, late: u64 },
    Expired { horizon: i64 },
    Kept { removed: u64 },
    Opened,
    Closed,
    Other,
}

impl Fed {
    /// Whether it leaves the table's rows as they are.
    pub fn is_idle(&self) -> bool
        ensures { result ≡ is_idle self.now }
    {
        match self {
            Fed::Other => true,
            Fed::Kept { removed } => *removed == 0,
            Fed::Added { .. } | Fed::Expired { .. } | Fed::Opened | Fed::Closed => false,
        }
    }
}
