// The table of a standing query.
ghost use Rattle.std.specs.Prelude.{◌≡◌, ◌==◌, ◌&&◌};

use leaf_model::Text;

/// The table in this place of this leaf.
#[derive(Clone, Copy)]
pub struct TableAt {
    pub leaf: u32,
    pub table: u32,
}

impl TableAt {
    /// Whether it is this leaf's table in this place.
    pub fn is_at(self, leaf: u32, table: u32) -> bool
        ensures { result ≡ ((leaf == self.leaf) && (table == self.table)) }
    {
        leaf == self.leaf && table == self.table
    }
}

/// The table, by its name too.
#[derive(Clone, Copy)]
pub struct QueryPlace<'a> {
    pub at: TableAt,
    pub name: &'a Text,
}
