// Laws of the groups of rows that are taken apart.
ghost use Rattle.std.specs.Prelude.{◌≡◌, ℕ, List, Bool, not, filter};
ghost use Rattle.std.specs.List.{AllByRecursion};
ghost use Rattle.row_model.specs.declared.rows.Row.{Row};
ghost use Rattle.leaf_model.specs.declared.queries.Query.{Query};
ghost use Rattle.leaf_model.specs.declared.groups.Key.{Key};
ghost use Rattle.leaf_model.specs.Groups.{groups, keys_of, passes};
ghost use Rattle.group_table.specs.Joined.{joined};
ghost use Rattle.slot_groups.specs.Slots.{below, class_group, classes};

/// No-op; states three laws of groups. The groups of rows are those of the rows in each slot, joined, whatever slot
/// each row is in. They are those of the rows that pass a test and of the rows that fail it, joined. Rows with the same
/// keys have at most one group.
pub fn slots()
    ensures sorted { (q : Query) (test : Row → Bool) (rows : List Row)
        → groups q rows ≡ joined (groups q (filter test rows)) (groups q (filter (λ row. not (test row)) rows)) }
    ensures slots { (q : Query) (slot : Row → ℕ) (rows : List Row) (n : ℕ)
        → groups q (below slot n rows) ≡ classes q slot rows n }
    ensures class { (q : Query) (keys : List Key) (rows : List Row) → AllByRecursion (λ row. keys_of q row ≡ keys) rows
        → groups q rows ≡ class_group q keys (filter (passes q) rows) }
{}
