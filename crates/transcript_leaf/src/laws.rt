// Laws of the life of a leaf.
ghost use Rattle.transcript_leaf.specs.Bounds.{RoomlessHaveMuch, StopsAreFew};

/// No-op; states what no drain of a leaf with a known base prints. It prints no `fault room` if its tables have fewer
/// than 2^25 rows, cells and writes. It prints no `stopped` after more steps than three, and one for each table, and
/// one for each row and each cell that their writes add.
pub fn drains_have_bounds()
    ensures room { RoomlessHaveMuch }
    ensures stop { StopsAreFew }
{}
