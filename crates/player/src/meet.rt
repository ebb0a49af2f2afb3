// Meetings of a leaf's steward with its callers.
ghost use Rattle.std.specs.Prelude.{◌≡◌, ◌<◌, length};
ghost use Rattle.crash_moments.specs.Left.{NamedStates};
ghost use Rattle.leaf_table.specs.Lists.{lists_in};
ghost use Rattle.leaf_steward.specs.Seated.{AreFounded};
ghost use Rattle.leaf_moves.specs.Stage.{MeetAll, LeafStands};
ghost use Rattle.player.specs.Crew.{column};
ghost use Rattle.player.specs.Rows.{HasSeat, MayMeet, OnlyColumn};
ghost use Rattle.leaf_deeds.specs.Held.{KeepsSeats, berth_of, seats_of, leaf_state};
ghost use Rattle.player.specs.Meeting.{MeetsAt};

use berth_face::Berth;
use leaf_deeds::OneLeaf;
use leaf_table::Seat;

/// Lets the callers' seat and the steward's at each table of leaf `number` learn what the other has seen.
pub fn meet<'t, B: Berth>(rows: &mut Vec<Vec<Seat>>, number: u32, leaf: &mut OneLeaf<'t, B>)
    requires { MayMeet number (seats_of leaf.old) (lists_in rows.old.items) }
    ensures met { MeetAll (leaf_state leaf.old) (column number (lists_in rows.old.items)) (leaf_state leaf.new)
        (column number (lists_in rows.new.items)) (B.meaning (berth_of leaf.old)) }
    ensures berth { berth_of leaf.new ≡ berth_of leaf.old }
    ensures keeps { KeepsSeats (seats_of leaf.old) (seats_of leaf.new) }
    ensures may { MayMeet number (seats_of leaf.new) (lists_in rows.new.items) }
    ensures only { OnlyColumn number (lists_in rows.old.items) (lists_in rows.new.items) }
{
    for place in 0..rows.len() {
        meet_at(rows, number, leaf, place as u32);
    }
}

// Lets the seats at that table meet, if callers have one there.
fn meet_at<'t, B: Berth>(
    rows: &mut Vec<Vec<Seat>>,
    number: u32,
    leaf: &mut OneLeaf<'t, B>,
    table: u32,
)
    requires may { MayMeet number (seats_of leaf.old) (lists_in rows.old.items) }
    requires table { table < length rows.old.items }
    ensures met { MeetsAt table (leaf_state leaf.old) (column number (lists_in rows.old.items)) (leaf_state leaf.new)
        (column number (lists_in rows.new.items)) }
    ensures stands { (base : NamedStates) → AreFounded (seats_of leaf.old)
        → LeafStands base (leaf_state leaf.old) (B.meaning (berth_of leaf.old))
        → LeafStands base (leaf_state leaf.new) (B.meaning (berth_of leaf.old)) }
    ensures berth { berth_of leaf.new ≡ berth_of leaf.old }
    ensures may { MayMeet number (seats_of leaf.new) (lists_in rows.new.items) }
    ensures only { OnlyColumn number (lists_in rows.old.items) (lists_in rows.new.items) }
{
    if !rows[table as usize].is_empty() {
        meet_there(rows, number, leaf, table);
    }
}

// Lets the seats at that table meet.
fn meet_there<'t, B: Berth>(
    rows: &mut Vec<Vec<Seat>>,
    number: u32,
    leaf: &mut OneLeaf<'t, B>,
    table: u32,
)
    requires may { MayMeet number (seats_of leaf.old) (lists_in rows.old.items) }
    requires table { table < length rows.old.items }
    requires has { HasSeat number table (lists_in rows.old.items) }
    ensures met { MeetsAt table (leaf_state leaf.old) (column number (lists_in rows.old.items)) (leaf_state leaf.new)
        (column number (lists_in rows.new.items)) }
    ensures stands { (base : NamedStates) → AreFounded (seats_of leaf.old)
        → LeafStands base (leaf_state leaf.old) (B.meaning (berth_of leaf.old))
        → LeafStands base (leaf_state leaf.new) (B.meaning (berth_of leaf.old)) }
    ensures berth { berth_of leaf.new ≡ berth_of leaf.old }
    ensures may { MayMeet number (seats_of leaf.new) (lists_in rows.new.items) }
    ensures only { OnlyColumn number (lists_in rows.old.items) (lists_in rows.new.items) }
{
    let row = &mut rows[table as usize];
    let seat = &mut row[number as usize];
    leaf.meet(table, seat);
    let _number = seat.seen();
}
