// Looks values up in rows by name. Each row is walked once, from its start to its end.
ghost use Rattle.std.specs.Prelude.{◌≡◌, ◌≤◌, ◌<◌, ◌∷◌, ℕ, List, Option, length, map, option_map, slice_index_or, true, IsSome, IfSome, Some};
ghost use Rattle.std.specs.Str.{bytes_eq};
ghost use Rattle.std.specs.Vec.{vec_len};
ghost use Rattle.row_model.specs.declared.rows.Cell.{Cell};
ghost use Rattle.row_model.specs.declared.rows.Row.{Row};
ghost use Rattle.row_model.specs.declared.rows.Value.{Value};
ghost use Rattle.leaf_model.specs.declared.lent_cells.LentValue.{LentValue};
ghost use Rattle.leaf_model.specs.declared.looks.Sought.{Sought};
ghost use Rattle.leaf_model.specs.Fronts.{any_cell_at, any_cells_at, front_of};
ghost use Rattle.leaf_model.specs.Groups.{value_of};
ghost use Rattle.leaf_model.specs.Lent.{each_value, lent_cell, lent_cells, lent_row, lent_rows, lent_value, lent_rows_before, rows_parted, spelled_rows};
ghost use Rattle.leaf_model.specs.Looks.{looks_begun, begun_one, filled, filled_from, filled_one, is_sought, sought_in};
ghost use Rattle.leaf_model.specs.Reading.{row_at, value_at};

use crate::fronts::{SpelledCells, SpelledRows};
use crate::lent_cells::{LentCell, LentCells, LentValue, set_in, value_in};
use crate::lent_rows::{LentRow, LentRows};
use crate::spelled::{long_text_in, name_in, time_in, u16_in, u64_in};
use row_model::Text;

/// What is looked for in a row: its time, or the value of a name.
#[derive(Clone, Copy)]
pub enum Sought<'a> {
    Time,
    Cell(&'a str),
}

impl<'a> Sought<'a> {
    /// What a query means by a name: `time` is the row's time, any other name is a cell.
    pub fn of(name: &'a Text) -> Sought<'a>
        ensures { (row : Row) → sought_in row result ≡ value_of name.now row }
    {
        if name.as_str() == "time" {
            Sought::Time
        } else {
            Sought::Cell(name.as_str())
        }
    }

    /// Whether this is the cell of that name.
    #[inline(always)]
    fn is(self, name: &str) -> bool
        ensures { result ≡ is_sought self.entry name.now }
    {
        match self {
            Sought::Time => false,
            Sought::Cell(other) => is_same(other.as_bytes(), name.as_bytes()),
        }
    }
}

/// Whether two names are equal. It compares lengths and first bytes first: most unequal names differ there.
#[inline(always)]
fn is_same(a: &[u8], b: &[u8]) -> bool
    ensures { result ≡ bytes_eq a.now b.now }
{
    if a.len() != b.len() {
        return false;
    }
    let mut i: usize = 0;
    while i < a.len() {
        if a[i] != b[i] {
            return false;
        }
        i += 1;
    }
    true
}

/// The first place at or after `from` where `name` is looked for. If there is none, the number of places.
#[inline(always)]
fn place_from(sought: &[Sought], from: usize, name: &str) -> usize
    requires { from ≤ length sought.now }
    ensures bound { result ≤ length sought.now }
    ensures onward { from ≤ result }
    ensures hit { result < length sought.now
        → (s : Sought) → is_sought (slice_index_or sought.now result s) name.now ≡ true }
    ensures passed { (items : List (Option LentValue)) (value : Value) (others : List Cell)
        → length items ≡ length sought.now
        → filled_from sought.now items result (record { name = name.now; value = value }) others
        ≡ filled_from sought.now items from (record { name = name.now; value = value }) others }
{
    let mut i = from;
    while i < sought.len() {
        if sought[i].is(name) {
            return i;
        }
        i += 1;
    }
    i
}

/// Sets `seen` to the value, if it is None.
#[inline(always)]
fn note_one<'b>(value: LentValue<'b>, seen: &mut Option<LentValue<'b>>)
    ensures { (s : Sought) (name : List ℕ) (others : List Cell)
        → is_sought s name ≡ true → filled_one s (option_map lent_value seen.new) others ≡ filled_one s
        (option_map lent_value seen.old) (record { name = name; value = lent_value value.entry } ∷ others) }
{
    if seen.is_none() {
        *seen = Some(value);
    }
}

/// Notes a cell at each place that looks for its name. The first such place is `from`.
#[inline(always)]
fn note_from<'b>(
    sought: &[Sought],
    from: usize,
    name: &str,
    value: LentValue<'b>,
    seen: &mut Vec<Option<LentValue<'b>>>,
)
    requires same { vec_len seen.old ≡ length sought.now }
    requires bound { from ≤ length sought.now }
    requires hit { from < length sought.now → (s : Sought)
        → is_sought (slice_index_or sought.now from s) name.now ≡ true }
    ensures same { vec_len seen.new ≡ length sought.now }
    ensures filled { (others : List Cell) → filled sought.now (each_value seen.new.items) others ≡ filled_from
        sought.now seen.old.items from (record { name = name.now; value = lent_value value.entry }) others }
{
    let mut i = from;
    while i < sought.len() {
        note_one(value, &mut seen[i]);
        i = place_from(sought, i + 1, name);
    }
}

/// Notes one more cell.
fn note<'b>(sought: &[Sought], cell: &LentCell<'b>, seen: &mut Vec<Option<LentValue<'b>>>)
    requires { vec_len seen.old ≡ length sought.now }
    ensures same { vec_len seen.new ≡ length sought.now }
    ensures filled { (others : List Cell) → filled sought.now (each_value seen.new.items) others ≡ filled sought.now
        (each_value seen.old.items) (lent_cell cell.now ∷ others) }
{
    let place = place_from(sought, 0, cell.name);
    note_from(sought, place, cell.name, cell.value, seen);
}

/// Notes a value at each place that looks for its name, of which `place` is the first, and gives the bytes that follow
/// it. Each kind of value is noted by its own code: to copy a value through memory costs more than to read it.
#[inline(always)]
#[tactic(auto, unfolding(crate::specs::Reading::value_at))]
fn look_value<'b>(
    bytes: &'b [u8],
    sought: &[Sought],
    place: usize,
    name: &str,
    seen: &mut Vec<Option<LentValue<'b>>>,
) -> &'b [u8]
    requires value { IsSome (value_at bytes.now) }
    requires same { vec_len seen.old ≡ length sought.now }
    requires bound { place ≤ length sought.now }
    requires hit { place < length sought.now
        → (s : Sought) → is_sought (slice_index_or sought.now place s) name.now ≡ true }
    ensures same { vec_len seen.new ≡ length sought.now }
    ensures looked { (x : Value × List ℕ) → value_at bytes.now ≡ Some x
        → (result.now ≡ x.1) × ((others : List Cell) → filled sought.now (each_value seen.new.items) others
        ≡ filled_from sought.now seen.old.items place (record { name = name.now; value = x.0 }) others) }
{
    match bytes {
        [1, rest @ ..] => {
            let (number, after) = u64_in(rest);
            note_from(
                sought,
                place,
                name,
                LentValue::Int(number.cast_signed()),
                seen,
            );
            after
        }
        [2, rest @ ..] => {
            let (text, after) = long_text_in(rest);
            note_from(sought, place, name, LentValue::Text(text), seen);
            after
        }
        [3, rest @ ..] => {
            let (members, after) = set_in(rest);
            note_from(sought, place, name, LentValue::Set(members), seen);
            after
        }
        _ => unreachable!(),
    }
}

/// Looks at the cell at the start of the bytes, and gives the bytes that follow it. It skips the value if nobody looks
/// for its name.
#[inline(always)]
#[tactic(auto, unfolding(crate::specs::Fronts::any_cell_at))]
fn look_cell<'b>(
    bytes: &'b [u8],
    sought: &[Sought],
    seen: &mut Vec<Option<LentValue<'b>>>,
) -> &'b [u8]
    requires cell { IsSome (any_cell_at bytes.now) }
    requires same { vec_len seen.old ≡ length sought.now }
    ensures same { vec_len seen.new ≡ length sought.now }
    ensures looked { (x : Cell × List ℕ) → any_cell_at bytes.now ≡ Some x
        → (result.now ≡ x.1) × ((others : List Cell) → filled sought.now
        (each_value seen.new.items) others ≡ filled sought.now (each_value seen.old.items) (x.0 ∷ others)) }
{
    let (name, after) = name_in(bytes);
    let place = place_from(sought, 0, name);
    if place < sought.len() {
        return look_value(after, sought, place, name, seen);
    }
    let (_value, rest) = value_in(after);
    rest
}

/// The value of one place before any cell is looked at: the row's time, or None.
#[inline(always)]
fn begin_one(sought: Sought, time: i64, seen: &mut Option<LentValue>)
    ensures { option_map lent_value seen.new ≡ begun_one time sought.entry }
{
    match sought {
        Sought::Time => *seen = Some(LentValue::Int(time)),
        Sought::Cell(_name) => *seen = None,
    }
}

/// Sets `seen` to the values before any cell is looked at.
fn begin(sought: &[Sought], time: i64, seen: &mut Vec<Option<LentValue>>)
    requires { vec_len seen.old ≡ length sought.now }
    ensures same { vec_len seen.new ≡ length sought.now }
    ensures begun { each_value seen.new.items ≡ looks_begun time sought.now }
{
    let mut i: usize = 0;
    while i < sought.len() {
        begin_one(sought[i], time, &mut seen[i]);
        i += 1;
    }
}

/// Looks at the first `count` cells, and gives the bytes that follow them.
#[inline(always)]
fn look_behind<'b>(
    count: u16,
    bytes: &'b [u8],
    sought: &[Sought],
    seen: &mut Vec<Option<LentValue<'b>>>,
) -> &'b [u8]
    requires cells { IsSome (any_cells_at count bytes.now) }
    requires same { vec_len seen.old ≡ length sought.now }
    ensures rest { any_cells_at count bytes.now ≡ Some (front_of (any_cells_at count bytes.now), result.now) }
    ensures same { vec_len seen.new ≡ length sought.now }
    ensures filled { each_value seen.new.items
        ≡ filled sought.now (each_value seen.old.items) (front_of (any_cells_at count bytes.now)) }
{
    let mut rest = bytes;
    for _ in 0..count {
        rest = look_cell(rest, sought, seen);
    }
    rest
}

/// Looks at the row at the start of the bytes. Gives it and the bytes that follow.
#[inline(always)]
#[tactic(auto, unfolding(crate::specs::Reading::row_at))]
fn look_in<'b>(
    bytes: &'b [u8],
    sought: &[Sought],
    seen: &mut Vec<Option<LentValue<'b>>>,
) -> (LentRow<'b>, &'b [u8])
    requires row { IsSome (row_at bytes.now) }
    requires same { vec_len seen.old ≡ length sought.now }
    ensures row { row_at bytes.now ≡ Some (lent_row result.0, result.1.now) }
    ensures same { vec_len seen.new ≡ length sought.now }
    ensures seen { each_value seen.new.items ≡ map (sought_in (lent_row result.0)) sought.now }
{
    let (time, rest) = time_in(bytes);
    let (count, rest) = u16_in(rest);
    let cells = LentCells::Spelled(SpelledCells::of(rest, count));
    begin(sought, time, seen);
    let after = look_behind(count, rest, sought, seen);
    (LentRow { time, cells }, after)
}

/// Looks at a row that stands alone.
fn look_at<'b>(row: &LentRow<'b>, sought: &[Sought], seen: &mut Vec<Option<LentValue<'b>>>)
    requires { vec_len seen.old ≡ length sought.now }
    ensures same { vec_len seen.new ≡ length sought.now }
    ensures seen { each_value seen.new.items ≡ map (sought_in (lent_row row.now)) sought.now }
{
    begin(sought, row.time, seen);
    let mut left = row.cells;
    while let Some((cell, others)) = left.split_first() {
        note(sought, &cell, seen);
        left = others;
    }
}

impl<'a> SpelledRows<'a> {
    #[inline(always)]
    fn split_seen(
        &self,
        sought: &[Sought],
        seen: &mut Vec<Option<LentValue<'a>>>,
    ) -> Option<(LentRow<'a>, SpelledRows<'a>)>
        requires { vec_len seen.old ≡ length sought.now }
        ensures parted { lent_rows_before result ≡ spelled_rows self.now }
        ensures same { vec_len seen.new ≡ length sought.now }
        ensures seen { IfSome result (λ parts.
            each_value seen.new.items ≡ map (sought_in (lent_row parts.0)) sought.now) }
    {
        if self.count == 0 {
            return None;
        }
        let (first, bytes) = look_in(self.bytes, sought, seen);
        let count = self.count - 1;
        Some((first, SpelledRows { bytes, count }))
    }
}

impl<'a> LentRows<'a> {
    /// Like `split_first`. It also writes to `seen` what the first row has under each name that is looked for.
    #[inline(always)]
    pub fn split_seen(
        &self,
        sought: &[Sought],
        seen: &mut Vec<Option<LentValue<'a>>>,
    ) -> Option<(LentRow<'a>, LentRows<'a>)>
        requires { vec_len seen.old ≡ length sought.now }
        ensures parted { rows_parted result ≡ lent_rows self.now }
        ensures same { vec_len seen.new ≡ length sought.now }
        ensures seen { IfSome result (λ parts.
            each_value seen.new.items ≡ map (sought_in (lent_row parts.0)) sought.now) }
    {
        match self {
            LentRows::Owned([]) => None,
            LentRows::Owned([first, others @ ..]) => {
                let row = LentRow::of(first);
                look_at(&row, sought, seen);
                Some((row, LentRows::Owned(others)))
            }
            LentRows::Spelled(rows) => {
                let (first, others) = rows.split_seen(sought, seen)?;
                Some((first, LentRows::Spelled(others)))
            }
        }
    }
}
