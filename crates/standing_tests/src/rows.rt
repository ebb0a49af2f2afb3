// Rows with a time, a code and a host, a query over them, a state that is fed entries, and what groups have to be.
ghost use Rattle.std.specs.Prelude.{◌≡◌, ◌+◌, ◌≤◌, IfOk, IsUtf8, length};
ghost use Rattle.row_model.specs.Values.{IsRow};

use group_table::fold_rows;
use leaf_model::{
    Agg, Aggs, Cell, Cells, Cond, Conds, Group, Groups, Key, LentRow, Names, Op, PackedRows, Query,
    Row, Rows, Text, Value,
};
use standing_query::{Fed, Standing};
use std::alloc::{AllocError, Global};

/// A row: its time, its code and its host.
pub type Spelled = (i64, i64, &'static str);

/// What is told of a host: the number of its rows, and the sum, the least and the greatest of their codes.
pub type Told = (&'static str, u64, i128, i64, i64);

/// The rows of a table, in their order. That with the time 10 is after the range of the query, and one has too small a
/// code.
pub const FIRST: &[Spelled] = &[
    (1, 5, "a"),
    (3, 1, "a"),
    (7, 2, "b"),
    (9, 0, "b"),
    (10, 7, "a"),
];

pub fn first() -> &'static [Spelled] {
    FIRST
}

/// An add with two rows that are late at the horizon 3.
pub const FOUR: &[Spelled] = &[(6, 4, "b"), (2, 9, "a"), (8, 3, "a"), (1, 8, "a")];

pub fn text(alloc: Global, letters: &str) -> Result<Text, AllocError>
    ensures { IfOk result (λ text. text ≡ letters.now) }
{
    Ok(Text::of(String::from_str(alloc, letters)?))
}

fn cell(alloc: Global, name: &str, value: Value) -> Result<Cell, AllocError>
    ensures { IfOk result (λ cell. (cell.name ≡ name.now) × (cell.value ≡ value)) }
{
    Ok(Cell {
        name: text(alloc, name)?,
        value,
    })
}

/// The text of a host. None if it is too long for a row.
fn host_text(alloc: Global, host: &str) -> Result<Text, AllocError>
    ensures utf8 { IfOk result (λ text. IsUtf8 text) }
    ensures short { IfOk result (λ text. length text ≤ 65535) }
{
    if host.len() > 65535 {
        return Err(AllocError);
    }
    text(alloc, host)
}

/// The row of a time, a code and a host. None if the time is negative.
fn row(alloc: Global, time: i64, code: i64, host: &str) -> Result<Row, AllocError>
    ensures { IfOk result IsRow }
{
    if time < 0 {
        return Err(AllocError);
    }
    let host = host_text(alloc, host)?;
    let mut cells = Vec::new(alloc);
    cells.push(cell(alloc, "code", Value::Int(code))?)?;
    cells.push(cell(alloc, "host", Value::Text(host))?)?;
    Ok(Row {
        time,
        cells: Cells::of(cells),
    })
}

/// Rows of a time, a code and a host each.
pub fn rows_of(alloc: Global, table: &[Spelled]) -> Result<PackedRows, AllocError> {
    let mut rows = PackedRows::new(alloc);
    for (time, code, host) in table {
        let row = row(alloc, *time, *code, host)?;
        rows.push(&LentRow::of(&row))?;
    }
    Ok(rows)
}

/// An entry of a table's history: an add of these rows, with its number of late ones; or another.
#[derive(Clone, Copy)]
pub enum Step {
    Add(&'static [Spelled], u64),
    Expire(i64),
    Keep(u64),
    Open,
    Close,
    Other,
}

/// The feed of an add.
fn added(alloc: Global, table: &[Spelled], late: u64) -> Result<Fed, AllocError> {
    let mut rows = rows_of(alloc, table)?;
    let most = rows.len().min(100_000);
    rows.truncate(most);
    Ok(Fed::Added {
        rows: Rows::of(rows),
        late,
    })
}

/// The feed of an entry.
fn fed_of(alloc: Global, step: Step) -> Result<Fed, AllocError> {
    match step {
        Step::Add(table, late) => added(alloc, table, late),
        Step::Expire(horizon) => Ok(Fed::Expired { horizon }),
        Step::Keep(removed) => Ok(Fed::Kept { removed }),
        Step::Open => Ok(Fed::Opened),
        Step::Close => Ok(Fed::Closed),
        Step::Other => Ok(Fed::Other),
    }
}

/// The query that gives, for each host, the number of rows with a time from 1 to 9 and a code of at least 1, and the
/// sum of these codes.
pub fn query(alloc: Global) -> Result<Query, AllocError> {
    let mut conds = Vec::new(alloc);
    conds.push(Cond {
        name: text(alloc, "code")?,
        op: Op::Ge,
        value: Value::Int(1),
    })?;
    let mut keys = Vec::new(alloc);
    keys.push(text(alloc, "host")?)?;
    let mut aggs = Vec::new(alloc);
    aggs.push(Agg::Count)?;
    aggs.push(Agg::Sum(text(alloc, "code")?))?;
    Ok(Query {
        table: text(alloc, "t")?,
        from: 1,
        to: 9,
        conds: Conds::of(conds),
        keys: Names::of(keys),
        aggs: Aggs::of(aggs),
        order: None,
        limit: 10,
    })
}

/// A state of that query before its first entry.
pub fn declared(alloc: Global) -> Result<Standing, AllocError> {
    Standing::new(alloc, query(alloc)?, 0)
}

/// The number of the next entry.
fn next_number(standing: &Standing) -> Result<u64, AllocError>
    ensures { IfOk result (λ number. number ≡ standing.now.upto + 1) }
{
    match standing.upto().checked_add(1) {
        Some(number) => Ok(number),
        None => Err(AllocError),
    }
}

/// Feeds the next entry.
pub fn feed(alloc: Global, standing: &mut Standing, step: Step) -> Result<(), AllocError> {
    let number = next_number(standing)?;
    standing.feed(number, fed_of(alloc, step)?)
}

/// Settles a state by the next entry, in which a table of these rows was asked.
pub fn settle(alloc: Global, standing: &mut Standing, table: &[Spelled]) -> Result<(), AllocError> {
    let number = next_number(standing)?;
    let mut rows = rows_of(alloc, table)?;
    let most = rows.len().min(100_000);
    rows.truncate(most);
    let groups = fold_rows(alloc, standing.spread(), &rows.lend())?;
    standing.settle(number, groups)
}

/// A state that became fresh by the first entry, in which a table of these rows was asked.
pub fn fresh(alloc: Global, table: &[Spelled]) -> Result<Standing, AllocError> {
    let mut standing = declared(alloc)?;
    settle(alloc, &mut standing, table)?;
    Ok(standing)
}

/// Whether the group has this host, number of rows, and sum, least and greatest of their codes.
fn is_group(group: &Group, want: &Told) -> bool {
    let (host, count, sum, min, max) = want;
    let same_key = match group.keys.as_slice() {
        [Key::Text(key)] => key.as_str() == *host,
        _ => false,
    };
    let same_fold = match group.folds.as_slice() {
        [_count, fold] => {
            fold.seen == *count
                && fold.sum == *sum
                && fold.min == Some(*min)
                && fold.max == Some(*max)
        }
        _ => false,
    };
    same_key && same_fold && group.count == *count
}

/// Whether these are the groups.
pub fn are_groups(groups: &Groups, want: &[Told]) -> bool {
    let groups = groups.as_slice();
    let mut same = groups.len() == want.len();
    for i in 0..groups.len().min(want.len()) {
        same = same && is_group(&groups[i], &want[i]);
    }
    same
}
