// Tests whether rows stand at the start of bytes. A test gives what follows them, or None. It takes no memory.
ghost use Rattle.std.specs.Prelude.{◌≡◌, [], IsSome};
ghost use Rattle.leaf_model.specs.Reading.{texts_at, set_at, value_at, may_follow, cell_at, cells_at, row_at, rows_at};
ghost use Rattle.row_model.specs.Sets.{is_set};
ghost use Rattle.leaf_model.specs.Fronts.{front_of};
ghost use Rattle.row_records.specs.Reading.{FindsView, bytes_left_after, name_and_rest};

use crate::row_fields::{long_text_in, name_in, time_in, u16_in, u64_in};
use leaf_model::{LentTexts, MAX_CELLS, SpelledTexts};

/// The bytes after `count` texts.
fn behind_texts(count: u16, bytes: &[u8]) -> Option<&[u8]>
    ensures { FindsView (λ rest. rest.now) result (bytes_left_after (texts_at count bytes.now)) }
{
    let mut rest = bytes;
    for _ in 0..count {
        let (_text, after) = long_text_in(rest)?;
        rest = after;
    }
    Some(rest)
}

/// Whether the `count` texts at the start of the bytes are a set.
fn are_set(count: u16, bytes: &[u8]) -> bool
    requires { IsSome (texts_at count bytes.now) }
    ensures { result ≡ is_set (front_of (texts_at count bytes.now)) }
{
    LentTexts::Spelled(SpelledTexts::of(bytes, count)).is_set()
}

/// The bytes after the texts of a set.
#[tactic(auto, unfolding(leaf_model::specs::Reading::set_at))]
fn behind_set(bytes: &[u8]) -> Option<&[u8]>
    ensures { FindsView (λ rest. rest.now) result (bytes_left_after (set_at bytes.now)) }
{
    let (count, members) = u16_in(bytes)?;
    let rest = behind_texts(count, members)?;
    if !are_set(count, members) {
        return None;
    }
    Some(rest)
}

/// The bytes after a value.
#[tactic(auto, unfolding(leaf_model::specs::Reading::value_at))]
fn behind_value(bytes: &[u8]) -> Option<&[u8]>
    ensures { FindsView (λ rest. rest.now) result (bytes_left_after (value_at bytes.now)) }
{
    match bytes {
        [1, rest @ ..] => {
            let (_number, rest) = u64_in(rest)?;
            Some(rest)
        }
        [2, rest @ ..] => {
            let (_text, rest) = long_text_in(rest)?;
            Some(rest)
        }
        [3, rest @ ..] => behind_set(rest),
        _ => None,
    }
}

/// Whether a cell of this name may follow the last one.
#[tactic(auto, unfolding(leaf_model::specs::Reading::may_follow))]
fn may_follow(last: &[u8], name: &str) -> bool
    ensures { result ≡ may_follow last.now name.now }
{
    last.cmp(name.as_bytes()).is_lt() && name != "time"
}

/// The name of a cell that may follow the last one, and what follows that cell.
#[tactic(auto, unfolding(leaf_model::specs::Reading::cell_at))]
fn behind_cell<'a>(last: &[u8], bytes: &'a [u8]) -> Option<(&'a str, &'a [u8])>
    ensures { FindsView (λ x. (x.0.now, x.1.now)) result (name_and_rest (cell_at last.now bytes.now)) }
{
    let (name, rest) = name_in(bytes)?;
    if !may_follow(last, name) {
        return None;
    }
    let rest = behind_value(rest)?;
    Some((name, rest))
}

/// The bytes after `count` cells.
fn behind_cells(count: u16, bytes: &[u8]) -> Option<&[u8]>
    ensures { FindsView (λ rest. rest.now) result (bytes_left_after (cells_at count [] bytes.now)) }
{
    let mut last: &[u8] = &[];
    let mut rest = bytes;
    for _ in 0..count {
        let (name, after) = behind_cell(last, rest)?;
        last = name.as_bytes();
        rest = after;
    }
    Some(rest)
}

/// The bytes after a row.
#[tactic(auto, unfolding(leaf_model::specs::Reading::row_at))]
fn behind_row(bytes: &[u8]) -> Option<&[u8]>
    ensures { FindsView (λ rest. rest.now) result (bytes_left_after (row_at bytes.now)) }
{
    let (_time, rest) = time_in(bytes)?;
    let (count, rest) = u16_in(rest)?;
    if count as usize > MAX_CELLS {
        return None;
    }
    behind_cells(count, rest)
}

/// The bytes after `count` rows.
pub(crate) fn behind_rows(count: u64, bytes: &[u8]) -> Option<&[u8]>
    ensures { FindsView (λ rest. rest.now) result (bytes_left_after (rows_at count bytes.now)) }
{
    let mut rest = bytes;
    for _ in 0..count {
        rest = behind_row(rest)?;
    }
    Some(rest)
}
