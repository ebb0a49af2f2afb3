// Reads a dictionary of sets: a dictionary of texts, then a count of sets, their ends, and the members.
ghost use Rattle.std.specs.Prelude.{◌≡◌, ℕ, suc, ◌+◌, ◌-◌, ◌*◌, ◌<◌, ◌≤◌, ◌↔◌, [], length, IsSome, IsTrue, IsUtf8, IfSome, slice_index_or};
ghost use Rattle.row_model.specs.Sets.{GoesUp};
ghost use Rattle.row_model.specs.Values.{IsSet};
ghost use Rattle.dictionaries.specs.Dictionary.{IsDictionary, text_count, text_from, texts_at, texts_size};
ghost use Rattle.dictionaries.specs.Sets.{AreNumbered, AreSetEnds, IsSetDictionary, member_at, set_at, sets_part, texts_part};

use crate::fields::u32_at;
use crate::texts::{ends_rise, is_dictionary, text_bytes, text_count, text_from};
use leaf_model::{MAX_MEMBERS, MAX_TEXT};

// The length of the dictionary of texts at the start. None if it would pass the end of the bytes.
fn texts_end(extra: &[u8]) -> Option<usize>
    ensures end { IfSome result (λ end. (end ≡ texts_size extra.now) × (end ≤ length extra.now)) }
    ensures only { IsDictionary (texts_part extra.now) → IsSome result }
{
    if extra.len() < 4 {
        return None;
    }
    let count = text_count(extra) as usize;
    let ends = 4 + 4 * count;
    if extra.len() < ends {
        return None;
    }
    let end = ends + text_from(extra, count);
    if end <= extra.len() { Some(end) } else { None }
}

fn are_set_ends(part: &[u8]) -> bool
    ensures { IsTrue result ↔ AreSetEnds part.now }
{
    if part.len() < 4 {
        return false;
    }
    let count = text_count(part) as usize;
    let ends = 4 + 4 * count;
    if part.len() < ends || ends + 4 * text_from(part, count) != part.len() {
        return false;
    }
    ends_rise(part, count)
}

// Member j: the index of a text.
fn member_at(part: &[u8], j: usize) -> u32
    requires ends { AreSetEnds part.now }
    requires within { j < text_from part.now (text_count part.now) }
    ensures { result ≡ member_at part.now j }
{
    u32_at(part, 4 + 4 * text_count(part) as usize + 4 * j)
}

// Whether each member is the index of a text.
fn are_members(part: &[u8], texts: u32) -> bool
    requires { AreSetEnds part.now }
    ensures { IsTrue result ↔ ((j : ℕ) → j < text_from part.now (text_count part.now) → member_at part.now j < texts) }
{
    let count = text_from(part, text_count(part) as usize);
    for j in 0..count {
        if member_at(part, j) >= texts {
            return false;
        }
    }
    true
}

// The number of texts of set k.
fn set_len(part: &[u8], k: usize) -> usize
    requires ends { AreSetEnds part.now }
    requires within { k < text_count part.now }
    ensures { result ≡ text_from part.now (suc k) - text_from part.now k }
{
    text_from(part, k + 1) - text_from(part, k)
}

// Text i of set k.
fn text_in<'a>(texts: &'a [u8], part: &[u8], k: usize, i: usize) -> &'a [u8]
    requires numbered { AreNumbered texts.now part.now }
    requires within { k < text_count part.now }
    requires inside { i < text_from part.now (suc k) - text_from part.now k }
    ensures text { result.now ≡ slice_index_or (set_at (texts_at texts.now) part.now k) i [] }
    ensures utf8 { IsUtf8 result.now }
{
    let member = member_at(part, text_from(part, k) + i);
    text_bytes(texts, member as usize)
}

// Whether text i of set k is greater than the one before it.
fn goes_up(texts: &[u8], part: &[u8], k: usize, i: usize) -> bool
    requires numbered { AreNumbered texts.now part.now }
    requires within { k < text_count part.now }
    requires inside { i < text_from part.now (suc k) - text_from part.now k }
    ensures { IsTrue result ↔ GoesUp (set_at (texts_at texts.now) part.now k) i }
{
    i == 0
        || text_in(texts, part, k, i - 1)
            .cmp(text_in(texts, part, k, i))
            .is_lt()
}

// Whether the texts of set k are a set.
fn is_set_at(texts: &[u8], part: &[u8], k: usize) -> bool
    requires numbered { AreNumbered texts.now part.now }
    requires within { k < text_count part.now }
    ensures { IsTrue result ↔ IsSet (set_at (texts_at texts.now) part.now k) }
{
    let count = set_len(part, k);
    if count > MAX_MEMBERS {
        return false;
    }
    let mut left = MAX_TEXT;
    for i in 0..count {
        if !goes_up(texts, part, k, i) {
            return false;
        }
        let len = text_in(texts, part, k, i).len();
        if len > left {
            return false;
        }
        left -= len;
    }
    true
}

// Whether the texts of each set are a set.
fn are_sets(texts: &[u8], part: &[u8]) -> bool
    requires { AreNumbered texts.now part.now }
    ensures { IsTrue result ↔ ((k : ℕ) → k < text_count part.now → IsSet (set_at (texts_at texts.now) part.now k)) }
{
    for k in 0..text_count(part) {
        if !is_set_at(texts, part, k as usize) {
            return false;
        }
    }
    true
}

fn are_numbered(texts: &[u8], part: &[u8]) -> bool
    ensures { IsTrue result ↔ AreNumbered texts.now part.now }
{
    is_dictionary(texts) && are_set_ends(part) && are_members(part, text_count(texts))
}

/// Whether the bytes are a dictionary of sets.
pub fn is_set_dictionary(extra: &[u8]) -> bool
    ensures { IsTrue result ↔ IsSetDictionary extra.now }
{
    let Some(end) = texts_end(extra) else {
        return false;
    };
    let (texts, part) = extra.split_at(end);
    are_numbered(texts, part) && are_sets(texts, part)
}

// Splits the bytes into the dictionary of texts, and the sets after it.
fn parts_of(extra: &[u8]) -> (&[u8], &[u8])
    requires { IsSetDictionary extra.now }
    ensures texts { result.0.now ≡ texts_part extra.now }
    ensures sets { result.1.now ≡ sets_part extra.now }
{
    match texts_end(extra) {
        Some(end) => extra.split_at(end),
        None => unreachable!(),
    }
}

/// The number of sets.
pub fn set_count(extra: &[u8]) -> u32
    requires { IsSetDictionary extra.now }
    ensures { result ≡ text_count (sets_part extra.now) }
{
    text_count(parts_of(extra).1)
}

/// The number of texts of a set.
pub fn texts_in_set(extra: &[u8], set: usize) -> u32
    requires dictionary { IsSetDictionary extra.now }
    requires within { set < text_count (sets_part extra.now) }
    ensures { result ≡ length (set_at (texts_at (texts_part extra.now)) (sets_part extra.now) set) }
{
    set_len(parts_of(extra).1, set) as u32
}

/// Text i of a set.
pub fn text_of_set(extra: &[u8], set: usize, i: u32) -> &str
    requires dictionary { IsSetDictionary extra.now }
    requires within { set < text_count (sets_part extra.now) }
    requires inside { i < length (set_at (texts_at (texts_part extra.now)) (sets_part extra.now) set) }
    ensures { result.now ≡ slice_index_or (set_at (texts_at (texts_part extra.now)) (sets_part extra.now) set) i [] }
{
    let (texts, part) = parts_of(extra);
    // Each text was tested to be UTF-8 when the column was read.
    unsafe { std::str::from_utf8_unchecked(text_in(texts, part, set, i as usize)) }
}
