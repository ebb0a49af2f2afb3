// Compares the keys of a group with those of a row.
ghost use Rattle.std.specs.Prelude.{◌≡◌, map, Some};
ghost use Rattle.leaf_model.specs.Groups.{key_cmp, key_of, keys_cmp};
ghost use Rattle.leaf_model.specs.Lent.{lent_value};
ghost use Rattle.group_table.specs.Reads.{seen_key};

use crate::seen::see_key;
use leaf_model::{Key, LentValue};
use std::cmp::Ordering;

/// Integers come before texts, and texts before sets. Texts compare by bytes, sets as lists of texts.
fn compare_values(a: &LentValue, b: &LentValue) -> Ordering
    ensures { result ≡ key_cmp (key_of (Some (lent_value a.now))) (key_of (Some (lent_value b.now))) }
{
    match a {
        LentValue::Int(n) => match b {
            LentValue::Int(m) => n.cmp(m),
            LentValue::Text(_u) => Ordering::Less,
            LentValue::Set(_n) => Ordering::Less,
        },
        LentValue::Text(t) => match b {
            LentValue::Int(_m) => Ordering::Greater,
            LentValue::Text(u) => t.cmp(u),
            LentValue::Set(_n) => Ordering::Less,
        },
        LentValue::Set(members) => match b {
            LentValue::Int(_m) => Ordering::Greater,
            LentValue::Text(_u) => Ordering::Greater,
            LentValue::Set(others) => members.compare(others),
        },
    }
}

/// A missing value comes before every other.
fn compare_seen(a: Option<LentValue>, b: Option<LentValue>) -> Ordering
    ensures { result ≡ key_cmp (seen_key a.entry) (seen_key b.entry) }
{
    match a {
        None => match b {
            None => Ordering::Equal,
            Some(_other) => Ordering::Less,
        },
        Some(value) => match b {
            None => Ordering::Greater,
            Some(other) => compare_values(&value, &other),
        },
    }
}

/// Lexicographic order, as in `Keys::compare`. The row's keys are not copied.
pub fn compare_with(a: &[Key], b: &[Option<LentValue>]) -> Ordering
    ensures { result ≡ keys_cmp a.now (map seen_key b.now) }
{
    let mut i: usize = 0;
    while i < a.len() && i < b.len() {
        match compare_seen(see_key(&a[i]), b[i]) {
            Ordering::Less => return Ordering::Less,
            Ordering::Equal => i += 1,
            Ordering::Greater => return Ordering::Greater,
        }
    }
    a.len().cmp(&b.len())
}
