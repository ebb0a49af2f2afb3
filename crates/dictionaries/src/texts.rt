// Reads a dictionary of texts: a count, the end of each text, and the bytes of all texts.
ghost use Rattle.std.specs.Prelude.{◌≡◌, ℕ, suc, ◌+◌, ◌*◌, ◌<◌, ◌≤◌, ◌↔◌, IsTrue, length};
ghost use Rattle.dictionaries.specs.Dictionary.{text_count, text_from, text_at, IsText, AreEnds, IsDictionary};

use crate::fields::u32_at;
use leaf_model::MAX_TEXT;

/// The number of texts.
pub fn text_count(extra: &[u8]) -> u32
    requires { 4 ≤ length extra.now }
    ensures { result ≡ text_count extra.now }
{
    u32_at(extra, 0)
}

// The offset of text k in the bytes of all texts.
pub(crate) fn text_from(extra: &[u8], k: usize) -> usize
    requires { 4 + 4 * k ≤ length extra.now }
    ensures value { result ≡ text_from extra.now k }
    ensures small { result < 4294967296 }
{
    if k == 0 {
        0
    } else {
        u32_at(extra, 4 * k) as usize
    }
}

// Whether no end is less than the one before.
pub(crate) fn ends_rise(extra: &[u8], count: usize) -> bool
    requires { 4 + 4 * count ≤ length extra.now }
    ensures { IsTrue result ↔ ((k : ℕ) → k < count → text_from extra.now k ≤ text_from extra.now (suc k)) }
{
    for k in 0..count {
        if text_from(extra, k + 1) < text_from(extra, k) {
            return false;
        }
    }
    true
}

fn are_ends(extra: &[u8]) -> bool
    ensures { IsTrue result ↔ AreEnds extra.now }
{
    if extra.len() < 4 {
        return false;
    }
    let count = text_count(extra) as usize;
    let ends = 4 + 4 * count;
    if extra.len() < ends || ends + text_from(extra, count) != extra.len() {
        return false;
    }
    ends_rise(extra, count)
}

// The offsets of the start and the end of text k in the bytes of all texts.
fn text_range(extra: &[u8], k: usize) -> (usize, usize)
    requires ends { AreEnds extra.now }
    requires within { k < text_count extra.now }
    ensures from { result.0 ≡ text_from extra.now k }
    ensures to { result.1 ≡ text_from extra.now (suc k) }
    ensures ordered { result.0 ≤ result.1 }
    ensures inside { 4 + 4 * text_count extra.now + result.1 ≤ length extra.now }
{
    (text_from(extra, k), text_from(extra, k + 1))
}

pub(crate) fn text_bytes(extra: &[u8], k: usize) -> &[u8]
    requires ends { AreEnds extra.now }
    requires within { k < text_count extra.now }
    ensures { result.now ≡ text_at extra.now k }
{
    let texts = &extra[4 + 4 * text_count(extra) as usize..];
    let (from, to) = text_range(extra, k);
    &texts[from..to]
}

fn is_text(bytes: &[u8]) -> bool
    ensures { IsTrue result ↔ IsText bytes.now }
{
    bytes.len() <= MAX_TEXT && std::str::from_utf8(bytes).is_ok()
}

fn are_texts(extra: &[u8]) -> bool
    requires { AreEnds extra.now }
    ensures { IsTrue result ↔ ((k : ℕ) → k < text_count extra.now → IsText (text_at extra.now k)) }
{
    for k in 0..text_count(extra) {
        if !is_text(text_bytes(extra, k as usize)) {
            return false;
        }
    }
    true
}

/// Whether the bytes are a dictionary of texts.
pub fn is_dictionary(extra: &[u8]) -> bool
    ensures { IsTrue result ↔ IsDictionary extra.now }
{
    are_ends(extra) && are_texts(extra)
}

/// Text k.
pub fn text_of(extra: &[u8], k: usize) -> &str
    requires dictionary { IsDictionary extra.now }
    requires within { k < text_count extra.now }
    ensures { result.now ≡ text_at extra.now k }
{
    // Each text was tested to be UTF-8 when the column was read.
    unsafe { std::str::from_utf8_unchecked(text_bytes(extra, k)) }
}
