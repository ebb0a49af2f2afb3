// Tests whether codes are at most a number. One load of eight bytes tests four codes of at most 14 bits, or one wider
// code. The last few, near the end of the bytes, are read one by one.
ghost use Rattle.std.specs.Prelude.{◌≡◌, ℕ, ◌+◌, ◌*◌, ◌/◌, ◌%◌, ◌^◌, ◌≤◌, ◌<◌, ◌↔◌, IsTrue, length};
ghost use Rattle.bit_columns.specs.Bits.{code};

use crate::decode::{loadable, loaded};
use crate::words::{bits_at, low_bits, word_at};

// The eight bytes that a code begins in, from the code on.
#[inline(always)]
fn word_from(bytes: &[u8], i: u32, width: u32) -> u64
    requires { i * width / 8 + 8 ≤ length bytes.now }
    ensures { (j : ℕ) → i * width % 8 + j * width + width ≤ 64
        → result / 2 ^ (j * width) % 2 ^ width ≡ code bytes.now width (i + j) }
{
    let from = i as usize * width as usize;
    word_at(bytes, from / 8) >> (from % 8)
}

// Whether the four lowest codes of a word are at most a number.
#[inline(always)]
fn are_four_at_most(word: u64, width: u32, most: u64) -> bool
    requires { width ≤ 14 }
    ensures { IsTrue result ↔ ((j : ℕ) → j < 4 → word / 2 ^ (j * width) % 2 ^ width ≤ most) }
{
    let mut rest = word;
    for _j in 0..4u32 {
        if most < low_bits(rest, width) {
            return false;
        }
        rest >>= width;
    }
    true
}

// Whether the first `4 * fours` codes are at most a number.
fn are_fours_at_most(bytes: &[u8], fours: u32, width: u32, most: u64) -> bool
    requires few { width ≤ 14 }
    requires fours { fours * 4 < 2 ^ 32 }
    requires inside { 0 < fours → fours * 4 * width + 64 ≤ 8 * length bytes.now }
    ensures { IsTrue result ↔ ((k : ℕ) → k < fours * 4 → code bytes.now width k ≤ most) }
{
    for i in 0..fours {
        if !are_four_at_most(word_from(bytes, i * 4, width), width, most) {
            return false;
        }
    }
    true
}

// Whether the first `count` codes are at most a number. Each has to lie within the eight bytes that it begins in.
#[inline(always)]
fn are_words_at_most(bytes: &[u8], count: u32, width: u32, most: u64) -> bool
    requires width { width ≤ 64 }
    requires inside { 0 < count → count * width + 64 ≤ 8 * length bytes.now }
    requires at_once { (i : ℕ) → i * width % 8 + width ≤ 64 }
    ensures { IsTrue result ↔ ((k : ℕ) → k < count → code bytes.now width k ≤ most) }
{
    for i in 0..count {
        if most < loaded(bytes, i, width) {
            return false;
        }
    }
    true
}

// The same, with a loop of its own for codes of whole bytes, as in decoding.
fn are_front_at_most(bytes: &[u8], count: u32, width: u32, most: u64) -> bool
    requires width { width ≤ 64 }
    requires inside { 0 < count → count * width + 64 ≤ 8 * length bytes.now }
    requires at_once { (i : ℕ) → i * width % 8 + width ≤ 64 }
    ensures { IsTrue result ↔ ((k : ℕ) → k < count → code bytes.now width k ≤ most) }
{
    match width {
        16 => are_words_at_most(bytes, count, 16, most),
        32 => are_words_at_most(bytes, count, 32, most),
        64 => are_words_at_most(bytes, count, 64, most),
        _ => are_words_at_most(bytes, count, width, most),
    }
}

// Whether the codes from the place `from` on are at most a number.
fn are_others_at_most(bytes: &[u8], from: u32, count: u32, width: u32, most: u64) -> bool
    requires width { width ≤ 64 }
    requires inside { count * width ≤ 8 * length bytes.now }
    ensures { IsTrue result ↔ ((k : ℕ) → from ≤ k → k < count → code bytes.now width k ≤ most) }
{
    for i in from..count {
        if most < bits_at(bytes, i as usize * width as usize, width) {
            return false;
        }
    }
    true
}

// Whether all codes are at most a number, if four of them fit into a word.
fn are_small_at_most(bytes: &[u8], count: u32, width: u32, most: u64) -> bool
    requires few { width ≤ 14 }
    requires inside { count * width ≤ 8 * length bytes.now }
    ensures { IsTrue result ↔ ((k : ℕ) → k < count → code bytes.now width k ≤ most) }
{
    let fours = loadable(count, width) / 4;
    are_fours_at_most(bytes, fours, width, most)
        && are_others_at_most(bytes, fours * 4, count, width, most)
}

// Whether all codes are at most a number, if each lies within the eight bytes that it begins in.
fn are_whole_at_most(bytes: &[u8], count: u32, width: u32, most: u64) -> bool
    requires width { width ≤ 64 }
    requires inside { count * width ≤ 8 * length bytes.now }
    requires at_once { (i : ℕ) → i * width % 8 + width ≤ 64 }
    ensures { IsTrue result ↔ ((k : ℕ) → k < count → code bytes.now width k ≤ most) }
{
    let front = loadable(count, width);
    are_front_at_most(bytes, front, width, most)
        && are_others_at_most(bytes, front, count, width, most)
}

// Whether all codes are at most a number.
pub(crate) fn are_at_most(bytes: &[u8], count: u32, width: u32, most: u64) -> bool
    requires width { width ≤ 64 }
    requires inside { count * width ≤ 8 * length bytes.now }
    ensures { IsTrue result ↔ ((k : ℕ) → k < count → code bytes.now width k ≤ most) }
{
    match width {
        0..=14 => are_small_at_most(bytes, count, width, most),
        15..=57 | 64 => are_whole_at_most(bytes, count, width, most),
        _ => are_others_at_most(bytes, 0, count, width, most),
    }
}
