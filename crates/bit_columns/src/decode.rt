// Decodes codes in order. Each code takes one load of eight bytes, but for the last few, near the end of the bytes.
ghost use Rattle.std.specs.Prelude.{◌≡◌, ℕ, ◌+◌, ◌*◌, ◌/◌, ◌%◌, ◌≤◌, ◌<◌, length, slice_index};
ghost use Rattle.bit_columns.specs.Bits.{code};

use crate::words::{bits_at, low_bits, word_at};

// How many codes begin eight bytes or more before the end, so that each is read by one load.
pub(crate) fn loadable(count: u32, width: u32) -> u32
    requires { width ≤ 64 }
    ensures few { result ≤ count }
    ensures inside { 0 < result → result * width + 64 ≤ count * width }
{
    if width == 0 {
        0
    } else {
        count.saturating_sub(64u32.div_ceil(width))
    }
}

// The code at a place, if it lies within one load of eight bytes.
#[inline(always)]
pub(crate) fn loaded(bytes: &[u8], i: u32, width: u32) -> u64
    requires width { width ≤ 64 }
    requires inside { i * width / 8 + 8 ≤ length bytes.now }
    requires at_once { i * width % 8 + width ≤ 64 }
    ensures { result ≡ code bytes.now width i }
{
    let from = i as usize * width as usize;
    low_bits(word_at(bytes, from / 8) >> (from % 8), width)
}

// Writes the first `count` codes. Each has to lie within the eight bytes that it begins in.
#[inline(always)]
fn fill_by_words(bytes: &[u8], out: &mut [u64], count: u32, width: u32)
    requires width { width ≤ 64 }
    requires inside { 0 < count → count * width + 64 ≤ 8 * length bytes.now }
    requires at_once { (i : ℕ) → i * width % 8 + width ≤ 64 }
    requires room { count ≤ length out.old }
    ensures { (k : ℕ) → k < count → slice_index out.new k ≡ code bytes.now width k }
{
    for i in 0..count {
        out[i as usize] = loaded(bytes, i, width);
    }
}

// Writes the first `count` codes by words. A width that is written out gets a loop of its own, which the compiler makes
// faster.
fn fill_front(bytes: &[u8], out: &mut [u64], count: u32, width: u32)
    requires width { width ≤ 64 }
    requires inside { 0 < count → count * width + 64 ≤ 8 * length bytes.now }
    requires at_once { (i : ℕ) → i * width % 8 + width ≤ 64 }
    requires room { count ≤ length out.old }
    ensures { (k : ℕ) → k < count → slice_index out.new k ≡ code bytes.now width k }
{
    match width {
        1 => fill_by_words(bytes, out, count, 1),
        2 => fill_by_words(bytes, out, count, 2),
        4 => fill_by_words(bytes, out, count, 4),
        8 => fill_by_words(bytes, out, count, 8),
        16 => fill_by_words(bytes, out, count, 16),
        32 => fill_by_words(bytes, out, count, 32),
        64 => fill_by_words(bytes, out, count, 64),
        _ => fill_by_words(bytes, out, count, width),
    }
}

// Writes all codes in order.
pub(crate) fn fill_codes(bytes: &[u8], out: &mut [u64], count: u32, width: u32)
    requires width { width ≤ 64 }
    requires inside { count * width ≤ 8 * length bytes.now }
    requires room { length out.old ≡ count }
    ensures { (k : ℕ) → k < count → slice_index out.new k ≡ code bytes.now width k }
{
    let mut done = 0;
    if width <= 57 || width == 64 {
        done = loadable(count, width);
        fill_front(bytes, out, done, width);
    }
    for i in done..count {
        out[i as usize] = bits_at(bytes, i as usize * width as usize, width);
    }
}
