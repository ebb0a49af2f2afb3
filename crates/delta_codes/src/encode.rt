// Codes values as anchors and differences.
ghost use Rattle.std.specs.Prelude.{◌≡◌, ◌<◌, ◌%◌, ℕ, pos, length, slice_index, slice_index_or, FitsSigned, IfOk};
ghost use Rattle.std.specs.Int.{w64, div_ceil};
ghost use Rattle.delta_codes.specs.Slots.{anchors_of, code_of, codes_of, slots};

use crate::difference::zigzag;
use crate::lists::{Anchors, Codes};
use std::alloc::{AllocError, Global};

/// Values in delta form: an anchor for each 64 of them, and a code for each. The code at an anchor means nothing.
#[derive(Drop)]
pub struct Deltas {
    pub anchors: Anchors,
    pub codes: Codes,
}

/// Codes the values: an anchor for each 64 of them, rounded up, and a code for each. The code at an anchor is 0, so
/// that it takes no width.
pub fn delta(alloc: Global, values: &[i64]) -> Result<Deltas, AllocError>
    ensures coded { IfOk result (λ deltas. length deltas.codes ≡ length values.now) }
    ensures anchored { IfOk result (λ deltas. length deltas.anchors ≡ div_ceil (length values.now) 64) }
    ensures same { IfOk result (λ deltas. slots deltas.anchors deltas.codes ≡ values.now) }
    ensures at_anchors { IfOk result (λ deltas. (i : ℕ) → i % 64 ≡ 0 → slice_index deltas.codes i ≡ 0) }
{
    let anchors = anchors(alloc, values)?;
    let mut codes = vec![in alloc; 0u64; values.len()]?;
    write_codes(values, codes.as_mut_slice());
    Ok(Deltas {
        anchors,
        codes: Codes::of(codes),
    })
}

/// The values at the places 0, 64, 128 and so on.
fn anchors(alloc: Global, values: &[i64]) -> Result<Anchors, AllocError>
    ensures { IfOk result (λ anchors. anchors ≡ anchors_of values.now) }
{
    let count = values.len().div_ceil(64);
    let mut anchors = Vec::with_capacity(alloc, count)?;
    for i in 0..count {
        anchors.push(values[64 * i])?;
    }
    Ok(Anchors::of(anchors))
}

/// Writes the code of each value.
fn write_codes(values: &[i64], codes: &mut [u64])
    requires { length codes.old ≡ length values.now }
    ensures codes { codes.new ≡ codes_of values.now }
    ensures fit { (i : ℕ) → i < length values.now → FitsSigned w64 (slice_index_or values.now i (pos 0)) }
{
    for i in 0..values.len() {
        codes[i] = code_at(values, i);
    }
}

/// The code of the value at a place.
fn code_at(values: &[i64], i: usize) -> u64
    requires { i < length values.now }
    ensures code { result ≡ code_of values.now i }
    ensures fits { FitsSigned w64 (slice_index_or values.now i (pos 0)) }
{
    let value = values[i];
    if i % 64 == 0 {
        0
    } else {
        zigzag(value.wrapping_sub(values[i - 1]))
    }
}
