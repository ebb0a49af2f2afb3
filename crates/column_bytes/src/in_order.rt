// Decodes all cells in order. Each difference is added once, and no text is read.
ghost use Rattle.std.specs.Prelude.{◌≡◌, ℕ, ◌+◌, ◌-◌, ◌*◌, ◌/◌, ◌%◌, ◌<◌, ◌≤◌, length, pos, ◌+ℤ◌, FitsSigned, slice_index, slice_index_or, IfSome, None};
ghost use Rattle.std.specs.Int.{w64, div_ceil};
ghost use Rattle.bit_columns.specs.Bits.{presence};
ghost use Rattle.delta_codes.specs.Slots.{slot};
ghost use Rattle.row_model.specs.declared.rows.Value.TheVariants.{Int};
ghost use Rattle.column_bytes.specs.declared.kind.Kind.TheVariants.{Ints};
ghost use Rattle.column_bytes.specs.Cells.{IsCode, IsExtra, anchors_at, book_of, kind_of_book, there, value_at};

use crate::form::Form;
use bit_columns::PresenceBits;
use delta_codes::undo;
use dictionaries::i64_at;

fn fill_all(present: &mut [bool])
    ensures { present.new ≡ there None (length present.old) }
{
    for i in 0..present.len() {
        present[i] = true;
    }
}

fn fill_bits(bits: &PresenceBits, present: &mut [bool])
    requires few { length present.old ≤ 65536 }
    requires same { bits.now.count ≡ length present.old }
    ensures { present.new ≡ presence bits.now.bytes (length present.old) }
{
    for i in 0..present.len() {
        present[i] = bits.get(i as u32);
    }
}

/// Writes which cells are there.
pub(crate) fn fill_present(presence: &Option<PresenceBits>, present: &mut [bool])
    requires few { length present.old ≤ 65536 }
    requires same { IfSome presence.now (λ bits. bits.count ≡ length present.old) }
    ensures { present.new ≡ there presence.now (length present.old) }
{
    match presence {
        None => fill_all(present),
        Some(bits) => fill_bits(bits, present),
    }
}

// The base plus an offset. That of a missing cell may overflow.
pub(crate) fn offset_sum(base: i64, code: u64) -> i64
    ensures { FitsSigned w64 (base +ℤ pos code) → result ≡ base +ℤ pos code }
{
    base.wrapping_add(code.cast_signed())
}

/// Writes the integers of the offset form.
pub(crate) fn fill_offsets(base: i64, codes: &[u64], values: &mut [i64])
    requires { length values.old ≡ length codes.now }
    ensures { (i : ℕ) → i < length codes.now → FitsSigned w64 (base +ℤ pos (slice_index codes.now i))
        → slice_index_or values.new i (pos 0) ≡ base +ℤ pos (slice_index codes.now i) }
{
    for i in 0..codes.len() {
        values[i] = offset_sum(base, codes[i]);
    }
}

// The integer at place i in the delta form, given the one before.
fn next_slot(extra: &[u8], codes: &[u64], i: usize, before: i64) -> i64
    requires within { i < length codes.now }
    requires anchored { length extra.now ≡ 8 * div_ceil (length codes.now) 64 }
    requires before { 0 < i → before ≡ slot (anchors_at (length codes.now) extra.now) codes.now (i - 1) }
    ensures { result ≡ slot (anchors_at (length codes.now) extra.now) codes.now i }
{
    if i % 64 == 0 {
        i64_at(extra, i / 8)
    } else {
        undo(before, codes[i])
    }
}

/// Writes the integers of the delta form.
pub(crate) fn fill_slots(extra: &[u8], codes: &[u64], values: &mut [i64])
    requires same { length values.old ≡ length codes.now }
    requires anchored { length extra.now ≡ 8 * div_ceil (length codes.now) 64 }
    ensures { (i : ℕ) → i < length codes.now
        → slice_index_or values.new i (pos 0) ≡ slot (anchors_at (length codes.now) extra.now) codes.now i }
{
    let mut before = 0;
    for i in 0..codes.len() {
        before = next_slot(extra, codes, i, before);
        values[i] = before;
    }
}

/// Writes the integers of a column of integers, and any integer for a missing cell.
pub(crate) fn fill_values(form: Form, extra: &[u8], codes: &[u64], values: &mut [i64])
    requires same { length values.old ≡ length codes.now }
    requires extra { IsExtra form (length codes.now) extra.now }
    requires kind { kind_of_book (book_of form (length codes.now) extra.now) ≡ Ints }
    ensures { (i : ℕ) → i < length codes.now
        → IsCode (book_of form (length codes.now) extra.now) (slice_index codes.now i)
        → value_at (book_of form (length codes.now) extra.now) codes.now i ≡ Int (slice_index_or values.new i (pos 0)) }
{
    match form {
        Form::Offset => fill_offsets(i64_at(extra, 0), codes, values),
        Form::Delta => fill_slots(extra, codes, values),
        Form::Dictionary | Form::Sets => unreachable!(),
    }
}
