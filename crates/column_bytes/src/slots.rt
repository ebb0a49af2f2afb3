// Decodes integers of the delta form.
ghost use Rattle.std.specs.Prelude.{◌≡◌, ◌-◌, ◌*◌, ◌<◌, ◌≤◌, length};
ghost use Rattle.std.specs.Int.{div_ceil};
ghost use Rattle.bit_columns.specs.Bits.{code, codes};
ghost use Rattle.delta_codes.specs.Slots.{slot};
ghost use Rattle.column_bytes.specs.Cells.{anchors_at};

use bit_columns::Packed;
use delta_codes::undo;
use dictionaries::i64_at;

/// The integer at place i: the last anchor, and the differences since, at most 63.
pub(crate) fn slot_at(packed: &Packed, extra: &[u8], i: u32) -> i64
    requires inside { i < packed.now.count }
    requires few { packed.now.count ≤ 65536 }
    requires anchored { length extra.now ≡ 8 * div_ceil packed.now.count 64 }
    ensures { result ≡ slot (anchors_at packed.now.count extra.now)
        (codes packed.now.bytes packed.now.width packed.now.count) i }
{
    let first = i - i % 64;
    let mut value = i64_at(extra, first as usize / 8);
    for k in first + 1..i + 1 {
        value = undo(value, packed.get(k));
    }
    value
}

/// The integer at place i, given its code and the integer before it, if there is one. It is the anchor at i, or one
/// difference more.
#[inline(always)]
pub(crate) fn slot_behind(packed: &Packed, extra: &[u8], i: u32, step: u64, before: i64) -> i64
    requires inside { i < packed.now.count }
    requires few { packed.now.count ≤ 65536 }
    requires anchored { length extra.now ≡ 8 * div_ceil packed.now.count 64 }
    requires code { step ≡ code packed.now.bytes packed.now.width i }
    requires before { 0 < i → before ≡ slot (anchors_at packed.now.count extra.now)
        (codes packed.now.bytes packed.now.width packed.now.count) (i - 1) }
    ensures { result ≡ slot (anchors_at packed.now.count extra.now)
        (codes packed.now.bytes packed.now.width packed.now.count) i }
{
    if i % 64 == 0 {
        i64_at(extra, i as usize / 8)
    } else {
        undo(before, step)
    }
}
