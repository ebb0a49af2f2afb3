// Finds the next cell that is there, by the presence bits. A byte of zeros is skipped at once.
ghost use Rattle.std.specs.Prelude.{◌≡◌, ℕ, ◌/◌, ◌<◌, ◌≤◌, slice_index, IfSome};
ghost use Rattle.bit_columns.specs.Bits.{is_present};
ghost use Rattle.column_bytes.specs.Cells.{is_there};
ghost use Rattle.column_bytes.specs.Next.{AreBitsOf, TellsFirst};

use bit_columns::PresenceBits;

// The first place in `from..to` whose bit is 1.
fn next_between(bits: &PresenceBits, from: u32, to: u32) -> Option<u32>
    requires { to ≤ bits.now.count }
    ensures { TellsFirst (is_present bits.now.bytes) from to result }
{
    for i in from..to {
        if bits.get(i) {
            return Some(i);
        }
    }
    None
}

// The first place in `from..to` whose bit is 1, if all of them stand in this byte. A zero byte has none.
fn next_in_byte(byte: u8, bits: &PresenceBits, from: u32, to: u32) -> Option<u32>
    requires inside { to ≤ bits.now.count }
    requires at { (i : ℕ) → from ≤ i → i < to → slice_index bits.now.bytes (i / 8) ≡ byte }
    ensures { TellsFirst (is_present bits.now.bytes) from to result }
{
    if byte == 0 {
        None
    } else {
        next_between(bits, from, to)
    }
}

// The first place from `from` on whose bit is 1, byte by byte.
fn next_bit(bits: &PresenceBits, bytes: &[u8], from: u32, count: u32) -> Option<u32>
    requires few { count ≤ 65536 }
    requires bits { AreBitsOf count bytes.now bits.now }
    ensures { TellsFirst (is_present bits.now.bytes) from count result }
{
    for k in from / 8..count.div_ceil(8) {
        let first = from.max(8 * k);
        let end = count.min(8 * k + 8);
        if let Some(i) = next_in_byte(bytes[k as usize], bits, first, end) {
            return Some(i);
        }
    }
    None
}

/// The first of the `count` places, from `from` on, that has a cell.
pub(crate) fn next_present(
    presence: &Option<PresenceBits>,
    bytes: &[u8],
    from: u32,
    count: u32,
) -> Option<u32>
    requires few { count ≤ 65536 }
    requires bits { IfSome presence.now (AreBitsOf count bytes.now) }
    ensures { TellsFirst (is_there presence.now) from count result }
{
    match presence {
        None if from < count => Some(from),
        None => None,
        Some(bits) => next_bit(bits, bytes, from, count),
    }
}
