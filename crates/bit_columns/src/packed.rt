// Codes that stand in bytes.
ghost use Rattle.std.specs.Prelude.{◌≡◌, ℕ, ◌*◌, ◌^◌, ◌≤◌, ◌<◌, ◌↔◌, IsTrue, IsSome, IfSome, length};
ghost use Rattle.bit_columns.specs.Bits.{IsBits, code, codes};

use crate::decode::fill_codes;
use crate::limit::are_at_most;
use crate::words::{bits_at, is_bits};
use std::marker::Model;

/// Packed codes of one width, over borrowed bytes. Contracts see the bytes, the number of codes and their width in
/// bits.
#[derive(Drop)]
pub struct Packed<'a> {
    bytes: &'a [u8],
    count: u32,
    width: u8,
}

impl<'a> Model for Packed<'a> {
    ghost use Rattle.std.specs.Prelude.{◌≤◌, ◌*◌};
    ghost use Rattle.bit_columns.specs.Bits.{IsBits, PackedCodes};

    ghost Value = { PackedCodes };

    ghost view = { λ packed. record { bytes = packed.bytes.now; count = packed.count; width = packed.width } };

    ghost invariant = { λ packed. (packed.width ≤ 64) × IsBits packed.bytes.now (packed.count * packed.width) };
}

impl<'a> Packed<'a> {
    /// Reads the bytes as `count` codes of `width` bits. None if these bits take more or fewer bytes, or a spare bit of
    /// the last byte is 1.
    pub fn view(bytes: &'a [u8], count: u32, width: u8) -> Option<Packed<'a>>
        requires { width ≤ 64 }
        ensures exact { IsSome result ↔ IsBits bytes.now (count * width) }
        ensures view { IfSome result (λ packed. packed ≡ record { bytes = bytes.now; count = count; width = width }) }
    {
        if is_bits(bytes, u64::from(count) * u64::from(width)) {
            Some(Packed {
                bytes,
                count,
                width,
            })
        } else {
            None
        }
    }

    /// The code at a place.
    pub fn get(&self, i: u32) -> u64
        requires { i < self.now.count }
        ensures code { result ≡ code self.now.bytes self.now.width i }
        ensures below { result < 2 ^ self.now.width }
    {
        bits_at(
            self.bytes,
            i as usize * self.width as usize,
            u32::from(self.width),
        )
    }

    /// Whether all codes are at most `most`.
    pub fn are_at_most(&self, most: u64) -> bool
        ensures { IsTrue result ↔ ((i : ℕ) → i < self.now.count → code self.now.bytes self.now.width i ≤ most) }
    {
        are_at_most(self.bytes, self.count, u32::from(self.width), most)
    }

    /// Writes all codes in order. `out` has one place for each.
    pub fn fill(&self, out: &mut [u64])
        requires { length out.old ≡ self.now.count }
        ensures { out.new ≡ codes self.now.bytes self.now.width self.now.count }
    {
        fill_codes(self.bytes, out, self.count, u32::from(self.width));
    }
}
