// Bits that say which cells are there.
ghost use Rattle.std.specs.Prelude.{◌≡◌, ℕ, ◌≤◌, ◌<◌, ◌↔◌, IsSome, IfSome};
ghost use Rattle.bit_columns.specs.Bits.{IsBits, is_present};

use crate::words::is_bits;
use std::marker::Model;

/// Bits over borrowed bytes. Contracts see the bytes and the number of bits.
#[derive(Drop)]
pub struct PresenceBits<'a> {
    bytes: &'a [u8],
    count: u32,
}

impl<'a> Model for PresenceBits<'a> {
    ghost use Rattle.bit_columns.specs.Bits.{IsBits, BitString};

    ghost Value = { BitString };

    ghost view = { λ bits. record { bytes = bits.bytes.now; count = bits.count } };

    ghost invariant = { λ bits. IsBits bits.bytes.now bits.count };
}

impl<'a> PresenceBits<'a> {
    /// Reads the bytes as `count` bits. None if these take more or fewer bytes, or a spare bit of the last byte is 1.
    pub fn view(bytes: &'a [u8], count: u32) -> Option<PresenceBits<'a>>
        ensures exact { IsSome result ↔ IsBits bytes.now count }
        ensures view { IfSome result (λ bits. bits ≡ record { bytes = bytes.now; count = count }) }
    {
        if is_bits(bytes, u64::from(count)) {
            Some(PresenceBits { bytes, count })
        } else {
            None
        }
    }

    /// Whether the bit at a place is 1.
    pub fn get(&self, i: u32) -> bool
        requires { i < self.now.count }
        ensures { result ≡ is_present self.now.bytes i }
    {
        self.bytes[i as usize / 8] >> (i % 8) & 1 == 1
    }
}
