// Writing codes and bits, one after the other.
ghost use Rattle.std.specs.Prelude.{◌≡◌, ℕ, ◌+◌, ◌*◌, ◌/◌, ◌%◌, ◌^◌, ◌≤◌, ◌<◌, IfOk, OnOk, length};
ghost use Rattle.std.specs.List.{All};
ghost use Rattle.std.specs.Int.{div_ceil};
ghost use Rattle.bit_columns.specs.Number.{number, AreBytes};
ghost use Rattle.bit_columns.specs.Bits.{IsBits, codes, presence};

use std::alloc::{AllocError, Global};
use std::marker::Model;

// The bits that were written: whole words as bytes, and at most 63 bits that wait for the rest of their word.
#[derive(Drop)]
struct BitWriter {
    bytes: Vec<u8>,
    waiting: u64,
    count: u32,
}

impl Model for BitWriter {
    ghost use Rattle.std.specs.Prelude.{◌+◌, ◌*◌, ◌^◌, length};
    ghost use Rattle.bit_columns.specs.Number.{number, WrittenBits, AreWaiting};

    ghost Value = { WrittenBits };

    ghost view = { λ writer. record {
      value = number writer.bytes.items + writer.waiting * 2 ^ (8 * length writer.bytes.items);
      bits = 8 * length writer.bytes.items + writer.count;
    } };

    ghost invariant = { λ writer. AreWaiting writer.bytes.items writer.waiting writer.count };
}

// A value shifted left by `count` bits, above the bits that wait.
#[inline(always)]
fn above(waiting: u64, value: u64, count: u32) -> u128
    requires few { count < 64 }
    requires below { waiting < 2 ^ count }
    ensures { result ≡ value * 2 ^ count + waiting }
{
    u128::from(value) << count | u128::from(waiting)
}

#[inline(always)]
fn low_word(all: u128) -> u64
    ensures { result ≡ all % 2 ^ 64 }
{
    (all & u128::from(u64::MAX)) as u64
}

#[inline(always)]
fn high_word(all: u128) -> u64
    ensures { result ≡ all / 2 ^ 64 }
{
    (all >> 64) as u64
}

/// An upper bound on the number of bytes of `count` codes.
fn room_for(count: usize, width: u8) -> usize {
    count.saturating_mul(usize::from(width)) / 8 + 8
}

impl BitWriter {
    /// A writer of no bits, with room for `bytes` bytes.
    fn with_room(alloc: Global, bytes: usize) -> Result<BitWriter, AllocError>
        ensures value { IfOk result (λ writer. writer.value ≡ 0) }
        ensures bits { IfOk result (λ writer. writer.bits ≡ 0) }
    {
        Ok(BitWriter {
            bytes: Vec::with_capacity(alloc, bytes)?,
            waiting: 0,
            count: 0,
        })
    }

    fn push(&mut self, value: u64, width: u32) -> Result<(), AllocError>
        requires width { width ≤ 64 }
        requires fits { value < 2 ^ width }
        ensures value { OnOk result (self.new.value ≡ self.old.value + value * 2 ^ self.old.bits) }
        ensures bits { OnOk result (self.new.bits ≡ self.old.bits + width) }
    {
        let all = above(self.waiting, value, self.count);
        let count = self.count + width;
        if count < 64 {
            self.waiting = low_word(all);
            self.count = count;
        } else {
            self.bytes.extend_from_slice(&low_word(all).to_le_bytes())?;
            self.waiting = high_word(all);
            self.count = count - 64;
        }
        Ok(())
    }

    fn finish(self) -> Result<Vec<u8>, AllocError>
        ensures value { IfOk result (λ bytes. number bytes.items ≡ self.value) }
        ensures bytes { IfOk result (λ bytes. AreBytes bytes.items) }
        ensures whole { IfOk result (λ bytes. length bytes.items ≡ div_ceil self.bits 8) }
    {
        let BitWriter {
            mut bytes,
            waiting,
            count,
        } = self;
        let used = count.div_ceil(8) as usize;
        bytes.extend_from_slice(&waiting.to_le_bytes()[..used])?;
        Ok(bytes)
    }
}

/// Packs the values as codes of `width` bits, the least bit first. The spare bits of the last byte are 0.
pub fn pack(alloc: Global, values: &[u64], width: u8) -> Result<Vec<u8>, AllocError>
    requires width { width ≤ 64 }
    requires fit { All (λ value. value < 2 ^ width) values.now }
    ensures whole { IfOk result (λ bytes. IsBits bytes.items (length values.now * width)) }
    ensures codes { IfOk result (λ bytes. codes bytes.items width (length values.now) ≡ values.now) }
{
    let mut writer = BitWriter::with_room(alloc, room_for(values.len(), width))?;
    for value in values {
        writer.push(*value, u32::from(width))?;
    }
    let bytes = writer.finish()?;
    Ok(bytes)
}

/// Packs the bits, eight a byte, the least bit first: 1 is true. The spare bits of the last byte are 0.
pub fn pack_bits(alloc: Global, bits: &[bool]) -> Result<Vec<u8>, AllocError>
    ensures whole { IfOk result (λ bytes. IsBits bytes.items (length bits.now)) }
    ensures bits { IfOk result (λ bytes. presence bytes.items (length bits.now) ≡ bits.now) }
{
    let mut writer = BitWriter::with_room(alloc, room_for(bits.len(), 1))?;
    for bit in bits {
        writer.push(u64::from(*bit), 1)?;
    }
    let bytes = writer.finish()?;
    Ok(bytes)
}
