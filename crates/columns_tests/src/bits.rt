// Numbers that are packed at their least width, and bytes that are viewed as codes or as bits.
use bit_columns::{Packed, PresenceBits, pack, pack_bits, width_of};
use std::alloc::{AllocError, Global};
use std::test::Fail;

// Whether this is the least width that holds the numbers, and they are these bytes at it.
fn is_packed_so(
    alloc: Global,
    numbers: &[u64],
    width: u8,
    bytes: &[u8],
) -> Result<bool, AllocError> {
    let least = width_of(numbers);
    let packed = pack(alloc, numbers, least)?;
    Ok(least == width && packed.as_slice() == bytes)
}

// Whether the bytes are viewed as these codes.
fn are_codes(bytes: &[u8], width: u8, codes: &[u64]) -> bool {
    if width > 64 || codes.len() > 65536 {
        return false;
    }
    let count = codes.len() as u32;
    let Some(packed) = Packed::view(bytes, count, width) else {
        return false;
    };
    for i in 0..count {
        if packed.get(i) != codes[i as usize] {
            return false;
        }
    }
    true
}

// Whether the bytes are viewed as these bits.
fn are_bits(bytes: &[u8], bits: &[bool]) -> bool {
    if bits.len() > 65536 {
        return false;
    }
    let count = bits.len() as u32;
    let Some(presence) = PresenceBits::view(bytes, count) else {
        return false;
    };
    for i in 0..count {
        if presence.get(i) != bits[i as usize] {
            return false;
        }
    }
    true
}

#[test]
fn numbers_take_their_least_width(rt: HostRuntime) -> Result<(), Fail> {
    let alloc = rt.alloc();
    for (numbers, width, bytes) in [
        ([5, 1, 7].as_slice(), 3, b"\xcd\x01".as_slice()),
        ([u64::MAX].as_slice(), 64, [0xff; 8].as_slice()),
        ([0, 0].as_slice(), 0, b"".as_slice()),
        ([].as_slice(), 0, b"".as_slice()),
    ] {
        assert!(rt; is_packed_so(alloc, numbers, width, bytes)?);
        assert!(rt; are_codes(bytes, width, numbers));
    }
    Ok(())
}

// Whether the bytes are no codes of a width.
fn are_no_codes(bytes: &[u8], count: u32, width: u8) -> bool {
    width <= 64 && Packed::view(bytes, count, width).is_none()
}

#[test]
fn bytes_of_another_length_or_with_a_spare_bit_are_no_codes(rt: HostRuntime) {
    for bytes in [
        b"\xcd\x03".as_slice(),
        b"\xcd".as_slice(),
        b"\xcd\x01\0".as_slice(),
    ] {
        assert!(rt; are_no_codes(bytes, 3, 3));
    }
    // The bit that three codes do not take is the first of a fourth.
    assert!(rt; are_codes(b"\xcd\x03", 3, &[5, 1, 7, 1]));
}

// Whether the bits are these bytes.
fn are_packed_so(alloc: Global, bits: &[bool], bytes: &[u8]) -> Result<bool, AllocError> {
    let packed = pack_bits(alloc, bits)?;
    Ok(packed.as_slice() == bytes)
}

#[test]
fn presence_bits_stand_with_the_least_first(rt: HostRuntime) -> Result<(), Fail> {
    let alloc = rt.alloc();
    for (bits, bytes) in [
        ([true, false, true].as_slice(), b"\x05".as_slice()),
        (
            [
                true, false, true, true, false, false, true, true, true, true,
            ]
            .as_slice(),
            b"\xcd\x03".as_slice(),
        ),
    ] {
        assert!(rt; are_packed_so(alloc, bits, bytes)?);
        assert!(rt; are_bits(bytes, bits));
    }
    Ok(())
}

// Whether the bytes are no bits of this number.
fn are_no_bits(bytes: &[u8], count: u32) -> bool {
    PresenceBits::view(bytes, count).is_none()
}

#[test]
fn bytes_of_another_length_or_with_a_spare_bit_are_no_bits(rt: HostRuntime) {
    for count in [0, 3, 8, 9, 17] {
        assert!(rt; are_no_bits(b"\xcd\x03", count));
    }
}
