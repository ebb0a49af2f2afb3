// Differences and their codes.
ghost use Rattle.std.specs.Prelude.{◌≡◌, ◌<◌, ◌^◌};
ghost use Rattle.delta_codes.specs.Slots.{after, unzigzag, zigzag};

/// The code of a difference: 2d for d from 0 up, and -2d - 1 below 0, so that small differences have small codes.
pub fn zigzag(d: i64) -> u64
    ensures { result ≡ zigzag d }
{
    let doubled = d.cast_unsigned() << 1;
    if d < 0 { !doubled } else { doubled }
}

/// The difference that a code stands for.
fn unzigzag(code: u64) -> i64
    ensures { result ≡ unzigzag code }
{
    let half = (code >> 1) as i64;
    if code & 1 == 0 { half } else { !half }
}

/// The next value: the one before plus the difference that the code stands for, wrapping at 64 bits.
pub fn undo(anchor: i64, code: u64) -> i64
    ensures { result ≡ after anchor code }
{
    anchor.wrapping_add(unzigzag(code))
}
