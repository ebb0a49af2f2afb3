// Reads fields from bytes that are known to spell them. Nothing is tested again.
ghost use Rattle.std.specs.Prelude.{◌≡◌, IsSome, Some};
ghost use Rattle.std.specs.Int.{w16, w64};
ghost use Rattle.leaf_model.specs.Reading.{number_at, text_at, name_at, long_text_at, texts_at, time_at};
ghost use Rattle.leaf_model.specs.Fronts.{front_of};

/// Reads a number. Gives it and the bytes that follow.
pub(crate) fn u16_in(bytes: &[u8]) -> (u16, &[u8])
    requires { IsSome (number_at w16 bytes.now) }
    ensures { number_at w16 bytes.now ≡ Some (result.0, result.1.now) }
{
    match bytes.split_first_chunk::<2>() {
        Some((front, rest)) => (u16::from_le_bytes(*front), rest),
        None => unreachable!(),
    }
}

pub(crate) fn u64_in(bytes: &[u8]) -> (u64, &[u8])
    requires { IsSome (number_at w64 bytes.now) }
    ensures { number_at w64 bytes.now ≡ Some (result.0, result.1.now) }
{
    match bytes.split_first_chunk::<8>() {
        Some((front, rest)) => (u64::from_le_bytes(*front), rest),
        None => unreachable!(),
    }
}

#[tactic(auto, unfolding(crate::specs::Reading::text_at))]
fn text_in(len: usize, bytes: &[u8]) -> (&str, &[u8])
    requires { IsSome (text_at len bytes.now) }
    ensures { text_at len bytes.now ≡ Some (result.0.now, result.1.now) }
{
    let (front, rest) = bytes.split_at(len);
    // They are known to be UTF-8.
    (unsafe { std::str::from_utf8_unchecked(front) }, rest)
}

/// Reads a name. Gives it and the bytes that follow.
#[tactic(auto, unfolding(crate::specs::Reading::name_at))]
pub(crate) fn name_in(bytes: &[u8]) -> (&str, &[u8])
    requires { IsSome (name_at bytes.now) }
    ensures { name_at bytes.now ≡ Some (result.0.now, result.1.now) }
{
    match bytes {
        [] => unreachable!(),
        [len, rest @ ..] => text_in(*len as usize, rest),
    }
}

/// Reads a text of a value. Gives it and the bytes that follow.
#[tactic(auto, unfolding(crate::specs::Reading::long_text_at))]
pub(crate) fn long_text_in(bytes: &[u8]) -> (&str, &[u8])
    requires { IsSome (long_text_at bytes.now) }
    ensures { long_text_at bytes.now ≡ Some (result.0.now, result.1.now) }
{
    let (len, rest) = u16_in(bytes);
    text_in(len as usize, rest)
}

/// The bytes that follow the first `count` texts.
pub(crate) fn behind_texts(count: u16, bytes: &[u8]) -> &[u8]
    requires { IsSome (texts_at count bytes.now) }
    ensures { texts_at count bytes.now ≡ Some (front_of (texts_at count bytes.now), result.now) }
{
    let mut rest = bytes;
    for _ in 0..count {
        let (_text, after) = long_text_in(rest);
        rest = after;
    }
    rest
}

/// Reads a row's time. Gives it and the bytes that follow.
#[tactic(auto, unfolding(crate::specs::Reading::time_at))]
pub(crate) fn time_in(bytes: &[u8]) -> (i64, &[u8])
    requires { IsSome (time_at bytes.now) }
    ensures { time_at bytes.now ≡ Some (result.0, result.1.now) }
{
    let (number, rest) = u64_in(bytes);
    (number as i64, rest)
}
