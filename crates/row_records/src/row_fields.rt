// Fields at the start of bytes, tested and borrowed. Each reader gives a value and the bytes after it, or None.
ghost use Rattle.std.specs.Int.{w16, w32, w64};
ghost use Rattle.leaf_model.specs.Reading.{number_at, text_at, name_at, time_at, long_text_at};
ghost use Rattle.row_records.specs.Reading.{FindsView};

/// A number, and what follows it.
pub(crate) fn u16_in(bytes: &[u8]) -> Option<(u16, &[u8])>
    ensures { FindsView (λ x. (x.0, x.1.now)) result (number_at w16 bytes.now) }
{
    match bytes.split_first_chunk::<2>() {
        Some((front, rest)) => Some((u16::from_le_bytes(*front), rest)),
        None => None,
    }
}

pub(crate) fn u32_in(bytes: &[u8]) -> Option<(u32, &[u8])>
    ensures { FindsView (λ x. (x.0, x.1.now)) result (number_at w32 bytes.now) }
{
    match bytes.split_first_chunk::<4>() {
        Some((front, rest)) => Some((u32::from_le_bytes(*front), rest)),
        None => None,
    }
}

pub(crate) fn u64_in(bytes: &[u8]) -> Option<(u64, &[u8])>
    ensures { FindsView (λ x. (x.0, x.1.now)) result (number_at w64 bytes.now) }
{
    match bytes.split_first_chunk::<8>() {
        Some((front, rest)) => Some((u64::from_le_bytes(*front), rest)),
        None => None,
    }
}

/// A text of `len` bytes, and what follows it.
#[tactic(auto, unfolding(leaf_model::specs::Reading::text_at))]
fn text_in(len: usize, bytes: &[u8]) -> Option<(&str, &[u8])>
    ensures { FindsView (λ x. (x.0.now, x.1.now)) result (text_at len bytes.now) }
{
    if bytes.len() < len {
        return None;
    }
    let (front, rest) = bytes.split_at(len);
    match std::str::from_utf8(front) {
        Ok(text) => Some((text, rest)),
        Err(_) => None,
    }
}

/// A name, and what follows it.
#[tactic(auto, unfolding(leaf_model::specs::Reading::name_at))]
pub(crate) fn name_in(bytes: &[u8]) -> Option<(&str, &[u8])>
    ensures { FindsView (λ x. (x.0.now, x.1.now)) result (name_at bytes.now) }
{
    match bytes {
        [] => None,
        [len, rest @ ..] => text_in(*len as usize, rest),
    }
}

/// A text of a value, and what follows it.
#[tactic(auto, unfolding(leaf_model::specs::Reading::long_text_at))]
pub(crate) fn long_text_in(bytes: &[u8]) -> Option<(&str, &[u8])>
    ensures { FindsView (λ x. (x.0.now, x.1.now)) result (long_text_at bytes.now) }
{
    let (len, rest) = u16_in(bytes)?;
    text_in(len as usize, rest)
}

/// A row's time, and what follows it.
#[tactic(auto, unfolding(leaf_model::specs::Reading::time_at))]
pub(crate) fn time_in(bytes: &[u8]) -> Option<(i64, &[u8])>
    ensures { FindsView (λ x. (x.0, x.1.now)) result (time_at bytes.now) }
{
    let (number, rest) = u64_in(bytes)?;
    if number >= 1 << 63 {
        return None;
    }
    Some((number as i64, rest))
}
