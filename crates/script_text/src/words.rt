// The words of a line, and the numbers and names that they give.
ghost use Rattle.std.specs.Prelude.{◌≡◌, ◌==◌, slice_index, ◌<◌, ◌^◌, ◌-◌, ◌∷◌, [], ℕ, None, IfSome, IfOk, option_map, length, min};
ghost use Rattle.std.specs.Char.{is_ascii_digit};
ghost use Rattle.std.specs.List.{list_all};
ghost use Rattle.row_model.specs.Values.{IsTime};
ghost use Rattle.text_lines.specs.Lines.{before, bytes_after};
ghost use Rattle.script_text.specs.Words.{words_of, unindented, first_word, behind_word, trimmed, place_of};
ghost use Rattle.text_lines.specs.Numbers.{is_number, number_of, capped, count_of, time_of_word};

use leaf_model::Text;
use text_lines::cut_at;

/// The first word of a line, and all that follows it and one space. Both are empty if the line has no word.
pub fn cut_word(line: &[u8]) -> (&[u8], &[u8])
    ensures word { result.0.now ≡ first_word line.now }
    ensures behind { result.1.now ≡ behind_word line.now }
{
    cut_at(b' ', unindented(line))
}

/// The first word of a line, and the rest of it. None if the line has no word.
pub fn next_word(line: &[u8]) -> Option<(&[u8], &[u8])>
    ensures some { IfSome result (λ cut. words_of line.now ≡ cut.0.now ∷ words_of cut.1.now) }
    ensures shorter { IfSome result (λ cut. length cut.1.now < length line.now) }
    ensures none { result ≡ None → words_of line.now ≡ [] }
{
    let (word, rest) = cut_word(line);
    if word.is_empty() {
        None
    } else {
        Some((word, rest))
    }
}

fn unindented(line: &[u8]) -> &[u8]
    ensures { result.now ≡ unindented line.now }
{
    let mut rest = line;
    while let [b' ', more @ ..] = rest {
        rest = more;
    }
    rest
}

/// The text without the spaces at its end.
pub fn trimmed(text: &[u8]) -> &[u8]
    ensures { result.now ≡ trimmed text.now }
{
    let mut front = text;
    while ends_in_space(front) {
        front = &front[..front.len() - 1];
    }
    front
}

fn ends_in_space(text: &[u8]) -> bool
    ensures { result ≡ (slice_index text.now (length text.now - 1) == 32) }
{
    match text {
        [.., last] => *last == b' ',
        [] => false,
    }
}

/// The number that a word of 1 to 20 digits gives; it saturates at the greatest `u64`. None if the word is no such
/// digits.
pub fn number_of(word: &[u8]) -> Option<u64>
    ensures { result ≡ option_map capped (number_of word.now) }
{
    if !is_number(word) {
        return None;
    }
    match std::str::from_utf8(word) {
        Ok(digits) => Some(digits.parse::<u64>().unwrap_or(u64::MAX)),
        Err(_) => unreachable!(),
    }
}

/// The number that a word of 1 to 20 digits gives. None if it is no `u64`.
pub fn count_of(word: &[u8]) -> Option<u64>
    ensures { result ≡ count_of word.now }
{
    if !is_number(word) {
        return None;
    }
    match std::str::from_utf8(word) {
        Ok(digits) => digits.parse::<u64>().ok(),
        Err(_) => unreachable!(),
    }
}

/// The time that a word of 1 to 20 digits gives.
pub fn time_of(word: &[u8]) -> Option<i64>
    ensures exact { result ≡ time_of_word word.now }
    ensures is_time { IfSome result IsTime }
{
    if !is_number(word) {
        return None;
    }
    match std::str::from_utf8(word) {
        Ok(digits) => digits.parse::<i64>().ok(),
        Err(_) => unreachable!(),
    }
}

fn is_number(word: &[u8]) -> bool
    ensures { result ≡ is_number word.now }
{
    !word.is_empty() && word.len() <= 20 && has_digits_alone(word)
}

fn has_digits_alone(word: &[u8]) -> bool
    ensures { result ≡ list_all is_ascii_digit word.now }
{
    word.iter().all(|byte| byte.is_ascii_digit())
}

/// The place of a name among the names.
pub fn place_of(names: &[Text], name: &[u8]) -> Option<u32>
    requires { length names.now < 2 ^ 32 }
    ensures { result ≡ place_of names.now name.now }
{
    let mut place = 0;
    for other in names {
        if other.as_str().as_bytes() == name {
            return Some(place);
        }
        place += 1;
    }
    None
}
