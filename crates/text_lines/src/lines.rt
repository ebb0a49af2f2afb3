// Cuts lines off a text, and pieces off a line.
ghost use Rattle.std.specs.Prelude.{◌≡◌, ◌<◌, ◌≤◌, ◌+◌, ◌-◌, ◌∷◌, ℕ, None, IfSome, length, take, drop, nat_le};
ghost use Rattle.text_lines.specs.Lines.{before, bytes_after, lines, lines_of, without_return, is_blank, is_comment, is_skipped};
ghost use Rattle.text_lines.specs.Parts.{IsLineCut, IsTextCut};

use crate::passing::pass_blocks;
use memchr::memchr;

/// The bytes before the first byte `at`, and the bytes after it. Without that byte: all, and none.
pub fn cut_at(at: u8, text: &[u8]) -> (&[u8], &[u8])
    ensures before { result.0.now ≡ before at text.now }
    ensures behind { result.1.now ≡ bytes_after at text.now }
{
    match memchr(at, text) {
        Some(end) => (&text[..end], &text[end + 1..]),
        None => (text, &text[text.len()..]),
    }
}

/// The first line, without its end, and the text after it.
pub fn cut_line(text: &[u8]) -> (&[u8], &[u8])
    requires { 0 < length text.now }
    ensures lines { lines text.now ≡ result.0.now ∷ lines result.1.now }
    ensures shorter { length result.1.now < length text.now }
    ensures cut { IsLineCut text.now result.0.now result.1.now }
{
    cut_at(b'\n', text)
}

/// The line without a byte 13 at its end.
pub fn without_return(line: &[u8]) -> &[u8]
    ensures { result.now ≡ without_return line.now }
{
    match line {
        [front @ .., 13] => front,
        _ => line,
    }
}

/// Whether a line is empty, or has spaces alone.
pub fn is_blank(line: &[u8]) -> bool
    ensures { result ≡ is_blank line.now }
{
    line.iter().all(|byte| *byte == b' ')
}

/// Whether a line is blank or a comment: a script skips it.
pub fn is_skipped(line: &[u8]) -> bool
    ensures { result ≡ is_skipped line.now }
{
    is_blank(line) || is_comment(line)
}

fn is_comment(line: &[u8]) -> bool
    ensures { result ≡ is_comment line.now }
{
    match line {
        [first, ..] => *first == b'#',
        [] => false,
    }
}

/// The first `count` lines, and the text after them. None if the text has fewer lines.
pub fn cut_lines(text: &[u8], count: u64) -> Option<(&[u8], &[u8])>
    ensures cut { IfSome result (λ cut. IsTextCut text.now cut.0.now cut.1.now) }
    ensures front { IfSome result (λ cut. lines_of cut.0.now ≡ take count (lines_of text.now)) }
    ensures behind { IfSome result (λ cut. lines_of cut.1.now ≡ drop count (lines_of text.now)) }
    ensures enough { IfSome result (λ _. count ≤ length (lines_of text.now)) }
    ensures shorter { IfSome result (λ cut. count + length cut.1.now ≤ length text.now) }
    ensures none { result ≡ None → length (lines_of text.now) < count }
{
    let passed = pass_blocks(text, count);
    let mut rest = passed.after;
    for _line in passed.lines..count {
        if rest.is_empty() {
            return None;
        }
        let (_, after) = cut_line(rest);
        rest = after;
    }
    Some(text.split_at(text.len() - rest.len()))
}
