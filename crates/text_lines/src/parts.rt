// Cuts a text into parts for threads.
ghost use Rattle.std.specs.Prelude.{◌≡◌, ◌<◌, ◌≤◌, ◌⊎◌, length, take, drop, max, true, IfOk};
ghost use Rattle.text_lines.specs.Lines.{lines_of};
ghost use Rattle.text_lines.specs.Parts.{IsTextCut, bytes_of_parts, ends, ends_line, lines_of_parts};

use crate::lines::{cut_line, cut_lines};
use memchr::memrchr;
use std::alloc::{AllocError, Global};

/// The least number of lines that is worth a second thread.
pub const MANY_LINES: u64 = 2048;

/// The most parts of a text: a few for each processor, as some parts take longer than others.
const PARTS: usize = 16;

/// The parts of a text, for threads to read. A text of few lines is one part. Err if memory runs out.
pub fn parts_of(alloc: Global, text: &[u8]) -> Result<Vec<&[u8]>, AllocError>
    ensures joined { IfOk result (λ parts. bytes_of_parts parts.items ≡ text.now) }
    ensures lines { IfOk result (λ parts. lines_of_parts parts.items ≡ lines_of text.now) }
{
    let count = if cut_lines(text, MANY_LINES).is_some() {
        PARTS
    } else {
        1
    };
    cut_parts(alloc, text, count)
}

/// At most `count` parts. Each but the last ends with a line end.
fn cut_parts(alloc: Global, text: &[u8], count: usize) -> Result<Vec<&[u8]>, AllocError>
    requires { 0 < count }
    ensures joined { IfOk result (λ parts. bytes_of_parts parts.items ≡ text.now) }
    ensures lines { IfOk result (λ parts. lines_of_parts parts.items ≡ lines_of text.now) }
{
    let least = text.len() / count;
    let mut parts = Vec::with_capacity(alloc, count)?;
    let mut rest = text;
    while rest.len() > least {
        let (part, after) = cut_behind(rest, least);
        parts.push(part)?;
        rest = after;
    }
    parts.push(rest)?;
    Ok(parts)
}

/// The text up to the end of the line with the byte at `place`, and the text after it.
pub fn cut_behind(text: &[u8], place: usize) -> (&[u8], &[u8])
    requires { place < length text.now }
    ensures cut { IsTextCut text.now result.0.now result.1.now }
    ensures ended { 0 < length result.1.now → ends_line result.0.now ≡ true }
    ensures shorter { length result.1.now < length text.now }
{
    let (_, rest) = cut_line(&text[place..]);
    text.split_at(text.len() - rest.len())
}

/// The length of the text up to its last line end, if that is after the first `looked` bytes; else 0.
pub fn last_end(text: &[u8], looked: usize) -> usize
    requires { looked ≤ length text.now }
    ensures within { result ≤ length text.now }
    ensures ended { ends_line (take result text.now) ≡ true }
    ensures place { (result ≡ 0) ⊎ (looked < result) }
    ensures last { ends (drop (max result looked) text.now) ≡ 0 }
{
    match memrchr(b'\n', &text[looked..]) {
        Some(at) => looked + at + 1,
        None => 0,
    }
}
