// Counts the lines of a text by their ends.
ghost use Rattle.std.specs.Prelude.{◌≡◌, ◌≤◌, ◌==◌, length, if◌then◌else◌};
ghost use Rattle.text_lines.specs.Lines.{lines_of};
ghost use Rattle.text_lines.specs.Parts.{ends, ends_line};

/// The bytes that are counted in a u8, which lets the compiler compare many of them at once.
const CHUNK: usize = 192;

/// The number of lines.
#[tactic(auto, using(crate::proofs::Counted::counted_ended, crate::proofs::Counted::counted_open))]
pub fn line_count(text: &[u8]) -> u64
    ensures { result ≡ length (lines_of text.now) }
{
    let count = ends(text);
    if ends_line(text) { count } else { count + 1 }
}

/// Whether the text is empty, or ends with a line end.
#[tactic(auto, using(crate::proofs::Counted::ends_line_last))]
fn ends_line(text: &[u8]) -> bool
    ensures { result ≡ ends_line text.now }
{
    match text {
        [.., last] => *last == b'\n',
        [] => true,
    }
}

/// The number of line ends.
#[tactic(auto, using(crate::proofs::Counted::ends_cut))]
fn ends(text: &[u8]) -> u64
    ensures exact { result ≡ ends text.now }
    ensures few { result ≤ length text.now }
{
    let mut count = 0u64;
    let mut rest = text;
    while rest.len() > CHUNK {
        let (front, back) = rest.split_at(CHUNK);
        count += ends_in(front) as u64;
        rest = back;
    }
    count + ends_in(rest) as u64
}

/// The number of line ends of at most 192 bytes.
#[tactic(auto, using(crate::proofs::Counted::ends_next))]
fn ends_in(text: &[u8]) -> u8
    requires { length text.now ≤ 192 }
    ensures exact { result ≡ ends text.now }
    ensures few { result ≤ length text.now }
{
    let mut count = 0u8;
    for byte in text {
        count += end_of(*byte);
    }
    count
}

#[inline(always)]
fn end_of(byte: u8) -> u8
    ensures exact { result ≡ (if byte == 10 then 1 else 0) }
    ensures few { result ≤ 1 }
{
    if byte == b'\n' { 1 } else { 0 }
}
