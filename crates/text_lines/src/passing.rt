// Skips many lines at a time.
ghost use Rattle.std.specs.Prelude.{◌≡◌, ◌<◌, ◌≤◌, length, IfSome};
ghost use Rattle.text_lines.specs.Parts.{IsFront};

use crate::ends::line_count;
use crate::parts::cut_behind;

/// The bytes whose lines are counted at once.
const BLOCK: usize = 1024;

/// Up to this many lines it is faster to skip them one by one.
const FEW_LINES: u64 = 32;

/// The number of lines that were skipped, and the text after them.
#[derive(Clone, Copy)]
pub struct Passed<'a> {
    pub lines: u64,
    pub after: &'a [u8],
}

/// Skips blocks of lines, at most `most` lines in all. About as many lines as one block has may then be left to skip.
#[tactic(auto, using(crate::proofs::InParts::front_none, crate::proofs::InParts::front_then))]
pub fn pass_blocks(text: &[u8], most: u64) -> Passed
    ensures front { IsFront text.now result.after.now result.lines }
    ensures few { result.lines ≤ most }
{
    let mut lines = 0;
    let mut rest = text;
    while let Some(block) = pass_block(rest, most - lines) {
        lines += block.lines;
        rest = block.after;
    }
    Passed { lines, after: rest }
}

/// Skips the lines that reach into the first block of bytes. None if the text is shorter than a block, or these are
/// more than `most` lines.
#[tactic(auto, using(crate::proofs::InParts::front_of_cut))]
fn pass_block(text: &[u8], most: u64) -> Option<Passed>
    ensures front { IfSome result (λ passed. IsFront text.now passed.after.now passed.lines) }
    ensures few { IfSome result (λ passed. passed.lines ≤ most) }
    ensures shorter { IfSome result (λ passed. length passed.after.now < length text.now) }
{
    if most < FEW_LINES || text.len() < BLOCK {
        return None;
    }
    let (front, after) = cut_behind(text, BLOCK - 1);
    let lines = line_count(front);
    if lines > most {
        return None;
    }
    Some(Passed { lines, after })
}
