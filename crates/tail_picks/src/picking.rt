// Draws the two leaves of a try, and picks one.
ghost use Rattle.std.specs.Prelude.{◌≡◌, ◌<◌, ◌%◌};
ghost use Rattle.rand_pcg.specs.Pcg.{pcg32};
ghost use Rattle.tail_picks.specs.Tails.{generator_of, picked};

use rand_core::utils::NextWord;
use rand_pcg::Lcg64Xsh32;

/// The generator of a key's words.
pub fn words_of(key: u64) -> Lcg64Xsh32
    ensures { result ≡ generator_of key }
{
    Lcg64Xsh32::new(key, 1)
}

/// The two leaves of the next try, out of `leaves`, by the next two words. They may be the same leaf.
pub fn next_leaves(words: &mut Lcg64Xsh32, leaves: u32) -> (u32, u32)
    requires { 0 < leaves }
    ensures first { result.0 ≡ (pcg32 words.old).0 % leaves }
    ensures second { result.1 ≡ (pcg32 (pcg32 words.old).1).0 % leaves }
    ensures words { words.new ≡ (pcg32 (pcg32 words.old).1).1 }
{
    let first = words.next_word() % leaves;
    let second = words.next_word() % leaves;
    (first, second)
}

/// The leaf with more free rows, the first in a tie. A leaf that did not tell its free rows is left out. None if
/// neither did.
pub fn pick(first: u32, one: Option<u64>, second: u32, two: Option<u64>) -> Option<u32>
    ensures { result ≡ picked first one second two }
{
    match (one, two) {
        (None, None) => None,
        (Some(_), None) => Some(first),
        (None, Some(_)) => Some(second),
        (Some(a), Some(b)) => Some(if a < b { second } else { first }),
    }
}
