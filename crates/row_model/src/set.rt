// Tests whether texts are a set.
ghost use Rattle.std.specs.Prelude.{◌≡◌, ◌↔◌, ◌<◌, ℕ, length, IsTrue, IsUtf8};
ghost use Rattle.row_model.specs.Values.{IsSet};
ghost use Rattle.row_model.specs.Sets.{GoesUp};

use crate::limits::{MAX_MEMBERS, MAX_TEXT};
use crate::text::Text;

/// The number of bytes of a text; states that they are UTF-8.
fn text_len(text: &str) -> usize
    ensures len { result ≡ length text.now }
    ensures utf8 { IsUtf8 text.now }
{
    text.len()
}

/// Whether text `i` is greater than the one before it.
fn goes_up(texts: &[Text], i: usize) -> bool
    requires { i < length texts.now }
    ensures { IsTrue result ↔ GoesUp texts.now i }
{
    i == 0 || texts[i - 1].as_str().cmp(texts[i].as_str()).is_lt()
}

/// Whether the texts are a set.
pub(crate) fn are_set(texts: &[Text]) -> bool
    ensures { IsTrue result ↔ IsSet texts.now }
{
    if texts.len() > MAX_MEMBERS {
        return false;
    }
    let mut left = MAX_TEXT;
    for i in 0..texts.len() {
        if !goes_up(texts, i) {
            return false;
        }
        let len = text_len(texts[i].as_str());
        if len > left {
            return false;
        }
        left -= len;
    }
    true
}
