// Guesses at the codes of texts. Each guess is tested before it is used, so a wrong one does no harm.
use std::alloc::{AllocError, Global};

/// The number of guesses.
const KEPT: usize = 1024;

/// The last code of a text, by a hash of a few of its bytes.
#[derive(Drop)]
pub(crate) struct Guesses {
    codes: Vec<u32>,
}

/// The index of a text's guess. The length and the last bytes tell most texts of a column apart.
fn place_of(bytes: &[u8]) -> usize {
    let mut mixed = bytes.len();
    for byte in bytes.iter().rev().take(4) {
        mixed = mixed.wrapping_mul(31).wrapping_add(usize::from(*byte));
    }
    mixed % KEPT
}

impl Guesses {
    pub(crate) fn new(alloc: Global) -> Guesses {
        Guesses {
            codes: Vec::new(alloc),
        }
    }

    /// The code that the text may have.
    pub(crate) fn guess(&self, bytes: &[u8]) -> usize {
        match self.codes.get(place_of(bytes)) {
            None => 0,
            Some(code) => *code as usize,
        }
    }

    /// Notes the code of the text.
    pub(crate) fn keep(&mut self, bytes: &[u8], code: usize) -> Result<(), AllocError> {
        if self.codes.is_empty() {
            self.codes.resize(KEPT, 0)?;
        }
        let place = place_of(bytes);
        if place < self.codes.len() {
            self.codes[place] = (code & 0xFFFF_FFFF) as u32;
        }
        Ok(())
    }
}
