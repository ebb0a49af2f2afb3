// A hash table that guesses the places of keys in a table of groups.
use crate::seen::see_key;
use leaf_model::{Group, Key, LentTexts, LentValue};
use std::alloc::{AllocError, Global};

fn mix_word(mixed: u64, word: u64) -> u64 {
    let mixed = (mixed ^ word).wrapping_mul(0x9E37_79B9_7F4A_7C15);
    mixed ^ (mixed >> 32)
}

/// Mixes in the first bytes, at most 64, eight at a time.
fn mix_front(mixed: u64, bytes: &[u8]) -> u64 {
    let mut mixed = mixed;
    let mut rest = match bytes.get(..64) {
        None => bytes,
        Some(front) => front,
    };
    while let Some((word, further)) = rest.split_first_chunk::<8>() {
        mixed = mix_word(mixed, u64::from_le_bytes(*word));
        rest = further;
    }
    mixed
}

/// Mixes in the first and the last bytes. They tell most names apart, and a long text costs no more than a short one.
fn mix_text(mixed: u64, text: &str) -> u64 {
    let bytes = text.as_bytes();
    let mut last: u64 = 2;
    for byte in bytes.iter().rev().take(8) {
        last = (last << 8) | u64::from(*byte);
    }
    mix_word(mix_front(mixed, bytes), last)
}

/// Mixes in each text, and their number.
fn mix_texts(mixed: u64, texts: &LentTexts) -> u64 {
    let mut mixed = mixed;
    let mut left = *texts;
    while let Some((text, others)) = left.split_first() {
        mixed = mix_text(mixed, text);
        left = others;
    }
    mix_word(mixed, texts.len() as u64)
}

fn mix_value(mixed: u64, value: &LentValue) -> u64 {
    match value {
        LentValue::Int(n) => mix_word(mixed, u64::from_le_bytes(n.to_le_bytes())),
        LentValue::Text(text) => mix_text(mixed, text),
        LentValue::Set(members) => mix_texts(mixed, members),
    }
}

fn mix(mixed: u64, seen: Option<LentValue>) -> u64 {
    match seen {
        None => mix_word(mixed, 1),
        Some(value) => mix_value(mixed, &value),
    }
}

/// The hash of a row's keys, never 0.
pub fn mix_seen(keys: &[Option<LentValue>]) -> u32 {
    let mut mixed: u64 = 0;
    for key in keys {
        mixed = mix(mixed, *key);
    }
    (mix_word(mixed, 3) >> 32) as u32 | 1
}

/// The same hash, of a group's keys.
fn mix_keys(keys: &[Key]) -> u32 {
    let mut mixed: u64 = 0;
    for key in keys {
        mixed = mix(mixed, see_key(key));
    }
    (mix_word(mixed, 3) >> 32) as u32 | 1
}

#[derive(Clone, Copy)]
struct Guess {
    mixed: u32,
    at: u32,
}

const NONE: Guess = Guess { mixed: 0, at: 0 };

/// Guesses at the places of keys in a table, by hash. Each guess is tested before it is used, so a wrong one does no
/// harm.
#[derive(Drop)]
pub struct Guesses {
    slots: Vec<Guess>,
}

impl Guesses {
    pub fn new(alloc: Global, count: usize) -> Result<Guesses, AllocError> {
        Ok(Guesses {
            slots: vec![in alloc; NONE; count]?,
        })
    }

    /// The slot of a hash, or the empty slot where it would go.
    fn slot(&self, mixed: u32) -> usize {
        let count = self.slots.len();
        let first = ((u64::from(mixed)).wrapping_mul(count as u64) >> 32) as usize;
        let mut slot = first;
        for _ in 0..count {
            match self.slots.get(slot) {
                None => slot = 0,
                Some(guess) => {
                    if guess.mixed == mixed || guess.mixed == 0 {
                        return slot;
                    }
                    slot = slot.saturating_add(1);
                }
            }
        }
        first
    }

    /// The place that was kept for a hash. None if none was.
    pub fn guess(&self, mixed: u32) -> Option<usize> {
        match self.slots.get(self.slot(mixed)) {
            None => None,
            Some(guess) => {
                if guess.mixed == mixed {
                    Some(guess.at as usize)
                } else {
                    None
                }
            }
        }
    }

    fn keep(&mut self, mixed: u32, at: u32) {
        let slot = self.slot(mixed);
        if let Some(guess) = self.slots.get_mut(slot) {
            *guess = Guess { mixed, at };
        }
    }

    /// Makes the guesses for this table. At most half of the slots are taken.
    pub fn renew(&mut self, alloc: Global, table: &[Group]) -> Result<(), AllocError> {
        if self.slots.len() < table.len().saturating_mul(2) {
            self.slots = vec![in alloc; NONE; table.len().saturating_mul(4)]?;
        } else {
            self.slots.fill(NONE);
        }
        let mut at: u32 = 0;
        for group in table {
            self.keep(mix_keys(group.keys.as_slice()), at);
            at = at.saturating_add(1);
        }
        Ok(())
    }
}
