// A short line of printable bytes.
ghost use Rattle.std.specs.Prelude.{◌≡◌, ◌≤◌, [], ◌∷◌, ◌++◌, length, take};
ghost use Rattle.rollover_watch.specs.Lines.{ArePrintable};

use std::marker::Model;

/// A line of at most 80 bytes, each from 32 to 126. Contracts see it as its bytes.
#[derive(Drop)]
pub struct Line {
    bytes: [u8; 80],
    len: usize,
}

impl Model for Line {
    ghost use Rattle.std.specs.Prelude.{List, ℕ, ◌≤◌, length, take};
    ghost use Rattle.rollover_watch.specs.Lines.{ArePrintable, IsLine};

    ghost Value = { List ℕ };

    ghost view = { λ line. take line.len line.bytes };

    ghost invariant = { λ line. IsLine line.len line.bytes };
}

impl Line {
    pub fn new() -> Line
        ensures { result ≡ [] }
    {
        Line {
            bytes: [0; 80],
            len: 0,
        }
    }

    pub fn as_bytes(&self) -> &[u8]
        ensures bytes { result.now ≡ self.now }
        ensures short { length self.now ≤ 80 }
        ensures printable { ArePrintable self.now }
    {
        &self.bytes[..self.len]
    }

    /// Appends a byte, or drops it if the line has 80.
    pub fn push(&mut self, byte: u8)
        requires low { 32 ≤ byte }
        requires high { byte ≤ 126 }
        ensures { self.new ≡ take 80 (self.old ++ byte ∷ []) }
    {
        if self.len < self.bytes.len() {
            self.bytes[self.len] = byte;
            self.len += 1;
        }
    }
    /// Appends the prefix of a printable text that fits.
    pub fn push_all(&mut self, text: &[u8])
        requires { ArePrintable text.now }
        ensures { self.new ≡ take 80 (self.old ++ text.now) }
    {
        let room = self.bytes.len() - self.len;
        let fitting = &text[..text.len().min(room)];
        for byte in fitting {
            self.push(*byte);
        }
    }
}
