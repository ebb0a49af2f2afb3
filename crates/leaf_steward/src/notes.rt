// Notes: what a deed tells of the entries that it made.
ghost use Rattle.std.specs.Prelude.{◌≡◌, ◌+◌, ◌<◌, ◌≤◌, ◌++◌, ◌∷◌, [], length, slice_get, Some};

use leaf_words::{Note, What};
use std::marker::Model;

/// At most 80 notes, in order. Contracts see them as the list. A drain of 16 tables makes at most 49.
#[derive(Drop)]
pub struct Notes {
    inner: [Note; 80],
    len: u32,
}

impl Model for Notes {
    ghost use Rattle.std.specs.Prelude.{List, ◌≡◌, ◌≤◌, length, take};
    ghost use Rattle.leaf_words.specs.declared.note.Note.{Note};

    ghost Value = { List Note };

    ghost view = { λ notes. take notes.len notes.inner };

    ghost invariant = { λ notes. (notes.len ≤ 80) × (length notes.inner ≡ 80) };
}

impl Notes {
    pub fn new() -> Notes
        ensures { result ≡ [] }
    {
        let none = Note {
            table: 0,
            number: 0,
            what: What::Handed,
        };
        Notes {
            inner: [none; 80],
            len: 0,
        }
    }

    /// The number of notes.
    pub fn len(&self) -> u32
        ensures { result ≡ length self.now }
    {
        self.len
    }

    /// Note i, from 0 on.
    pub fn get(&self, i: u32) -> Note
        requires { i < length self.now }
        ensures { slice_get self.now i ≡ Some result }
    {
        self.inner[i as usize]
    }

    /// Removes all notes.
    pub fn clear(&mut self)
        ensures { self.new ≡ [] }
    {
        self.len = 0;
    }

    /// Appends a note.
    pub fn push(&mut self, note: Note)
        requires { length self.old < 80 }
        ensures { self.new ≡ self.old ++ note ∷ [] }
    {
        self.inner[self.len as usize] = note;
        self.len += 1;
    }

    /// Appends other notes.
    pub fn append(&mut self, others: &Notes)
        requires { length self.old + length others.now ≤ 80 }
        ensures { self.new ≡ self.old ++ others.now }
    {
        for i in 0..others.len() {
            self.push(others.get(i));
        }
    }

    // Appends the note of an entry.
    pub(crate) fn note(&mut self, table: u32, number: u64, what: What)
        requires { length self.old < 32 }
        ensures { self.new ≡ self.old ++ record { table = table; number = number; what = what } ∷ [] }
    {
        self.push(Note {
            table,
            number,
            what,
        });
    }
}
