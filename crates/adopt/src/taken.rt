// How far an adoption has come.
ghost use Rattle.std.specs.Prelude.{◌≡◌, length};
ghost use Rattle.column_bytes.specs.Coding.{joined};

use crate::spans::Span;
use leaf_model::Names;
use region_layout::Directory;
use row_blocks::ColumnBytes;
use std::marker::Model;
use std::snapshot::Snapshot;

/// An adoption in progress: what is left of an image, and the columns that were taken, the last one first.
#[derive(Drop)]
pub struct Adopt {
    pub(crate) names: Snapshot<Names>,
    pub(crate) version: u32,
    pub(crate) image_len: u64,
    pub(crate) directory: Directory,
    // The place where the directory stood.
    pub(crate) place: u64,
    pub(crate) left: Vec<Span>,
    pub(crate) taken: Vec<ColumnBytes>,
    // The number of bytes that were taken.
    pub(crate) held: u64,
}

impl Model for Adopt {
    ghost use Rattle.std.specs.Prelude.{length, reverse};
    ghost use Rattle.adopt.specs.Taken.{AdoptState, KeepsTrack};

    ghost Value = { AdoptState };

    ghost view = { λ a. record {
      names = a.names.value;
      version = a.version;
      image_len = a.image_len;
      directory = a.directory;
      left = length a.left.items;
      heap = reverse a.taken.items;
    } };

    ghost invariant = { λ a. KeepsTrack a.names.value a.directory a.place a.left.items (reverse a.taken.items) a.held };
}

impl Adopt {
    /// The total length in bytes of the columns that were taken.
    pub fn held(&self) -> u64
        ensures { result ≡ length (joined self.now.heap) }
    {
        self.held
    }

    /// The length of the region in bytes, before the first step.
    pub fn image_len(&self) -> u64
        ensures { result ≡ self.now.image_len }
    {
        self.image_len
    }
}
