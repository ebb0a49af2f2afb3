// A list of blocks.
ghost use Rattle.std.specs.Prelude.{◌≡◌, ◌≤◌, ◌++◌, [], length, take, drop, filter, OnOk, OnErr};
ghost use Rattle.row_blocks.specs.Live.{has_live};

use crate::block::RowBlock;
use std::alloc::{AllocError, Global};
use std::marker::Model;

/// The blocks of a table, in order. Contracts see them as the list.
#[derive(Debug, Drop)]
pub struct Blocks {
    inner: Vec<RowBlock>,
}

impl Model for Blocks {
    ghost use Rattle.std.specs.Prelude.{List};
    ghost use Rattle.row_blocks.specs.Blocks.{Block};

    ghost Value = { List Block };

    ghost view = { λ list. list.inner.items };
}

impl Blocks {
    pub fn new(alloc: Global) -> Blocks
        ensures { result ≡ [] }
    {
        Blocks {
            inner: Vec::new(alloc),
        }
    }

    pub fn of(inner: Vec<RowBlock>) -> Blocks
        ensures { result ≡ inner.items }
    {
        Blocks { inner }
    }

    pub fn as_slice(&self) -> &[RowBlock]
        ensures { result.now ≡ self.now }
    {
        self.inner.as_slice()
    }

    pub fn into_inner(self) -> Vec<RowBlock>
        ensures { result.items ≡ self }
    {
        self.inner
    }

    /// Appends blocks. Err leaves the list as it was.
    pub fn append(&mut self, mut more: Vec<RowBlock>) -> Result<(), AllocError>
        ensures done { OnOk result (self.new ≡ self.old ++ more.items) }
        ensures kept { OnErr result (self.new ≡ self.old) }
    {
        self.inner.append(&mut more)
    }

    /// Keeps the first `count` blocks.
    pub fn truncate(&mut self, count: usize)
        ensures { self.new ≡ take count self.old }
    {
        self.inner.truncate(count);
    }

    /// Removes the first `count` blocks.
    pub fn drop_first(&mut self, count: usize)
        requires { count ≤ length self.old }
        ensures { self.new ≡ drop count self.old }
    {
        let left = self.inner.len() - count;
        self.inner.rotate_left(count);
        self.inner.truncate(left);
    }

    /// Keeps the blocks with a row at or after the horizon, without memory.
    pub fn retain_live(&mut self, horizon: i64)
        ensures { self.new ≡ filter (has_live horizon) self.old }
    {
        self.inner.retain(|block| block.has_live(horizon));
    }

    /// Notes a horizon in each block, which may then sort its times. A block that finds no memory stays as it is.
    pub fn note_horizon(&mut self, horizon: i64)
        ensures { self.new ≡ self.old }
    {
        note_each(&mut self.inner, horizon);
    }
}

fn note_each(blocks: &mut Vec<RowBlock>, horizon: i64)
    ensures { blocks.new.items ≡ blocks.old.items }
{
    let alloc = *blocks.allocator();
    for place in 0..blocks.len() {
        blocks[place].note_horizon(alloc, horizon);
    }
}
