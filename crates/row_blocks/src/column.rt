// The columns of a block, each with its name.
ghost use Rattle.std.specs.Prelude.{◌≡◌};

use leaf_model::Text;
use std::marker::Model;

/// The bytes of a column. Contracts see them as the list.
#[derive(Debug, Drop)]
pub struct ColumnBytes {
    inner: Vec<u8>,
}

impl Model for ColumnBytes {
    ghost use Rattle.std.specs.Prelude.{List, ℕ};

    ghost Value = { List ℕ };

    ghost view = { λ list. list.inner.items };
}

impl ColumnBytes {
    pub fn of(inner: Vec<u8>) -> ColumnBytes
        ensures { result ≡ inner.items }
    {
        ColumnBytes { inner }
    }

    pub fn as_slice(&self) -> &[u8]
        ensures { result.now ≡ self.now }
    {
        self.inner.as_slice()
    }

    pub fn into_inner(self) -> Vec<u8>
        ensures { result.items ≡ self }
    {
        self.inner
    }
}

/// A column with its name.
#[derive(Debug, Drop)]
pub struct BlockColumn {
    pub name: Text,
    pub bytes: ColumnBytes,
}

/// The columns of a block, in order. Contracts see them as the list.
#[derive(Debug, Drop)]
pub struct BlockColumns {
    inner: Vec<BlockColumn>,
}

impl Model for BlockColumns {
    ghost use Rattle.std.specs.Prelude.{List};
    ghost use Rattle.row_blocks.specs.declared.column.BlockColumn.{BlockColumn};

    ghost Value = { List BlockColumn };

    ghost view = { λ list. list.inner.items };
}

impl BlockColumns {
    pub fn of(inner: Vec<BlockColumn>) -> BlockColumns
        ensures { result ≡ inner.items }
    {
        BlockColumns { inner }
    }

    pub fn as_slice(&self) -> &[BlockColumn]
        ensures { result.now ≡ self.now }
    {
        self.inner.as_slice()
    }

    pub fn into_inner(self) -> Vec<BlockColumn>
        ensures { result.items ≡ self }
    {
        self.inner
    }
}
