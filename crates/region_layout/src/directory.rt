// The directory of a region.
ghost use Rattle.std.specs.Prelude.{◌≡◌, Some, None, IfOk, IfSome, if◌then◌else◌};
ghost use Rattle.region_layout.specs.Directory.{directory_at, IsDirectory};
ghost use Rattle.region_layout.specs.Tests.{is_directory};
ghost use Rattle.region_layout.specs.Written.{MayBeWritten, directory_bytes};

use crate::directory_reader::directory_of;
use crate::directory_writer::put_directory;
use crate::rules::is_directory;
use leaf_model::Text;
use row_records::ReadError;
use std::alloc::{AllocError, Global};
use std::marker::Model;

/// A column: its name, the place in the region where its bytes begin, and their number.
#[derive(Drop)]
pub struct Place {
    pub name: Text,
    pub place: u64,
    pub length: u64,
}

/// The columns of a block in their order. Contracts see them as the list.
#[derive(Drop)]
pub struct Places {
    inner: Vec<Place>,
}

impl Model for Places {
    ghost use Rattle.std.specs.Prelude.{List};
    ghost use Rattle.region_layout.specs.declared.directory.Place.{Place};

    ghost Value = { List Place };

    ghost view = { λ list. list.inner.items };
}

impl Places {
    pub fn of(inner: Vec<Place>) -> Places
        ensures { result ≡ inner.items }
    {
        Places { inner }
    }

    pub fn as_slice(&self) -> &[Place]
        ensures { result.now ≡ self.now }
    {
        self.inner.as_slice()
    }

    pub fn into_inner(self) -> Vec<Place>
        ensures { result.items ≡ self }
    {
        self.inner
    }
}

/// A block: its number of rows, 1 to 65,536, and its columns.
#[derive(Drop)]
pub struct BlockPlaces {
    pub rows: u32,
    pub columns: Places,
}

/// The blocks of a table in their order. Contracts see them as the list.
#[derive(Drop)]
pub struct BlockPlacesList {
    inner: Vec<BlockPlaces>,
}

impl Model for BlockPlacesList {
    ghost use Rattle.std.specs.Prelude.{List};
    ghost use Rattle.region_layout.specs.declared.directory.BlockPlaces.{BlockPlaces};

    ghost Value = { List BlockPlaces };

    ghost view = { λ list. list.inner.items };
}

impl BlockPlacesList {
    pub fn of(inner: Vec<BlockPlaces>) -> BlockPlacesList
        ensures { result ≡ inner.items }
    {
        BlockPlacesList { inner }
    }

    pub fn as_slice(&self) -> &[BlockPlaces]
        ensures { result.now ≡ self.now }
    {
        self.inner.as_slice()
    }

    pub fn into_inner(self) -> Vec<BlockPlaces>
        ensures { result.items ≡ self }
    {
        self.inner
    }
}

/// A table: its horizon, 0 to 2^63 - 1; the number of writes that it accepted, below 2^63; the number of rows that are
/// cut off its first block; and its blocks.
#[derive(Drop)]
pub struct TablePlaces {
    pub name: Text,
    pub horizon: i64,
    pub writes: u64,
    pub skip: u32,
    pub blocks: BlockPlacesList,
}

/// The tables of a region in their order, at most 16. Contracts see them as the list.
#[derive(Drop)]
pub struct TablePlacesList {
    inner: Vec<TablePlaces>,
}

impl Model for TablePlacesList {
    ghost use Rattle.std.specs.Prelude.{List};
    ghost use Rattle.region_layout.specs.declared.directory.TablePlaces.{TablePlaces};

    ghost Value = { List TablePlaces };

    ghost view = { λ list. list.inner.items };
}

impl TablePlacesList {
    pub fn of(inner: Vec<TablePlaces>) -> TablePlacesList
        ensures { result ≡ inner.items }
    {
        TablePlacesList { inner }
    }

    pub fn as_slice(&self) -> &[TablePlaces]
        ensures { result.now ≡ self.now }
    {
        self.inner.as_slice()
    }

    pub fn into_inner(self) -> Vec<TablePlaces>
        ensures { result.items ≡ self }
    {
        self.inner
    }
}

/// The directory of a region: the place where the log ended, below 2^63, and the tables, whose names are distinct.
#[derive(Drop)]
pub struct Directory {
    pub log_end: u64,
    pub tables: TablePlacesList,
}

impl Directory {
    /// Reads all of the bytes as a directory that stands at this place of a region. None if they are none.
    pub fn read(alloc: Global, bytes: &[u8], place: u64) -> Result<Option<Directory>, AllocError>
        ensures found { IfOk result (λ found. IfSome found (λ d. (bytes.now ≡ directory_bytes d)
            × IsDirectory place d)) }
        ensures only { (d : Directory) → bytes.now ≡ directory_bytes d → IsDirectory place d
            → IfOk result (λ found. found ≡ Some d) }
        // What is read has room in a directory.
        ensures fits { IfOk result (λ found. IfSome found (λ d. MayBeWritten d)) }
    {
        match directory_of(alloc, bytes) {
            Ok(directory) => Ok(kept(directory, place)),
            Err(ReadError::Broken) => Ok(None),
            Err(ReadError::Memory) => Err(AllocError),
        }
    }

    /// The directory as bytes, which `read` takes. Each directory that `read` gives may be written.
    pub fn write(&self, alloc: Global) -> Result<Vec<u8>, AllocError>
        requires fits { MayBeWritten self.now }
        ensures bytes { IfOk result (λ bytes. bytes.items ≡ directory_bytes self.now) }
        ensures read { IfOk result (λ bytes. directory_at bytes.items ≡ Some self.now) }
    {
        let mut out = Vec::new(alloc);
        put_directory(&mut out, self)?;
        Ok(out)
    }
}

/// The directory, if it keeps its rules at this place.
fn kept(directory: Directory, place: u64) -> Option<Directory>
    ensures { result ≡ (if is_directory place directory then Some directory else None) }
{
    if is_directory(&directory, place) {
        Some(directory)
    } else {
        None
    }
}
