// A berth over the two files of a leaf.
ghost use Rattle.std.specs.Prelude.{◌≡◌, ◌+◌, ◌-◌, ◌^◌, ◌≤◌, min, IfOk, IsOk, IsErr};
ghost use Rattle.berth_face.specs.Causes.{Rose, HasCause};
ghost use Rattle.berth_files.specs.Files.{MeansFiles, counting};

use crate::access::Access;
use crate::calls::FileCalls;
use crate::folder::FolderFiles;
use crate::leaf_file::LeafFile;
use crate::whole::{read_whole, write_near};
use berth_face::{Berth, Failed};
use std::alloc::AllocError;

/// A leaf's region and disk as two files. It tells what the files tell; faults and reads of the disk are counted.
///
/// One berth at a time serves a leaf of a folder.
#[derive(Drop)]
pub struct FileBerth<F> {
    files: F,
    region_faults: u64,
    disk_faults: u64,
    disk_reads: u64,
}

impl<F: FileCalls + Send + Drop> FileBerth<F> {
    /// A berth over these files.
    pub fn over(files: F) -> FileBerth<F>
        ensures files { MeansFiles (F.holds files) (⟦<FileBerth<F> as Berth>⟧.meaning result) }
        ensures region_faults { (⟦<FileBerth<F> as Berth>⟧.meaning result).region_faults ≡ 0 }
        ensures disk_faults { (⟦<FileBerth<F> as Berth>⟧.meaning result).disk_faults ≡ 0 }
        ensures disk_reads { (⟦<FileBerth<F> as Berth>⟧.meaning result).disk_reads ≡ 0 }
    {
        FileBerth {
            files,
            region_faults: 0,
            disk_faults: 0,
            disk_reads: 0,
        }
    }

    /// The files of this berth.
    pub fn files(&self) -> &F
        ensures { MeansFiles (F.holds result.now) (⟦<FileBerth<F> as Berth>⟧.meaning self.now) }
    {
        &self.files
    }
}

impl FileBerth<FolderFiles> {
    /// A berth over the files of a leaf in a folder. Neither is opened or made yet, and the folder need not be there.
    pub fn new(
        rt: HostRuntime,
        folder: &str,
        leaf: u32,
        access: Access,
    ) -> Result<FileBerth<FolderFiles>, AllocError>
        ensures region_faults { IfOk result (λ b. (⟦<FileBerth<FolderFiles> as Berth>⟧.meaning b).region_faults ≡ 0) }
        ensures disk_faults { IfOk result (λ b. (⟦<FileBerth<FolderFiles> as Berth>⟧.meaning b).disk_faults ≡ 0) }
        ensures disk_reads { IfOk result (λ b. (⟦<FileBerth<FolderFiles> as Berth>⟧.meaning b).disk_reads ≡ 0) }
    {
        Ok(FileBerth::over(FolderFiles::new(rt, folder, leaf, access)?))
    }
}

impl<F: FileCalls + Send + Drop> Berth for FileBerth<F> {
    ghost meaning = { λ b. counting (F.holds b.files) b.region_faults b.disk_faults b.disk_reads };

    ghost stands = { λ b told. F.stands b.files told };

    ghost keeps_region = { λ b p told left. F.keeps_region b.files p told left };

    ghost region_now = { λ b region told. F.region_now b.files region told };

    ghost short = { λ b told. F.short b.files told };

    fn region_len(&mut self) -> Result<u64, Failed> {
        counted(self.files.len(LeafFile::Region), &mut self.region_faults)
    }

    fn region_read(&mut self, at: u64, buf: &mut [u8]) -> Result<usize, Failed> {
        counted(
            read_whole(&mut self.files, LeafFile::Region, at, buf),
            &mut self.region_faults,
        )
    }

    fn region_write(&mut self, at: u64, bytes: &[u8]) -> Result<(), Failed> {
        counted(
            write_near(&mut self.files, LeafFile::Region, at, bytes),
            &mut self.region_faults,
        )
    }

    fn region_cut(&mut self, len: u64) -> Result<(), Failed> {
        counted(self.files.shorten_region(len), &mut self.region_faults)
    }

    fn disk_len(&mut self) -> Result<u64, Failed> {
        counted(self.files.len(LeafFile::Disk), &mut self.disk_faults)
    }

    fn disk_read(&mut self, at: u64, buf: &mut [u8]) -> Result<usize, Failed> {
        count(&mut self.disk_reads);
        counted(
            read_whole(&mut self.files, LeafFile::Disk, at, buf),
            &mut self.disk_faults,
        )
    }

    fn disk_write(&mut self, at: u64, bytes: &[u8]) -> Result<(), Failed> {
        counted(
            write_near(&mut self.files, LeafFile::Disk, at, bytes),
            &mut self.disk_faults,
        )
    }

    fn disk_sync(&mut self) -> Result<(), Failed> {
        counted(self.files.sync_disk(), &mut self.disk_faults)
    }
}

/// Counts a call if it failed, and returns its result.
fn counted<T>(done: Result<T, Failed>, faults: &mut u64) -> Result<T, Failed>
    ensures same { result ≡ done }
    ensures cause { HasCause faults.old faults.new result }
    ensures ok { IsOk result → faults.new ≡ faults.old }
    ensures err { IsErr result → faults.new ≡ min (faults.old + 1) (2 ^ 64 - 1) }
{
    match done {
        Ok(value) => Ok(value),
        Err(Failed) => {
            count(faults);
            Err(Failed)
        }
    }
}

/// Adds one to a count. It saturates.
fn count(number: &mut u64)
    ensures value { number.new ≡ min (number.old + 1) (2 ^ 64 - 1) }
    ensures rose { Rose number.old number.new }
    ensures later { number.old ≤ number.new }
{
    *number = number.saturating_add(1);
}
