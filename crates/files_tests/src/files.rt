// The two files of a leaf in memory, which tell what they hold.
ghost use Rattle.std.specs.Prelude.{◌≡◌, ◌+◌, ◌<◌, ◌≤◌, length, IfOk, IsTrue};
ghost use Rattle.std.specs.Io.{ReadsAtMost};
ghost use Rattle.berth_face.specs.Berth.{Gives, OpenedOn, Pair, Stays};
ghost use Rattle.berth_files.specs.Files.{FilesGoOn, file_content};
ghost use Rattle.berth_mem.specs.Picked.{images_at};
ghost use Rattle.files_tests.specs.Laws.{keeps_region, region_now, short, stands};

use berth_face::{Berth, Failed};
use berth_files::{FileCalls, LeafFile};
use berth_mem::MemBerth;
use std::alloc::AllocError;

/// The most bytes that a read gives.
const SOME: usize = 3;

/// Two files in memory. A crash leaves of them what it leaves of a berth in memory: within a call any bytes in the
/// range that it writes; and each write to the disk since the last sync whole, cut short or not at all.
#[derive(Drop)]
pub struct MemFiles {
    kept: MemBerth,
}

impl MemFiles {
    pub fn new(region: Vec<u8>, disk: Vec<u8>) -> MemFiles
        ensures opened { OpenedOn region.items disk.items (⟦<MemFiles as FileCalls>⟧.holds result) }
        ensures clock { (⟦<MemFiles as FileCalls>⟧.holds result).clock ≡ 0 }
    {
        MemFiles {
            kept: MemBerth::new(region, disk),
        }
    }

    /// The number of moments up to now.
    pub fn moments(&self) -> u64
        ensures { result ≡ (⟦<MemFiles as FileCalls>⟧.holds self.now).clock + 1 }
    {
        self.kept.moments()
    }

    /// The number of crash images that are offered of a moment.
    pub fn images(&self, moment: u64) -> u64
        requires { moment ≤ (⟦<MemFiles as FileCalls>⟧.holds self.now).clock }
        ensures { result ≡ images_at moment }
    {
        self.kept.images(moment)
    }

    /// Files on what a crash at this moment may have left: the image of this number.
    pub fn pick(&self, moment: u64, image: u64) -> Result<MemFiles, AllocError>
        requires moment { moment ≤ (⟦<MemFiles as FileCalls>⟧.holds self.now).clock }
        requires image { image < images_at moment }
        ensures left { IfOk result (λ f. (p : Pair) × (⟦<MemFiles as FileCalls>⟧.holds self.now).leaves moment p
            × OpenedOn p.region p.disk (⟦<MemFiles as FileCalls>⟧.holds f)) }
        ensures clock { IfOk result (λ f. (⟦<MemFiles as FileCalls>⟧.holds f).clock ≡ 0) }
    {
        let kept = self.kept.pick(moment, image)?;
        Ok(MemFiles { kept })
    }
}

impl FileCalls for MemFiles {
    ghost holds = { λ f. ⟦<MemBerth as Berth>⟧.meaning f.kept };

    ghost stands = { λ f told. stands f.kept };

    ghost keeps_region = { λ f p told left. keeps_region f.kept p left };

    ghost region_now = { λ f region told. region_now f.kept region };

    ghost short = { λ f told. short f.kept };

    fn len(&mut self, file: LeafFile) -> Result<u64, Failed> {
        match file {
            LeafFile::Region => self.kept.region_len(),
            LeafFile::Disk => self.kept.disk_len(),
        }
    }

    fn read_some(&mut self, file: LeafFile, at: u64, buf: &mut [u8]) -> Result<usize, Failed> {
        let some = buf.len().min(SOME);
        read_part(&mut self.kept, file, at, &mut buf[..some])
    }

    fn write_all(&mut self, file: LeafFile, at: u64, bytes: &[u8]) -> Result<(), Failed> {
        match file {
            LeafFile::Region => self.kept.region_write(at, bytes),
            LeafFile::Disk => self.kept.disk_write(at, bytes),
        }
    }

    fn lengthen(&mut self, file: LeafFile, len: u64) -> Result<(), Failed> {
        match file {
            LeafFile::Region => self.kept.region_write(len, &[]),
            LeafFile::Disk => self.kept.disk_write(len, &[]),
        }
    }

    fn shorten_region(&mut self, len: u64) -> Result<(), Failed> {
        self.kept.region_cut(len)
    }

    fn sync_disk(&mut self) -> Result<(), Failed> {
        self.kept.disk_sync()
    }
}

/// Reads until the part is full or the file ends.
fn read_part(kept: &mut MemBerth, file: LeafFile, at: u64, part: &mut [u8]) -> Result<usize, Failed>
    ensures bound { ReadsAtMost result part.new }
    ensures told { IsTrue (⟦<MemBerth as Berth>⟧.meaning kept.old).tells
        → Gives at (file_content file (⟦<MemBerth as Berth>⟧.meaning kept.old)) result part.new
        × Stays (⟦<MemBerth as Berth>⟧.meaning kept.old) (⟦<MemBerth as Berth>⟧.meaning kept.new) }
    ensures time { FilesGoOn (⟦<MemBerth as Berth>⟧.meaning kept.old) (⟦<MemBerth as Berth>⟧.meaning kept.new) }
{
    match file {
        LeafFile::Region => kept.region_read(at, part),
        LeafFile::Disk => kept.disk_read(at, part),
    }
}
