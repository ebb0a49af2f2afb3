// The files of a leaf on the system: the trusted edge.
ghost use Rattle.std.specs.Prelude.{◌+◌, ◌^◌, ◌<◌, length, IfOk};
ghost use Rattle.std.specs.Io.{ReadsAtMost};
ghost use Rattle.std.proofs.lemmas.Bool.{false≢true};
ghost use Rattle.berth_face.specs.Berth.{untold};

use crate::access::Access;
use crate::calls::FileCalls;
use crate::kept::Kept;
use crate::leaf_file::LeafFile;
use berth_face::Failed;
use std::alloc::AllocError;

/// The first byte of a region whose flag is open.
const OPEN: u8 = 1;

/// Two files of one folder, `leaf-L.region` and `leaf-L.disk`. Each is made at its first write. They tell nothing of
/// what they hold.
///
/// Each file is opened when it is first found, and stays open. While it is open it is locked, so the lock goes when the
/// program ends, however it ends. If another program has locked a file, or it may not be both read and written, each
/// call on it fails. On a file system without locks nothing keeps two programs apart.
///
/// The region is changed without syncs only after these calls have closed its flag. Each other change is synced before
/// its call ends; a write, as of the flag, stands between two syncs. So if the machine goes down, a region on a disk is
/// what reads give, or its flag is closed.
#[derive(Drop)]
pub struct FolderFiles {
    region: Kept,
    disk: Kept,
    /// Whether a call closed the region's flag and no later call wrote it.
    is_shut: bool,
}

impl FolderFiles {
    /// The files of a leaf in a folder. Neither is opened or made yet, and the folder need not be there.
    pub fn new(
        rt: HostRuntime,
        folder: &str,
        leaf: u32,
        access: Access,
    ) -> Result<FolderFiles, AllocError> {
        let region = format!(in rt.alloc(); "{folder}/leaf-{leaf}.region")?;
        let disk = format!(in rt.alloc(); "{folder}/leaf-{leaf}.disk")?;
        Ok(FolderFiles {
            region: Kept::new(rt, folder, region, access)?,
            disk: Kept::new(rt, folder, disk, access)?,
            is_shut: false,
        })
    }

    fn write_region(&mut self, at: u64, bytes: &[u8]) -> Result<(), Failed>
        requires { at + length bytes.now < 2 ^ 63 }
    {
        if at > 0 && self.is_shut {
            return self.region.write_all(at, bytes);
        }
        self.is_shut = false;
        self.region.write_synced(at, bytes)?;
        self.is_shut = at == 0 && !matches!(bytes.first(), Some(&OPEN));
        Ok(())
    }

    /// Syncs a change that no closed flag hides.
    fn settle_region(&mut self) -> Result<(), Failed> {
        if self.is_shut {
            return Ok(());
        }
        self.region.sync()
    }
}

impl FileCalls for FolderFiles {
    ghost holds = { λ files. untold 0 0 0 };

    ghost stands = { λ files told. absurd (false≢true told) };

    ghost keeps_region = { λ files p told left. absurd left };

    ghost region_now = { λ files region told. absurd (false≢true told) };

    ghost short = { λ files told. absurd (false≢true told) };

    fn len(&mut self, file: LeafFile) -> Result<u64, Failed> {
        match file {
            LeafFile::Region => self.region.len(),
            LeafFile::Disk => self.disk.len(),
        }
    }

    fn read_some(&mut self, file: LeafFile, at: u64, buf: &mut [u8]) -> Result<usize, Failed> {
        match file {
            LeafFile::Region => self.region.read_some(at, buf),
            LeafFile::Disk => self.disk.read_some(at, buf),
        }
    }

    fn write_all(&mut self, file: LeafFile, at: u64, bytes: &[u8]) -> Result<(), Failed> {
        match file {
            LeafFile::Region => self.write_region(at, bytes),
            LeafFile::Disk => self.disk.write_all(at, bytes),
        }
    }

    fn lengthen(&mut self, file: LeafFile, len: u64) -> Result<(), Failed> {
        match file {
            LeafFile::Region => {
                self.region.lengthen(len)?;
                self.settle_region()
            }
            LeafFile::Disk => self.disk.lengthen(len),
        }
    }

    fn shorten_region(&mut self, len: u64) -> Result<(), Failed> {
        self.region.shorten(len)?;
        self.settle_region()
    }

    fn sync_disk(&mut self) -> Result<(), Failed> {
        self.disk.sync()
    }
}
