// Files whose region a machine that goes down may tear, behind a closed flag.
ghost use Rattle.std.specs.Prelude.{OnOk};
ghost use Rattle.berth_face.specs.Berth.{IsClosed};
ghost use Rattle.berth_face.specs.Moments.{EachNow};
ghost use Rattle.files_tests.specs.Torn.{torn, stands, keeps_region};

use crate::files::MemFiles;
use berth_face::{Berth, Failed};
use berth_files::{FileBerth, FileCalls, LeafFile};

/// Files on a device: a crash leaves what it leaves of the other files, or any closed region.
#[derive(Drop)]
pub struct TornFiles<F> {
    files: F,
}

impl<F: FileCalls + Send + Drop> TornFiles<F> {
    pub fn over(files: F) -> TornFiles<F> {
        TornFiles { files }
    }
}

impl<F: FileCalls + Send + Drop> FileCalls for TornFiles<F> {
    ghost holds = { λ f. torn (F.holds f.files) };

    ghost stands = { λ f told. stands (F.holds f.files) (F.stands f.files told) };

    ghost keeps_region = { λ f p told left. keeps_region (F.holds f.files) (λ q was. F.keeps_region f.files q told was)
        p left };

    ghost region_now = { λ f region told. F.region_now f.files region told };

    ghost short = { λ f told. F.short f.files told };

    #[tactic(auto, using(crate::proofs::Tearing::goes_on, crate::proofs::Tearing::stays, crate::proofs::Tearing::len_told))]
    fn len(&mut self, file: LeafFile) -> Result<u64, Failed> {
        self.files.len(file)
    }

    #[tactic(auto, using(crate::proofs::Tearing::goes_on, crate::proofs::Tearing::stays, crate::proofs::Tearing::read_told))]
    fn read_some(&mut self, file: LeafFile, at: u64, buf: &mut [u8]) -> Result<usize, Failed> {
        self.files.read_some(file, at, buf)
    }

    #[tactic(auto, using(crate::proofs::Tearing::goes_on))]
    fn write_all(&mut self, file: LeafFile, at: u64, bytes: &[u8]) -> Result<(), Failed> {
        self.files.write_all(file, at, bytes)
    }

    #[tactic(auto, using(crate::proofs::Tearing::goes_on))]
    fn lengthen(&mut self, file: LeafFile, len: u64) -> Result<(), Failed> {
        self.files.lengthen(file, len)
    }

    #[tactic(auto, using(crate::proofs::Tearing::goes_on, crate::proofs::Tearing::region_cut))]
    fn shorten_region(&mut self, len: u64) -> Result<(), Failed> {
        self.files.shorten_region(len)
    }

    #[tactic(auto, using(crate::proofs::Tearing::goes_on, crate::proofs::Tearing::disk_synced))]
    fn sync_disk(&mut self) -> Result<(), Failed> {
        self.files.sync_disk()
    }
}

/// Closes the region's flag. Then each region that a crash may leave is closed, whatever a machine that goes down has
/// torn of it.
pub fn shut(berth: &mut FileBerth<TornFiles<MemFiles>>) -> Result<(), Failed>
    ensures closed { OnOk result (EachNow (λ p. IsClosed p.region)
        (⟦<FileBerth<TornFiles<MemFiles>> as Berth>⟧.meaning berth.new)) }
{
    berth.region_write(0, &[0])
}
