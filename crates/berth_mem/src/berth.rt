// A region and a disk in memory.
ghost use Rattle.std.specs.Prelude.{◌≡◌, ◌⊎◌, ◌+◌, ◌^◌, ◌<◌, ◌≤◌, [], length, is_err, IfOk, IsErr, IsTrue};
ghost use Rattle.std.specs.Io.{ReadsAtMost};
ghost use Rattle.berth_face.specs.Causes.{Rose, HasCause};
ghost use Rattle.berth_face.specs.Berth.{Pair, Passes, Stays, Gives, RegionWritten, RegionCut, DiskWritten, DiskSynced};
ghost use Rattle.berth_mem.specs.Counts.{one_more};
ghost use Rattle.berth_mem.specs.Plans.{listed, fails_next};
ghost use Rattle.berth_mem.specs.Forms.{meaning, berth_plan, RegionCalled, DiskCalled, FreshOn};
ghost use Rattle.berth_mem.specs.Picked.{images_at};
ghost use Rattle.berth_mem.specs.Laws.{stands, keeps_or_closed, region_now, vec_short};
ghost use Rattle.berth_mem.specs.declared.faults.Method.TheVariants as method;
ghost use Rattle.berth_mem.specs.declared.faults.Plan.TheVariants.{Plain, Fused};

use crate::bytes::{copied, is_far};
use crate::faults::{Fails, Method, Plan, count};
use crate::pick;
use crate::puts::{disk_put, region_put, region_shorten, settled};
use crate::record::BerthCall;
use berth_face::{Berth, Failed};
use std::alloc::AllocError;

/// A region and a disk in memory, and the record of the calls that changed them.
#[derive(Drop)]
pub struct MemBerth {
    region: Vec<u8>,
    disk: Vec<u8>,
    calls: Vec<BerthCall>,
    plan: Plan,
    region_faults: u64,
    disk_faults: u64,
    disk_reads: u64,
}

impl MemBerth {
    /// A berth that fails only if there is no memory to grow, or a write passes 2^63.
    pub fn new(region: Vec<u8>, disk: Vec<u8>) -> MemBerth
        ensures fresh { FreshOn region.items disk.items result }
        ensures plan { berth_plan result ≡ Plain }
    {
        MemBerth::planned(region, disk, Plan::Plain)
    }

    /// A berth whose listed calls fail.
    pub fn failing(region: Vec<u8>, disk: Vec<u8>, fails: Fails) -> MemBerth
        ensures fresh { FreshOn region.items disk.items result }
        ensures plan { berth_plan result ≡ listed fails }
    {
        MemBerth::planned(region, disk, Plan::failing(fails))
    }

    /// A berth that passes its first `calls` calls and fails every later one.
    pub fn fused(region: Vec<u8>, disk: Vec<u8>, calls: u64) -> MemBerth
        ensures fresh { FreshOn region.items disk.items result }
        ensures plan { berth_plan result ≡ Fused calls }
    {
        MemBerth::planned(region, disk, Plan::Fused(calls))
    }

    pub fn region(&self) -> &[u8]
        ensures { result.now ≡ (meaning self.now).held.region }
    {
        &self.region
    }

    pub fn disk(&self) -> &[u8]
        ensures { result.now ≡ (meaning self.now).held.disk }
    {
        &self.disk
    }

    /// The number of moments of the record.
    pub fn moments(&self) -> u64
        ensures { result ≡ (meaning self.now).clock + 1 }
    {
        self.calls.len() as u64 * 2 + 1
    }

    /// The number of crash images that are offered of a moment.
    pub fn images(&self, moment: u64) -> u64
        requires { moment ≤ (meaning self.now).clock }
        ensures { result ≡ images_at moment }
    {
        if moment % 2 == 0 { 4 } else { 16 }
    }

    /// A plain berth on what a crash at this moment may have left: the image of this number.
    pub fn pick(&self, moment: u64, image: u64) -> Result<MemBerth, AllocError>
        requires moment { moment ≤ (meaning self.now).clock }
        requires image { image < images_at moment }
        ensures left { IfOk result (λ b. (p : Pair) × (meaning self.now).leaves moment p × FreshOn p.region p.disk b) }
        ensures plan { IfOk result (λ b. berth_plan b ≡ Plain) }
    {
        let unsynced_lost = image / 2 % 2 == 1;
        let (region, disk) = pick::image(
            &self.region,
            &self.disk,
            &self.calls,
            moment,
            unsynced_lost,
            image / 4,
        )?;
        let alloc = *self.region.allocator();
        if image % 2 == 0 {
            Ok(MemBerth::new(region, disk))
        } else {
            Ok(MemBerth::new(Vec::new(alloc), disk))
        }
    }

    fn planned(region: Vec<u8>, disk: Vec<u8>, plan: Plan) -> MemBerth
        ensures fresh { FreshOn region.items disk.items result }
        ensures plan { berth_plan result ≡ plan }
    {
        let alloc = *region.allocator();
        MemBerth {
            region,
            disk,
            calls: Vec::new(alloc),
            plan,
            region_faults: 0,
            disk_faults: 0,
            disk_reads: 0,
        }
    }
}

impl Berth for MemBerth {
    ghost meaning = { λ b. meaning b };

    ghost stands = { λ b told. stands b.region.items b.disk.items b.calls.items b.region_faults b.disk_faults
        b.disk_reads };

    ghost keeps_region = { λ b p told left. keeps_or_closed b.region.items b.disk.items b.calls.items b.region_faults
        b.disk_faults b.disk_reads p left };

    ghost region_now = { λ b region told. region_now b.region.items b.disk.items b.calls.items b.region_faults
        b.disk_faults b.disk_reads region };

    ghost short = { λ b told. (vec_short b.region, vec_short b.disk) };

    fn region_len(&mut self) -> Result<u64, Failed>
        ensures bound { IfOk result (λ n. n < 2 ^ 63) }
        ensures told { IsTrue (meaning self.old).tells → IfOk result (λ n. n ≡ length (meaning self.old).held.region)
            × Stays (meaning self.old) (meaning self.new) }
        ensures time { Passes (meaning self.old) (meaning self.new) }
        ensures cause { HasCause (meaning self.old).region_faults (meaning self.new).region_faults result }
        ensures reads { (meaning self.new).disk_reads ≡ (meaning self.old).disk_reads }
        ensures called { RegionCalled method.RegionLen result self.old self.new }
        ensures only { is_err result ≡ fails_next (berth_plan self.old) method.RegionLen }
    {
        if !self.plan.passes(Method::RegionLen) {
            count(&mut self.region_faults);
            return Err(Failed);
        }
        Ok(self.region.len() as u64)
    }

    fn region_read(&mut self, at: u64, buf: &mut [u8]) -> Result<usize, Failed>
        ensures bound { ReadsAtMost result buf.new }
        ensures told { IsTrue (meaning self.old).tells → Gives at (meaning self.old).held.region result buf.new
            × Stays (meaning self.old) (meaning self.new) }
        ensures time { Passes (meaning self.old) (meaning self.new) }
        ensures cause { HasCause (meaning self.old).region_faults (meaning self.new).region_faults result }
        ensures reads { (meaning self.new).disk_reads ≡ (meaning self.old).disk_reads }
        ensures called { RegionCalled method.RegionRead result self.old self.new }
        ensures only { is_err result ≡ fails_next (berth_plan self.old) method.RegionRead }
    {
        if !self.plan.passes(Method::RegionRead) {
            count(&mut self.region_faults);
            return Err(Failed);
        }
        Ok(copied(&self.region, at, buf))
    }

    fn region_write(&mut self, at: u64, bytes: &[u8]) -> Result<(), Failed>
        ensures too_far { 2 ^ 63 ≤ at + length bytes.now → IsErr result }
        ensures told { IsTrue (meaning self.old).tells
            → RegionWritten at bytes.now result (meaning self.old) (meaning self.new) }
        ensures time { Passes (meaning self.old) (meaning self.new) }
        ensures cause { HasCause (meaning self.old).region_faults (meaning self.new).region_faults result }
        ensures reads { (meaning self.new).disk_reads ≡ (meaning self.old).disk_reads }
        ensures called { RegionCalled method.RegionWrite result self.old self.new }
    {
        if !self.plan.passes(Method::RegionWrite) || is_far(at, bytes.len()) {
            count(&mut self.region_faults);
            return Err(Failed);
        }
        match region_put(&mut self.region, &mut self.calls, at, bytes) {
            Ok(()) => Ok(()),
            Err(_) => {
                count(&mut self.region_faults);
                Err(Failed)
            }
        }
    }

    fn region_cut(&mut self, len: u64) -> Result<(), Failed>
        ensures told { IsTrue (meaning self.old).tells → RegionCut len result (meaning self.old) (meaning self.new) }
        ensures time { Passes (meaning self.old) (meaning self.new) }
        ensures cause { HasCause (meaning self.old).region_faults (meaning self.new).region_faults result }
        ensures reads { (meaning self.new).disk_reads ≡ (meaning self.old).disk_reads }
        ensures called { RegionCalled method.RegionCut result self.old self.new }
    {
        if !self.plan.passes(Method::RegionCut) {
            count(&mut self.region_faults);
            return Err(Failed);
        }
        match region_shorten(&mut self.region, &mut self.calls, len) {
            Ok(()) => Ok(()),
            Err(_) => {
                count(&mut self.region_faults);
                Err(Failed)
            }
        }
    }

    fn disk_len(&mut self) -> Result<u64, Failed>
        ensures bound { IfOk result (λ n. n < 2 ^ 63) }
        ensures told { IsTrue (meaning self.old).tells → IfOk result (λ n. n ≡ length (meaning self.old).held.disk)
            × Stays (meaning self.old) (meaning self.new) }
        ensures time { Passes (meaning self.old) (meaning self.new) }
        ensures cause { HasCause (meaning self.old).disk_faults (meaning self.new).disk_faults result }
        ensures reads { (meaning self.new).disk_reads ≡ (meaning self.old).disk_reads }
        ensures called { DiskCalled method.DiskLen result self.old self.new }
        ensures only { is_err result ≡ fails_next (berth_plan self.old) method.DiskLen }
    {
        if !self.plan.passes(Method::DiskLen) {
            count(&mut self.disk_faults);
            return Err(Failed);
        }
        Ok(self.disk.len() as u64)
    }

    fn disk_read(&mut self, at: u64, buf: &mut [u8]) -> Result<usize, Failed>
        ensures bound { ReadsAtMost result buf.new }
        ensures told { IsTrue (meaning self.old).tells → Gives at (meaning self.old).held.disk result buf.new
            × Stays (meaning self.old) (meaning self.new) }
        ensures time { Passes (meaning self.old) (meaning self.new) }
        ensures cause { HasCause (meaning self.old).disk_faults (meaning self.new).disk_faults result }
        ensures reads { Rose (meaning self.old).disk_reads (meaning self.new).disk_reads }
        ensures counted_read { (meaning self.new).disk_reads ≡ one_more (meaning self.old).disk_reads }
        ensures called { DiskCalled method.DiskRead result self.old self.new }
        ensures only { is_err result ≡ fails_next (berth_plan self.old) method.DiskRead }
    {
        count(&mut self.disk_reads);
        if !self.plan.passes(Method::DiskRead) {
            count(&mut self.disk_faults);
            return Err(Failed);
        }
        Ok(copied(&self.disk, at, buf))
    }

    fn disk_write(&mut self, at: u64, bytes: &[u8]) -> Result<(), Failed>
        ensures too_far { 2 ^ 63 ≤ at + length bytes.now → IsErr result }
        ensures told { IsTrue (meaning self.old).tells
            → DiskWritten at bytes.now result (meaning self.old) (meaning self.new) }
        ensures time { Passes (meaning self.old) (meaning self.new) }
        ensures cause { HasCause (meaning self.old).disk_faults (meaning self.new).disk_faults result }
        ensures reads { (meaning self.new).disk_reads ≡ (meaning self.old).disk_reads }
        ensures called { DiskCalled method.DiskWrite result self.old self.new }
    {
        if !self.plan.passes(Method::DiskWrite) || is_far(at, bytes.len()) {
            count(&mut self.disk_faults);
            return Err(Failed);
        }
        match disk_put(&mut self.disk, &mut self.calls, at, bytes) {
            Ok(()) => Ok(()),
            Err(_) => {
                count(&mut self.disk_faults);
                Err(Failed)
            }
        }
    }

    fn disk_sync(&mut self) -> Result<(), Failed>
        ensures told { IsTrue (meaning self.old).tells → DiskSynced result (meaning self.old) (meaning self.new) }
        ensures time { Passes (meaning self.old) (meaning self.new) }
        ensures cause { HasCause (meaning self.old).disk_faults (meaning self.new).disk_faults result }
        ensures reads { (meaning self.new).disk_reads ≡ (meaning self.old).disk_reads }
        ensures called { DiskCalled method.DiskSync result self.old self.new }
    {
        if !self.plan.passes(Method::DiskSync) {
            count(&mut self.disk_faults);
            return Err(Failed);
        }
        match settled(&mut self.calls) {
            Ok(()) => Ok(()),
            Err(_) => {
                count(&mut self.disk_faults);
                Err(Failed)
            }
        }
    }
}
