// A drain of a leaf's tables into its region.
ghost use Rattle.std.specs.Prelude.{◌≡◌, ◌≢◌, ◌⊎◌, ◌↔◌, false, ◌+◌, ◌<◌, ◌≤◌, ◌^◌, ◌++◌, length, map, take, drop, IsTrue, IfOk, IfErr, IfSome, IfNone, OnOk, OnErr, [], ◌∷◌};
ghost use Rattle.std.specs.List.{AllByRecursion};
ghost use Rattle.std.specs.VecDeque.{deque_capacity, deque_len};
ghost use Rattle.berth_face.specs.Berth.{IsClosed, Passes, Ended, SameDisk};
ghost use Rattle.berth_face.specs.Moments.{Meanwhile, Throughout};
ghost use Rattle.berth_face.specs.Causes.{HasCause};
ghost use Rattle.column_bytes.specs.Coding.{joined};
ghost use Rattle.row_model.specs.Names.{AreDistinct};
ghost use Rattle.region_layout.specs.Names.{IsName};
ghost use Rattle.table_state.specs.Tables.{IsParts};
ghost use Rattle.region_layout.specs.declared.drained.DrainTable.{DrainTable};
ghost use Rattle.region_head.specs.declared.head.Head.TheVariants.{Version};
ghost use Rattle.region_head.specs.Head.{head_of};
ghost use Rattle.region_layout.specs.Region.{IsAdoptable, layout};
ghost use Rattle.region_layout.specs.Drained.{all_columns, has_no_room, images_of};
ghost use Rattle.drain_copy.specs.declared.step.Next.TheVariants as next;
ghost use Rattle.drain_copy.specs.declared.step.PlanFault.TheVariants as plan_fault;
ghost use Rattle.drain_copy.specs.Draining.{Draining, DrainsFrom, IsInRoom, AllClosed, IsStep, held, directory_of, image_bytes};
ghost use Rattle.drain_copy.specs.Regions.{IsCutOrBegun};
ghost use Rattle.drain_copy.specs.Planned.{NeedRoom, tables_count, tables_size};

use crate::moving::move_tables;
use crate::planning::CopyPlan;
use crate::region_calls::{append, begin, finish, open};
use crate::sizes::room;
use crate::step::{DrainStep, Next, PlanFault, RegionFault};
use berth_face::Berth;
use region_head::head_rest;
use region_layout::{DrainTables, LAYOUT};
use row_blocks::ColumnBytes;
use std::alloc::Global;
use std::collections::VecDeque;
use std::marker::Model;
use std::snapshot::Snapshot;

/// A drain: the columns that are still on the heap, the directory, and how far it has come. Its plan takes no bytes:
/// contracts alone see it.
#[derive(Drop)]
pub struct Drain {
    columns: VecDeque<ColumnBytes>,
    directory: Vec<u8>,
    place: u64,
    held: u64,
    next: Next,
    planned: Snapshot<VecDeque<ColumnBytes>>,
}

impl Model for Drain {
    ghost use Rattle.std.specs.Prelude.{◌≡◌, ◌+◌, ◌<◌, ◌≤◌, ◌^◌, ℕ, length, drop};
    ghost use Rattle.column_bytes.specs.Coding.{joined};
    ghost use Rattle.drain_copy.specs.declared.step.Next.TheVariants.{Begin};
    ghost use Rattle.drain_copy.specs.Draining.{DrainState, image_bytes, directory_of};

    ghost Value = { DrainState };

    ghost view = { λ d. record {
      image = image_bytes d.place d.planned.value.items d.directory.items;
      next = d.next;
      heap = d.columns.items;
    } };

    ghost invariant = { λ d.
        (d.place ≡ 16 + length (joined d.planned.value.items))
        × (d.place + length d.directory.items < 2 ^ 63)
        × (d.held ≡ length (joined d.columns.items))
        × ((made : ℕ) × (d.columns.items ≡ drop made d.planned.value.items))
        × (d.next ≡ Begin → d.columns.items ≡ d.planned.value.items)
        × (directory_of (image_bytes d.place d.planned.value.items d.directory.items) ≡ d.directory.items) };
}

impl Drain {
    /// Plans the drain of at most 16 tables of distinct names. It takes all the memory that a drain takes. An Err gives
    /// the tables back.
    pub fn plan(
        alloc: Global,
        tables: DrainTables,
        log_end: u64,
    ) -> Result<Drain, (DrainTables, PlanFault)>
        requires few { length tables ≤ 16 }
        requires names { AllByRecursion (λ (t : DrainTable). IsName t.name) tables }
        requires distinct { AreDistinct (map (λ (t : DrainTable). t.name) tables) }
        requires parts { AllByRecursion (λ (t : DrainTable). IsParts t.parts) tables }
        requires log_end { log_end < 2 ^ 63 }
        ensures image { IfOk result (λ d. IsAdoptable d.image (images_of tables) log_end) }
        ensures begins { IfOk result (λ d. (d.next ≡ next.Begin) × (d.heap ≡ all_columns tables)) }
        ensures back { IfErr result (λ e. e.0 ≡ tables) }
        // NoRoom if and only if no image can be made of the tables.
        ensures room { IfErr result (λ e. e.1 ≡ plan_fault.NoRoom ↔ IsTrue (has_no_room tables)) }
        // A column is shorter than 2^37 bytes, so NoRoom takes many columns, or many writes.
        ensures large { IfErr result (λ e. e.1 ≡ plan_fault.NoRoom → NeedRoom tables) }
        ensures fits { IfOk result (λ d. has_no_room tables ≡ false) }
    {
        let Some(sizes) = room(tables.as_slice()) else {
            return Err((tables, PlanFault::NoRoom));
        };
        match CopyPlan::of(alloc, tables.as_slice(), sizes, log_end) {
            Ok(plan) => Ok(Drain::of(plan, tables)),
            Err(_) => Err((tables, PlanFault::NoMemory)),
        }
    }

    // It begins with all columns of the tables.
    #[tactic(auto, using(crate::proofs::Imaging::directory_found, crate::proofs::Laying::tables_length))]
    fn of(plan: CopyPlan, tables: DrainTables) -> Drain
        requires place { plan.place ≡ 16 + tables_size tables }
        requires fits { plan.place + length plan.directory.items < 2 ^ 63 }
        requires empty { plan.columns.items ≡ [] }
        requires capacity { deque_len plan.columns + tables_count tables ≤ deque_capacity plan.columns }
        ensures image { result.image ≡ image_bytes plan.place (all_columns tables) plan.directory.items }
        ensures next { result.next ≡ next.Begin }
        ensures heap { result.heap ≡ all_columns tables }
    {
        let CopyPlan {
            directory,
            mut columns,
            place,
        } = plan;
        move_tables(tables.into_inner(), &mut columns);
        Drain {
            planned: Snapshot::of(&columns),
            columns,
            directory,
            place,
            held: place - 16,
            next: Next::Begin,
        }
    }

    /// Makes the next step, and takes no memory. The steps: empty the region and write a closed head; write a column at
    /// the region's end and free it, once for each; write the directory, and the head after the flag; write the flag.
    /// After an Err the drain is given up.
    #[tactic(auto, using(crate::proofs::Standing::begun_step, crate::proofs::Standing::opened_step))]
    pub fn step<B: Berth>(&mut self, berth: &mut B) -> Result<DrainStep, RegionFault>
        requires more { self.old.next ≢ next.Nothing }
        ensures image { self.new.image ≡ self.old.image }
        ensures layout { head_of self.old.image ≡ Version layout }
        ensures step { IfOk result (λ s. IsStep self.old s self.new) }
        ensures told { IsTrue (B.meaning berth.old).tells → Draining self.old (B.meaning berth.old).held.region
            → OnOk result (Draining self.new (B.meaning berth.new).held.region) }
        ensures room { IsTrue (B.meaning berth.old).tells → Draining self.old (B.meaning berth.old).held.region
            → OnOk result (length (B.meaning berth.new).held.region + held self.new ≤ length self.new.image) }
        ensures failed { IsTrue (B.meaning berth.old).tells
            → Draining self.old (B.meaning berth.old).held.region → IsClosed (B.meaning berth.old).held.region
            → OnErr result (IsClosed (B.meaning berth.new).held.region
            ⊎ ((B.meaning berth.new).held.region ≡ self.old.image)) }
        ensures disk { IsTrue (B.meaning berth.old).tells
            → (B.meaning berth.new).held.disk ≡ (B.meaning berth.old).held.disk }
        ensures disks { IsTrue (B.meaning berth.old).tells
            → Ended SameDisk (B.meaning berth.old) (B.meaning berth.new) }
        // What a crash leaves at each moment, and how long the region is during the step.
        ensures moments { IsTrue (B.meaning berth.old).tells
            → Draining self.old (B.meaning berth.old).held.region → AllClosed (B.meaning berth.old)
            → Throughout (DrainsFrom self.old (B.meaning berth.old)) (B.meaning berth.old) (B.meaning berth.new) }
        ensures inside { IsTrue (B.meaning berth.old).tells
            → Draining self.old (B.meaning berth.old).held.region → self.old.next ≢ next.Begin
            → Meanwhile (IsInRoom self.old) (B.meaning berth.old) (B.meaning berth.new) }
        // At every moment of the first step the region is a prefix of what it was, or has at most 16 bytes.
        ensures begun { IsTrue (B.meaning berth.old).tells → self.old.next ≡ next.Begin
            → Meanwhile (IsCutOrBegun (B.meaning berth.old).held.region) (B.meaning berth.old) (B.meaning berth.new) }
        ensures time { Passes (B.meaning berth.old) (B.meaning berth.new) }
        ensures cause { HasCause (B.meaning berth.old).region_faults (B.meaning berth.new).region_faults result }
        ensures reads { (B.meaning berth.new).disk_reads ≡ (B.meaning berth.old).disk_reads }
    {
        self.is_planned();
        match self.next {
            Next::Begin => {
                begin(berth)?;
                self.go_on(Next::Copy);
                Ok(DrainStep::Begun)
            }
            Next::Copy => self.copy(berth),
            Next::Flag => {
                open(berth)?;
                self.go_on(Next::Nothing);
                Ok(DrainStep::Finished)
            }
            Next::Nothing => unreachable!(),
        }
    }

    // Writes the next column, or the directory after the last one.
    #[tactic(auto, using(crate::proofs::Standing::column_step, crate::proofs::Standing::directory_step))]
    fn copy<B: Berth>(&mut self, berth: &mut B) -> Result<DrainStep, RegionFault>
        requires copies { self.old.next ≡ next.Copy }
        ensures image { self.new.image ≡ self.old.image }
        ensures step { IfOk result (λ s. IsStep self.old s self.new) }
        ensures told { IsTrue (B.meaning berth.old).tells → Draining self.old (B.meaning berth.old).held.region
            → OnOk result (Draining self.new (B.meaning berth.new).held.region) }
        ensures room { IsTrue (B.meaning berth.old).tells → Draining self.old (B.meaning berth.old).held.region
            → OnOk result (length (B.meaning berth.new).held.region + held self.new ≤ length self.new.image) }
        ensures failed { IsTrue (B.meaning berth.old).tells
            → Draining self.old (B.meaning berth.old).held.region → IsClosed (B.meaning berth.old).held.region
            → OnErr result (IsClosed (B.meaning berth.new).held.region
            ⊎ ((B.meaning berth.new).held.region ≡ self.old.image)) }
        ensures disk { IsTrue (B.meaning berth.old).tells
            → (B.meaning berth.new).held.disk ≡ (B.meaning berth.old).held.disk }
        ensures disks { IsTrue (B.meaning berth.old).tells
            → Ended SameDisk (B.meaning berth.old) (B.meaning berth.new) }
        // What a crash leaves at each moment, and how long the region is during the step.
        ensures moments { IsTrue (B.meaning berth.old).tells
            → Draining self.old (B.meaning berth.old).held.region → AllClosed (B.meaning berth.old)
            → Throughout (DrainsFrom self.old (B.meaning berth.old)) (B.meaning berth.old) (B.meaning berth.new) }
        ensures inside { IsTrue (B.meaning berth.old).tells
            → Draining self.old (B.meaning berth.old).held.region → self.old.next ≢ next.Begin
            → Meanwhile (IsInRoom self.old) (B.meaning berth.old) (B.meaning berth.new) }
        ensures time { Passes (B.meaning berth.old) (B.meaning berth.new) }
        ensures cause { HasCause (B.meaning berth.old).region_faults (B.meaning berth.new).region_faults result }
        ensures reads { (B.meaning berth.new).disk_reads ≡ (B.meaning berth.old).disk_reads }
    {
        let at = self.written_to();
        match self.take_column() {
            Some(column) => {
                append(column.as_slice(), at, berth)?;
                Ok(DrainStep::Column {
                    bytes: column.as_slice().len() as u64,
                })
            }
            None => {
                let head = self.head();
                finish(self.directory(), &head, at, berth)?;
                self.go_on(Next::Flag);
                Ok(DrainStep::Directory)
            }
        }
    }

    // No-op; states the invariant of a drain and its image.
    #[tactic(auto, using(crate::proofs::Imaging::image_head, crate::proofs::Standing::image_flag, crate::proofs::Standing::image_length, crate::proofs::Standing::whole_image))]
    fn is_planned(&self)
        ensures layout { head_of self.now.image ≡ Version layout }
        ensures flag { take 1 self.now.image ≡ 1 ∷ [] }
        ensures long { 16 ≤ length self.now.image }
        ensures whole { self.now.next ≡ next.Begin
            → joined self.now.heap ++ directory_of self.now.image ≡ drop 16 self.now.image }
    {
        let _ = &self.next;
    }

    fn go_on(&mut self, later: Next)
        requires { later ≢ next.Begin }
        ensures image { self.new.image ≡ self.old.image }
        ensures heap { self.new.heap ≡ self.old.heap }
        ensures next { self.new.next ≡ later }
    {
        self.next = later;
    }

    // The head after its flag.
    #[tactic(auto, using(crate::proofs::Standing::image_behind))]
    fn head(&self) -> [u8; 15]
        ensures length { length result ≡ 15 }
        ensures head { result ++ drop 16 self.now.image ≡ drop 1 self.now.image }
    {
        head_rest(LAYOUT, self.place)
    }

    fn directory(&self) -> &[u8]
        ensures { result.now ≡ directory_of self.now.image }
    {
        self.directory.as_slice()
    }

    // The place in the region where the written columns end.
    #[tactic(auto, using(crate::proofs::Standing::held_fits, crate::proofs::Standing::ends_where, crate::proofs::Standing::short_image))]
    fn written_to(&self) -> u64
        ensures place { result + held self.now + length (directory_of self.now.image) ≡ length self.now.image }
        ensures head { 16 ≤ result }
        ensures short { length self.now.image < 2 ^ 63 }
    {
        self.place - self.held
    }

    // Takes the next column off the heap.
    fn take_column(&mut self) -> Option<ColumnBytes>
        requires begun { self.old.next ≢ next.Begin }
        ensures image { self.new.image ≡ self.old.image }
        ensures next { self.new.next ≡ self.old.next }
        ensures some { IfSome result (λ column. self.old.heap ≡ column ∷ self.new.heap) }
        ensures none { IfNone result ((self.old.heap ≡ []) × (self.new.heap ≡ [])) }
    {
        match self.columns.pop_front() {
            None => None,
            Some(column) => {
                self.held -= column.as_slice().len() as u64;
                Some(column)
            }
        }
    }

    /// The total length in bytes of the columns that were not freed yet.
    pub fn held(&self) -> u64
        ensures { result ≡ held self.now }
    {
        self.held
    }

    /// The length of the whole image in bytes.
    #[tactic(auto, using(crate::proofs::Standing::image_length))]
    pub fn image_len(&self) -> u64
        ensures { result ≡ length self.now.image }
    {
        self.place + self.directory.len() as u64
    }
}
