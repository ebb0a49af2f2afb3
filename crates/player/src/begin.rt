// Makes the leaves of a crew.
ghost use Rattle.std.specs.Prelude.{◌≡◌, ◌+◌, ◌<◌, ◌≤◌, ◌++◌, ◌∷◌, [], ℕ, Option, Some, drop, length, map, slice_get, vec_len, vec_capacity, IfOk};
ghost use Rattle.std.specs.List.{AllByRecursion};
ghost use Rattle.region_layout.specs.Names.{AreNames};
ghost use Rattle.crash_moments.specs.Left.{NamedStates};
ghost use Rattle.leaf_table.specs.declared.base.TableBase.{TableBase};
ghost use Rattle.leaf_table.specs.Turns.{start_of};
ghost use Rattle.leaf_table.specs.Calls.{base_seen, name_of};
ghost use Rattle.leaf_table.specs.Fleet.{IsNewFleet};
ghost use Rattle.leaf_table.specs.Lists.{lists_in};
ghost use Rattle.leaf_steward.specs.Seated.{AreAlike, AreFounded, AtEach, IsUnused};
ghost use Rattle.crash_states.specs.Beginning.{MayBegin};
ghost use Rattle.player.specs.Crew.{seated_at};
ghost use Rattle.player.specs.Beginning.{AreBegun, IsBegun, LeafIsReady};

use berth_face::Berth;
use leaf_deeds::OneLeaf;
use leaf_machine::Down;
use leaf_model::Names;
use leaf_table::{FleetTables, Seat, SharedTable};
use std::alloc::{AllocError, Global};

/// `count` copies of the names. Err if memory runs out.
pub fn copies(alloc: Global, names: &Names, count: u32) -> Result<Vec<Names>, AllocError>
    ensures count { IfOk result (λ copies. length copies.items ≡ count) }
    ensures same { IfOk result (λ copies. AllByRecursion (λ copy. copy ≡ names.now) copies.items) }
{
    let mut copies = Vec::new(alloc);
    for made in 0..count {
        copies.push(names.copy()?)?;
    }
    Ok(copies)
}

/// Makes a leaf that is down over each of the first berths, as many as there are lists of the steward's seats.
pub fn begin_all<'t, B: Berth>(
    leaves: &mut Vec<Option<OneLeaf<'t, B>>>,
    names: &Names,
    copies: Vec<Names>,
    tables: &'t FleetTables,
    stewards: Vec<Vec<Seat>>,
    berths: &mut Vec<B>,
)
    requires none { leaves.old.items ≡ [] }
    requires room { length stewards.items ≤ vec_capacity leaves.old }
    requires few { length stewards.items ≤ 256 }
    requires tables { length tables.now ≡ length stewards.items }
    requires copies { length copies.items ≡ length stewards.items }
    requires same { AllByRecursion (λ copy. copy ≡ names.now) copies.items }
    requires enough { length stewards.items ≤ length berths.old.items }
    requires ready { (leaf : ℕ) → leaf < length stewards.items
        → LeafIsReady B.meaning names.now tables.now (lists_in stewards.items) berths.old.items leaf }
    ensures begun { AreBegun B.meaning names.now tables.now (lists_in stewards.items) berths.old.items
        (length stewards.items) leaves.new.items }
    ensures berths { berths.new.items ≡ drop (length stewards.items) berths.old.items }
    ensures room { vec_capacity berths.new ≡ vec_capacity berths.old }
{
    let mut copies = copies;
    let mut stewards = stewards;
    for number in 0..stewards.len() {
        let copy = copies.remove(0);
        let seats = stewards.remove(0);
        let berth = berths.remove(0);
        begin(leaves, copy, tables.leaf(number as u32), seats, berth);
    }
}

// Appends a leaf that is down. There is room for it.
fn begin<'t, B: Berth>(
    leaves: &mut Vec<Option<OneLeaf<'t, B>>>,
    names: Names,
    tables: &'t [SharedTable],
    stewards: Vec<Seat>,
    berth: B,
)
    requires room { vec_len leaves.old < vec_capacity leaves.old }
    requires named { AreNames names }
    requires names { map name_of tables.now ≡ names }
    requires count { length stewards.items ≡ length tables.now }
    requires unused { AtEach (λ place t v. IsUnused t v)
        (record { names = names; tables = tables.now; seats = stewards.items }) }
    requires alike { AreAlike (record { names = names; tables = tables.now; seats = stewards.items }) }
    requires ready { AreFounded (record { names = names; tables = tables.now; seats = stewards.items })
        → (base : NamedStates) × MayBegin base (B.meaning berth)
        × AtEach (λ place t v. start_of (base_seen t) ≡ base (name_of t))
        (record { names = names; tables = tables.now; seats = stewards.items }) }
    ensures leaves { (one : _) × (leaves.new.items ≡ leaves.old.items ++ one ∷ [])
        × IsBegun B.meaning (record { names = names; tables = tables.now; seats = stewards.items }) berth one }
    ensures len { vec_len leaves.new ≡ vec_len leaves.old + 1 }
    ensures room { vec_capacity leaves.old ≤ vec_capacity leaves.new }
{
    let leaf = OneLeaf::Down(Down::new(names, tables, stewards, berth));
    match leaves.push(Some(leaf)) {
        Ok(()) => {}
        Err(_) => unreachable!(),
    }
}
