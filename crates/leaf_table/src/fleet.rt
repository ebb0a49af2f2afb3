// The tables of a fleet, and the seats at them.
ghost use Rattle.std.specs.Prelude.{◌≡◌, ◌<◌, ◌≤◌, length, IfOk};
ghost use Rattle.std.specs.List.{AllByRecursion};
ghost use Rattle.leaf_table.specs.Lists.{lists_in, row, HasRows, Puts};
ghost use Rattle.leaf_table.specs.Fleet.{IsShortName, IsPartOfFleet, IsNewFleet};

use crate::base::Founds;
use crate::shared::{Seat, SharedTable};
use leaf_model::Names;
use std::alloc::{AllocError, Global};
use std::marker::Model;

/// The steward's seats, by leaf and then by table. Contracts see them as lists of lists.
#[derive(Drop)]
pub struct StewardSeats {
    inner: Vec<Vec<Seat>>,
}

impl Model for StewardSeats {
    ghost use Rattle.std.specs.Prelude.{List};
    ghost use Rattle.leaf_table.specs.Calls.{SeatView};
    ghost use Rattle.leaf_table.specs.Lists.{lists_in};

    ghost Value = { List (List SeatView) };

    ghost view = { λ seats. lists_in seats.inner.items };
}

impl StewardSeats {
    pub fn of(inner: Vec<Vec<Seat>>) -> StewardSeats
        ensures { result ≡ lists_in inner.items }
    {
        StewardSeats { inner }
    }

    pub fn as_slice(&self) -> &[Vec<Seat>]
        ensures { lists_in result.now ≡ self.now }
    {
        self.inner.as_slice()
    }

    pub fn into_inner(self) -> Vec<Vec<Seat>>
        ensures { lists_in result.items ≡ self }
    {
        self.inner
    }
}

/// The callers' seats, by table and then by leaf. Contracts see them as lists of lists.
#[derive(Drop)]
pub struct CallerSeats {
    inner: Vec<Vec<Seat>>,
}

impl Model for CallerSeats {
    ghost use Rattle.std.specs.Prelude.{List};
    ghost use Rattle.leaf_table.specs.Calls.{SeatView};
    ghost use Rattle.leaf_table.specs.Lists.{lists_in};

    ghost Value = { List (List SeatView) };

    ghost view = { λ seats. lists_in seats.inner.items };
}

impl CallerSeats {
    pub fn of(inner: Vec<Vec<Seat>>) -> CallerSeats
        ensures { result ≡ lists_in inner.items }
    {
        CallerSeats { inner }
    }

    pub fn as_slice(&self) -> &[Vec<Seat>]
        ensures { lists_in result.now ≡ self.now }
    {
        self.inner.as_slice()
    }

    pub fn into_inner(self) -> Vec<Vec<Seat>>
        ensures { lists_in result.items ≡ self }
    {
        self.inner
    }
}

/// The tables of a fleet, by leaf: one of each name. Contracts see them as lists of lists.
#[derive(Drop)]
pub struct FleetTables {
    leaves: Vec<Vec<SharedTable>>,
}

impl Model for FleetTables {
    ghost use Rattle.std.specs.Prelude.{List};
    ghost use Rattle.leaf_table.specs.Turns.{Shared};
    ghost use Rattle.leaf_table.specs.Lists.{lists_in};

    ghost Value = { List (List Shared) };

    ghost view = { λ fleet. lists_in fleet.leaves.items };
}

impl FleetTables {
    /// Makes a shut table of each name for each leaf, with the steward's seats and the first callers' seats. Each
    /// callers' seat has `share` ids. N picks the bases. Err if memory runs out.
    pub fn new<N: Founds>(
        alloc: Global,
        leaves: u32,
        names: &Names,
        share: u64,
    ) -> Result<(FleetTables, StewardSeats, CallerSeats), AllocError>
        requires leaves { leaves ≤ 256 }
        requires names { length names.now ≤ 16 }
        requires short { AllByRecursion IsShortName names.now }
        requires share { (1 ≤ share) × (share ≤ 65536) }
        ensures { IfOk result (λ f. IsNewFleet N.base leaves names.now share f.0 f.1 f.2) }
    {
        let mut tables = Vec::new(alloc);
        let mut stewards = Vec::new(alloc);
        let mut callers = empty_rows(alloc, names.as_slice().len())?;
        for leaf in 0..leaves {
            let (of_leaf, seats) = leaf_tables::<N>(alloc, leaf, names, share, &mut callers)?;
            tables.push(of_leaf)?;
            stewards.push(seats)?;
        }
        let fleet = FleetTables { leaves: tables };
        Ok((fleet, StewardSeats::of(stewards), CallerSeats::of(callers)))
    }

    /// The tables of a leaf, in the order of the names.
    pub fn leaf(&self, leaf: u32) -> &[SharedTable]
        requires { leaf < length self.now }
        ensures { result.now ≡ row self.now leaf }
    {
        self.leaves[leaf as usize].as_slice()
    }

    /// The number of leaves.
    pub fn count(&self) -> usize
        ensures { result ≡ length self.now }
    {
        self.leaves.len()
    }

    /// An estimate of the rows that table `table` has at `count` leaves from `first` on. It is a hint only.
    pub fn weight(&self, table: u32, first: u32, count: usize) -> u64 {
        let mut weight = 0u64;
        for leaf in first as usize..(first as usize).saturating_add(count) {
            if let Some(tables) = self.leaves.get(leaf) {
                if let Some(shared) = tables.get(table as usize) {
                    weight = weight.saturating_add(shared.weight());
                }
            }
        }
        weight
    }
}

// `count` empty lists of seats.
fn empty_rows(alloc: Global, count: usize) -> Result<Vec<Vec<Seat>>, AllocError>
    ensures { IfOk result (λ rows. HasRows count 0 (lists_in rows.items)) }
{
    let mut rows = Vec::new(alloc);
    for made in 0..count {
        rows.push(Vec::new(alloc))?;
    }
    Ok(rows)
}

// Appends a seat to list `at`.
fn put(rows: &mut Vec<Vec<Seat>>, at: usize, seat: Seat) -> Result<(), AllocError>
    requires { at < length (lists_in rows.old.items) }
    ensures { IfOk result (λ _. Puts (lists_in rows.old.items) at seat (lists_in rows.new.items)) }
{
    rows[at].push(seat)?;
    Ok(())
}

// One leaf's tables and their steward's seats. The callers' seats are appended to those of the leaves before.
fn leaf_tables<N: Founds>(
    alloc: Global,
    leaf: u32,
    names: &Names,
    share: u64,
    callers: &mut Vec<Vec<Seat>>,
) -> Result<(Vec<SharedTable>, Vec<Seat>), AllocError>
    requires names { length names.now ≤ 16 }
    requires short { AllByRecursion IsShortName names.now }
    requires share { (1 ≤ share) × (share ≤ 65536) }
    requires callers { HasRows (length names.now) leaf (lists_in callers.old.items) }
    ensures { IfOk result (λ r. IsPartOfFleet N.base leaf names.now share (length names.now) r.0.items r.1.items
        (lists_in callers.old.items) (lists_in callers.new.items)) }
{
    let mut tables = Vec::new(alloc);
    let mut stewards = Vec::new(alloc);
    for name in names.as_slice() {
        let table = tables.len();
        let (shared, steward, caller) = SharedTable::new::<N>(
            alloc,
            leaf,
            table as u32,
            name,
            share,
        )?;
        tables.push(shared)?;
        stewards.push(steward)?;
        put(callers, table, caller)?;
    }
    Ok((tables, stewards))
}
