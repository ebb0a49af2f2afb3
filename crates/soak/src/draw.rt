// Draws the rows of a soak, one after another.
ghost use Rattle.std.specs.Prelude.{◌≡◌, ◌+◌, ◌-◌, ◌*◌, ◌^◌, ◌<◌, ◌≤◌, IfOk};
ghost use Rattle.soak.specs.Hosts.{AreHosts};
ghost use Rattle.soak.specs.Soak.{generator_behind, row_at, row_with, rows_between};

use crate::row::{each_host, put_row};
use leaf_model::{Cell, PackedRows, Rows};
use rand_core::utils::NextWord;
use rand_pcg::Lcg64Xsh32;
use std::alloc::{AllocError, Global};

/// The rows of a seed: the number of the next row, and the generator after the words of the rows before it.
#[derive(Drop)]
pub struct Draw {
    seed: u64,
    next: u32,
    generator: Lcg64Xsh32,
    ghost behind: { generator ≡ generator_behind seed (2 * next) },
}

impl Draw {
    pub fn new(seed: u64) -> Draw
        ensures seed { result.seed ≡ seed }
        ensures next { result.next ≡ 0 }
    {
        Draw {
            seed,
            next: 0,
            generator: Lcg64Xsh32::new(seed, 0),
        }
    }

    /// The two words of the next row, which then counts as drawn.
    fn words(&mut self) -> (u32, u32)
        requires { self.old.next + 1 < 2 ^ 32 }
        ensures seed { self.new.seed ≡ self.old.seed }
        ensures next { self.new.next ≡ self.old.next + 1 }
        ensures row { row_with self.old.next result.0 result.1 ≡ row_at self.old.seed self.old.next }
    {
        let host = self.generator.next_word();
        let code = self.generator.next_word();
        self.next += 1;
        (host, code)
    }

    /// Draws the rows up to but without row `end`. `cells` has the cells of each host.
    fn drawn(
        &mut self,
        alloc: Global,
        cells: &mut [Cell],
        end: u32,
    ) -> Result<PackedRows, AllocError>
        requires order { self.old.next ≤ end }
        requires hosts { AreHosts cells.old }
        ensures seed { self.new.seed ≡ self.old.seed }
        ensures next { IfOk result (λ _. self.new.next ≡ end) }
        ensures exact { IfOk result (λ rows. rows ≡ rows_between self.old.seed self.old.next end) }
    {
        let mut rows = PackedRows::new(alloc);
        while self.next < end {
            let number = self.next;
            let (host, code) = self.words();
            put_row(&mut rows, cells, number, host, code)?;
        }
        Ok(rows)
    }

    /// Draws the rows from the next one up to but without row `end`. Err if memory runs out.
    pub fn rows(&mut self, alloc: Global, end: u32) -> Result<Rows, AllocError>
        requires order { self.old.next ≤ end }
        requires few { end - self.old.next ≤ 100000 }
        ensures seed { self.new.seed ≡ self.old.seed }
        ensures next { IfOk result (λ _. self.new.next ≡ end) }
        ensures exact { IfOk result (λ rows. rows ≡ rows_between self.old.seed self.old.next end) }
    {
        let mut cells = each_host(alloc)?;
        let rows = self.drawn(alloc, cells.as_mut_slice(), end)?;
        Ok(Rows::of(rows))
    }
}
