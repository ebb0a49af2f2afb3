// Which calls of a memory form fail.
ghost use Rattle.std.specs.Prelude.{◌≡◌, ◌≤◌, ◌<◌, not};
ghost use Rattle.berth_face.specs.Causes.{Rose};
ghost use Rattle.berth_mem.specs.Counts.{one_more};
ghost use Rattle.berth_mem.specs.Plans.{place, fails_at, listed, fails_next, after_call};
ghost use Rattle.berth_mem.specs.declared.faults.Plan.TheVariants.{Failing};

use std::marker::Model;

/// A method of a source, a sink or a berth.
#[derive(Clone, Copy, PartialEq, Eq)]
pub enum Method {
    Take,
    Put,
    RegionLen,
    RegionRead,
    RegionWrite,
    RegionCut,
    DiskLen,
    DiskRead,
    DiskWrite,
    DiskSync,
}

impl Method {
    fn place(self) -> usize
        ensures number { result ≡ place self }
        ensures bound { result < 10 }
    {
        match self {
            Method::Take => 0,
            Method::Put => 1,
            Method::RegionLen => 2,
            Method::RegionRead => 3,
            Method::RegionWrite => 4,
            Method::RegionCut => 5,
            Method::DiskLen => 6,
            Method::DiskRead => 7,
            Method::DiskWrite => 8,
            Method::DiskSync => 9,
        }
    }
}

/// A call that is to fail: its method, and its number among the calls of the method, from 1.
#[derive(Clone, Copy, PartialEq, Eq)]
pub struct Fail {
    pub method: Method,
    pub count: u64,
}

/// The calls that are to fail. Contracts see them as the list.
#[derive(Drop)]
pub struct Fails {
    inner: Vec<Fail>,
}

impl Model for Fails {
    ghost use Rattle.std.specs.Prelude.{List};
    ghost use Rattle.berth_mem.specs.declared.faults.Fail.{Fail};

    ghost Value = { List Fail };

    ghost view = { λ list. list.inner.items };
}

impl Fails {
    pub fn of(inner: Vec<Fail>) -> Fails
        ensures { result ≡ inner.items }
    {
        Fails { inner }
    }

    pub fn as_slice(&self) -> &[Fail]
        ensures { result.now ≡ self.now }
    {
        self.inner.as_slice()
    }

    pub fn into_inner(self) -> Vec<Fail>
        ensures { result.items ≡ self }
    {
        self.inner
    }

    // Whether the list has this call of the method.
    fn has(&self, method: Method, count: u64) -> bool
        ensures { result ≡ fails_at self.now method count }
    {
        self.inner.iter().any(|fail| fail.method.place() == method.place() && fail.count == count)
    }
}

/// The calls that are to fail, and how many calls of each method were made.
#[derive(Drop)]
pub struct Counted {
    pub fails: Fails,
    pub made: [u64; 10],
}

/// Which calls fail: none, those of a list, or each one after a number of calls.
#[derive(Drop)]
pub enum Plan {
    Plain,
    Failing(Counted),
    Fused(u64),
}

impl Plan {
    pub fn failing(fails: Fails) -> Plan
        ensures { result ≡ listed fails }
    {
        Plan::Failing(Counted {
            fails,
            made: [0; 10],
        })
    }

    /// Counts a call, and tells whether it passes.
    pub fn passes(&mut self, method: Method) -> bool
        ensures passes { result ≡ not (fails_next self.old method) }
        ensures after { self.new ≡ after_call self.old method }
    {
        match self {
            Plan::Plain => true,
            Plan::Failing(counted) => counted.passes(method),
            Plan::Fused(left) => {
                let passes = *left > 0;
                *left = left.saturating_sub(1);
                passes
            }
        }
    }
}

impl Counted {
    fn passes(&mut self, method: Method) -> bool
        ensures passes { result ≡ not (fails_next (Failing self.old) method) }
        ensures after { Failing self.new ≡ after_call (Failing self.old) method }
    {
        let place = method.place();
        let count = self.made[place].saturating_add(1);
        self.made[place] = count;
        !self.fails.has(method, count)
    }
}

/// Adds one to a count. It saturates at the greatest u64.
pub fn count(n: &mut u64)
    ensures exact { n.new ≡ one_more n.old }
    ensures rose { Rose n.old n.new }
    ensures later { n.old ≤ n.new }
{
    *n = n.saturating_add(1);
}
