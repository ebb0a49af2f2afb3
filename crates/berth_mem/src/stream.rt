// A source and a sink in memory.
ghost use Rattle.std.specs.Prelude.{◌≡◌, ◌<◌, length, drop, Some, [], is_err, IfOk, IsTrue, IsErr};
ghost use Rattle.std.specs.Io.{ReadsAtMost, WritesAtMost};
ghost use Rattle.std.specs.Io.KnownBytes.{ReadConsumes, WriteAppends};
ghost use Rattle.berth_face.specs.Causes.{HasCause};
ghost use Rattle.berth_mem.specs.Counts.{counted};
ghost use Rattle.berth_mem.specs.Plans.{fails_next, after_call, listed};
ghost use Rattle.berth_mem.specs.Forms.{source_plan, sink_plan};
ghost use Rattle.berth_mem.specs.declared.faults.Method.TheVariants.{Take, Put};
ghost use Rattle.berth_mem.specs.declared.faults.Plan.TheVariants.{Plain};

use crate::bytes::copied;
use crate::faults::{Fails, Method, Plan, count};
use berth_face::{Failed, Sink, Source};
use std::alloc::Global;

/// A source over bytes, which are read once, from the first on.
#[derive(Drop)]
pub struct MemSource {
    bytes: Vec<u8>,
    at: u64,
    plan: Plan,
    faults: u64,
}

impl MemSource {
    /// A source that never fails.
    pub fn new(bytes: Vec<u8>) -> MemSource
        ensures left { ⟦<MemSource as Source>⟧.left result ≡ Some bytes.items }
        ensures faults { ⟦<MemSource as Source>⟧.faults result ≡ 0 }
        ensures plan { source_plan result ≡ Plain }
    {
        MemSource {
            bytes,
            at: 0,
            plan: Plan::Plain,
            faults: 0,
        }
    }

    /// A source whose listed calls fail.
    pub fn failing(bytes: Vec<u8>, fails: Fails) -> MemSource
        ensures left { ⟦<MemSource as Source>⟧.left result ≡ Some bytes.items }
        ensures faults { ⟦<MemSource as Source>⟧.faults result ≡ 0 }
        ensures plan { source_plan result ≡ listed fails }
    {
        MemSource {
            bytes,
            at: 0,
            plan: Plan::failing(fails),
            faults: 0,
        }
    }
}

impl Source for MemSource {
    ghost left = { λ s. Some (drop s.at s.bytes.items) };

    ghost faults = { λ s. s.faults };

    fn take(&mut self, buf: &mut [u8]) -> Result<usize, Failed>
        ensures bound { ReadsAtMost result buf.new }
        ensures bytes { ReadConsumes (⟦<MemSource as Source>⟧.left self.old)
            (⟦<MemSource as Source>⟧.left self.new) result buf.new }
        ensures cause { HasCause (⟦<MemSource as Source>⟧.faults self.old)
            (⟦<MemSource as Source>⟧.faults self.new) result }
        ensures fails { is_err result ≡ fails_next (source_plan self.old) Take }
        ensures plan { source_plan self.new ≡ after_call (source_plan self.old) Take }
        ensures faults { ⟦<MemSource as Source>⟧.faults self.new
            ≡ counted result (⟦<MemSource as Source>⟧.faults self.old) }
    {
        if !self.plan.passes(Method::Take) {
            count(&mut self.faults);
            return Err(Failed);
        }
        let taken = copied(&self.bytes, self.at, buf);
        self.at += taken as u64;
        Ok(taken)
    }
}

/// Bytes that were written.
#[derive(Drop)]
pub struct MemSink {
    bytes: Vec<u8>,
    plan: Plan,
    faults: u64,
}

impl MemSink {
    /// A sink that fails only if there is no memory to grow.
    pub fn new(alloc: Global) -> MemSink
        ensures written { ⟦<MemSink as Sink>⟧.written result ≡ Some [] }
        ensures faults { ⟦<MemSink as Sink>⟧.faults result ≡ 0 }
        ensures plan { sink_plan result ≡ Plain }
    {
        MemSink {
            bytes: Vec::new(alloc),
            plan: Plan::Plain,
            faults: 0,
        }
    }

    /// A sink whose listed calls fail.
    pub fn failing(fails: Fails) -> MemSink
        ensures written { ⟦<MemSink as Sink>⟧.written result ≡ Some [] }
        ensures faults { ⟦<MemSink as Sink>⟧.faults result ≡ 0 }
        ensures plan { sink_plan result ≡ listed fails }
    {
        let inner = fails.into_inner();
        let alloc = *inner.allocator();
        MemSink {
            bytes: Vec::new(alloc),
            plan: Plan::failing(Fails::of(inner)),
            faults: 0,
        }
    }

    /// What was written, from the first byte on.
    pub fn bytes(&self) -> &[u8]
        ensures { ⟦<MemSink as Sink>⟧.written self.now ≡ Some result.now }
    {
        &self.bytes
    }
}

impl Sink for MemSink {
    ghost written = { λ s. Some s.bytes.items };

    ghost faults = { λ s. s.faults };

    fn put(&mut self, bytes: &[u8]) -> Result<usize, Failed>
        ensures bound { WritesAtMost result bytes.now }
        ensures some { 0 < length bytes.now → IfOk result (λ n. 0 < n) }
        ensures bytes { WriteAppends (⟦<MemSink as Sink>⟧.written self.old)
            (⟦<MemSink as Sink>⟧.written self.new) result bytes.now }
        ensures cause { HasCause (⟦<MemSink as Sink>⟧.faults self.old) (⟦<MemSink as Sink>⟧.faults self.new) result }
        ensures fails { IsTrue (fails_next (sink_plan self.old) Put) → IsErr result }
        ensures plan { sink_plan self.new ≡ after_call (sink_plan self.old) Put }
        ensures faults { ⟦<MemSink as Sink>⟧.faults self.new ≡ counted result (⟦<MemSink as Sink>⟧.faults self.old) }
        ensures whole { IfOk result (λ n. n ≡ length bytes.now) }
    {
        if !self.plan.passes(Method::Put) {
            count(&mut self.faults);
            return Err(Failed);
        }
        match self.bytes.extend_from_slice(bytes) {
            Ok(()) => Ok(bytes.len()),
            Err(_) => {
                count(&mut self.faults);
                Err(Failed)
            }
        }
    }
}
