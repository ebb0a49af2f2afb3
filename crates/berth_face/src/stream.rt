// A source of bytes and a sink for bytes, with counts of their faults.
ghost use Rattle.std.specs.Prelude.{List, ℕ, length, ◌<◌, ◌≤◌, IfOk, Option};
ghost use Rattle.std.specs.Io.{ReadsAtMost, WritesAtMost};
ghost use Rattle.std.specs.Io.KnownBytes.{ReadConsumes, WriteAppends};
ghost use Rattle.berth_face.specs.Causes.{HasCause};

/// The outside refused a call.
#[derive(Clone, Copy, Debug, PartialEq, Eq)]
pub struct Failed;

/// A source of bytes.
pub trait Source {
    /// The bytes that are left; None if the source does not tell them.
    ghost left: { Self → Option (List ℕ) };

    /// How often a call failed.
    ghost faults: { Self → ℕ };

    /// Reads the next bytes into the buffer, and tells how many: 0 only at the end. A call that fails takes nothing.
    fn take(&mut self, buf: &mut [u8]) -> Result<usize, Failed>
        requires { 0 < length buf.old }
        ensures bound { ReadsAtMost result buf.new }
        ensures bytes { ReadConsumes (left self.old) (left self.new) result buf.new }
        ensures cause { HasCause (faults self.old) (faults self.new) result };
}

/// A sink of bytes.
pub trait Sink {
    /// The bytes that were written; None if the sink does not tell them.
    ghost written: { Self → Option (List ℕ) };

    /// How often a call failed.
    ghost faults: { Self → ℕ };

    /// Appends a prefix of the piece, and tells its length: at least one byte of a piece that is not empty. A call that
    /// fails appends nothing.
    fn put(&mut self, bytes: &[u8]) -> Result<usize, Failed>
        ensures bound { WritesAtMost result bytes.now }
        ensures some { 0 < length bytes.now → IfOk result (λ n. 0 < n) }
        ensures bytes { WriteAppends (written self.old) (written self.new) result bytes.now }
        ensures cause { HasCause (faults self.old) (faults self.new) result };
}
