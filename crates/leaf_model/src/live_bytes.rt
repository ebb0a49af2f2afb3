// A byte queue: bytes are cut off the front, and the others are seldom moved.
ghost use Rattle.std.specs.Prelude.{◌≡◌, ◌+◌, ◌≤◌, ◌++◌, [], drop, length, take, OnErr, OnOk};

use std::alloc::{AllocError, Global};
use std::marker::Model;

/// Bytes of which the first `dead` are cut off. The live ones are moved over the dead ones once a quarter of all bytes
/// is dead, so each byte that is cut off costs at most three moved bytes, amortized. Contracts see the live bytes.
#[derive(Drop)]
pub(crate) struct LiveBytes {
    pub(crate) all: Vec<u8>,
    pub(crate) dead: usize,
}

impl Model for LiveBytes {
    ghost use Rattle.std.specs.Prelude.{◌≤◌, ℕ, List, drop, length};

    ghost Value = { List ℕ };

    ghost view = { λ bytes. drop bytes.dead bytes.all.items };

    ghost invariant = { λ bytes. bytes.dead ≤ length bytes.all.items };
}

impl LiveBytes {
    /// These bytes, all live.
    pub(crate) fn of(all: Vec<u8>) -> LiveBytes
        ensures { result ≡ all.items }
    {
        LiveBytes { all, dead: 0 }
    }

    pub(crate) fn as_slice(&self) -> &[u8]
        ensures { result.now ≡ self.now }
    {
        &self.all[self.dead..]
    }

    /// Appends bytes.
    #[tactic(auto, using(crate::proofs::LiveLaws::drop_more))]
    pub(crate) fn append(&mut self, more: &[u8]) -> Result<(), AllocError>
        ensures put { OnOk result (self.new ≡ self.old ++ more.now) }
        ensures kept { OnErr result (self.new ≡ self.old) }
    {
        self.all.extend_from_slice(more)
    }

    /// Cuts the first `count` live bytes off.
    #[tactic(auto, using(crate::proofs::LiveLaws::cut_more))]
    pub(crate) fn cut_front(&mut self, count: usize)
        requires { count ≤ length self.old }
        ensures { self.new ≡ drop count self.old }
    {
        self.dead += count;
        if self.dead >= self.all.len() / 4 {
            self.move_live();
        }
    }

    /// Moves the live bytes over the dead ones.
    fn move_live(&mut self)
        ensures { self.new ≡ self.old }
    {
        drop_bytes(&mut self.all, self.dead);
        self.dead = 0;
    }

    /// Keeps the first `len` live bytes.
    #[tactic(auto, using(crate::proofs::LiveLaws::take_left))]
    pub(crate) fn truncate(&mut self, len: usize)
        requires { len ≤ length self.old }
        ensures { self.new ≡ take len self.old }
    {
        self.all.truncate(self.dead + len);
    }

    pub(crate) fn clear(&mut self)
        ensures { self.new ≡ [] }
    {
        self.all.clear();
        self.dead = 0;
    }

    /// The allocator of the bytes.
    pub(crate) fn allocator(&self) -> Global {
        *self.all.allocator()
    }
}

/// Removes the first `count` bytes.
pub(crate) fn drop_bytes(bytes: &mut Vec<u8>, count: usize)
    requires { count ≤ length bytes.old.items }
    ensures { bytes.new.items ≡ drop count bytes.old.items }
{
    let len = bytes.len() - count;
    move_down(bytes.as_mut_slice(), count, 0, len);
    bytes.truncate(len);
}

/// Moves the `len` bytes at `from` down to `to`.
pub(crate) fn move_down(bytes: &mut [u8], from: usize, to: usize, len: usize)
    requires down { to ≤ from }
    requires within { from + len ≤ length bytes.old }
    ensures len { length bytes.new ≡ length bytes.old }
    ensures front { take (to + len) bytes.new ≡ take to bytes.old ++ take len (drop from bytes.old) }
    ensures back { drop (from + len) bytes.new ≡ drop (from + len) bytes.old }
{
    bytes.copy_within(from..from + len, to);
}
