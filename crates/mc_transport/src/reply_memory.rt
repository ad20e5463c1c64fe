//! The memory of a line's replies that wait, as a part of what all connections may hold.
ghost use Rattle.std.specs.Prelude.{◌≡◌, ◌+◌, ◌-◌, ◌^◌, ◌≤◌, [], min, OnErr, OnOk};
ghost use Rattle.std.specs.Option.{ForSome};
ghost use Rattle.mc_transport.specs.internal.Held.{leased_in};

use mc_budget::{ClientMemory, Lease};
use std::alloc::{AllocError, Global};

/// Bytes that a line may hold without a lease, and the least that it leases at a time.
const STEP: usize = 262_144;

/// Values of this many bytes and more are shared with their items: they take no memory of their own.
const SHARED_BYTES: usize = 8_192;

/// Memory of a chunk besides its bytes, in bytes.
const CHUNK_BYTES: usize = 128;

/// Counts the memory of replies that wait. Up to `STEP` bytes are a line's own; beyond, they are
/// leased until all is written. It counts what was taken since then, so that most replies change
/// nothing here but one number.
#[derive(Drop)]
pub(crate) struct ReplyMemory {
    memory: ClientMemory,
    leases: Vec<Lease>,
    /// Bytes that were taken.
    taken: usize,
    /// Bytes that may be taken without a further lease.
    allowed: usize,
    ghost within: { taken ≤ allowed },
    ghost covered: { ForSome memory (λ name. allowed ≤ 262144 + leased_in leases.items) },
}

impl ReplyMemory {
    /// Nothing was taken. It takes no memory.
    pub(crate) fn new(alloc: Global, memory: ClientMemory) -> ReplyMemory {
        ReplyMemory {
            memory,
            leases: Vec::new(alloc),
            taken: 0,
            allowed: STEP,
        }
    }

    /// Counts these bytes. Fails if a lease of them is refused.
    pub(crate) fn take(&mut self, bytes: usize) -> Result<(), AllocError>
        ensures ok { OnOk result
            (self.new.taken ≡ min (self.old.taken + bytes) (2 ^ 64 - 1)) }
        ensures err { OnErr result (self.new.taken ≡ self.old.taken) }
    {
        let taken = self.taken.saturating_add(bytes);
        if taken > self.allowed {
            self.lease(taken.max(self.allowed.saturating_add(STEP)))?;
        }
        self.taken = taken;
        Ok(())
    }

    /// Counts a chunk that shares a value of `len` bytes. Fails if a lease is refused.
    pub(crate) fn take_shared(&mut self, len: usize) -> Result<(), AllocError> {
        let value = if len < SHARED_BYTES { len } else { 0 };
        self.take(value + CHUNK_BYTES)
    }

    /// Leases what is missing for `allowed` bytes.
    #[cold]
    #[inline(never)]
    fn lease(&mut self, allowed: usize) -> Result<(), AllocError>
        requires { self.old.allowed ≤ allowed }
        ensures ok { OnOk result (self.new.allowed ≡ allowed) }
        ensures taken { self.new.taken ≡ self.old.taken }
    {
        let bytes = allowed - self.allowed;
        let Ok(lease) = self.memory.lease(bytes as u64) else {
            return Err(AllocError);
        };
        self.leases.push(lease)?;
        self.allowed = allowed;
        Ok(())
    }

    /// All is written: returns the leases.
    #[inline(always)]
    pub(crate) fn give_back(&mut self)
        ensures { self.new.leases.items ≡ [] }
    {
        self.taken = 0;
        if !self.leases.is_empty() {
            self.return_leases();
        }
    }

    /// Drops the leases.
    #[cold]
    #[inline(never)]
    fn return_leases(&mut self)
        requires { self.old.taken ≡ 0 }
        ensures { self.new.leases.items ≡ [] }
    {
        self.leases.clear();
        self.allowed = STEP;
    }
}
