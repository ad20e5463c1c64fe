//! The idle timer of connections, on a coarse clock that needs no system call. See
//! docs/DECISIONS.md, N9.
ghost use Rattle.std.specs.Prelude.{◌≡◌, ◌-◌, ◌<◌, ◌↔◌, IfOk, IsTrue};
ghost use Rattle.mc_telemetry.specs.IdleTimer.{Beats, IsIdle, clock_of};

use crate::counter::{Count, Counter};
use std::alloc::{AllocError, Global};
use std::sync::Arc;

/// Seconds since the server started. One thread updates them; all others read them.
#[derive(Drop)]
pub struct CoarseClock<C = Counter> {
    passed: Arc<C, Global>,
}

/// The idle timer of a connection: when it last moved a byte, and the timeout.
#[derive(Drop)]
pub struct IdleTimer<C = Counter> {
    seconds: CoarseClock<C>,
    last: u64,
    /// The timeout in seconds.
    limit: u64,
}

impl CoarseClock<Counter> {
    /// A clock at 0 seconds.
    pub fn new(alloc: Global) -> Result<CoarseClock, AllocError> {
        Ok(CoarseClock {
            passed: Arc::new(alloc, Counter::new())?,
        })
    }
}

impl<C: Count> CoarseClock<C> {
    /// Clones the handle; both share the clock. Fails if memory is refused.
    pub fn share(&self) -> Result<CoarseClock<C>, AllocError>
        ensures { IfOk result (λ shared. clock_of shared ≡ clock_of self.now) }
    {
        Ok(CoarseClock {
            passed: Arc::try_clone(&self.passed)?,
        })
    }

    /// Sets the clock to `passed` seconds.
    pub fn set(&self, passed: u64)
        ensures { C.was_set (clock_of self.now) passed }
    {
        self.passed.set(passed);
    }

    /// Returns the seconds passed.
    pub fn passed(&self) -> u64
        ensures { C.has_told (clock_of self.now) result }
    {
        self.passed.get()
    }
}

impl<C: Count> IdleTimer<C> {
    /// The timer of a connection that starts now, with a timeout of `limit` seconds.
    pub fn begin(seconds: CoarseClock<C>, limit: u64) -> IdleTimer<C>
        ensures limit { result.limit ≡ limit }
        ensures clock { clock_of result.seconds ≡ clock_of seconds }
        ensures now { C.has_told (clock_of seconds) result.last }
    {
        let last = seconds.passed();
        IdleTimer {
            seconds,
            last,
            limit,
        }
    }

    /// Resets the timer.
    pub fn beat(&mut self)
        ensures { Beats C.has_told self.old self.new }
    {
        self.last = self.seconds.passed();
    }

    /// Whether the connection was idle for more seconds than the timeout.
    pub fn is_idle(&self) -> bool
        ensures { IsIdle C.has_told self.now result }
    {
        is_past(self.seconds.passed(), self.last, self.limit)
    }
}

/// Whether more than `limit` seconds passed from `last` to `now`.
fn is_past(now: u64, last: u64, limit: u64) -> bool
    ensures { IsTrue result ↔ (limit < now - last) }
{
    now.saturating_sub(last) > limit
}
