//! Measurements of one connection.
ghost use Rattle.std.specs.Prelude.{◌≡◌, ◌+◌, ◌-◌, ◌^◌, None, IfSome, min};
ghost use Rattle.mc_telemetry.specs.Counts.{shared_value};
ghost use Rattle.mc_telemetry.specs.IdleTimer.{MayBeIdle, MayBeat};
ghost use Rattle.mc_telemetry.specs.Shutdown.{MayBePast, request_of};
ghost use Rattle.mc_telemetry.specs.declared.event.Manner.TheVariants.{Quit};

use crate::counter::{Count, Counter};
use crate::counts::SeatCounts;
use crate::event::Manner;
use crate::idle_timer::IdleTimer;
use crate::shutdown::Shutdown;
use crossbeam_utils::CachePadded;
use std::alloc::Global;
use std::sync::Arc;

/// Counts the bytes and commands of one connection, decides whether it must end, and records why it
/// ended.
#[derive(Drop)]
pub struct Meter<C = Counter> {
    read: u64,
    written: u64,
    /// Commands already added to the thread's counters.
    commands: u64,
    /// Why it ended: `Quit` unless something else was noted. See docs/DECISIONS.md, W5.
    manner: Manner,
    /// The counters of its thread, if telemetry is on.
    counts: Option<Arc<CachePadded<SeatCounts<C>>, Global>>,
    /// The idle timer, if there is an idle timeout.
    idle_timer: Option<IdleTimer<C>>,
    /// The shutdown stage, if the shutdown can be requested.
    shutdown: Option<Shutdown<C>>,
}

impl<C: Count> Meter<C> {
    /// A meter without counters, idle timeout and shutdown.
    pub fn unwatched() -> Meter<C>
        ensures { result ≡
            record {
              read = 0;
              written = 0;
              commands = 0;
              manner = Quit;
              counts = None;
              idle_timer = None;
              shutdown = None;
            } }
    {
        Meter::begin(None, None, None)
    }

    /// A meter of a new connection, with the counters of its thread, if telemetry is on.
    pub fn begin(
        counts: Option<Arc<CachePadded<SeatCounts<C>>, Global>>,
        idle_timer: Option<IdleTimer<C>>,
        shutdown: Option<Shutdown<C>>,
    ) -> Meter<C>
        ensures { result ≡
            record {
              read = 0;
              written = 0;
              commands = 0;
              manner = Quit;
              counts = counts;
              idle_timer = idle_timer;
              shutdown = shutdown;
            } }
    {
        Meter {
            read: 0,
            written: 0,
            commands: 0,
            manner: Manner::Quit,
            counts,
            idle_timer,
            shutdown,
        }
    }

    /// Records that `count` bytes were read; 0 at the end of input. Resets the idle timer.
    pub fn note_read(&mut self, count: usize)
        ensures noted { self.new ≡
            record self.old {
              read = min (self.old.read + count) (2 ^ 64 - 1);
              idle_timer = self.new.idle_timer;
            } }
        ensures counted { IfSome self.old.counts
            (λ counts. C.was_added (shared_value counts).read count) }
        ensures beats { MayBeat C.has_told self.old.idle_timer self.new.idle_timer }
    {
        let count = count as u64;
        self.read = self.read.saturating_add(count);
        if let Some(counts) = &self.counts {
            counts.read.add(count);
        }
        self.beat();
    }

    /// Records that `count` bytes were written. Resets the idle timer.
    pub fn note_written(&mut self, count: usize)
        ensures noted { self.new ≡
            record self.old {
              written = min (self.old.written + count) (2 ^ 64 - 1);
              idle_timer = self.new.idle_timer;
            } }
        ensures counted { IfSome self.old.counts
            (λ counts. C.was_added (shared_value counts).written count) }
        ensures beats { MayBeat C.has_told self.old.idle_timer self.new.idle_timer }
    {
        let count = count as u64;
        self.written = self.written.saturating_add(count);
        if let Some(counts) = &self.counts {
            counts.written.add(count);
        }
        self.beat();
    }

    /// Records the total number of commands parsed so far, and counts the new ones.
    pub fn note_commands(&mut self, commands: u64)
        ensures noted { self.new ≡ record self.old { commands = commands } }
        ensures counted { IfSome self.old.counts
            (λ counts. C.was_added (shared_value counts).commands (commands - self.old.commands)) }
    {
        if let Some(counts) = &self.counts {
            counts.commands.add(commands.saturating_sub(self.commands));
        }
        self.commands = commands;
    }

    /// Records why the connection ends.
    pub fn note_end(&mut self, manner: Manner)
        ensures { self.new ≡ record self.old { manner = manner } }
    {
        self.manner = manner;
    }

    fn beat(&mut self)
        ensures same { self.new ≡ record self.old { idle_timer = self.new.idle_timer } }
        ensures beats { MayBeat C.has_told self.old.idle_timer self.new.idle_timer }
    {
        if let Some(idle_timer) = &mut self.idle_timer {
            idle_timer.beat();
        }
    }

    /// Whether the connection was idle for longer than the idle timeout.
    pub fn is_idle(&self) -> bool
        // Never idle without a timeout.
        ensures { MayBeIdle C.has_told self.now.idle_timer result }
    {
        match &self.idle_timer {
            Some(idle_timer) => idle_timer.is_idle(),
            None => false,
        }
    }

    /// Whether the connection must end as soon as no input is pending, because the server shuts
    /// down.
    pub fn is_draining(&self) -> bool
        ensures { MayBePast C.has_told 1 self.now.shutdown result }
    {
        let Some(shutdown) = &self.shutdown else {
            return false;
        };
        shutdown.is_draining()
    }

    /// Whether the connection must end at once, because the time for a clean shutdown is over.
    pub fn is_cut(&self) -> bool
        ensures { MayBePast C.has_told 2 self.now.shutdown result }
    {
        let Some(shutdown) = &self.shutdown else {
            return false;
        };
        shutdown.is_cut()
    }

    /// Requests the server's shutdown, if it can be requested.
    pub fn request_shutdown(&self)
        ensures { IfSome self.now.shutdown (λ shutdown. C.was_set (request_of shutdown) 1) }
    {
        if let Some(shutdown) = &self.shutdown {
            shutdown.request();
        }
    }

    /// Why the connection ended.
    pub fn manner(&self) -> Manner
        ensures { result ≡ self.now.manner }
    {
        self.manner
    }

    /// Number of commands counted.
    pub fn commands(&self) -> u64
        ensures { result ≡ self.now.commands }
    {
        self.commands
    }

    /// Number of bytes read.
    pub fn read(&self) -> u64
        ensures { result ≡ self.now.read }
    {
        self.read
    }

    /// Number of bytes written.
    pub fn written(&self) -> u64
        ensures { result ≡ self.now.written }
    {
        self.written
    }
}
