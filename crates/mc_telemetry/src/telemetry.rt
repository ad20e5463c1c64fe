//! Telemetry of a server's connections and of each slot.
ghost use Rattle.std.specs.Prelude.{◌≡◌, ◌∷◌, ◌++◌, ◌<◌, [], None, Some, IfNone, IfOk, IfSome, OnErr, option_map, vec_len};
ghost use Rattle.mc_telemetry.specs.Closing.{TellsClosed};
ghost use Rattle.mc_telemetry.specs.Counts.{CountsEnd, CountsUnserved, acceptor_of, shards_of, shared_value, shared_values, thread_of};
ghost use Rattle.mc_telemetry.specs.IdleTimer.{clock_of, idle_limit_of, idle_timer_of};
ghost use Rattle.mc_telemetry.specs.Reports.{Reported};
ghost use Rattle.mc_telemetry.specs.Shutdown.{drain_stage, stage_of};
ghost use Rattle.mc_telemetry.specs.declared.event.ConnectionEvent.TheVariants.{NotAccepted, Opened, SeatFree, SeatsTaken};

use crate::counter::{Count, Counter};
use crate::counts::{AcceptorCounts, Counts, SeatCounts};
use crate::event::{ConnectionEvent, Peer};
use crate::idle_timer::{CoarseClock, IdleTimer};
use crate::meter::Meter;
use crate::reporter::Reporter;
use crate::shard_counts::ShardCounts;
use crate::shutdown::{Drain, Shutdown};
use crossbeam_utils::CachePadded;
use std::alloc::{AllocError, Global};
use std::sync::Arc;

/// The idle timeout and its clock.
#[derive(Drop)]
pub struct IdleLimit<C = Counter> {
    /// Seconds since the server started.
    pub seconds: CoarseClock<C>,
    /// Longest time without a byte, in seconds.
    pub limit: u64,
}

/// Telemetry of a server's connections.
pub struct Telemetry<C = Counter> {
    /// The idle timeout; `None` for no timeout.
    pub idle_limit: Option<IdleLimit<C>>,
    /// The counters, if telemetry is on.
    pub counts: Option<Counts<C>>,
    /// Reporters of events, one for each slot. A slot without one reports nothing.
    pub reporters: Vec<Reporter>,
    /// The shutdown stage; `None` if the server ends only with its last connection.
    pub drain: Option<Drain<C>>,
}

impl<C: Drop> Drop for Telemetry<C> {
    /// Written by hand, so that its owners drop it by a single call (docs/DECISIONS.md, F20).
    fn drop(self) {
        let Telemetry {
            idle_limit: _idle_limit,
            counts: _counts,
            reporters: _reporters,
            drain: _drain,
        } = self;
    }
}

/// Telemetry of one slot.
pub struct SlotTelemetry<C = Counter> {
    seat: usize,
    counts: Option<Arc<CachePadded<SeatCounts<C>>, Global>>,
    idle_limit: Option<IdleLimit<C>>,
    shutdown: Option<Shutdown<C>>,
    reporter: Reporter,
    /// Address of the last client.
    peer: Option<Peer>,
}

impl<C: Drop> Drop for SlotTelemetry<C> {
    /// Written by hand, so that its owners drop it by a single call (docs/DECISIONS.md, F20).
    fn drop(self) {
        let SlotTelemetry {
            seat: _seat,
            counts: _counts,
            idle_limit: _idle_limit,
            shutdown: _shutdown,
            reporter: _reporter,
            peer: _peer,
        } = self;
    }
}

/// Telemetry of the accepting thread.
pub struct AcceptorTelemetry<C = Counter> {
    counts: Option<Arc<CachePadded<AcceptorCounts<C>>, Global>>,
    reporter: Reporter,
}

impl<C: Drop> Drop for AcceptorTelemetry<C> {
    /// Written by hand, so that its owners drop it by a single call (docs/DECISIONS.md, F20).
    fn drop(self) {
        let AcceptorTelemetry {
            counts: _counts,
            reporter: _reporter,
        } = self;
    }
}

impl<C: Count> IdleLimit<C> {
    /// Clones the handle; both share the clock. Fails if memory is refused.
    pub fn share(&self) -> Result<IdleLimit<C>, AllocError>
        ensures limit { IfOk result (λ shared. shared.limit ≡ self.now.limit) }
        ensures clock { IfOk result
            (λ shared. clock_of shared.seconds ≡ clock_of self.now.seconds) }
    {
        Ok(IdleLimit {
            seconds: self.seconds.share()?,
            limit: self.limit,
        })
    }
}

impl<C: Count> Telemetry<C> {
    /// Telemetry that records nothing.
    pub fn nothing(alloc: Global) -> Telemetry<C>
        ensures timeless { result.idle_limit ≡ None }
        ensures uncounted { result.counts ≡ None }
        ensures unheard { result.reporters.items ≡ [] }
        ensures endless { result.drain ≡ None }
    {
        Telemetry {
            idle_limit: None,
            counts: None,
            reporters: Vec::new(alloc),
            drain: None,
        }
    }

    /// The telemetry of slot `seat`, which thread number `thread` serves. Fails if memory is
    /// refused.
    pub fn seat(&mut self, seat: usize, thread: usize) -> Result<SlotTelemetry<C>, AllocError>
        ensures seat { IfOk result (λ telemetry. telemetry.seat ≡ seat) }
        ensures nobody { IfOk result (λ telemetry. telemetry.peer ≡ None) }
        ensures limit { IfOk result
            (λ telemetry. idle_limit_of telemetry.idle_limit ≡ idle_limit_of self.old.idle_limit) }
        ensures counted { IfOk result
            (λ telemetry. option_map shared_value telemetry.counts ≡
            thread_of self.old.counts thread) }
        ensures stage { IfOk result
            (λ telemetry. option_map stage_of telemetry.shutdown ≡ drain_stage self.old.drain) }
        ensures heard { IfOk result (λ telemetry.
            0 < vec_len self.old.reporters →
            self.old.reporters.items ≡ self.new.reporters.items ++ telemetry.reporter ∷ []) }
        ensures unheard { IfOk result (λ telemetry.
            self.old.reporters.items ≡ [] → telemetry.reporter.queue ≡ None) }
        ensures err { OnErr result (self.new ≡ self.old) }
        ensures idle_limit { self.new.idle_limit ≡ self.old.idle_limit }
        ensures counts { self.new.counts ≡ self.old.counts }
        ensures drain { self.new.drain ≡ self.old.drain }
    {
        let idle_limit = match &self.idle_limit {
            Some(idle_limit) => Some(idle_limit.share()?),
            None => None,
        };
        let shutdown = match &self.drain {
            Some(drain) => Some(drain.shutdown.share()?),
            None => None,
        };
        let counts = match &self.counts {
            Some(counts) => counts.thread(thread)?,
            None => None,
        };
        Ok(SlotTelemetry {
            seat,
            counts,
            idle_limit,
            shutdown,
            reporter: self.reporter(),
            peer: None,
        })
    }

    /// The published counters of the shards, by number; `None` without telemetry.
    pub fn shards(
        &self,
        alloc: Global,
    ) -> Result<Vec<Arc<CachePadded<ShardCounts<C>>, Global>>, AllocError>
        ensures each { IfSome self.now.counts (λ counts.
            IfOk result (λ shards. shared_values shards.items ≡ shards_of counts)) }
        ensures none { self.now.counts ≡ None → IfOk result (λ shards. shards.items ≡ []) }
    {
        match &self.counts {
            Some(counts) => counts.shards(alloc),
            None => Ok(Vec::new(alloc)),
        }
    }

    /// The telemetry of the accepting thread. Fails if memory is refused.
    pub fn acceptor(&mut self) -> Result<AcceptorTelemetry<C>, AllocError>
        ensures counted { IfOk result
            (λ telemetry. option_map shared_value telemetry.counts ≡ acceptor_of self.old.counts) }
        ensures heard { IfOk result (λ telemetry.
            0 < vec_len self.old.reporters →
            self.old.reporters.items ≡ self.new.reporters.items ++ telemetry.reporter ∷ []) }
        ensures unheard { IfOk result (λ telemetry.
            self.old.reporters.items ≡ [] → telemetry.reporter.queue ≡ None) }
        ensures err { OnErr result (self.new ≡ self.old) }
        ensures idle_limit { self.new.idle_limit ≡ self.old.idle_limit }
        ensures counts { self.new.counts ≡ self.old.counts }
        ensures drain { self.new.drain ≡ self.old.drain }
    {
        let counts = match &self.counts {
            Some(counts) => Some(counts.acceptor()?),
            None => None,
        };
        Ok(AcceptorTelemetry {
            counts,
            reporter: self.reporter(),
        })
    }

    /// The idle timeout and the shutdown stage.
    pub fn into_limits(self) -> (Option<IdleLimit<C>>, Option<Drain<C>>)
        ensures idle_limit { result.0 ≡ self.idle_limit }
        ensures drain { result.1 ≡ self.drain }
    {
        let Telemetry {
            idle_limit,
            drain,
            counts: _counts,
            reporters: _reporters,
        } = self;
        (idle_limit, drain)
    }

    /// Takes the next reporter; one that discards events if none is left.
    fn reporter(&mut self) -> Reporter
        ensures heard { 0 < vec_len self.old.reporters →
            self.old.reporters.items ≡ self.new.reporters.items ++ result ∷ [] }
        ensures unheard { self.old.reporters.items ≡ [] → result.queue ≡ None }
        ensures idle_limit { self.new.idle_limit ≡ self.old.idle_limit }
        ensures counts { self.new.counts ≡ self.old.counts }
        ensures drain { self.new.drain ≡ self.old.drain }
    {
        match self.reporters.pop() {
            Some(reporter) => reporter,
            None => Reporter::unheard(),
        }
    }
}

impl<C: Count> SlotTelemetry<C> {
    /// Records a new connection of this client, and returns its meter.
    pub fn open(&mut self, peer: Peer) -> Meter<C>
        ensures read { result.read ≡ 0 }
        ensures written { result.written ≡ 0 }
        ensures commands { result.commands ≡ 0 }
        // Without a shutdown stage, no connection ends for a shutdown.
        ensures stage { IfSome result.shutdown
            (λ shutdown. option_map stage_of self.old.shutdown ≡ Some (stage_of shutdown)) }
        // Without an idle timeout, a connection may be idle forever.
        ensures timeless { self.old.idle_limit ≡ None → result.idle_timer ≡ None }
        ensures limit { IfSome result.idle_timer
            (λ idle_timer. idle_timer_of (Some idle_timer) ≡ idle_limit_of self.old.idle_limit) }
        ensures counted { IfSome result.counts
            (λ counts. option_map shared_value self.old.counts ≡ Some (shared_value counts)) }
        ensures reported { Reported self.old.reporter (Opened peer self.old.seat)
            self.new.reporter }
        ensures peer { self.new.peer ≡ Some peer }
        ensures seat { self.new.seat ≡ self.old.seat }
        ensures idle_limit { self.new.idle_limit ≡ self.old.idle_limit }
        ensures counts { self.new.counts ≡ self.old.counts }
        ensures shutdown { self.new.shutdown ≡ self.old.shutdown }
    {
        let seat = self.seat;
        self.peer = Some(peer);
        self.reporter.report(ConnectionEvent::Opened { peer, seat });
        Meter::begin(self.counts(), self.idle_timer(), self.shutdown())
    }

    /// Records the end of a connection: it parsed `commands` commands, and `broke` says whether it
    /// failed. The reason is the meter's.
    pub fn close(&mut self, meter: &Meter<C>, commands: u64, broke: bool)
        ensures counted { IfSome self.old.counts (λ counts.
            CountsEnd C.was_added (shared_value counts) meter.now.commands commands broke
            meter.now.manner) }
        ensures told { IfSome self.old.peer (λ peer.
            TellsClosed peer self.old.seat meter.now commands
            self.old.reporter self.new.reporter) }
        ensures silent { IfNone self.old.peer (self.new.reporter ≡ self.old.reporter) }
        ensures nobody { self.new.peer ≡ None }
        ensures seat { self.new.seat ≡ self.old.seat }
        ensures idle_limit { self.new.idle_limit ≡ self.old.idle_limit }
        ensures counts { self.new.counts ≡ self.old.counts }
        ensures shutdown { self.new.shutdown ≡ self.old.shutdown }
    {
        if let Some(counts) = &self.counts {
            counts
                .commands
                .add(commands.saturating_sub(meter.commands()));
            counts.broken.add(u64::from(broke));
            counts.ends.count(meter.manner());
            counts.ended.add(1);
        }
        if let Some(peer) = self.peer.take() {
            self.reporter
                .report(closed(peer, self.seat, commands, meter));
        }
    }

    /// Records that an accepted connection could not be served.
    pub fn turn_away(&mut self)
        ensures counted { IfSome self.old.counts
            (λ counts. CountsUnserved C.was_added (shared_value counts)) }
        ensures same { self.new ≡ self.old }
    {
        if let Some(counts) = &self.counts {
            counts.broken.add(1);
            counts.ended.add(1);
        }
    }

    fn counts(&self) -> Option<Arc<CachePadded<SeatCounts<C>>, Global>>
        ensures { IfSome result
            (λ counts. option_map shared_value self.now.counts ≡ Some (shared_value counts)) }
    {
        Arc::try_clone(self.counts.as_ref()?).ok()
    }

    fn shutdown(&self) -> Option<Shutdown<C>>
        ensures { IfSome result
            (λ shutdown. option_map stage_of self.now.shutdown ≡ Some (stage_of shutdown)) }
    {
        self.shutdown.as_ref()?.share().ok()
    }

    fn idle_timer(&self) -> Option<IdleTimer<C>>
        ensures timeless { self.now.idle_limit ≡ None → result ≡ None }
        ensures limit { IfSome result
            (λ idle_timer. idle_timer_of (Some idle_timer) ≡ idle_limit_of self.now.idle_limit) }
    {
        let idle_limit = self.idle_limit.as_ref()?;
        Some(IdleTimer::begin(idle_limit.seconds.share().ok()?, idle_limit.limit))
    }
}

impl<C: Count> AcceptorTelemetry<C> {
    /// Records an accepted connection.
    pub fn accepted(&mut self)
        ensures counted { IfSome self.old.counts
            (λ counts. C.was_added (shared_value counts).accepted 1) }
        ensures same { self.new ≡ self.old }
    {
        if let Some(counts) = &self.counts {
            counts.accepted.add(1);
        }
    }

    /// Records a connection that was accepted and refused, since all slots are taken.
    pub fn rejected(&mut self)
        ensures counted { IfSome self.old.counts
            (λ counts. C.was_added (shared_value counts).rejected 1) }
        ensures same { self.new ≡ self.old }
    {
        if let Some(counts) = &self.counts {
            counts.rejected.add(1);
        }
    }

    /// Records a failed accept, with its errno if the system gave one.
    pub fn failed(&mut self, fault: Option<i32>)
        ensures counted { IfSome self.old.counts
            (λ counts. C.was_added (shared_value counts).failed 1) }
        ensures reported { Reported self.old.reporter (NotAccepted fault) self.new.reporter }
        ensures counts { self.new.counts ≡ self.old.counts }
    {
        if let Some(counts) = &self.counts {
            counts.failed.add(1);
        }
        self.reporter.report(ConnectionEvent::NotAccepted { fault });
    }

    /// Records that all slots are in use: further connections wait in the backlog.
    pub fn all_taken(&mut self)
        ensures reported { Reported self.old.reporter SeatsTaken self.new.reporter }
        ensures counts { self.new.counts ≡ self.old.counts }
    {
        self.reporter.report(ConnectionEvent::SeatsTaken);
    }

    /// Records that a slot is free again.
    pub fn one_free(&mut self)
        ensures reported { Reported self.old.reporter SeatFree self.new.reporter }
        ensures counts { self.new.counts ≡ self.old.counts }
    {
        self.reporter.report(ConnectionEvent::SeatFree);
    }
}

/// The event of an ended connection.
fn closed<C: Count>(peer: Peer, seat: usize, commands: u64, meter: &Meter<C>) -> ConnectionEvent
    ensures { result ≡
        ConnectionEvent.Closed peer seat meter.now.manner commands meter.now.read
        meter.now.written }
{
    ConnectionEvent::Closed {
        peer,
        seat,
        manner: meter.manner(),
        commands,
        read: meter.read(),
        written: meter.written(),
    }
}
