//! Queues of connection events from the serving threads to the logging thread. A full queue drops
//! events, so no serving thread waits for standard error (docs/DECISIONS.md, W2).
ghost use Rattle.std.specs.Prelude.{◌≡◌, None, IfOk, length};
ghost use Rattle.mc_telemetry.specs.Reports.{AreHeard, Reported};

use crate::event::ConnectionEvent;
use crate::stop_token::StopToken;
use rtrb::{Consumer, Producer, RingBuffer};
use std::alloc::{AllocError, Global};
use std::io::Eprint;
use std::sync::Wait;
use std::time::Duration;

/// Capacity of one reporter's queue, in events. Further events are dropped.
const ROOM: usize = 512;

/// Polling interval of the logging thread, in milliseconds.
const LOOK_MILLIS: u64 = 20;

/// An entry of a queue.
#[derive(Clone, Copy)]
struct Record {
    event: ConnectionEvent,
    /// Number of events dropped before this one because the queue was full.
    dropped: u64,
}

/// The sending end of one thread. It never blocks: if its queue is full, the event is dropped and
/// counted. Without a logging thread, it does nothing.
#[derive(Drop)]
pub struct Reporter {
    queue: Option<Producer<Record>>,
    dropped: u64,
}

/// The receiving ends of all reporters.
pub struct Reports {
    queues: Vec<Consumer<Record>>,
}

impl Drop for Reports {
    /// Written by hand, so that its owners drop it by a single call (docs/DECISIONS.md, F20).
    fn drop(self) {
        let Reports { queues: _queues } = self;
    }
}

/// Makes `count` reporters, and the receiver of all their events.
pub fn reporters(alloc: Global, count: usize) -> Result<(Vec<Reporter>, Reports), AllocError>
    ensures reporters { IfOk result (λ both. length both.0.items ≡ count) }
    ensures reports { IfOk result (λ both. AreHeard both.0.items both.1.queues.items) }
{
    let mut all = Vec::with_capacity(alloc, count)?;
    let mut queues = Vec::with_capacity(alloc, count)?;
    for _ in 0..count {
        let (queue, reports) = RingBuffer::new(alloc, ROOM)?;
        all.push(Reporter {
            queue: Some(queue),
            dropped: 0,
        })?;
        queues.push(reports)?;
    }
    Ok((all, Reports { queues }))
}

impl Reporter {
    /// A reporter without a receiver; it discards events.
    pub fn unheard() -> Reporter
        ensures unheard { result.queue ≡ None }
        ensures dropped { result.dropped ≡ 0 }
    {
        Reporter {
            queue: None,
            dropped: 0,
        }
    }

    /// Queues an event, or drops and counts it if the queue is full.
    pub fn report(&mut self, event: ConnectionEvent)
        ensures { Reported self.old event self.new }
    {
        let Some(queue) = &mut self.queue else {
            return;
        };
        let report = Record {
            event,
            dropped: self.dropped,
        };
        match queue.push(report) {
            Ok(()) => self.dropped = 0,
            Err(_full) => self.dropped = self.dropped.saturating_add(1),
        }
    }
}

impl Reports {
    /// Writes each event to standard error as a line with this prefix, until a stop is requested
    /// and the queues are empty. Events of one reporter are written in order.
    pub fn write_all<R: Eprint + Wait>(self, rt: &R, prefix: &str, stop_token: &StopToken) {
        let mut reports = self;
        for _ in rt.forever() {
            // Read before the queues: everything reported before the stop request is still written.
            let is_last = stop_token.is_said();
            let wrote = reports.write_some(rt, prefix);
            if is_last && !wrote {
                return;
            }
            if !wrote {
                stop_token.wait(rt, Duration::from_millis(LOOK_MILLIS));
            }
        }
        unreachable!()
    }

    /// Writes the queued events of all reporters. Returns whether there were any.
    fn write_some<R: Eprint>(&mut self, rt: &R, prefix: &str) -> bool {
        let mut wrote = false;
        for queue in &mut self.queues {
            wrote = write_each(rt, prefix, queue) || wrote;
        }
        wrote
    }
}

/// Writes the queued events of one reporter, at most a full queue. Returns whether there were any.
fn write_each<R: Eprint>(rt: &R, prefix: &str, queue: &mut Consumer<Record>) -> bool {
    let mut wrote = false;
    for _ in 0..ROOM {
        let Ok(report) = queue.pop() else {
            return wrote;
        };
        wrote = true;
        write(rt, prefix, report);
    }
    wrote
}

/// Writes one event. Errors of standard error are ignored.
fn write<R: Eprint>(rt: &R, prefix: &str, report: Record) {
    let event = report.event;
    if report.dropped > 0 {
        let dropped = report.dropped;
        let _ = eprintln!(rt; "{prefix}log lines dropped: {dropped}");
    }
    let _ = eprintln!(rt; "{prefix}{event}");
}
