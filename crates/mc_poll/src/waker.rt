//! Wakes one thread.
ghost use Rattle.std.specs.Prelude.{◌≡◌, IfOk};
ghost use Rattle.std.specs.Arc.{arc_value};
ghost use Rattle.std.specs.Int.{div_ceil};

use crate::bit_set::AtomicBitSet;
use crossbeam_utils::sync::Unparker;
use mio::event::Source;
use mio::{Interest, Registry, Token};
use std::alloc::{AllocError, Global};
use std::io;
use std::sync::Arc;
use std::sync::atomic::{AtomicBool, Ordering};

/// How a blocked thread is woken.
pub(crate) enum Notifier {
    /// The thread blocks in a parker.
    Memory(Unparker),
    /// The thread blocks in a poll, with which sockets are registered.
    Sockets {
        waker: mio::Waker,
        registry: Registry,
    },
}

impl Drop for Notifier {
    /// Written by hand, so that its owners drop it by a single call (docs/DECISIONS.md, F20).
    fn drop(self) {
        match self {
            Notifier::Memory(_unparker) => {}
            Notifier::Sockets {
                waker: _waker,
                registry: _registry,
            } => {}
        }
    }
}

/// Wakes one thread, and records why: which slots it has to visit.
#[derive(Drop)]
pub(crate) struct Waker {
    pub(crate) notifier: Notifier,
    /// The thread blocks, or is at its last look before it does.
    pub(crate) asleep: AtomicBool,
    /// The server's slots that have notified this thread's shards since the thread last took the
    /// bits.
    pub(crate) callers: AtomicBitSet,
    /// The thread's slots that became ready since the thread last took the bits.
    pub(crate) roused: AtomicBitSet,
    /// The thread's slots that have asked for a reminder.
    pub(crate) reminders: AtomicBitSet,
}

impl Waker {
    /// A waker with this notifier, for a thread that serves `places` slots and whose shards
    /// `callers` slots may notify. All of its slots are marked ready. Fails if memory is refused.
    pub(crate) fn new(
        alloc: Global,
        notifier: Notifier,
        callers: usize,
        places: usize,
    ) -> Result<Arc<Waker, Global>, AllocError>
        ensures callers { IfOk result
            (λ waker. (arc_value waker).callers ≡ div_ceil callers 64) }
        ensures places { IfOk result (λ waker. (arc_value waker).roused ≡ div_ceil places 64) }
    {
        let waker = Waker {
            notifier,
            asleep: AtomicBool::new(false),
            callers: AtomicBitSet::new(alloc, callers)?,
            roused: AtomicBitSet::new(alloc, places)?,
            reminders: AtomicBitSet::new(alloc, places)?,
        };
        for place in 0..places {
            waker.roused.mark(place);
        }
        Ok(Arc::new(alloc, waker)?)
    }

    /// Records that the slot has pushed something for a shard of this thread, and wakes the thread
    /// if it sleeps or is about to.
    pub(crate) fn call(&self, seat: usize) {
        self.callers.mark(seat);
        self.wake();
    }

    /// Records that something was pushed for the thread's slot at `place`, and wakes the thread if
    /// it sleeps or is about to.
    pub(crate) fn rouse(&self, place: usize) {
        self.roused.mark(place);
        self.wake();
    }

    /// Marks the slots that asked for a reminder as ready.
    pub(crate) fn remind(&self) {
        self.roused.take_all(&self.reminders);
    }

    /// Registers a socket with the thread's poll, for the slot at `place`. `Unsupported` if the
    /// thread blocks in a parker.
    pub(crate) fn register<S: Source>(&self, source: &mut S, place: usize) -> io::Result<()> {
        let Notifier::Sockets { registry, .. } = &self.notifier else {
            return Err(io::Error::from(io::ErrorKind::Unsupported));
        };
        let interests = Interest::READABLE | Interest::WRITABLE | Interest::PRIORITY;
        registry.register(source, Token(place), interests)
    }

    /// Wakes the thread if it sleeps or is about to, once for each sleep.
    fn wake(&self) {
        if self.asleep.load(Ordering::SeqCst) && self.asleep.swap(false, Ordering::SeqCst) {
            self.ring();
        }
    }

    /// Wakes the thread from its parker or poll.
    /// Wakes the thread from its parker or poll.
    fn ring(&self) {
        match &self.notifier {
            Notifier::Memory(unparker) => unparker.unpark(),
            Notifier::Sockets { waker, .. } => {
                // A waker that was made successfully doesn't fail.
                let _ = waker.wake();
            }
        }
    }
}
