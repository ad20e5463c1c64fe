//! The poll of the sockets of one thread's slots, in which the thread blocks.

use crate::bit_set::AtomicBitSet;
use crate::waker::Notifier;
use mio::event::Event;
use mio::{Events, Poll, Token, Waker};
use std::alloc::Global;
use std::io;
use std::net::Net;
use std::time::Duration;

/// Token of the thread's own waker. No slot has it.
const NOTIFIER: Token = Token(usize::MAX);

/// Maximum number of socket events per poll, not counting one for the waker; further events come
/// with the next poll.
const MAX_EVENTS: usize = 1_024;

/// What the poll reported of a socket.
#[derive(Clone, Copy, Debug, PartialEq, Eq)]
pub enum Readiness {
    /// It is readable or writable.
    Ready,
    /// Also its input has ended, it has failed, or it has urgent bytes. A short read then doesn't
    /// mean that nothing is left.
    Closing,
}

/// The poll, and the events that no slot has taken yet.
pub(crate) struct Sockets {
    poll: Poll,
    events: Events,
    /// The last event of each slot.
    ready: Vec<Option<Readiness>>,
}

impl Drop for Sockets {
    /// Written by hand, so that its owners drop it by a single call (docs/DECISIONS.md, F20).
    fn drop(self) {
        let Sockets {
            poll: _poll,
            events: _events,
            ready: _ready,
        } = self;
    }
}

impl Sockets {
    /// A poll without sockets, for `places` slots.
    pub(crate) fn new<R: Net>(rt: &R, alloc: Global, places: usize) -> io::Result<Sockets> {
        let room = places.min(MAX_EVENTS).saturating_add(1);
        Ok(Sockets {
            poll: Poll::new(rt)?,
            events: Events::with_capacity(alloc, room)?,
            ready: vec![in alloc; None; places]?,
        })
    }

    /// A handle that wakes the thread from this poll, and with which sockets are registered.
    pub(crate) fn notifier(&self) -> io::Result<Notifier> {
        let waker = Waker::new(self.poll.registry(), NOTIFIER)?;
        let registry = self.poll.registry().try_clone()?;
        Ok(Notifier::Sockets { waker, registry })
    }

    /// Polls until a socket has an event, the thread is woken, or the timeout ends, if there is
    /// one. Marks the slots with events in `roused`. Returns whether there was any event.
    pub(crate) fn look(&mut self, timeout: Option<Duration>, roused: &AtomicBitSet) -> bool {
        if self.poll.poll(&mut self.events, timeout).is_err() {
            return false;
        }
        for event in self.events.iter() {
            let place = event.token().0;
            if let Some(ready) = self.ready.get_mut(place) {
                *ready = Some(merged(*ready, event));
                roused.mark(place);
            }
        }
        !self.events.is_empty()
    }

    /// Takes the last event of the socket of the slot at `place`, if there was one.
    pub(crate) fn ready(&mut self, place: usize) -> Option<Readiness> {
        self.ready.get_mut(place)?.take()
    }
}

/// Merges the previous readiness with a new event. `Closing` is kept.
fn merged(before: Option<Readiness>, event: &Event) -> Readiness {
    let closing = event.is_read_closed() || event.is_error() || event.is_priority();
    if closing || before == Some(Readiness::Closing) {
        Readiness::Closing
    } else {
        Readiness::Ready
    }
}
