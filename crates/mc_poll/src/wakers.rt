//! The wakers of a server's threads, by shard and by slot.
use crate::poller::Poller;
use crate::waker::Waker;
use mio::event::Source;
use std::alloc::{AllocError, Global};
use std::io;
use std::sync::Arc;

/// The thread that serves a slot.
#[derive(Clone, Copy)]
struct Place {
    thread: usize,
    /// The slot's number among those of its thread.
    place: usize,
}

/// The threads, and which of them serves each shard and each slot.
#[derive(Drop)]
struct Directory {
    threads: Vec<Arc<Waker, Global>>,
    /// The thread of each shard.
    shards: Vec<usize>,
    /// The thread and place of each slot.
    seats: Vec<Place>,
}

/// Wakes the threads of a server, by the numbers of its shards and slots. Clones share one
/// directory.
pub struct Wakers {
    all: Arc<Directory, Global>,
}

impl Drop for Wakers {
    /// Written by hand, so that its owners drop it by a single call (docs/DECISIONS.md, F20).
    fn drop(self) {
        let Wakers { all: _all } = self;
    }
}

impl Wakers {
    /// The wakers of these threads. Shards and slots are numbered from 0, in the order of the
    /// threads that serve them. Fails if memory is refused.
    pub fn of(alloc: Global, pollers: &[Poller]) -> Result<Wakers, AllocError> {
        let mut all = Directory {
            threads: Vec::with_capacity(alloc, pollers.len())?,
            shards: Vec::new(alloc),
            seats: Vec::new(alloc),
        };
        for poller in pollers {
            all.add(poller)?;
        }
        Ok(Wakers {
            all: Arc::new(alloc, all)?,
        })
    }

    /// Clones the handle, for one more producer. Fails if memory is refused.
    pub fn share(&self) -> Result<Wakers, AllocError> {
        Ok(Wakers {
            all: Arc::try_clone(&self.all)?,
        })
    }

    /// Notifies the shard's thread that slot `seat` has pushed something for the shard, and wakes
    /// that thread if it sleeps or is about to. Call it once for everything pushed together.
    pub fn call(&self, shard: usize, seat: usize) {
        if let Some(waker) = self.all.of_shard(shard) {
            waker.call(seat);
        }
    }

    /// Notifies the slot's thread that something was pushed for the slot, and wakes that thread if
    /// it sleeps or is about to. Call it once for everything pushed together.
    pub fn rouse(&self, seat: usize) {
        if let Some((waker, place)) = self.all.of_seat(seat) {
            waker.rouse(place);
        }
    }

    /// Marks the slot as ready again within about 50 ms, if its thread blocks in a poll.
    pub fn remind(&self, seat: usize) {
        if let Some((waker, place)) = self.all.of_seat(seat) {
            waker.reminders.mark(place);
        }
    }

    /// Registers the socket with the poll of the slot's thread, so that its events mark the slot as
    /// ready.
    ///
    /// Errors: `NotFound` if there is no such slot, `Unsupported` if its thread has no poll, or
    /// those of epoll_ctl(2).
    pub fn register<S: Source>(&self, seat: usize, source: &mut S) -> io::Result<()> {
        match self.all.of_seat(seat) {
            Some((waker, place)) => waker.register(source, place),
            None => Err(io::Error::from(io::ErrorKind::NotFound)),
        }
    }
}

impl Directory {
    /// Adds the slots and shards of one more thread.
    fn add(&mut self, poller: &Poller) -> Result<(), AllocError> {
        let thread = self.threads.len();
        self.threads.push(poller.waker()?)?;
        for _ in 0..poller.workers() {
            self.shards.push(thread)?;
        }
        for place in 0..poller.places() {
            self.seats.push(Place { thread, place })?;
        }
        Ok(())
    }

    /// The waker of the thread of a shard.
    fn of_shard(&self, shard: usize) -> Option<&Waker> {
        let thread = self.shards.get(shard)?;
        Some(self.threads.get(*thread)?)
    }

    /// The waker of the thread of a slot, and the slot's place there.
    fn of_seat(&self, seat: usize) -> Option<(&Waker, usize)> {
        let at = self.seats.get(seat)?;
        Some((self.threads.get(at.thread)?, at.place))
    }
}
