//! Free slots, by the threads that serve them.
use mc_poll::Poller;
use std::alloc::{AllocError, Global};

/// The free slots of each thread.
#[derive(Drop)]
pub(crate) struct FreeSeats {
    /// By thread.
    free: Vec<Vec<usize>>,
    /// The thread of each slot.
    threads: Vec<usize>,
}

impl FreeSeats {
    /// No slot is free at first. The pollers are those of the threads; slots are numbered from 0,
    /// in the order of their threads.
    pub(crate) fn new(alloc: Global, pollers: &[Poller]) -> Result<FreeSeats, AllocError> {
        let mut free = Vec::with_capacity(alloc, pollers.len())?;
        let mut threads = Vec::new(alloc);
        for (thread, poller) in pollers.iter().enumerate() {
            let count = poller.places();
            free.push(Vec::with_capacity(alloc, count)?)?;
            for _ in 0..count {
                threads.push(thread)?;
            }
        }
        Ok(FreeSeats { free, threads })
    }

    /// Number of slots, free or not.
    pub(crate) fn seats(&self) -> usize {
        self.threads.len()
    }

    /// The thread of the slot; the first one if there is no such slot.
    pub(crate) fn thread_of(&self, seat: usize) -> usize {
        match self.threads.get(seat) {
            Some(thread) => *thread,
            None => 0,
        }
    }

    /// Marks a slot free; at most once until it is taken again, since the capacity is one place per
    /// slot.
    pub(crate) fn add(&mut self, seat: usize) {
        let Some(thread) = self.threads.get(seat) else {
            return;
        };
        if let Some(seats) = self.free.get_mut(*thread) {
            // Can't fail: there is capacity for all slots of the thread.
            let _ = seats.push(seat);
        }
    }

    /// Whether no slot is free.
    pub(crate) fn is_empty(&self) -> bool {
        self.free.iter().all(|seats| seats.is_empty())
    }

    /// Takes a free slot of the thread with the most free slots.
    pub(crate) fn take(&mut self) -> Option<usize> {
        let mut most = 0;
        let mut found = None;
        for (thread, seats) in self.free.iter().enumerate() {
            if seats.len() > most {
                most = seats.len();
                found = Some(thread);
            }
        }
        self.free.get_mut(found?)?.pop()
    }
}
