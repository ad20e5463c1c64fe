//! A thread's wait for work: spin, then block in a parker or in a poll of sockets.
ghost use Rattle.std.specs.Prelude.{◌≡◌, ◌≤◌, ◌-◌, ◌*◌, ◌^◌, IfOk};
ghost use Rattle.std.specs.Arc.{arc_value};
ghost use Rattle.std.specs.Int.{div_ceil};

use crate::sockets::{Readiness, Sockets};
use crate::spin_policy::SpinPolicy;
use crate::waker::{Notifier, Waker};
use crossbeam_utils::sync::Parker;
use std::alloc::{AllocError, Global};
use std::marker::Model;
use std::net::Net;
use std::sync::atomic::{AtomicBool, Ordering};
use std::sync::{Arc, Wait};
use std::time::Duration;
use std::{hint, io, thread};

/// Longest sleep in milliseconds while some slot has asked for a reminder.
const REMINDER_MILLIS: u64 = 50;

/// Number of polls of the sockets after which reminders are delivered even though the thread is
/// busy.
const REMINDER_LOOKS: u32 = 32;

/// Number of busy turns after which a thread polls its sockets although it still has work. See
/// docs/DECISIONS.md, E2.
const TURNS: u32 = 4;

/// What the thread blocks in.
#[derive(Drop)]
enum Backend {
    Memory(Parker),
    Sockets(Sockets),
}

/// Blocks one thread while it has no work. Contracts see how many slots may notify its shards, and
/// how many slots and shards it serves.
pub struct Poller {
    backend: Backend,
    waker: Arc<Waker, Global>,
    spin_policy: SpinPolicy,
    /// Polls without work since work was last found.
    idle_polls: usize,
    /// Turns with work since the sockets were last polled.
    turns: u32,
    /// Polls of the sockets since reminders were last delivered.
    looks: u32,
    callers: usize,
    places: usize,
    workers: usize,
    ghost of_callers: { (arc_value waker).callers ≡ div_ceil callers 64 },
    ghost of_places: { (arc_value waker).roused ≡ div_ceil places 64 },
}

impl Drop for Poller {
    /// Written by hand, so that its owners drop it by a single call (docs/DECISIONS.md, F20).
    fn drop(self) {
        let Poller {
            backend: _backend,
            waker: _waker,
            spin_policy: _spin_policy,
            idle_polls: _idle_polls,
            turns: _turns,
            looks: _looks,
            callers: _callers,
            places: _places,
            workers: _workers,
        } = self;
    }
}

impl Model for Poller {
    ghost use Rattle.mc_poll.specs.Poller.{ThreadSize};

    ghost Value = { ThreadSize };

    ghost view = { λ poller.
        record { callers = poller.callers; places = poller.places; workers = poller.workers } };
}

impl Poller {
    /// A poller for a thread whose slots have no sockets; it blocks in a parker. The thread serves
    /// `places` slots and `workers` shards, and any of the server's `callers` slots may notify its
    /// shards. All its slots are marked ready at first. Fails if memory is refused.
    pub fn new(
        alloc: Global,
        spin_policy: SpinPolicy,
        callers: usize,
        places: usize,
        workers: usize,
    ) -> Result<Poller, AllocError>
        ensures { IfOk result (λ poller.
            poller ≡ record { callers = callers; places = places; workers = workers }) }
    {
        let parker = Parker::new(alloc)?;
        let notifier = Notifier::Memory(parker.unparker().clone()?);
        let waker = Waker::new(alloc, notifier, callers, places)?;
        let backend = Backend::Memory(parker);
        Ok(Poller::asleep_in(backend, waker, spin_policy, callers, places, workers))
    }

    /// A poller for a thread whose slots have sockets; it blocks in a poll of them. The arguments
    /// are those of `new`. Fails if memory or the poll is refused.
    pub fn polling<R: Net>(
        rt: &R,
        alloc: Global,
        spin_policy: SpinPolicy,
        callers: usize,
        places: usize,
        workers: usize,
    ) -> io::Result<Poller>
        ensures { IfOk result (λ poller.
            poller ≡ record { callers = callers; places = places; workers = workers }) }
    {
        let sockets = Sockets::new(rt, alloc, places)?;
        let waker = Waker::new(alloc, sockets.notifier()?, callers, places)?;
        let backend = Backend::Sockets(sockets);
        Ok(Poller::asleep_in(backend, waker, spin_policy, callers, places, workers))
    }

    /// A poller that blocks in `backend` until `waker` wakes it.
    fn asleep_in(
        backend: Backend,
        waker: Arc<Waker, Global>,
        spin_policy: SpinPolicy,
        callers: usize,
        places: usize,
        workers: usize,
    ) -> Poller
        requires callers { (arc_value waker).callers ≡ div_ceil callers 64 }
        requires places { (arc_value waker).roused ≡ div_ceil places 64 }
        ensures { result ≡ record { callers = callers; places = places; workers = workers } }
    {
        Poller {
            backend,
            waker,
            spin_policy,
            idle_polls: 0,
            turns: 0,
            looks: 0,
            callers,
            places,
            workers,
        }
    }

    /// Number of slots that the thread serves.
    pub fn places(&self) -> usize
        ensures { result ≡ self.now.places }
    {
        self.places
    }

    /// Number of shards that the thread serves.
    pub fn workers(&self) -> usize
        ensures { result ≡ self.now.workers }
    {
        self.workers
    }

    /// A handle that wakes the thread.
    pub(crate) fn waker(&self) -> Result<Arc<Waker, Global>, AllocError> {
        Arc::try_clone(&self.waker)
    }

    /// Takes and clears the bits of those of the 64 slots from `64 * word` on that have notified
    /// this thread's shards. Everything a slot pushed before it notified is visible from now on.
    /// Slots beyond the number that the thread was made for are always marked, so that none is
    /// missed.
    #[tactic(auto, using(crate::proofs::Words::words_within))]
    pub fn callers_in(&self, word: usize) -> u64
        ensures unknown { self.now.callers ≤ 64 * word → result ≡ 2 ^ 64 - 1 }
    {
        self.waker.callers.take(word)
    }

    /// Takes and clears the bits of the thread's slots that are ready, 64 of them from `64 * word`
    /// on. A slot is ready if a reply was pushed, its socket has an event, or a reminder is due.
    /// Numbers that the thread doesn't serve are always marked. See docs/DECISIONS.md, E3.
    #[tactic(auto, using(crate::proofs::Words::words_within))]
    pub fn roused_in(&self, word: usize) -> u64
        ensures unknown { self.now.places ≤ 64 * word → result ≡ 2 ^ 64 - 1 }
    {
        self.waker.roused.take(word)
    }

    /// Takes the range of words in which slots may have notified this thread's shards since the
    /// last call: from the first index to before the second.
    pub fn called_words(&self) -> (usize, usize) {
        self.waker.callers.range()
    }

    /// Takes the range of words in which slots may have become ready since the last call: from the
    /// first index to before the second.
    pub fn roused_words(&self) -> (usize, usize) {
        self.waker.roused.range()
    }

    /// Marks these slots of a word as having notified this thread's shards, to visit them again.
    pub fn call_again(&self, word: usize, seats: u64) {
        self.waker.callers.add(word, seats);
    }

    /// Marks these slots of a word as ready, to visit them again.
    pub fn rouse_again(&self, word: usize, places: u64) {
        self.waker.roused.add(word, places);
    }

    /// Takes the last event of the socket of the slot at `place`, if there was one.
    pub fn ready(&mut self, place: usize) -> Option<Readiness>
        ensures same { self.new ≡ self.old }
    {
        match &mut self.backend {
            Backend::Memory(_) => None,
            Backend::Sockets(sockets) => sockets.ready(place),
        }
    }

    /// Records that work was found since the last call. Call it after all marked slots and shards
    /// were visited, and before the next look.
    pub fn found(&mut self)
        ensures same { self.new ≡ self.old }
    {
        self.note_awake();
        self.turns = self.turns.saturating_add(1);
        if self.turns >= TURNS {
            self.look(Some(Duration::ZERO));
        }
    }

    /// Records that no work was found since the last call, and backs off: spins, yields, then
    /// blocks until woken. Visit everything that may be marked between two calls.
    pub fn wait<R: Wait>(&mut self, rt: &R)
        ensures same { self.new ≡ self.old }
    {
        if self.is_last_look() {
            self.sleep(rt);
            return;
        }
        if self.idle_polls < self.spin_policy.looks {
            hint::spin_loop();
        } else if self.idle_polls - self.spin_policy.looks < self.spin_policy.yields {
            thread::yield_now();
        } else {
            self.waker.asleep.store(true, Ordering::SeqCst);
        }
        self.idle_polls = self.idle_polls.saturating_add(1);
    }

    /// Whether the thread has published that it sleeps and is at its last look.
    fn is_last_look(&self) -> bool {
        let polls = self
            .spin_policy
            .looks
            .saturating_add(self.spin_policy.yields);
        polls < self.idle_polls
    }

    /// Publishes that the thread is awake, and starts to count idle polls again.
    fn note_awake(&mut self)
        ensures same { self.new ≡ self.old }
    {
        if self.is_last_look() {
            self.waker.asleep.store(false, Ordering::SeqCst);
        }
        self.idle_polls = 0;
    }

    /// Blocks until the thread is woken.
    fn sleep<R: Wait>(&mut self, rt: &R)
        ensures same { self.new ≡ self.old }
    {
        match &self.backend {
            Backend::Memory(parker) => parker.park(rt),
            Backend::Sockets(_) => self.look(self.at_most()),
        }
        self.note_awake();
    }

    /// The longest time to block; `None` for no limit.
    fn at_most(&self) -> Option<Duration> {
        if self.waker.reminders.is_empty() {
            None
        } else {
            Some(Duration::from_millis(REMINDER_MILLIS))
        }
    }

    /// Polls the sockets until one has an event, the thread is woken, or the timeout ends, if there
    /// is one. Then delivers reminders if they are due.
    fn look(&mut self, timeout: Option<Duration>)
        ensures same { self.new ≡ self.old }
    {
        self.turns = 0;
        let Backend::Sockets(sockets) = &mut self.backend else {
            return;
        };
        self.looks = self.looks.saturating_add(1);
        let came = sockets.look(timeout, &self.waker.roused);
        let waited = timeout != Some(Duration::ZERO) && !came;
        if waited || self.looks >= REMINDER_LOOKS {
            self.looks = 0;
            self.waker.remind();
        }
    }
}
