//! The idle reaper: a thread that wakes slots without events, so that they find idle connections
//! and requests for shutdown.
use crate::error::ServeError;
use mc_net::AcceptorHandle;
use mc_poll::{Poller, Wakers};
use mc_telemetry::{CoarseClock, Drain, IdleLimit, StopToken, Telemetry};
use std::alloc::Global;
use std::sync::{Arc, Wait};
use std::thread::{JoinHandle, Threads};
use std::time::{Duration, Instant};
use std::{thread, time};

/// Interval between two looks at the clock and the requests, in milliseconds.
const LOOK_MILLIS: u64 = 250;

/// The thread's task. Once a second it publishes the time to the connections and wakes all slots.
/// After a request for shutdown by a signal or a client, it ends the connections.
#[derive(Drop)]
struct ReaperTask {
    /// The clock that it publishes, if there is an idle timeout.
    seconds: Option<CoarseClock>,
    /// The requests for shutdown, if a signal or a client may send them.
    drain: Option<Drain>,
    acceptor: AcceptorHandle,
    seats: Wakers,
    count: usize,
    stop_token: Arc<StopToken, Global>,
    /// The last published second.
    published: u64,
    /// When the remaining connections are cut off, as a time since the start of the thread; `None`
    /// before shutdown is requested.
    until: Option<Duration>,
}

/// The thread, if there is an idle timeout or shutdown may be requested.
#[derive(Drop)]
pub(crate) struct IdleReaper {
    working: Option<(JoinHandle<()>, Arc<StopToken, Global>)>,
}

impl IdleReaper {
    /// Starts the thread if it is needed. The pollers are those of the slots' threads.
    ///
    /// Errors: `Memory`, or `Thread` if the thread can't be created.
    pub(crate) fn start<R: Threads + Wait + time::Clock + Copy + Send + Drop + 'static>(
        rt: &R,
        alloc: Global,
        telemetry: Telemetry,
        acceptor: AcceptorHandle,
        pollers: &[Poller],
    ) -> Result<IdleReaper, ServeError> {
        let (idle_limit, drain) = telemetry.into_limits();
        if idle_limit.is_none() && drain.is_none() {
            return Ok(IdleReaper { working: None });
        }
        let stop_token = StopToken::new(alloc)?;
        let reaper_task = ReaperTask {
            seconds: seconds_of(idle_limit),
            drain,
            acceptor,
            seats: Wakers::of(alloc, pollers)?,
            count: places(pollers),
            stop_token: Arc::try_clone(&stop_token)?,
            published: 0,
            until: None,
        };
        let own = *rt;
        match thread::spawn(rt, move || reaper_task.run(&own)) {
            Ok(going) => Ok(IdleReaper {
                working: Some((going, stop_token)),
            }),
            Err(_) => Err(ServeError::Thread),
        }
    }

    /// Ends and joins the thread.
    pub(crate) fn dismiss<R: Threads>(self, rt: &R) {
        let IdleReaper { working } = self;
        if let Some((going, stop_token)) = working {
            stop_token.dismiss();
            going.join(rt);
        }
    }
}

impl ReaperTask {
    /// Looks at regular intervals until it is dismissed. Returns at once if the clock can't be
    /// read.
    fn run<R: Wait + time::Clock>(self, rt: &R) {
        let mut reaper_task = self;
        let Ok(begin) = Instant::now(rt) else {
            return;
        };
        for _ in rt.forever() {
            if reaper_task
                .stop_token
                .wait(rt, Duration::from_millis(LOOK_MILLIS))
            {
                return;
            }
            if let Ok(passed) = begin.elapsed(rt) {
                reaper_task.look(passed);
            }
        }
        unreachable!()
    }

    /// Wakes all slots if a new second has begun or the server shuts down.
    fn look(&mut self, passed: Duration) {
        let is_second = self.publish_second(passed.as_secs());
        if self.drains(passed) || is_second {
            for seat in 0..self.count {
                self.seats.rouse(seat);
            }
        }
    }

    /// Publishes the time in seconds, if there is an idle timeout and a new second has begun.
    /// Returns whether it did.
    fn publish_second(&mut self, passed: u64) -> bool {
        let Some(seconds) = &self.seconds else {
            return false;
        };
        if passed == self.published {
            return false;
        }
        self.published = passed;
        seconds.set(passed);
        true
    }

    /// Whether the server shuts down. If so, it stops accepting, and cuts off the connections that
    /// have not ended in time.
    fn drains(&mut self, passed: Duration) -> bool {
        let Some(drain) = &self.drain else {
            return false;
        };
        match self.until {
            Some(until) => {
                if passed >= until {
                    drain.shutdown.cut();
                }
                true
            }
            None => {
                if !drain.is_requested() {
                    return false;
                }
                drain.shutdown.drain();
                self.acceptor.dismiss();
                self.until = Some(passed.saturating_add(Duration::from_secs(drain.limit)));
                true
            }
        }
    }
}

/// The clock to publish, if there is an idle timeout.
fn seconds_of(idle_limit: Option<IdleLimit>) -> Option<CoarseClock> {
    let IdleLimit { seconds, limit: _ } = idle_limit?;
    Some(seconds)
}

/// Number of slots of all threads.
fn places(pollers: &[Poller]) -> usize {
    let mut count = 0usize;
    for poller in pollers {
        count = count.saturating_add(poller.places());
    }
    count
}
