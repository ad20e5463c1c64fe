//! The machine's time, and a clock with a fixed time.
ghost use Rattle.std.specs.Prelude.{◌≡◌, ◌+◌, ◌/◌, IfOk, OnErr, min};
ghost use Rattle.std.specs.Duration.{as_nanos, max_nanos};
ghost use Rattle.mc_reply.specs.Server.{no_server};

use mc_conn::StatsSource;
use mc_reply::ServerStats;
use mc_transport::Clock;
use std::time::Duration;
use std::{io, time};

/// A clock with a fixed time, in seconds since 1970.
#[derive(Clone, Copy)]
pub struct FixedClock(pub u64);

impl Clock for FixedClock {
    ghost may_answer = { λ clock moment. moment ≡ clock.0 };

    fn now(&self) -> u64 {
        self.0
    }
}

/// It shows only its time.
impl StatsSource for FixedClock {
    ghost may_show = { λ clock shown. shown ≡ record no_server { time = clock.0 } };

    fn server_stats(&self) -> ServerStats {
        ServerStats {
            time: self.0,
            ..ServerStats::none()
        }
    }
}

/// The wall clock's time at the start, advanced by the monotonic clock, so that setting the wall
/// clock has no effect (docs/DECISIONS.md, S2). 0 if a clock can't be read. No clause says what
/// time it shows.
#[derive(Clone, Copy)]
pub struct MachineClock<R> {
    rt: R,
    /// The time since 1970 at the monotonic clock's zero, from both clocks at the start.
    begin: Option<Duration>,
}

impl<R: time::Clock> MachineClock<R> {
    /// A clock that starts now.
    pub fn start(rt: R) -> MachineClock<R> {
        let begin = match (rt.since_1970(), rt.monotonic()) {
            (Ok(wall), Ok(monotonic)) => Some(wall.saturating_sub(monotonic)),
            _ => None,
        };
        MachineClock { rt, begin }
    }
}

/// It shows only the time.
impl<R: time::Clock> StatsSource for MachineClock<R> {
    ghost may_show = { λ _ _. Unit {0} };

    fn server_stats(&self) -> ServerStats {
        ServerStats {
            time: self.now(),
            ..ServerStats::none()
        }
    }
}

impl<R: time::Clock> Clock for MachineClock<R> {
    ghost may_answer = { λ _ _. Unit {0} };

    fn now(&self) -> u64 {
        match self.begin {
            Some(begin) => seconds(begin, self.rt.monotonic()),
            None => 0,
        }
    }
}

/// The whole seconds of a time since 1970 plus the time passed since then; 0 if the clock can't be
/// read.
fn seconds(begin: Duration, passed: io::Result<Duration>) -> u64
    ensures read { IfOk passed (λ passed.
        result ≡ min (as_nanos begin + as_nanos passed) max_nanos / 1_000_000_000) }
    ensures unread { OnErr passed (result ≡ 0) }
{
    match passed {
        Ok(passed) => begin.saturating_add(passed).as_secs(),
        Err(_) => 0,
    }
}
