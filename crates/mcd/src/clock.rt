//! The clock of the running server, and what `stats` shows of it.
use mc_conn::StatsSource;
use mc_metrics::ProcessTimes;
use mc_reply::ServerStats;
use mc_server::MachineClock;
use mc_sizes::Sizes;
use mc_telemetry::{Counts, Telemetry, Totals};
use mc_transport::Clock;
use std::alloc::{AllocError, Global};
use std::boxed::Box;
use std::fs::File;
use std::rt::Files;
use std::time;

/// The machine's time, and the counts of the server's threads, which all copies share.
#[derive(Clone, Copy)]
pub struct ServerClock<R> {
    clock: MachineClock<R>,
    /// /proc/self/stat, if it can be opened.
    stat: Option<&'static File>,
    /// The time at which the clock was made.
    started: u64,
    /// The maximum number of open connections.
    seats: u64,
    /// The counters of the server's threads, if they count.
    counts: Option<&'static Counts>,
}

impl<R: time::Clock + Files<File = File> + Copy> ServerClock<R> {
    /// A clock that starts now. The memory of the counters is never freed, and the file never
    /// closed: each thread reads them until it ends.
    pub fn start(
        rt: R,
        alloc: Global,
        sizes: &Sizes,
        telemetry: &Telemetry,
    ) -> Result<ServerClock<R>, AllocError> {
        let counts = match &telemetry.counts {
            Some(counts) => Some(leaked(alloc, counts.share(alloc)?)?),
            None => None,
        };
        let stat = match File::open(&rt, "/proc/self/stat") {
            Ok(stat) => Some(leaked_file(alloc, stat)?),
            Err(_) => None,
        };
        let clock = MachineClock::start(rt);
        Ok(ServerClock {
            clock,
            stat,
            started: clock.now(),
            seats: sizes.seats as u64,
            counts,
        })
    }
}

/// The counters at an address that is never freed.
fn leaked(alloc: Global, counts: Counts) -> Result<&'static Counts, AllocError> {
    Ok(Box::leak(Box::new(alloc, counts)?))
}

/// The file, which is never closed.
fn leaked_file(alloc: Global, file: File) -> Result<&'static File, AllocError> {
    Ok(Box::leak(Box::new(alloc, file)?))
}

impl<R: time::Clock> StatsSource for ServerClock<R> {
    ghost may_show = { λ _ _. Unit {0} };

    fn server_stats(&self) -> ServerStats {
        let time = self.clock.now();
        let process = match self.stat {
            Some(stat) => ProcessTimes::now(stat),
            None => ProcessTimes::default(),
        };
        let totals = match self.counts {
            Some(counts) => counts.totals(),
            None => Totals::default(),
        };
        ServerStats {
            pid: process.pid,
            uptime: time.saturating_sub(self.started),
            time,
            user_time: process.user,
            system_time: process.system,
            max_connections: self.seats,
            curr_connections: totals.open(),
            total_connections: totals.accepted,
            rejected_connections: totals.rejected,
            bytes_read: totals.read,
            bytes_written: totals.written,
        }
    }
}

impl<R: time::Clock> Clock for ServerClock<R> {
    ghost may_answer = { λ _ _. Unit {0} };

    fn now(&self) -> u64 {
        self.clock.now()
    }
}
