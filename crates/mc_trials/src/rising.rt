//! A clock that advances by a second at each call.
use mc_conn::StatsSource;
use mc_reply::ServerStats;
use mc_transport::Clock;
use std::alloc::{AllocError, Global};
use std::boxed::Box;
use std::sync::atomic::{AtomicU64, Ordering};

/// All copies share one clock.
#[derive(Clone, Copy)]
pub struct Rising(&'static AtomicU64);

impl Rising {
    /// A clock that starts at this Unix time. Its memory is never freed.
    pub fn new(alloc: Global, moment: u64) -> Result<Rising, AllocError> {
        let next = Box::new(alloc, AtomicU64::new(moment))?;
        Ok(Rising(Box::leak(next)))
    }
}

impl StatsSource for Rising {
    ghost may_show = { λ _ _. Unit {0} };

    fn server_stats(&self) -> ServerStats {
        ServerStats::none()
    }
}

impl Clock for Rising {
    ghost may_answer = { λ _ _. Unit {0} };

    fn now(&self) -> u64 {
        self.0.fetch_add(1, Ordering::SeqCst)
    }
}
