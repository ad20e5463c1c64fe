//! Stop requests for the threads that run beside the server's own.
use std::alloc::{AllocError, Global};
use std::sync::atomic::{AtomicBool, Ordering};
use std::sync::{Arc, Wait};
use std::thread::Parker;
use std::time::Duration;

/// A stop request for one thread.
#[derive(Drop)]
pub struct StopToken {
    is_said: AtomicBool,
    parker: Parker,
}

impl StopToken {
    /// A handle without a request yet; the thread and its owner share it.
    pub fn new(alloc: Global) -> Result<Arc<StopToken, Global>, AllocError> {
        let stop_token = StopToken {
            is_said: AtomicBool::new(false),
            parker: Parker::new(),
        };
        Ok(Arc::new(alloc, stop_token)?)
    }

    /// Requests the stop, and wakes the thread if it waits.
    pub fn dismiss(&self) {
        self.is_said.store(true, Ordering::SeqCst);
        self.parker.unpark();
    }

    /// Whether the stop was requested.
    pub fn is_said(&self) -> bool {
        self.is_said.load(Ordering::SeqCst)
    }

    /// Waits for `time` at most, or until shortly after a stop is requested. Returns whether it
    /// was.
    pub fn wait<R: Wait>(&self, rt: &R, time: Duration) -> bool {
        if !self.is_said() {
            self.parker.park_timeout(rt, time);
        }
        self.is_said()
    }
}
