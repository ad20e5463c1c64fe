//! Spin policy: how long a thread polls before it sleeps. See docs/DECISIONS.md, E1.
ghost use Rattle.std.specs.Prelude.{◌≡◌, ◌≤◌, ◌<◌};

use std::thread;
use std::thread::Threads;

/// Number of busy polls before yielding, if each thread has its own core. A poll takes nanoseconds;
/// sleeping and waking takes microseconds.
const LOOKS: usize = 1_000;

/// Number of yields before sleeping, each followed by a poll.
const YIELDS: usize = 2;

/// How often a thread polls without success before it sleeps: first in a busy loop, then with
/// yields.
#[derive(Clone, Copy)]
pub struct SpinPolicy {
    /// Number of busy polls before yielding.
    pub looks: usize,
    /// Number of yields before sleeping, each followed by a poll.
    pub yields: usize,
}

impl SpinPolicy {
    /// The spin policy if `threads` threads share the machine.
    pub fn among<R: Threads>(rt: &R, threads: usize) -> SpinPolicy {
        let cores = match thread::available_parallelism(rt) {
            Ok(cores) => cores.get(),
            Err(_) => 1,
        };
        SpinPolicy {
            looks: SpinPolicy::looks_of(cores, threads),
            yields: YIELDS,
        }
    }

    /// The number of busy polls if `threads` threads share `cores` cores. Zero if there are fewer
    /// cores than threads: spinning would delay the thread that it waits for.
    fn looks_of(cores: usize, threads: usize) -> usize
        ensures own { threads ≤ cores → result ≡ LOOKS }
        ensures shared { cores < threads → result ≡ 0 }
    {
        if threads <= cores { LOOKS } else { 0 }
    }
}
