//! All threads run their task, or none does.
ghost use Rattle.std.specs.Prelude.{◌≡◌, true};

use crate::asserting::{equal, holds};
use mc_poll::{Task, ThreadGroup, ThreadGroupError};
use std::alloc::{AllocError, Global};
use std::sync::atomic::{AtomicU64, Ordering};
use std::sync::{Arc, Wait};
use std::test::Fail;
use std::thread::{Builder, Threads};

/// Adds its number to a sum that all threads share.
#[derive(Drop)]
struct Adds {
    number: u64,
    sum: Arc<AtomicU64, Global>,
    done: bool,
}

impl Task for Adds {
    ghost is_ready = { λ _. Unit {0} };

    ghost does = { λ before after. (after.number ≡ before.number) × (after.done ≡ true) };

    fn work<R: Wait>(self, _rt: &R) -> Adds {
        self.sum.fetch_add(self.number, Ordering::SeqCst);
        Adds {
            number: self.number,
            sum: self.sum,
            done: true,
        }
    }
}

/// A stack size that no system provides.
const TOO_LARGE: usize = 1 << 47;

/// The number of threads that are started.
const THREADS: u64 = 4;

/// Starts the threads. The refused one is given too large a stack.
fn start_all<R: Threads + Wait + Copy + Send + 'static>(
    rt: &R,
    alloc: Global,
    thread_group: &mut ThreadGroup<Adds>,
    sum: &Arc<AtomicU64, Global>,
    refused: u64,
) -> Result<(), ThreadGroupError> {
    for number in 0..THREADS {
        let builder = if number == refused {
            Builder::new().stack_size(TOO_LARGE)
        } else {
            Builder::new()
        };
        let task = Adds {
            number,
            sum: Arc::try_clone(sum)?,
            done: false,
        };
        thread_group.start_by(rt, alloc, builder, task)?;
    }
    Ok(())
}

/// Has the threads add their numbers. Returns the sum, and how many threads were joined.
fn sum_of_all<R: Threads + Wait + Copy + Send + 'static>(
    rt: &R,
    alloc: Global,
    refused: u64,
) -> Result<(Result<usize, ThreadGroupError>, u64), AllocError> {
    let sum = Arc::new(alloc, AtomicU64::new(0))?;
    let mut thread_group = ThreadGroup::new(alloc, 0)?;
    let came = match start_all(rt, alloc, &mut thread_group, &sum, refused) {
        Ok(()) => {
            thread_group.begin(rt);
            thread_group.join(rt).map(|tasks| tasks.len())
        }
        Err(refusal) => {
            thread_group.dismiss(rt);
            Err(refusal)
        }
    };
    Ok((came, sum.load(Ordering::SeqCst)))
}

#[test]
fn all_do_their_task(rt: HostRuntime) -> Result<(), Fail> {
    let (came, sum) = sum_of_all(&rt, rt.alloc(), THREADS)?;
    equal(&rt, came, Ok(4));
    equal(&rt, sum, 6);
    Ok(())
}

#[test]
fn none_does_where_one_is_refused(rt: HostRuntime) -> Result<(), Fail> {
    for refused in 0..THREADS {
        let (came, sum) = sum_of_all(&rt, rt.alloc(), refused)?;
        equal(&rt, came, Err(ThreadGroupError::Thread));
        equal(&rt, sum, 0);
    }
    Ok(())
}

#[test]
fn one_that_is_not_flow_to_begin_leaves(rt: HostRuntime) -> Result<(), Fail> {
    let sum = Arc::new(rt.alloc(), AtomicU64::new(0))?;
    let mut thread_group = ThreadGroup::new(rt.alloc(), 1)?;
    let task = Adds {
        number: 7,
        sum: Arc::try_clone(&sum)?,
        done: false,
    };
    holds(&rt, thread_group.start(&rt, rt.alloc(), task).is_ok());
    thread_group.dismiss(&rt);
    equal(&rt, sum.load(Ordering::SeqCst), 0);
    Ok(())
}
