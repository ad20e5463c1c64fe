//! Tasks of threads, and their contracts.
ghost use Rattle.std.specs.Prelude.{IfSome};

use crossbeam_channel::Receiver;
use std::snapshot::Snapshot;
use std::sync::Wait;
use std::thread::Promise;

/// A task of one thread.
pub trait Task: Drop {
    /// What must hold before it starts.
    ghost is_ready: { Self → Type 0 };

    /// Relates the finished task to the task before it started.
    ghost does: { Self → Self → Type 0 };

    /// Runs the task and returns it.
    fn work<R: Wait>(self, rt: &R) -> Self
        requires { is_ready self }
        ensures { does self result };
}

/// The start signal of a thread.
#[derive(Clone, Copy)]
pub(crate) enum StartSignal {
    /// All threads run: start the task.
    Begin,
    /// Not all threads could be created: end at once.
    Leave,
}

/// The promise of a thread: the task that it returns is finished.
#[derive(Drop)]
pub(crate) struct Done<T: Task>(pub(crate) Snapshot<T>);

impl<T: Task> Promise<Option<T>> for Done<T> {
    ghost kept_by = { λ promise result. IfSome result (λ done. T.does promise.0.value done) };
}

/// Waits for the start signal. Runs the task if it is `Begin`; otherwise returns `None`.
pub(crate) fn begin<T: Task, R: Wait>(rt: &R, signal: Receiver<StartSignal>, task: T) -> Option<T>
    requires { T.is_ready task }
    ensures { IfSome result (λ done. T.does task done) }
{
    match signal.recv(rt) {
        Ok(StartSignal::Begin) => Some(task.work(rt)),
        _ => None,
    }
}
