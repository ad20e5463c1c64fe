//! Thread groups: threads are created, then all start their tasks or none does, and they are
//! joined. See docs/DECISIONS.md, E11.
ghost use Rattle.std.specs.Prelude.{◌≡◌, [], ◌∷◌, ◌++◌, IfOk, OnOk, OnErr};
ghost use Rattle.mc_poll.specs.Zips.{Zips};

use crate::task::{Done, StartSignal, Task, begin};
use crossbeam_channel::{Sender, bounded};
use std::alloc::{AllocError, Global};
use std::marker::Model;
use std::snapshot::Snapshot;
use std::sync::Wait;
use std::thread::{Builder, PromisedHandle, Threads};
use thiserror::Error;

/// Why not all threads started.
#[derive(Clone, Copy, Debug, Error, PartialEq, Eq)]
pub enum ThreadGroupError {
    /// Memory ran out.
    #[error("out of memory for the threads")]
    Memory,
    /// A thread could not be created, or ended before it started its task.
    #[error("not all threads began: ask for fewer, or raise the system's limit of threads")]
    Thread,
}

impl From<AllocError> for ThreadGroupError {
    ghost use Rattle.mc_poll.specs.declared.thread_group.ThreadGroupError.TheVariants.{Memory};

    ghost from_gives = { λ _ refusal. refusal ≡ Memory };

    fn from(_error: AllocError) -> ThreadGroupError {
        ThreadGroupError::Memory
    }
}

/// A group of threads, each with a task, that wait for a common start signal. Contracts see the
/// list of tasks. A group must be started and joined, or dismissed.
#[derive(Drop)]
pub struct ThreadGroup<T: Task> {
    signals: Vec<Sender<StartSignal>>,
    handles: Vec<PromisedHandle<Option<T>, Done<T>>>,
    /// Space for the results, reserved in advance so that joining can't fail for want of memory.
    room: Vec<T>,
    ghost empty: { room.items ≡ [] },
}

impl<T: Task> Model for ThreadGroup<T> {
    ghost use Rattle.std.specs.Prelude.{List, map};

    ghost Value = { List T };

    ghost view = { λ thread_group. map (λ handle. handle.promise.0.value)
        thread_group.handles.items };
}

impl<T: Task + Send + 'static> ThreadGroup<T> {
    /// An empty group with space for `count` threads.
    pub fn new(alloc: Global, count: usize) -> Result<ThreadGroup<T>, AllocError>
        ensures { IfOk result (λ thread_group. thread_group ≡ []) }
    {
        Ok(ThreadGroup {
            signals: Vec::with_capacity(alloc, count)?,
            handles: Vec::with_capacity(alloc, count)?,
            room: Vec::with_capacity(alloc, count)?,
        })
    }

    /// Creates a thread for the task. It waits for the start signal.
    pub fn start<R: Threads + Wait + Copy + Send + 'static>(
        &mut self,
        rt: &R,
        alloc: Global,
        task: T,
    ) -> Result<(), ThreadGroupError>
        requires { T.is_ready task }
        ensures ok { OnOk result (self.new ≡ self.old ++ task ∷ []) }
        ensures err { OnErr result (self.new ≡ self.old) }
    {
        self.start_by(rt, alloc, Builder::new(), task)
    }

    /// Creates a thread for the task with this builder, for example with another stack size. It
    /// waits for the start signal.
    ///
    /// Errors: `Memory`, or `Thread` if the system refuses the thread.
    pub fn start_by<R: Threads + Wait + Copy + Send + 'static>(
        &mut self,
        rt: &R,
        alloc: Global,
        builder: Builder,
        task: T,
    ) -> Result<(), ThreadGroupError>
        requires { T.is_ready task }
        ensures ok { OnOk result (self.new ≡ self.old ++ task ∷ []) }
        ensures err { OnErr result (self.new ≡ self.old) }
    {
        let (sender, receiver) = bounded(alloc, 1)?;
        // Reserved first: a thread whose handle can't be stored would never be joined.
        self.signals.reserve(1)?;
        self.handles.reserve(1)?;
        let own = *rt;
        let promise = Done(Snapshot::of(&task));
        let Ok(handle) = builder.spawn_with(rt, promise, move || begin(&own, receiver, task)) else {
            return Err(ThreadGroupError::Thread);
        };
        let (Ok(()), Ok(())) = (self.signals.push(sender), self.handles.push(handle)) else {
            return Err(ThreadGroupError::Memory);
        };
        Ok(())
    }

    /// Signals all threads to start their tasks.
    pub fn begin<R: Wait>(&mut self, rt: &R)
        ensures { self.new ≡ self.old }
    {
        for signal in &self.signals {
            let _ = signal.send(rt, StartSignal::Begin);
        }
    }

    /// Joins all threads and returns their finished tasks, in the order in which the threads were
    /// created. `begin` must have been called. Fails with `Thread` if a thread ended before it
    /// started its task.
    pub fn join<R: Threads>(self, rt: &R) -> Result<Vec<T>, ThreadGroupError>
        ensures { IfOk result (λ tasks. Zips T.does self tasks.items) }
    {
        let ThreadGroup {
            signals: _,
            handles,
            room,
        } = self;
        let mut done = room;
        let mut all = Ok(());
        for handle in handles {
            match handle.join(rt) {
                Some(task) => {
                    if let Err(_full) = done.push(task) {
                        all = Err(ThreadGroupError::Memory);
                    }
                }
                None => all = Err(ThreadGroupError::Thread),
            }
        }
        all?;
        Ok(done)
    }

    /// Signals all threads to end without starting their tasks, and joins them.
    pub fn dismiss<R: Threads + Wait>(self, rt: &R) {
        let ThreadGroup {
            signals,
            handles,
            room: _,
        } = self;
        for signal in signals {
            let _ = signal.send(rt, StartSignal::Leave);
        }
        for handle in handles {
            handle.join(rt);
        }
    }
}
