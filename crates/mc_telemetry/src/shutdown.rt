//! The shutdown stages of a server, shared with its connections.
ghost use Rattle.std.specs.Prelude.{◌≡◌, IfOk, false};
ghost use Rattle.mc_telemetry.specs.Shutdown.{IsPast, IsRequested, request_of, stage_of};

use crate::counter::{Count, Counter};
use crate::signals::Signals;
use std::alloc::{AllocError, Global};
use std::sync::Arc;

/// First stage: connections without pending input end.
const DRAINING: u64 = 1;

/// Second stage: all connections end at once.
const CUT: u64 = 2;

/// What the threads of a server know of its shutdown.
#[derive(Drop)]
pub(crate) struct Progress<C> {
    stage: C,
    /// 1 once a client has requested the shutdown.
    request: C,
}

/// The shutdown stage, set by one thread and read by all others: serving, draining or cut off; and
/// whether a client has requested the shutdown, which each thread may set.
#[derive(Drop)]
pub struct Shutdown<C = Counter> {
    progress: Arc<Progress<C>, Global>,
}

/// The shutdown stage, and the time that connections have for a clean end.
#[derive(Drop)]
pub struct Drain<C = Counter> {
    pub shutdown: Shutdown<C>,
    /// The pending signals, if those that end the process are blocked.
    pub signals: Option<Signals>,
    /// In seconds.
    pub limit: u64,
}

impl Shutdown<Counter> {
    /// The stage of a server that serves.
    pub fn new(alloc: Global) -> Result<Shutdown, AllocError> {
        Ok(Shutdown {
            progress: Arc::new(
                alloc,
                Progress {
                    stage: Counter::new(),
                    request: Counter::new(),
                },
            )?,
        })
    }
}

impl<C: Count> Shutdown<C> {
    /// Clones the handle; both share the stage and the request. Fails if memory is refused.
    pub fn share(&self) -> Result<Shutdown<C>, AllocError>
        ensures stage { IfOk result (λ shared. stage_of shared ≡ stage_of self.now) }
        ensures request { IfOk result (λ shared. request_of shared ≡ request_of self.now) }
    {
        Ok(Shutdown {
            progress: Arc::try_clone(&self.progress)?,
        })
    }

    /// Requests the shutdown, which starts once the thread that sets the stage sees the request.
    pub fn request(&self)
        ensures { C.was_set (request_of self.now) 1 }
    {
        self.progress.request.set(1);
    }

    /// Whether a client has requested the shutdown.
    pub fn is_requested(&self) -> bool
        ensures { IsRequested C.has_told self.now result }
    {
        self.progress.request.get() >= 1
    }

    /// Starts draining: each connection ends once no input is pending and its replies are written.
    pub fn drain(&self)
        ensures { C.was_set (stage_of self.now) DRAINING }
    {
        self.progress.stage.set(DRAINING);
    }

    /// Ends all connections at once.
    pub fn cut(&self)
        ensures { C.was_set (stage_of self.now) CUT }
    {
        self.progress.stage.set(CUT);
    }

    /// Whether the shutdown has started.
    pub fn is_draining(&self) -> bool
        ensures { IsPast C.has_told DRAINING self.now result }
    {
        self.progress.stage.get() >= DRAINING
    }

    /// Whether all connections must end at once.
    pub fn is_cut(&self) -> bool
        ensures { IsPast C.has_told CUT self.now result }
    {
        self.progress.stage.get() >= CUT
    }
}

impl<C: Count> Drain<C> {
    /// Whether a pending signal or a client requests the shutdown.
    pub fn is_requested(&self) -> bool
        // A client's request that was made before is not missed.
        ensures { result ≡ false → IsRequested C.has_told self.now.shutdown false }
    {
        if self.shutdown.is_requested() {
            return true;
        }
        match &self.signals {
            Some(signals) => signals.ask_to_end(),
            None => false,
        }
    }
}
