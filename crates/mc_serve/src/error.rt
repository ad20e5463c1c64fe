//! The errors of a server.
use mc_poll::ThreadGroupError;
use mc_ring::RingError;
use std::alloc::AllocError;
use thiserror::Error;

/// Why a server didn't serve. With `Memory` or `Thread`, nothing was read from any connection or
/// written to it.
#[derive(Clone, Copy, Debug, Error)]
pub enum ServeError {
    /// Memory for the shards, the slots or the rings was refused, or the system has no random bytes
    /// for a hash.
    #[error("out of memory for the shards, the connections or the rings, or no random bytes from the system")]
    Memory,
    /// A thread or its poll could not be created.
    #[error("a thread can't be started: fewer shards, or a higher limit of threads")]
    Thread,
    /// The listener can't be created, or accepts no more connections.
    #[error("the address can't be listened on, or its listener accepts no more connections")]
    Bind,
}

impl From<AllocError> for ServeError {
    ghost use Rattle.std.specs.Prelude.{◌≡◌};
    ghost use Rattle.mc_serve.specs.declared.error.ServeError.TheVariants.{Memory};

    ghost from_gives = { λ _ refusal. refusal ≡ Memory };

    fn from(_error: AllocError) -> ServeError {
        ServeError::Memory
    }
}

impl From<ThreadGroupError> for ServeError {
    ghost use Rattle.std.specs.Prelude.{◌≡◌, ◌≢◌};
    ghost use Rattle.mc_poll.specs.declared.thread_group.ThreadGroupError.TheVariants as thread_group;
    ghost use Rattle.mc_serve.specs.declared.error.ServeError.TheVariants.{Bind, Memory, Thread};

    ghost from_gives = { λ why refusal.
        (why ≡ thread_group.Memory → refusal ≡ Memory) ×
        (why ≡ thread_group.Thread → refusal ≡ Thread) ×
        (refusal ≢ Bind) };

    fn from(refusal: ThreadGroupError) -> ServeError {
        match refusal {
            ThreadGroupError::Memory => ServeError::Memory,
            ThreadGroupError::Thread => ServeError::Thread,
        }
    }
}

impl From<RingError> for ServeError {
    ghost use Rattle.std.specs.Prelude.{◌≡◌};
    ghost use Rattle.mc_serve.specs.declared.error.ServeError.TheVariants.{Memory};

    ghost from_gives = { λ _ refusal. refusal ≡ Memory };

    fn from(_refusal: RingError) -> ServeError {
        // Callers pass sizes within the limits, so no ring is refused for its size.
        ServeError::Memory
    }
}
