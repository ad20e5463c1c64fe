//! Closing a connection whose peer may still be sending.
ghost use Rattle.std.specs.Prelude.{IfSome};
ghost use Rattle.std.specs.Io.KnownBytes.{Keeps};

use crate::stream::Stream;
use crate::tap::read_some;
use std::io::ErrorKind;
use std::time;
use std::time::{Duration, Instant};

/// Longest time in milliseconds to wait for the peer's end of input after the last write.
const LINGER_MILLIS: u64 = 500;

/// Maximum number of reads that are discarded.
const LINGER_READS: u32 = 1_024;

/// Number of reads in one turn.
const READS_AT_ONCE: u32 = 16;

/// Maximum number of bytes discarded by one read.
const LINGER_BYTES: usize = 4_096;

/// The state of a lingering connection.
#[derive(Clone, Copy)]
pub(crate) enum Lingers {
    /// More may be discarded at once.
    More,
    /// Nothing is pending.
    Waits,
    /// The time is over, or the peer has closed or failed.
    Over,
}

/// A connection with its output shut down, whose input is discarded for a while. Closing with
/// unread bytes would reset it, and the peer could lose the last reply (RFC 1122, section
/// 4.2.2.13). Nothing is written to it. See docs/DECISIONS.md, N3.
pub(crate) struct Lingering<S> {
    stream: S,
    /// Number of reads that may still be discarded.
    reads: u32,
    /// Deadline of lingering.
    until: Instant,
}

impl<S: Drop> Drop for Lingering<S> {
    /// Written by hand, so that its owners drop it by a single call (docs/DECISIONS.md, F20).
    fn drop(self) {
        let Lingering {
            stream: _stream,
            reads: _reads,
            until: _until,
        } = self;
    }
}

impl<S: Stream + Drop> Lingering<S> {
    /// Shuts down the output of the stream. If this fails, the stream is closed at once.
    pub(crate) fn begin<R: time::Clock>(rt: &R, stream: S) -> Option<Lingering<S>>
        ensures { IfSome result (λ now. Keeps (S.contents stream) (S.contents now.stream)) }
    {
        let mut stream = stream;
        stream.end_output().ok()?;
        let now = Instant::now(rt).ok()?;
        let until = now.checked_add(Duration::from_millis(LINGER_MILLIS))?;
        Some(Lingering {
            stream,
            reads: LINGER_READS,
            until,
        })
    }

    /// Discards pending input.
    pub(crate) fn go_on<R: time::Clock>(&mut self, rt: &R) -> Lingers
        ensures { Keeps (S.contents self.old.stream) (S.contents self.new.stream) }
    {
        let mut room = [0; LINGER_BYTES];
        for _ in 0..READS_AT_ONCE {
            if self.reads == 0 {
                return Lingers::Over;
            }
            self.reads -= 1;
            match read_some(&mut self.stream, &mut room) {
                Ok(count) if count > 0 => {}
                Err(fault) if fault.kind() == ErrorKind::WouldBlock => return self.wait(rt),
                _ => return Lingers::Over,
            }
        }
        Lingers::More
    }

    /// `Waits` before the deadline, `Over` after it.
    fn wait<R: time::Clock>(&self, rt: &R) -> Lingers {
        match Instant::now(rt) {
            Ok(now) if now < self.until => Lingers::Waits,
            _ => Lingers::Over,
        }
    }
}
