//! The thread that serves metrics. See docs/DECISIONS.md, W4.
use crate::pages::Pages;
use crate::visitor::{Visit, Visitor};
use mc_telemetry::StopToken;
use mio::net::{TcpListener, TcpStream};
use mio::{Events, Interest, Poll, Token};
use std::alloc::Global;
use std::hash::RandomState;
use std::net::Net;
use std::os::fd::{AsFd, OwnedFd};
use std::random::RandomSource;
use std::sync::Wait;
use std::time::{Duration, Instant};
use std::{io, net, time};

/// Maximum number of HTTP clients. A further one replaces the oldest.
const MAX_VISITORS: usize = 32;

/// Maximum number of accepts in one turn, so that each client has a turn before it may be replaced.
const COMERS: usize = 16;

/// Polling interval in milliseconds while no request comes.
const LOOK_MILLIS: u64 = 200;

/// Token of the listener in the poll.
const LISTENER: Token = Token(0);

/// Token of every client in the poll.
const VISITOR: Token = Token(1);

/// Linux's error numbers for too many open files, of the process and of the system.
const NO_FILES: [i32; 2] = [24, 23];

/// The listener, and the poll that reports new clients and requests.
struct Entry {
    poll: Poll,
    events: Events,
    listener: TcpListener,
    /// A descriptor that is closed to accept a client if no more files may be open.
    spare: Option<OwnedFd>,
}

impl Drop for Entry {
    /// Written by hand, so that its owners drop it by a single call (docs/DECISIONS.md, F20).
    fn drop(self) {
        let Entry {
            poll: _poll,
            events: _events,
            listener: _listener,
            spare: _spare,
        } = self;
    }
}

impl Entry {
    /// Polls this listener.
    fn new<R: Net>(rt: &R, alloc: Global, listener: net::TcpListener) -> io::Result<Entry> {
        listener.set_nonblocking(true)?;
        let mut entry = Entry {
            poll: Poll::new(rt)?,
            events: Events::with_capacity(alloc, MAX_VISITORS)?,
            listener: TcpListener::from_std(listener),
            spare: None,
        };
        entry.keep_spare();
        let registry = entry.poll.registry();
        registry.register(&mut entry.listener, LISTENER, Interest::READABLE)?;
        Ok(entry)
    }

    /// Waits a little for an event, or only polls if there is work left. Returns whether there is
    /// work left or an event came. If the poll fails, the next look comes at once.
    fn look(&mut self, is_busy: bool) -> bool {
        let millis = if is_busy { 0 } else { LOOK_MILLIS };
        let timeout = Duration::from_millis(millis);
        let _ = self.poll.poll(&mut self.events, Some(timeout));
        is_busy || !self.events.is_empty()
    }

    /// Whether the last poll reported a new connection.
    fn has_come(&self) -> bool {
        self.events.iter().any(|event| event.token() == LISTENER)
    }

    /// Accepts the next connection and registers it with the poll. If no more files may be open, it
    /// takes the place of the spare descriptor.
    fn accept(&mut self) -> io::Result<TcpStream> {
        match self.accept_one() {
            Err(fault) if lacks_files(&fault) && self.spare.take().is_some() => {
                let accepted = self.accept_one();
                self.keep_spare();
                accepted
            }
            done => done,
        }
    }

    /// Accepts the next connection with a new descriptor.
    fn accept_one(&mut self) -> io::Result<TcpStream> {
        let (mut stream, _) = self.listener.accept()?;
        let interests = Interest::READABLE | Interest::WRITABLE;
        let registry = self.poll.registry();
        registry.register(&mut stream, VISITOR, interests)?;
        Ok(stream)
    }

    /// Opens the spare descriptor again if it was closed and one more file may be open.
    fn keep_spare(&mut self) {
        if self.spare.is_none() {
            self.spare = self.listener.as_fd().try_clone_to_owned().ok();
        }
    }
}

/// Whether there is no connection because no more files may be open.
fn lacks_files(fault: &io::Error) -> bool {
    match fault.raw_os_error() {
        Some(number) => NO_FILES.contains(&number),
        None => false,
    }
}

/// An HTTP server for the counters of a cache server.
pub struct MetricsServer {
    alloc: Global,
    entry: Entry,
    /// In order of arrival.
    visitors: Vec<Visitor>,
    pages: Pages,
}

impl Drop for MetricsServer {
    /// Written by hand, so that its owners drop it by a single call (docs/DECISIONS.md, F20).
    fn drop(self) {
        let MetricsServer {
            alloc: _alloc,
            entry: _entry,
            visitors: _visitors,
            pages: _pages,
        } = self;
    }
}

impl MetricsServer {
    /// Serves these pages at the listener.
    pub fn new<R: Net>(
        rt: &R,
        alloc: Global,
        listener: net::TcpListener,
        pages: Pages,
    ) -> io::Result<MetricsServer> {
        let entry = Entry::new(rt, alloc, listener)?;
        Ok(MetricsServer {
            alloc,
            entry,
            visitors: Vec::with_capacity(alloc, MAX_VISITORS)?,
            pages,
        })
    }

    /// Serves until a stop is requested, or the clock can't be read.
    pub fn serve<R: Wait + RandomSource + time::Clock>(self, rt: &R, stop_token: &StopToken) {
        let mut server = self;
        if let Ok(begin) = Instant::now(rt) {
            server.serve_since(rt, &begin, stop_token);
        }
    }

    /// Serves with this start time of the clock.
    fn serve_since<R: Wait + RandomSource + time::Clock>(
        &mut self,
        rt: &R,
        begin: &Instant,
        stop_token: &StopToken,
    ) {
        self.pages.sample();
        let mut is_busy = false;
        for _ in rt.forever() {
            let asked = self.entry.look(is_busy);
            let Ok(passed) = begin.elapsed(rt) else {
                return;
            };
            if stop_token.is_said() {
                return;
            }
            self.pages.pass(passed.as_secs());
            if asked {
                self.pages.refresh();
            }
            let more_come = self.let_in(rt, asked);
            is_busy = self.serve_visitors() || more_come;
            self.entry.keep_spare();
        }
        unreachable!()
    }

    /// Accepts pending clients, a limited number per turn. Returns whether there may be more.
    fn let_in<R: RandomSource>(&mut self, rt: &R, asked: bool) -> bool {
        for accepted in 0..COMERS {
            match self.entry.accept() {
                Ok(stream) => self.welcome(rt, stream),
                Err(fault) => return lacks_files(&fault) && self.make_room(accepted, asked),
            }
        }
        true
    }

    /// Once no file is left: drops a client for the next one, if no other was accepted in this turn.
    /// The last client is only dropped if another has come, or no request has come since the last
    /// turn. Returns whether there may be more to accept at once.
    fn make_room(&mut self, accepted: usize, asked: bool) -> bool {
        if accepted > 0 {
            return true;
        }
        let is_needed = self.visitors.len() > 1 || !asked || self.entry.has_come();
        is_needed && self.dismiss_one()
    }

    /// Adds a client, unless the system has no random bytes for it.
    fn welcome<R: RandomSource>(&mut self, rt: &R, stream: TcpStream) {
        let Ok(keys) = RandomState::new(rt) else {
            return;
        };
        if self.visitors.len() >= MAX_VISITORS {
            self.dismiss_one();
        }
        // There is room for all that are kept.
        let _ = self.visitors.push(Visitor::new(self.alloc, keys, stream));
    }

    /// Drops the oldest client that had an answer, or the oldest if none had. Returns whether there
    /// was one.
    fn dismiss_one(&mut self) -> bool {
        let answered = self.visitors.iter().position(|it| it.was_answered());
        let place = answered.unwrap_or(0);
        if place >= self.visitors.len() {
            return false;
        }
        self.visitors.remove(place);
        true
    }

    /// Serves each client, and drops those that are done. Returns whether one may have more
    /// requests.
    fn serve_visitors(&mut self) -> bool {
        let mut place = 0;
        let mut is_busy = false;
        for _ in 0..MAX_VISITORS {
            if place >= self.visitors.len() {
                return is_busy;
            }
            match self.visitors[place].serve(&mut self.pages) {
                Visit::Asks => {
                    is_busy = true;
                    place += 1;
                }
                Visit::Waits => place += 1,
                Visit::Over => {
                    self.visitors.remove(place);
                    self.entry.keep_spare();
                }
            }
        }
        is_busy
    }
}
