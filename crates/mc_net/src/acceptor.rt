//! The accepting thread: it accepts connections from all listeners and hands each to a free slot.
//! There is one such thread, since the kit can't share a listener between polls (docs/DECISIONS.md,
//! N1).
use crate::free_seats::FreeSeats;
use crate::listener::Listener;
use crate::socket::Socket;
use crate::stream::Stream;
use mc_poll::{Poller, SetBits, SpinPolicy, Wakers};
use mc_telemetry::{AcceptorTelemetry, Peer, SlotTelemetry, Telemetry};
use rtrb::{Consumer, Producer, RingBuffer};
use std::alloc::{AllocError, Global};
use std::io::ErrorKind;
use std::net::Net;
use std::os::fd::OwnedFd;
use std::sync::atomic::{AtomicBool, Ordering};
use std::sync::{Arc, Wait};
use std::time::Duration;
use std::{io, slice, thread, time};

/// Pause in milliseconds after a transient error of `accept`. Most errors are transient
/// (docs/DECISIONS.md, N2).
const PAUSE_MILLIS: u64 = 10;

/// memcached's reply to a connection beyond the limit (`maxconns_fast`).
const TOO_MANY: &[u8] = b"ERROR Too many open connections\r\n";

/// Spin policy: block at once if no connection is pending or no slot is free.
const AT_ONCE: SpinPolicy = SpinPolicy {
    looks: 0,
    yields: 0,
};

/// Errors of `accept` that mean that the listener itself is broken (accept(2)): bad descriptor, bad
/// address, not listening, not a socket, not a stream socket.
const LASTING_FAULTS: [i32; 5] = [
    9, // EBADF
    14, // EFAULT
    22, // EINVAL
    88, // ENOTSOCK
    95, // EOPNOTSUPP
];

/// Linux's error numbers for too many open files, of the process and of the system.
const NO_FILES: [i32; 2] = [24, 23];

/// Flags shared by the accepting thread and the slots.
#[derive(Drop)]
struct Closing {
    /// No more connections will come.
    is_over: AtomicBool,
    /// None can be accepted because of a fault, though more may come.
    has_failed: AtomicBool,
    /// Accepting was stopped by request.
    is_dismissed: AtomicBool,
}

/// A handle to the accepting thread, for slots and server.
pub struct AcceptorHandle {
    closing: Arc<Closing, Global>,
    /// Wakes the accepting thread.
    wakers: Wakers,
}

impl Drop for AcceptorHandle {
    /// Written by hand, so that its owners drop it by a single call (docs/DECISIONS.md, F20).
    fn drop(self) {
        let AcceptorHandle {
            closing: _closing,
            wakers: _wakers,
        } = self;
    }
}

impl AcceptorHandle {
    /// A handle to the accepting thread that blocks in this poller.
    fn new(alloc: Global, poller: &Poller) -> Result<AcceptorHandle, AllocError> {
        let closing = Closing {
            is_over: AtomicBool::new(false),
            has_failed: AtomicBool::new(false),
            is_dismissed: AtomicBool::new(false),
        };
        Ok(AcceptorHandle {
            closing: Arc::new(alloc, closing)?,
            wakers: Wakers::of(alloc, slice::from_ref(poller))?,
        })
    }

    /// Clones the handle. Fails if memory is refused.
    fn share(&self) -> Result<AcceptorHandle, AllocError> {
        Ok(AcceptorHandle {
            closing: Arc::try_clone(&self.closing)?,
            wakers: self.wakers.share()?,
        })
    }

    /// Reports a slot as free. Call it once at first, and again only after the slot was given a
    /// connection.
    pub(crate) fn report_free(&self, seat: usize) {
        self.wakers.call(0, seat);
    }

    /// Whether no more connections will come, except those already handed to slots.
    pub(crate) fn is_over(&self) -> bool {
        self.closing.is_over.load(Ordering::SeqCst)
    }

    /// Whether none can be accepted because of a fault, though more may come.
    pub(crate) fn has_failed(&self) -> bool {
        self.closing.has_failed.load(Ordering::SeqCst)
    }

    /// Whether accepting was stopped by request.
    fn is_dismissed(&self) -> bool {
        self.closing.is_dismissed.load(Ordering::SeqCst)
    }

    /// Stops accepting: connections that wait in the backlog are refused.
    pub fn dismiss(&self) {
        self.closing.is_dismissed.store(true, Ordering::SeqCst);
        self.wakers.rouse(0);
    }
}

/// An accepted connection and its client's address.
#[derive(Drop)]
pub(crate) struct NewConnection {
    pub(crate) stream: Socket,
    pub(crate) peer: Peer,
}

/// The channel of connections from the accepting thread to one slot.
pub struct Handoff {
    /// The number of the slot.
    pub(crate) seat: usize,
    /// The receiving end.
    pub(crate) come: Consumer<NewConnection>,
    pub(crate) handle: AcceptorHandle,
    /// Wakes the threads of the slots.
    pub(crate) seats: Wakers,
    /// Telemetry of the slot's connections.
    pub(crate) telemetry: SlotTelemetry,
    /// Whether the slot was reported as free.
    pub(crate) reported_free: bool,
}

impl Drop for Handoff {
    /// Written by hand, so that its owners drop it by a single call (docs/DECISIONS.md, F20).
    fn drop(self) {
        let Handoff {
            seat: _seat,
            come: _come,
            handle: _handle,
            seats: _seats,
            telemetry: _telemetry,
            reported_free: _reported_free,
        } = self;
    }
}

/// The accepting thread's state: its listeners, and the channels to the slots.
pub struct Acceptor {
    listeners: Vec<Listener>,
    /// The listener to try first: the one after the last that had a connection.
    first: usize,
    /// Number of connections still to accept, if it is limited.
    left: Option<u64>,
    /// Whether a connection is refused while all slots are in use, or no file but the last may be
    /// open, as by memcached's rules.
    refuses: bool,
    /// A descriptor that is closed to refuse a connection if no file but the last may be open. See
    /// docs/DECISIONS.md, N2.
    spare: Option<OwnedFd>,
    /// Whether a connection has found no file. From then on the last one is left to others.
    lacked_files: bool,
    /// Number of times that a slot was reported as free; it saturates.
    freed: usize,
    /// Whether it was reported that all slots are in use, and not yet that one is free again.
    is_full: bool,
    /// Slots wake it when they become free, and each listener is one of its places.
    poller: Poller,
    handle: AcceptorHandle,
    free: FreeSeats,
    /// The channel to each slot.
    handoffs: Vec<Producer<NewConnection>>,
    seats: Wakers,
    telemetry: AcceptorTelemetry,
}

impl Drop for Acceptor {
    /// Written by hand, so that its owners drop it by a single call (docs/DECISIONS.md, F20).
    fn drop(self) {
        let Acceptor {
            listeners: _listeners,
            first: _first,
            left: _left,
            refuses: _refuses,
            spare: _spare,
            lacked_files: _,
            freed: _freed,
            is_full: _is_full,
            poller: _poller,
            handle: _handle,
            free: _free,
            handoffs: _ways,
            seats: _seats,
            telemetry: _telemetry,
        } = self;
    }
}

/// The result of polling the listeners.
#[derive(Drop)]
enum Found {
    Connection(NewConnection),
    /// No connection is pending.
    Nothing,
    /// An accept failed.
    Fault(io::Error),
}

impl Acceptor {
    /// Accepts from these listeners, at most `connections` connections if it is given. The pollers
    /// are those of the slots' threads. With `refuses`, a connection beyond the slots is answered
    /// with an error and closed; otherwise it waits in the backlog.
    pub fn new<R: Net>(
        rt: &R,
        alloc: Global,
        listeners: Vec<Listener>,
        connections: Option<u64>,
        refuses: bool,
        pollers: &[Poller],
        telemetry: AcceptorTelemetry,
    ) -> io::Result<Acceptor> {
        let free = FreeSeats::new(alloc, pollers)?;
        let places = listeners.len().max(1);
        let poller = Poller::polling(rt, alloc, AT_ONCE, free.seats(), places, 1)?;
        let handle = AcceptorHandle::new(alloc, &poller)?;
        let mut listeners = listeners;
        register_all(&mut listeners, &handle.wakers)?;
        let mut acceptor = Acceptor {
            listeners,
            first: 0,
            left: connections,
            refuses,
            spare: None,
            lacked_files: false,
            freed: 0,
            is_full: false,
            poller,
            handle,
            free,
            handoffs: Vec::new(alloc),
            seats: Wakers::of(alloc, pollers)?,
            telemetry,
        };
        acceptor.keep_spare();
        Ok(acceptor)
    }

    /// Makes the channel to the next slot, with its telemetry from `telemetry`. Slots are numbered
    /// from 0.
    pub fn next_handoff(
        &mut self,
        alloc: Global,
        telemetry: &mut Telemetry,
    ) -> Result<Handoff, AllocError> {
        let (handoff, come) = RingBuffer::new(alloc, 1)?;
        let seat = self.handoffs.len();
        self.handoffs.push(handoff)?;
        Ok(Handoff {
            seat,
            come,
            handle: self.handle()?,
            seats: self.seats.share()?,
            telemetry: telemetry.seat(seat, self.free.thread_of(seat))?,
            reported_free: false,
        })
    }

    /// A handle to this thread.
    pub fn handle(&self) -> Result<AcceptorHandle, AllocError> {
        self.handle.share()
    }

    /// Accepts connections until the limit is reached, the listener is broken, or a stop is
    /// requested.
    pub fn run<R: Wait + time::Clock>(self, rt: &R) {
        let mut acceptor = self;
        acceptor.take_all(rt);
        acceptor
            .handle
            .closing
            .is_over
            .store(true, Ordering::SeqCst);
        for seat in 0..acceptor.handoffs.len() {
            acceptor.seats.rouse(seat);
        }
    }

    /// Accepts connections as `run` does, and returns at the end. Records a broken listener.
    fn take_all<R: Wait + time::Clock>(&mut self, rt: &R) {
        for _ in rt.forever() {
            if self.left == Some(0) || self.handle.is_dismissed() {
                return;
            }
            match self.take_one(rt) {
                Ok(true) => self.poller.found(),
                Ok(false) => self.poller.wait(rt),
                Err(_) => {
                    self.handle.closing.has_failed.store(true, Ordering::SeqCst);
                    return;
                }
            }
        }
    }

    /// Accepts the next connection if one is pending and a slot is free, or refuses it. Returns
    /// whether there may be another; otherwise call again after a wake-up.
    fn take_one<R: time::Clock>(&mut self, rt: &R) -> io::Result<bool> {
        self.note_free();
        self.keep_spare();
        let is_full = self.free.is_empty();
        self.note_full(is_full);
        if is_full && !(self.is_full && self.refuses) {
            return Ok(false);
        }
        match self.look_and_leave_one() {
            Found::Connection(connection) => {
                if is_full {
                    self.telemetry.rejected();
                    refuse(connection);
                } else {
                    self.hand_over(connection);
                }
                Ok(true)
            }
            Found::Nothing => Ok(false),
            Found::Fault(fault) => self.wait_out(rt, fault),
        }
    }

    /// Accepts the next connection, if one is pending. Once files were lacking, one more must be
    /// left besides its own. So the last one is left to the metrics' thread, which closes its own
    /// for a moment when it accepts. Before that no file is opened to look.
    fn look_and_leave_one(&mut self) -> Found {
        if !self.lacked_files {
            return self.look();
        }
        match self.last_file() {
            Ok(_left) => self.look(),
            Err(fault) => Found::Fault(fault),
        }
    }

    /// Holds one file, if two more may be open. Fails if only one may.
    fn last_file(&self) -> io::Result<Option<OwnedFd>> {
        let Some(listener) = self.listeners.first() else {
            return Ok(None);
        };
        let left = listener.descriptor()?;
        let _free = listener.descriptor()?;
        Ok(Some(left))
    }

    /// Tries each listener until one has a connection.
    fn look(&mut self) -> Found {
        for _ in 0..self.listeners.len() {
            let place = self.first;
            let Some(listener) = self.listeners.get(place) else {
                return Found::Nothing;
            };
            let accepted = listener.accept();
            self.first = (place + 1) % self.listeners.len();
            match accepted {
                Ok((stream, peer)) => return Found::Connection(NewConnection { stream, peer }),
                Err(fault) if fault.kind() == ErrorKind::WouldBlock => {}
                Err(fault) => return Found::Fault(fault),
            }
        }
        Found::Nothing
    }

    /// Pauses after a transient error of `accept`, such as too many open files or a peer that
    /// disconnected; returns any other error. If it refuses, and no file but the last may be open,
    /// the next connection is refused.
    fn wait_out<R: time::Clock>(&mut self, rt: &R, fault: io::Error) -> io::Result<bool> {
        self.telemetry.failed(fault.raw_os_error());
        if is_one_of(&fault, &LASTING_FAULTS) {
            return Err(fault);
        }
        if is_one_of(&fault, &NO_FILES) {
            self.lacked_files = true;
            if self.spare.take().is_some() {
                return Ok(self.refuse_next());
            }
        }
        thread::sleep(rt, Duration::from_millis(PAUSE_MILLIS));
        Ok(true)
    }

    /// Accepts the next connection, if one is pending, with the descriptor that the spare one left
    /// free, and refuses it. Returns whether there may be another.
    fn refuse_next(&mut self) -> bool {
        let found = self.look();
        let has_come = matches!(&found, Found::Connection(_));
        if let Found::Connection(connection) = found {
            self.telemetry.rejected();
            refuse(connection);
        }
        self.keep_spare();
        has_come
    }

    /// Opens the spare descriptor again, if it refuses and one more file may be open.
    fn keep_spare(&mut self) {
        if !self.refuses || self.spare.is_some() {
            return;
        }
        if let Some(listener) = self.listeners.first() {
            self.spare = listener.descriptor().ok();
        }
    }

    /// Records that all slots are in use, or that one is free again. Until each slot was free once,
    /// none counts as in use.
    fn note_full(&mut self, is_full: bool) {
        if self.is_full == is_full || self.freed < self.handoffs.len() {
            return;
        }
        self.is_full = is_full;
        if is_full {
            self.telemetry.all_taken();
        } else {
            self.telemetry.one_free();
        }
    }

    /// Records the slots that were reported as free.
    fn note_free(&mut self) {
        for word in 0..self.handoffs.len().div_ceil(64) {
            for seat in SetBits::of(word, self.poller.callers_in(word)) {
                self.free.add(seat);
                self.freed = self.freed.saturating_add(1);
            }
        }
    }

    /// Hands the connection to a free slot of the thread with the most free slots.
    fn hand_over(&mut self, connection: NewConnection) {
        let Some(seat) = self.free.take() else {
            return;
        };
        connection.stream.prepare();
        self.telemetry.accepted();
        if let Some(left) = &mut self.left {
            *left = left.saturating_sub(1);
        }
        if let Some(handoff) = self.handoffs.get_mut(seat) {
            // A free slot has taken its previous connection, so there is space.
            let _ = handoff.push(connection);
        }
        self.seats.rouse(seat);
    }
}

/// Registers the listeners with the thread's poll, each by its number.
fn register_all(listeners: &mut Vec<Listener>, wakers: &Wakers) -> io::Result<()> {
    for (place, listener) in listeners.iter_mut().enumerate() {
        listener.register(wakers, place)?;
    }
    Ok(())
}

/// Answers with memcached's error for too many connections, and closes. Errors are ignored.
fn refuse(connection: NewConnection) {
    let NewConnection {
        mut stream,
        peer: _,
    } = connection;
    let _ = stream.write(TOO_MANY);
}

/// Whether the fault has one of these error numbers.
fn is_one_of(fault: &io::Error, numbers: &[i32]) -> bool {
    match fault.raw_os_error() {
        Some(number) => numbers.contains(&number),
        None => false,
    }
}
