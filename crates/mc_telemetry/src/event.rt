//! Connection events for the log.
use std::net::SocketAddr;
use std::{fmt, io};

/// Why a connection ended.
#[derive(Clone, Copy)]
pub enum Manner {
    /// The client closed its side.
    ByClient,
    /// The client sent `quit`.
    Quit,
    /// The client sent a line longer than the line limit.
    LineTooLong,
    /// It spoke memcached's binary protocol.
    Binary,
    /// It spoke HTTP.
    Http,
    /// It spoke TLS.
    Tls,
    /// It was idle longer than the idle timeout.
    Idle,
    /// A read failed.
    ReadFailed,
    /// A write failed.
    WriteFailed,
    /// Memory for replies was refused.
    NoMemory,
    /// The client sent `shutdown`, and the server shuts down.
    ShutdownRequested,
    /// The server shut down.
    Shutdown,
}

/// The peer of a connection.
#[derive(Clone, Copy)]
pub enum Peer {
    /// A client at this address.
    At(SocketAddr),
    /// A client of a Unix socket, of which no more is known.
    Unix,
}

/// A connection event.
#[derive(Clone, Copy)]
pub enum ConnectionEvent {
    /// A connection was assigned to a slot.
    Opened {
        peer: Peer,
        seat: usize,
    },
    /// A connection ended.
    Closed {
        peer: Peer,
        seat: usize,
        manner: Manner,
        /// Number of commands parsed.
        commands: u64,
        /// Number of bytes read.
        read: u64,
        /// Number of bytes written.
        written: u64,
    },
    /// An accept failed, with this errno if the system gave one.
    NotAccepted {
        fault: Option<i32>,
    },
    /// All slots are in use: further connections wait in the backlog.
    SeatsTaken,
    /// A slot is free again.
    SeatFree,
}

/// A count with its noun, for printing: `1 command`, `2 commands`.
#[derive(Clone, Copy)]
struct Counted {
    count: u64,
    one: &'static str,
}

impl fmt::Display for Manner {
    ghost use Rattle.std.specs.Prelude.{Some};
    ghost use Rattle.mc_telemetry.specs.EventText.{manner_text};

    ghost output = { λ manner. Some (manner_text manner) };

    fn fmt<W: fmt::Write>(&self, f: &mut fmt::Formatter<W>) -> fmt::Result {
        f.write_str(match self {
            Manner::ByClient => "closed by client",
            Manner::Quit => "client quit",
            Manner::LineTooLong => "line too long",
            Manner::Binary => "speaks the binary protocol",
            Manner::Http => "speaks HTTP",
            Manner::Tls => "speaks TLS",
            Manner::Idle => "idle timeout",
            Manner::ReadFailed => "read failed",
            Manner::WriteFailed => "write failed",
            Manner::NoMemory => "no memory for replies",
            Manner::ShutdownRequested => "client sent shutdown",
            Manner::Shutdown => "server shutdown",
        })
    }
}

impl fmt::Display for Peer {
    ghost use Rattle.std.specs.Prelude.{Some};
    ghost use Rattle.mc_telemetry.specs.EventText.{peer_text};

    ghost output = { λ peer. Some (peer_text peer) };

    fn fmt<W: fmt::Write>(&self, f: &mut fmt::Formatter<W>) -> fmt::Result {
        match self {
            Peer::At(address) => address.fmt(f),
            Peer::Unix => f.write_str("unix"),
        }
    }
}

impl fmt::Display for Counted {
    ghost use Rattle.std.specs.Prelude.{Some};
    ghost use Rattle.mc_telemetry.specs.EventText.{counted_text};

    ghost output = { λ counted. Some (counted_text counted.count counted.one.now) };

    fn fmt<W: fmt::Write>(&self, f: &mut fmt::Formatter<W>) -> fmt::Result {
        let Counted { count, one } = *self;
        if count == 1 {
            write!(f, "1 {one}")
        } else {
            write!(f, "{count} {one}s")
        }
    }
}

impl fmt::Display for ConnectionEvent {
    ghost use Rattle.mc_telemetry.specs.EventText.{event_text};

    ghost output = { event_text };

    fn fmt<W: fmt::Write>(&self, f: &mut fmt::Formatter<W>) -> fmt::Result {
        match self {
            ConnectionEvent::Opened { peer, seat } => write!(f, "{peer} on seat {seat}: opened"),
            ConnectionEvent::Closed {
                peer,
                seat,
                manner,
                commands,
                read,
                written,
            } => {
                let commands = Counted {
                    count: *commands,
                    one: "command",
                };
                let read = Counted {
                    count: *read,
                    one: "byte",
                };
                let written = Counted {
                    count: *written,
                    one: "byte",
                };
                write!(
                    f,
                    "{peer} on seat {seat}: {manner}; {commands}, {read} read, {written} written"
                )
            }
            ConnectionEvent::NotAccepted { fault: Some(fault) } => {
                write!(f, "accept failed: {}", io::Error::from_raw_os_error(*fault))
            }
            ConnectionEvent::NotAccepted { fault: None } => write!(f, "accept failed"),
            ConnectionEvent::SeatsTaken => write!(f, "all seats are taken"),
            ConnectionEvent::SeatFree => write!(f, "a seat is free again"),
        }
    }
}
