//! TCP and Unix sockets as streams.
ghost use Rattle.std.specs.Io.{ReadsAtMost};

use crate::stream::Stream;
use libc::net::{MSG_PEEK, SO_KEEPALIVE, SOL_SOCKET, recv, setsockopt};
use mc_poll::Wakers;
use mio::net::{TcpStream, UnixStream};
use std::io;
use std::io::{IoSlice, Read, Write};
use std::net::Shutdown;
use std::os::fd::AsRawFd;

/// A non-blocking socket: operations that would block return `WouldBlock`.
#[derive(Drop)]
pub enum Socket {
    Tcp(TcpStream),
    Unix(UnixStream),
}

impl Socket {
    /// Sets TCP_NODELAY and keep-alive. If TCP_NODELAY fails, replies are only delayed. Unix
    /// sockets need neither.
    pub(crate) fn prepare(&self) {
        if let Socket::Tcp(stream) = self {
            let _ = stream.set_nodelay(true);
            keep_alive(stream);
        }
    }

    /// Registers the socket with the poll of the slot's thread.
    pub(crate) fn register(&mut self, wakers: &Wakers, seat: usize) -> io::Result<()> {
        match self {
            Socket::Tcp(stream) => wakers.register(seat, stream),
            Socket::Unix(stream) => wakers.register(seat, stream),
        }
    }
}

/// Sets SO_KEEPALIVE (socket(7); intervals in tcp(7)), so that vanished clients are detected. If
/// this fails, such a connection stays open. See docs/DECISIONS.md, N15.
fn keep_alive(stream: &TcpStream) {
    let on = [1u8, 0, 0, 0, 0, 0, 0, 0, 0, 0, 0, 0, 0, 0, 0, 0];
    let _ = unsafe { setsockopt(stream.as_raw_fd(), SOL_SOCKET, SO_KEEPALIVE, &on, 4) };
}

/// Each method is one system call. Contracts know nothing about the socket's bytes.
impl Stream for Socket {
    fn read(&mut self, room: &mut [u8]) -> io::Result<usize> {
        match self {
            Socket::Tcp(stream) => Read::read(stream, room),
            Socket::Unix(stream) => Read::read(stream, room),
        }
    }

    fn peek(&self, room: &mut [u8]) -> io::Result<usize> {
        match self {
            Socket::Tcp(stream) => stream.peek(room),
            Socket::Unix(stream) => peek_unix(stream, room),
        }
    }

    fn write(&mut self, bytes: &[u8]) -> io::Result<usize> {
        match self {
            Socket::Tcp(stream) => Write::write(stream, bytes),
            Socket::Unix(stream) => Write::write(stream, bytes),
        }
    }

    /// Writes the first four nonempty buffers by one system call.
    fn write_vectored(&mut self, bufs: &[IoSlice<'_>]) -> io::Result<usize> {
        // The methods of the stream types themselves: the default of `Write` makes a call for each
        // buffer.
        match self {
            Socket::Tcp(stream) => TcpStream::write_vectored(stream, bufs),
            Socket::Unix(stream) => UnixStream::write_vectored(stream, bufs),
        }
    }

    fn end_output(&mut self) -> io::Result<()> {
        match self {
            Socket::Tcp(stream) => stream.shutdown(Shutdown::Write),
            Socket::Unix(stream) => stream.shutdown(Shutdown::Write),
        }
    }
}

/// Copies the next bytes to the front of `room` without consuming them (recv(2) with MSG_PEEK),
/// since `UnixStream` has no such method.
fn peek_unix(stream: &UnixStream, room: &mut [u8]) -> io::Result<usize>
    ensures { ReadsAtMost result room.new }
{
    let got = unsafe { recv(stream.as_raw_fd(), room, MSG_PEEK) };
    usize::try_from(got).map_err(|_| io::Error::from_raw_os_error(os::errno()))
}
