//! Listening sockets: a TCP address, or a path of a Unix socket.
use crate::socket::Socket;
use mc_poll::Wakers;
use mc_telemetry::Peer;
use mio::net::{TcpListener, UnixListener, UnixStream};
use std::fs::{Files, Permissions};
use std::io::ErrorKind;
use std::net::{Net, SocketAddr};
use std::os::fd::{AsFd, OwnedFd};
use std::os::unix::fs::{FileTypeExt, PermissionsExt};
use std::{fs, io, net};

/// A non-blocking listening socket.
#[derive(Drop)]
pub enum Listener {
    Tcp(TcpListener),
    Unix(UnixListener),
}

impl Listener {
    /// Listens at the TCP address. The backlog is as long as the system allows
    /// (net.core.somaxconn).
    pub fn at(net: &impl Net, address: SocketAddr) -> io::Result<Listener> {
        Ok(Listener::Tcp(TcpListener::bind(net, address)?))
    }

    /// Listens at the path of a Unix socket, with this file mode. A stale socket is replaced if
    /// nobody listens at it; any other existing file is an error. Until the mode is set, the
    /// process's umask applies.
    pub fn at_path<R: Files + Net>(rt: &R, path: &str, mode: u32) -> io::Result<Listener> {
        if path.is_empty() {
            return Err(io::Error::from(ErrorKind::InvalidInput));
        }
        remove_stale(rt, path)?;
        let listener = UnixListener::bind(rt, path)?;
        fs::set_permissions(rt, path, Permissions::from_mode(mode))?;
        Ok(Listener::Unix(listener))
    }

    /// Makes the listener non-blocking.
    pub fn of(listener: net::TcpListener) -> io::Result<Listener> {
        listener.set_nonblocking(true)?;
        Ok(Listener::Tcp(TcpListener::from_std(listener)))
    }

    /// Its TCP address; `None` for a path.
    pub fn address(&self) -> Option<SocketAddr> {
        match self {
            Listener::Tcp(listener) => listener.local_addr().ok(),
            Listener::Unix(_) => None,
        }
    }

    /// A further descriptor of its socket.
    pub(crate) fn descriptor(&self) -> io::Result<OwnedFd> {
        match self {
            Listener::Tcp(listener) => listener.as_fd().try_clone_to_owned(),
            Listener::Unix(listener) => listener.as_fd().try_clone_to_owned(),
        }
    }

    /// Registers the listener with the thread's poll, as number `place`.
    pub(crate) fn register(&mut self, wakers: &Wakers, place: usize) -> io::Result<()> {
        match self {
            Listener::Tcp(listener) => wakers.register(place, listener),
            Listener::Unix(listener) => wakers.register(place, listener),
        }
    }

    /// Accepts the next connection, with its client's address; a placeholder for Unix sockets.
    /// `WouldBlock` if none is pending.
    pub(crate) fn accept(&self) -> io::Result<(Socket, Peer)> {
        match self {
            Listener::Tcp(listener) => {
                let (stream, peer) = listener.accept()?;
                Ok((Socket::Tcp(stream), Peer::At(peer)))
            }
            Listener::Unix(listener) => {
                let (stream, _) = listener.accept()?;
                Ok((Socket::Unix(stream), Peer::Unix))
            }
        }
    }
}

/// Removes a stale socket file at which nobody listens.
fn remove_stale<R: Files + Net>(rt: &R, path: &str) -> io::Result<()> {
    match fs::symlink_metadata(rt, path) {
        Ok(known) if known.file_type().is_socket() => {}
        _ => return Ok(()),
    }
    match UnixStream::connect(rt, path) {
        Err(fault) if fault.kind() == ErrorKind::ConnectionRefused => fs::remove_file(rt, path),
        _ => Ok(()),
    }
}
