//! Listens at the addresses and paths of the command line. See docs/DECISIONS.md, O5.
use crate::refuse;
use mc_net::Listener;
use mc_options::{listening_address, listening_path};
use std::alloc::{AllocError, Global};
use std::io;
use std::io::{Eprint, ErrorKind};
use std::net::{Net, SocketAddr, ToSocketAddrs};
use std::process::ExitCode;
use std::rt::Files;

/// Linux's errno for an address family that is not supported, such as IPv6 if it is switched off.
const NO_FAMILY: i32 = 97;

/// Where to listen, from the options.
#[derive(Clone, Copy)]
pub struct Places<'a> {
    /// The words of `--listen`, each with one address or several, separated by commas.
    pub words: &'a [&'a str],
    /// The path of `--unix-socket`.
    pub path: Option<&'a str>,
    /// The mode of Unix sockets.
    pub mode: u32,
    /// The port of an address without one.
    pub port: &'a str,
}

/// The listeners.
#[derive(Drop)]
pub struct Opened {
    pub listeners: Vec<Listener>,
    /// Their addresses and paths, as they are printed.
    pub names: String,
    /// The ports of their addresses, without duplicates.
    pub ports: Vec<u16>,
}

impl Opened {
    /// Listens at all of the addresses and paths. If one fails, reports the reason and returns the
    /// program's exit status.
    pub fn at<R: Net + Files + Eprint + Alloc<A = Global>>(
        rt: &R,
        places: Places<'_>,
    ) -> Result<Opened, ExitCode> {
        let mut opened = Opened {
            listeners: Vec::new(rt.alloc()),
            names: String::new(rt.alloc()),
            ports: Vec::new(rt.alloc()),
        };
        for word in places.words {
            opened.open_word(rt, word, places)?;
        }
        if let Some(path) = places.path {
            let done = opened.open_path(rt, path, places.mode);
            done.map_err(|fault| refuse_place(rt, "unix-socket", path, &fault))?;
        }
        Ok(opened)
    }

    /// Listens at each address of a word.
    fn open_word<R: Net + Files + Eprint + Alloc<A = Global>>(
        &mut self,
        rt: &R,
        word: &str,
        places: Places<'_>,
    ) -> Result<(), ExitCode> {
        for place in word.split(',') {
            self.open_place(rt, place, places)?;
        }
        Ok(())
    }

    /// Listens at one address or path of `--listen`.
    fn open_place<R: Net + Files + Eprint + Alloc<A = Global>>(
        &mut self,
        rt: &R,
        place: &str,
        places: Places<'_>,
    ) -> Result<(), ExitCode> {
        if let Some(path) = listening_path(place) {
            let done = self.open_path(rt, path, places.mode);
            return done.map_err(|fault| refuse_place(rt, "listen", place, &fault));
        }
        match listening_address(rt.alloc(), place, places.port) {
            Ok(address) => {
                let address = address.as_str();
                let done = self.open_name(rt, address);
                done.map_err(|fault| refuse_place(rt, "listen", address, &fault))
            }
            Err(_) => Err(refuse(rt, "out of memory")),
        }
    }

    /// Listens at each address of a host and port. Of several, those that this machine doesn't have
    /// are skipped, unless it has none.
    fn open_name<R: Net>(&mut self, rt: &R, name: &str) -> io::Result<()> {
        let before = self.listeners.len();
        let mut passed_over = None;
        for address in name.to_socket_addrs(rt)? {
            match self.open_address(rt, address, before) {
                Err(fault) if is_elsewhere(&fault) => passed_over = Some(fault),
                done => done?,
            }
        }
        match passed_over {
            Some(fault) if self.listeners.len() == before => Err(fault),
            _ => Ok(()),
        }
    }

    /// Listens at the address, unless a listener after the first `before` has it already.
    fn open_address<R: Net>(
        &mut self,
        rt: &R,
        address: SocketAddr,
        before: usize,
    ) -> io::Result<()> {
        let mut of_name = self.listeners.iter().skip(before);
        if of_name.any(|listener| listener.address() == Some(address)) {
            return Ok(());
        }
        let listener = Listener::at(rt, address)?;
        let local = listener.address().unwrap_or(address);
        if !self.ports.contains(&local.port()) {
            self.ports.push(local.port())?;
        }
        self.part_names()?;
        write!(self.names, "{local}")?;
        Ok(self.listeners.push(listener)?)
    }

    /// Listens at the path of a Unix socket.
    fn open_path<R: Net + Files>(&mut self, rt: &R, path: &str, mode: u32) -> io::Result<()> {
        let listener = Listener::at_path(rt, path, mode)?;
        self.part_names()?;
        write!(self.names, "unix:{path}")?;
        Ok(self.listeners.push(listener)?)
    }

    /// Separates the next name from those before it.
    fn part_names(&mut self) -> Result<(), AllocError> {
        if self.listeners.is_empty() {
            return Ok(());
        }
        self.names.push_str(", ")
    }
}

/// Whether listening failed because this machine doesn't have the address.
fn is_elsewhere(fault: &io::Error) -> bool {
    fault.kind() == ErrorKind::AddrNotAvailable || fault.raw_os_error() == Some(NO_FAMILY)
}

/// Reports why listening at the address of an option failed, and returns the exit status.
pub fn refuse_place(rt: &impl Eprint, option: &str, place: &str, fault: &io::Error) -> ExitCode {
    let status = refuse(rt, "cannot listen");
    let _ = eprintln!(rt; "mcd: --{option} {place}: {fault}");
    status
}
