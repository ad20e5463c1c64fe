//! A connection over a stream that moves few bytes at a call, and whose calls a signal interrupts.
use crate::asserting::{equal, holds};
use crate::sizes::SMALL;
use bytes::Bytes;
use mc_net::{Stream, TcpConnection};
use mc_server::{FixedClock, open_one, serve_one};
use mc_sizes::Sizes;
use mc_telemetry::Meter;
use mc_transport::{Ready, Transport, WriteBuffer};
use mc_wire::{Sink, write_all};
use std::alloc::Global;
use std::io;
use std::io::{ErrorKind, IoSlice, Write};
use std::test::Fail;

/// The maximum number of bytes that it moves at a call.
const MOST: usize = 3;

/// A stream over memory. Every second call is interrupted before it does anything.
#[derive(Drop)]
struct Slow {
    input: &'static [u8],
    output: Vec<u8>,
    /// Whether the next call is interrupted.
    interrupted: bool,
}

impl Slow {
    fn new(alloc: Global, input: &'static [u8]) -> Slow {
        Slow {
            input,
            output: Vec::new(alloc),
            interrupted: true,
        }
    }

    /// Whether this call is interrupted; then the next one isn't.
    fn is_interrupted(&mut self) -> bool {
        let interrupted = self.interrupted;
        self.interrupted = !interrupted;
        interrupted
    }
}

impl Write for Slow {
    fn write(&mut self, bytes: &[u8]) -> io::Result<usize> {
        if self.is_interrupted() {
            return Err(io::Error::from(ErrorKind::Interrupted));
        }
        let count = bytes.len().min(MOST);
        self.output.extend_from_slice(&bytes[..count])?;
        Ok(count)
    }

    fn flush(&mut self) -> io::Result<()> {
        Ok(())
    }
}

impl Stream for Slow {
    fn read(&mut self, room: &mut [u8]) -> io::Result<usize> {
        if self.is_interrupted() {
            return Err(io::Error::from(ErrorKind::Interrupted));
        }
        let count = room.len().min(self.input.len()).min(MOST);
        let (front, rest) = self.input.split_at(count);
        let (place, _) = room.split_at_mut(count);
        place.copy_from_slice(front);
        self.input = rest;
        Ok(count)
    }

    fn peek(&self, room: &mut [u8]) -> io::Result<usize> {
        let count = room.len().min(self.input.len());
        let (front, _) = self.input.split_at(count);
        let (place, _) = room.split_at_mut(count);
        place.copy_from_slice(front);
        Ok(count)
    }

    fn write(&mut self, bytes: &[u8]) -> io::Result<usize> {
        Write::write(self, bytes)
    }

    fn write_vectored(&mut self, bufs: &[IoSlice<'_>]) -> io::Result<usize> {
        Write::write_vectored(self, bufs)
    }

    fn end_output(&mut self) -> io::Result<()> {
        Ok(())
    }
}

#[test]
fn what_is_written_goes_out_whole_and_once(rt: HostRuntime) -> Result<(), Fail> {
    let mut stream = Slow::new(rt.alloc(), b"");
    let mut line = TcpConnection::new(&mut stream, &());
    let text = b"VALUE a 0 10\r\n0123456789\r\nEND\r\n";
    let mut waiting = WriteBuffer::new(rt.alloc());
    holds(&rt, write_all(&mut waiting, text).is_ok());
    holds(&rt, matches!(waiting.flush(&mut line, &()), Ok(true)));
    drop(line);
    equal(&rt, stream.output.as_slice(), text.as_slice());
    Ok(())
}

#[test]
fn pieces_that_wait_go_out_whole_and_once(rt: HostRuntime) -> Result<(), Fail> {
    let mut stream = Slow::new(rt.alloc(), b"");
    let mut line = TcpConnection::new(&mut stream, &());
    let mut waiting = WriteBuffer::new(rt.alloc());
    let value = Bytes::copy_from_slice(rt.alloc(), b"0123456789")?;
    for _ in 0..3 {
        holds(&rt, write_all(&mut waiting, b"VALUE a 0 10\r\n").is_ok());
        holds(&rt, waiting.put_shared(&value).is_ok());
        holds(&rt, write_all(&mut waiting, b"\r\nEND\r\n").is_ok());
    }
    holds(&rt, matches!(waiting.flush(&mut line, &()), Ok(true)));
    drop(line);
    let wanted =
        b"VALUE a 0 10\r\n0123456789\r\nEND\r\nVALUE a 0 10\r\n0123456789\r\nEND\r\nVALUE a 0 10\r\n0123456789\r\nEND\r\n";
    equal(&rt, stream.output.as_slice(), wanted.as_slice());
    Ok(())
}

#[test]
fn a_line_is_served_over_it(rt: HostRuntime) -> Result<(), Fail> {
    let input = b"set a 7 0 10\r\n0123456789\r\nget a\r\nmn\r\nquit\r\nmn\r\n";
    let mut stream = Slow::new(rt.alloc(), input);
    let sizes = Sizes {
        bytes: 1_024,
        value: 1_024,
        window: 2,
        ..SMALL
    };
    let (opening, history) = open_one(rt.alloc(), sizes)?;
    let mut line = TcpConnection::new(&mut stream, &history);
    let clock = FixedClock(1000);
    let served = serve_one(&rt, rt.alloc(), opening, &mut line, sizes, &clock)?;
    equal(&rt, (served.commands, served.broke), (4, false));
    drop(line);
    let wanted = b"STORED\r\nVALUE a 7 10\r\n0123456789\r\nEND\r\nMN\r\n";
    equal(&rt, stream.output.as_slice(), wanted.as_slice());
    Ok(())
}

/// The first bytes of other protocols.
const FOREIGN: [&[u8]; 4] = [
    b"GET / HTTP/1.1\r\n",
    b"OPTIONS /a",
    b"\x80\x0a\0\0",
    b"\x16\x03\x01\x02\0\x01",
];

/// Lines that begin similarly.
const LINES: [&[u8]; 3] = [b"get /key\r\n", b"GET a\r\n", b"\x16\x02\r\n"];

/// The number of bytes that the first read of a line returns, with detection of other protocols or
/// without, and the number left.
fn read_first(alloc: Global, input: &'static [u8], sniff_protocol: bool) -> (Option<usize>, usize) {
    let mut stream = Slow::new(alloc, input);
    let mut line = TcpConnection::begin(&mut stream, Meter::unwatched(), true, sniff_protocol, &());
    line.rouse(Ready::Open);
    let mut room = [0; 16];
    let given = line.read_if_ready(&mut room).unwrap_or(None);
    drop(line);
    (given, stream.input.len())
}

/// The line reads as ended, and its bytes are left.
#[test]
fn another_protocol_ends_a_wary_line(rt: HostRuntime) -> Result<(), Fail> {
    for input in FOREIGN {
        let first = (Some(MOST), input.len().saturating_sub(MOST));
        equal(
            &rt,
            read_first(rt.alloc(), input, true),
            (Some(0), input.len()),
        );
        equal(&rt, read_first(rt.alloc(), input, false), first);
    }
    for input in LINES {
        let first = (Some(MOST), input.len().saturating_sub(MOST));
        equal(&rt, read_first(rt.alloc(), input, true), first);
    }
    equal(&rt, read_first(rt.alloc(), b"G", true), (Some(1), 0));
    equal(&rt, read_first(rt.alloc(), b"", true), (Some(0), 0));
    Ok(())
}
