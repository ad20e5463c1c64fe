//! An HTTP client.
use crate::pages::Pages;
use http_server::{Config, Connection};
use mio::net::TcpStream;
use std::alloc::Global;
use std::hash::RandomState;
use std::io;
use std::io::ErrorKind;

/// Maximum number of reads and writes of one client per turn, so that none starves the others.
const TURNS: usize = 16;

/// Maximum size in bytes of unsent answers for which a further request is answered: one at a time.
const MAX_PENDING: usize = 0;

/// Maximum size in bytes of a request body, which is ignored.
const MAX_BODY: usize = 1_024;

/// What a client needs after its turn.
#[derive(Clone, Copy)]
pub(crate) enum Visit {
    /// Another turn: there may be more to read or to answer.
    Asks,
    /// Its socket has to become ready first.
    Waits,
    /// Nothing: it is done, or has failed.
    Over,
}

/// A connection of an HTTP client.
pub(crate) struct Visitor {
    stream: TcpStream,
    connection: Connection,
    /// It was sent an answer.
    was_answered: bool,
}

impl Drop for Visitor {
    /// Written by hand, so that its owners drop it by a single call (docs/DECISIONS.md, F20).
    fn drop(self) {
        let Visitor {
            stream: _stream,
            connection: _connection,
            was_answered: _was_answered,
        } = self;
    }
}

impl Visitor {
    /// A new client. The hash keys must be secret, since the client chooses the header names.
    pub(crate) fn new(alloc: Global, keys: RandomState, stream: TcpStream) -> Visitor {
        let mut config = Config::default();
        config.max_body_len = MAX_BODY;
        config.max_pending = MAX_PENDING;
        Visitor {
            stream,
            connection: Connection::new(alloc, keys, config),
            was_answered: false,
        }
    }

    /// Whether it has had an answer.
    pub(crate) fn was_answered(&self) -> bool {
        self.was_answered
    }

    /// Reads, and answers at most one pending request, without blocking.
    pub(crate) fn serve(&mut self, pages: &mut Pages) -> Visit {
        for _ in 0..TURNS {
            self.connection.advance(pages);
            if self.connection.is_done() {
                return Visit::Over;
            }
            let answers = self.connection.wants_write();
            match self.move_bytes(answers) {
                Ok(_) if answers && !self.connection.wants_write() => {
                    self.was_answered = true;
                    return Visit::Asks;
                }
                Ok(_) => {}
                Err(fault) if fault.kind() == ErrorKind::WouldBlock => return Visit::Waits,
                Err(fault) if fault.kind() == ErrorKind::Interrupted => {}
                Err(_) => return Visit::Over,
            }
        }
        Visit::Asks
    }

    /// Sends some of an answer, or reads once.
    fn move_bytes(&mut self, answers: bool) -> io::Result<usize> {
        if answers {
            self.connection.write_to(&mut self.stream)
        } else {
            self.connection.read_from(&mut self.stream)
        }
    }
}
