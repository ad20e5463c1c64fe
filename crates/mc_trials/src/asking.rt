//! A line that waits for the reply to each command before it sends the next one, and records when
//! each began and ended.
use crate::chooser::Chooser;
use crate::gates::Come;
use mc_transport::{Transport, TransportError};
use mc_wire::SinkError;
use std::alloc::{AllocError, Global};
use std::sync::Arc;
use std::sync::atomic::Ordering;

/// The commands of a line and their replies so far.
#[derive(Drop)]
struct Talk {
    alloc: Global,
    chooser: Chooser,
    /// Number of commands of all lines that have begun or ended: the common clock.
    moments: Come,
    /// Commands still to be sent.
    left: u64,
    /// The command that was sent last.
    command: String,
    /// When it began.
    began: u64,
    /// The part of its reply received so far.
    reply: Vec<u8>,
    /// Whether its reply is incomplete.
    awaits: bool,
    /// For each finished command: when it began and ended, its words, and those of its reply.
    history: Vec<u8>,
}

impl Talk {
    /// Chooses the next command. It begins before its first byte is sent.
    fn begin(&mut self) -> Result<(), AllocError> {
        self.command = self.chooser.next()?;
        self.left = self.left.saturating_sub(1);
        self.awaits = true;
        self.began = self.moments.fetch_add(1, Ordering::SeqCst);
        Ok(())
    }

    /// Takes a piece of a reply. The command ends with the last byte of its reply.
    fn hear(&mut self, bytes: &[u8]) -> Result<(), AllocError> {
        self.reply.extend_from_slice(bytes)?;
        if !self.awaits || !self.chooser.is_whole(&self.reply) {
            return Ok(());
        }
        let (began, ended) = (self.began, self.moments.fetch_add(1, Ordering::SeqCst));
        self.awaits = false;
        self.chooser.hears(&self.reply);
        let times = format!(in self.alloc; "{began} {ended} ")?;
        self.history.extend_from_slice(times.as_bytes())?;
        add_words(&mut self.history, self.command.as_bytes())?;
        self.history.extend_from_slice(b"| ")?;
        add_words(&mut self.history, &self.reply)?;
        self.history.push(b'\n')?;
        self.reply.clear();
        Ok(())
    }

    /// The next bytes to send: a command, or nothing if all were sent. `None` if a reply is still
    /// awaited, or if memory was refused.
    fn next(&mut self) -> Option<&[u8]> {
        if self.awaits {
            return None;
        }
        if self.left == 0 {
            return Some(&[]);
        }
        self.begin().ok()?;
        Some(self.command.as_bytes())
    }
}

/// A line that sends random commands. It has no history for contracts. Reading from it while a
/// reply is due makes it fail.
#[derive(Drop)]
pub struct Asking {
    talk: Talk,
    failed: bool,
    ended: bool,
}

impl Asking {
    /// A line that sends `left` commands from this chooser.
    pub fn new(
        alloc: Global,
        chooser: Chooser,
        moments: &Come,
        left: u64,
    ) -> Result<Asking, AllocError> {
        let talk = Talk {
            alloc,
            chooser,
            moments: Arc::try_clone(moments)?,
            left,
            command: String::new(alloc),
            began: 0,
            reply: Vec::new(alloc),
            awaits: false,
            history: Vec::new(alloc),
        };
        Ok(Asking {
            talk,
            failed: false,
            ended: false,
        })
    }

    /// The finished commands, one row each: when it began and ended, its words, a bar and the words
    /// of its reply.
    pub fn into_history(self) -> Vec<u8> {
        self.talk.history
    }
}

impl Transport for Asking {
    ghost use Rattle.std.specs.Prelude.{None};
    ghost use Rattle.mc_wire.specs.Sink.{Unlisted};
    ghost use Rattle.mc_ring.specs.Route.{no_history};
    ghost use Rattle.mc_transport.specs.Place.{unbegun};

    type Warrant = ();

    ghost sight = { λ line.
        record {
          given = Unlisted;
          ended = line.ended;
          reads = None;
          taken = Unlisted;
          failed = line.failed;
        } };

    ghost place = { λ line. unbegun no_history };

    fn begin(&mut self, _seen: ()) {}

    fn read(&mut self, room: &mut [u8]) -> Result<usize, TransportError> {
        if self.failed {
            return Err(TransportError);
        }
        match self.talk.next() {
            Some(bytes) if bytes.len() <= room.len() => {
                let count = bytes.len();
                let (place, _) = room.split_at_mut(count);
                place.copy_from_slice(bytes);
                self.ended = count == 0;
                Ok(count)
            }
            _ => {
                self.failed = true;
                Err(TransportError)
            }
        }
    }

    fn write_if_ready(&mut self, bytes: &[u8], _seen: &()) -> Result<usize, SinkError> {
        if self.failed || self.talk.hear(bytes).is_err() {
            self.failed = true;
            return Err(SinkError);
        }
        Ok(bytes.len())
    }
}

/// Appends the words of a text, each followed by a space.
fn add_words(words: &mut Vec<u8>, text: &[u8]) -> Result<(), AllocError> {
    for byte in text {
        match byte {
            b'\r' => {}
            b'\n' => words.push(b' ')?,
            other => words.push(*other)?,
        }
    }
    Ok(())
}
