//! Nothing is read of lines whose threads can't all be started.
ghost use Rattle.std.specs.Prelude.{◌≡◌, IfOk, length};
ghost use Rattle.std.specs.List.{AllByRecursion};
ghost use Rattle.mc_transport.specs.Place.{unbegun};
ghost use Rattle.mc_record.specs.Opening.{IsOpening};
ghost use Rattle.mc_serving_tests.specs.declared.sizes.TheConstants.{SMALL};

use crate::asserting::{equal, holds};
use crate::memory_line::MemoryLine;
use crate::sizes::SMALL;
use mc_record::Opening;
use mc_serve::{PlacedLine, ServeError, serve_over};
use mc_server::FixedClock;
use mc_transport::{Transport, TransportError};
use mc_wire::SinkError;
use mc_worker::OpenGate;
use std::alloc::{AllocError, Global};
use std::sync::Arc;
use std::sync::atomic::{AtomicU64, Ordering};
use std::test::Fail;

/// A line whose reads and writes are counted, together with those of others.
#[derive(Drop)]
struct Counted<L> {
    line: L,
    calls: Arc<AtomicU64, Global>,
}

impl<L: Transport> Transport for Counted<L> {
    type Warrant = L::Warrant;

    ghost sight = { λ counted. L.sight counted.line };

    ghost place = { λ counted. L.place counted.line };

    fn begin(&mut self, seen: L::Warrant) {
        self.line.begin(seen);
    }

    fn read(&mut self, room: &mut [u8]) -> Result<usize, TransportError> {
        self.calls.fetch_add(1, Ordering::SeqCst);
        self.line.read(room)
    }

    fn write_if_ready(&mut self, bytes: &[u8], seen: &L::Warrant) -> Result<usize, SinkError> {
        self.calls.fetch_add(1, Ordering::SeqCst);
        self.line.write_if_ready(bytes, seen)
    }
}

/// A line whose commands take no memory once it is served.
fn counted_line(
    alloc: Global,
    calls: &Arc<AtomicU64, Global>,
) -> Result<Counted<MemoryLine>, AllocError> {
    Ok(Counted {
        line: MemoryLine::new(alloc, b"mn\r\nquit\r\n")?,
        calls: Arc::try_clone(calls)?,
    })
}

/// Opens a history for two lines, neither of which has begun.
fn pair_of<L: Transport<Warrant = ()> + Drop>(
    alloc: Global,
    first: L,
    second: L,
) -> Result<(Opening, Vec<PlacedLine<L>>), AllocError>
    ensures as_many { IfOk result (λ opened. length opened.1.items ≡ 2) }
    ensures opening { IfOk result (λ opened.
        IsOpening SMALL opened.0.recorders.items opened.0.clerks.items opened.0.witness) }
    ensures new { IfOk result (λ opened.
        AllByRecursion (λ line.
        ⟦<PlacedLine<L> as Transport>⟧.place line ≡ unbegun opened.0.witness.name)
        opened.1.items) }
{
    let mut opening = Opening::new(alloc, SMALL)?;
    let history = opening.show();
    let mut lines = Vec::with_capacity(alloc, 2)?;
    lines.push(PlacedLine::new(first, &history))?;
    lines.push(PlacedLine::new(second, &history))?;
    Ok((opening, lines))
}

/// Two lines whose calls are counted together.
fn two_lines(
    alloc: Global,
    calls: &Arc<AtomicU64, Global>,
) -> Result<(Counted<MemoryLine>, Counted<MemoryLine>), AllocError> {
    Ok((counted_line(alloc, calls)?, counted_line(alloc, calls)?))
}

/// Holds whichever allocation is refused. Either nothing was read or written and all threads have
/// ended, or all lines are served. Then only a line that found no memory for its replies was given
/// up, before it took any.
#[test]
fn a_refused_start(rt: HostRuntime) -> Result<(), Fail> {
    let Ok(calls) = Arc::new(rt.alloc(), AtomicU64::new(0)) else {
        return Ok(());
    };
    let Ok((first, second)) = two_lines(rt.alloc(), &calls) else {
        return Ok(());
    };
    let Ok((opening, lines)) = pair_of(rt.alloc(), first, second) else {
        return Ok(());
    };
    let clock = FixedClock(1000);
    match serve_over(&rt, rt.alloc(), opening, lines, SMALL, OpenGate, clock) {
        Ok(report) => {
            for one in report.lines {
                let output = if one.broke {
                    b"".as_slice()
                } else {
                    b"MN\r\n".as_slice()
                };
                equal(&rt, one.line.line.line.output.as_slice(), output);
                equal(&rt, one.commands, 2);
            }
        }
        Err(refusal) => {
            holds(
                &rt,
                refusal == ServeError::Memory || refusal == ServeError::Thread,
            );
            equal(&rt, calls.load(Ordering::SeqCst), 0);
            // Each thread that held a line has ended.
            equal(&rt, Arc::strong_count(&calls), 1);
        }
    }
    Ok(())
}
