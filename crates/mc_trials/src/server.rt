//! Serving lines in memory, by threads or by a single thread.
ghost use Rattle.std.specs.Prelude.{◌≡◌, IfOk, length};
ghost use Rattle.std.specs.List.{AllByRecursion};
ghost use Rattle.mc_transport.specs.Place.{unbegun};
ghost use Rattle.mc_record.specs.Opening.{IsOpening};

use crate::line::MemoryLine;
use mc_history::Evidence;
use mc_net::ServedLine;
use mc_record::Opening;
use mc_serve::{PlacedLine, serve_over};
use mc_server::{FixedClock, open_one, serve_one};
use mc_sizes::Sizes;
use mc_transport::{Clock, Transport};
use mc_worker::{Gate, OpenGate};
use std::alloc::{AllocError, Global};
use std::random::RandomSource;
use std::sync::Wait;
use std::thread::Threads;

/// The Unix time of every command, unless there is a clock.
pub const MOMENT: u64 = 1_000;

/// The runtime and the allocator.
#[derive(Drop)]
pub struct Server<R> {
    pub rt: R,
    pub alloc: Global,
}

impl<R: Threads + Wait + RandomSource + Copy + Send + Drop + 'static> Server<R> {
    /// Serves the lines by threads, with one time for all commands, and returns them; `None` if the
    /// server refuses or can't be made.
    pub fn serve(
        &self,
        lines: Vec<MemoryLine>,
        sizes: Sizes,
    ) -> Option<Vec<ServedLine<MemoryLine>>> {
        self.serve_by(lines, sizes, OpenGate, FixedClock(MOMENT))
    }

    /// Serves lines of any type, with this gate and clock, and returns them; `None` if the server
    /// refuses or can't be made.
    pub fn serve_by<
        L: Transport<Warrant = ()> + Send + Drop + 'static,
        G: Gate + Send + Sync + Drop + 'static,
        K: Clock + Copy + Send + Drop + 'static,
    >(&self, lines: Vec<L>, sizes: Sizes, gate: G, clock: K) -> Option<Vec<ServedLine<L>>> {
        let sizes = Sizes {
            seats: lines.len(),
            ..sizes
        };
        sizes.check().ok()?;
        let Ok((opening, lines)) = opened(self.alloc, lines, sizes) else {
            return None;
        };
        match serve_over(&self.rt, self.alloc, opening, lines, sizes, gate, clock) {
            Ok(report) => unplaced(self.alloc, report.lines).ok(),
            Err(_refusal) => None,
        }
    }

    /// Serves one line by a single thread, and returns it; `None` if the server refuses or can't be
    /// made.
    pub fn serve_alone(&self, line: MemoryLine, sizes: Sizes) -> Option<ServedLine<MemoryLine>> {
        sizes.check().ok()?;
        let Ok((opening, history)) = open_one(self.alloc, sizes) else {
            return None;
        };
        let mut line = PlacedLine::new(line, &history);
        let clock = FixedClock(MOMENT);
        let served = serve_one(&self.rt, self.alloc, opening, &mut line, sizes, &clock).ok()?;
        Some(ServedLine {
            line: line.into_line(),
            commands: served.commands,
            broke: served.broke,
        })
    }
}

/// Opens a history for these lines, which are as many as the sizes say.
fn opened<L: Transport<Warrant = ()> + Drop>(
    alloc: Global,
    lines: Vec<L>,
    sizes: Sizes,
) -> Result<(Opening, Vec<PlacedLine<L>>), AllocError>
    ensures as_many { IfOk result (λ opened. length opened.1.items ≡ length lines.items) }
    ensures opening { IfOk result (λ opened.
        IsOpening sizes opened.0.recorders.items opened.0.clerks.items opened.0.witness) }
    ensures new { IfOk result (λ opened.
        AllByRecursion (λ line.
        ⟦<PlacedLine<L> as Transport>⟧.place line ≡ unbegun opened.0.witness.name)
        opened.1.items) }
{
    let mut opening = Opening::new(alloc, sizes)?;
    let history = opening.show();
    let lines = placed(alloc, lines, &history)?;
    Ok((opening, lines))
}

/// The lines, each with room for the connection that it is in this history.
fn placed<L: Transport<Warrant = ()> + Drop>(
    alloc: Global,
    lines: Vec<L>,
    history: &Evidence,
) -> Result<Vec<PlacedLine<L>>, AllocError>
    ensures as_many { IfOk result (λ placed. length placed.items ≡ length lines.items) }
    ensures new { IfOk result (λ placed.
        AllByRecursion (λ line.
        ⟦<PlacedLine<L> as Transport>⟧.place line ≡ unbegun history.now.name)
        placed.items) }
{
    let mut placed = Vec::with_capacity(alloc, lines.len())?;
    for line in lines {
        placed.push(PlacedLine::new(line, history))?;
    }
    Ok(placed)
}

/// The lines that were served, without the connections that they were.
fn unplaced<L: Transport<Warrant = ()> + Drop>(
    alloc: Global,
    served: Vec<ServedLine<PlacedLine<L>>>,
) -> Result<Vec<ServedLine<L>>, AllocError> {
    let mut lines = Vec::with_capacity(alloc, served.len())?;
    for one in served {
        let ServedLine {
            line,
            commands,
            broke,
        } = one;
        lines.push(ServedLine {
            line: line.into_line(),
            commands,
            broke,
        })?;
    }
    Ok(lines)
}
