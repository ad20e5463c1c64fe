//! One line is served: how often it is read and written, when the clock is read, and what a refused
//! allocation changes. The worked rows are in the crate mc_rows.
ghost use Rattle.std.specs.Prelude.{◌≡◌, IfOk};
ghost use Rattle.mc_transport.specs.Place.{unbegun};
ghost use Rattle.mc_record.specs.Opening.{IsOpening};
ghost use Rattle.mc_serving_tests.specs.declared.line.TheConstants.{SIZES};

use crate::asserting::{equal, holds};
use crate::memory_line::MemoryLine;
use crate::sizes::SMALL;
use mc_conn::StatsSource;
use mc_record::Opening;
use mc_reply::ServerStats;
use mc_serve::PlacedLine;
use mc_server::{FixedClock, LineError, open_one, serve_one};
use mc_sizes::Sizes;
use mc_transport::{Clock, Transport};
use std::alloc::{AllocError, Global};
use std::cell::Cell;
use std::random::RandomSource;
use std::sync::Wait;
use std::test::Fail;

const SIZES: Sizes = Sizes {
    bytes: 1_024,
    ..SMALL
};

/// Opens a history for this line.
fn opened(alloc: Global, line: MemoryLine) -> Result<(Opening, PlacedLine<MemoryLine>), AllocError>
    ensures opening { IfOk result (λ opened.
        IsOpening (record SIZES { seats = 1 }) opened.0.recorders.items opened.0.clerks.items
        opened.0.witness) }
    ensures new { IfOk result (λ opened.
        ⟦<PlacedLine<MemoryLine> as Transport>⟧.place opened.1 ≡
        unbegun opened.0.witness.name) }
{
    let (opening, history) = open_one(alloc, SIZES)?;
    Ok((opening, PlacedLine::new(line, &history)))
}

/// Serves the line with these sizes. Returns the number of commands, and whether the line broke.
fn serve<R: RandomSource + Wait, C: Clock>(
    rt: &R,
    alloc: Global,
    opening: Opening,
    line: &mut PlacedLine<MemoryLine>,
    clock: &C,
) -> Result<(u64, bool), LineError>
    requires opening { IsOpening (record SIZES { seats = 1 }) opening.recorders.items
        opening.clerks.items opening.witness }
    requires new { ⟦<PlacedLine<MemoryLine> as Transport>⟧.place line.old ≡
        unbegun opening.witness.name }
{
    let served = serve_one(rt, alloc, opening, line, SIZES, clock)?;
    Ok((served.commands, served.broke))
}

#[test]
fn replies_in_one_write(rt: HostRuntime) -> Result<(), Fail> {
    let input =
        b"set a 7 0 2\r\nhi\r\nget a\r\nstats\r\nset b 0 0 1 noreply\r\nx\r\nmn\r\nquit\r\nmn\r\n";
    let line = MemoryLine::new(rt.alloc(), input.as_slice())?;
    let (opening, mut line) = opened(rt.alloc(), line)?;
    let served = serve(&rt, rt.alloc(), opening, &mut line, &FixedClock(1000))?;
    equal(&rt, served, (6, false));
    let output = b"STORED\r\nVALUE a 7 2\r\nhi\r\nEND\r\nERROR\r\nMN\r\n";
    equal(&rt, line.line.output.as_slice(), output.as_slice());
    // One read and one write: nothing is read after `quit`.
    equal(&rt, line.line.calls, 2);
    Ok(())
}

/// A clock that advances by a second at each call.
#[derive(Drop)]
struct RisingClock(Cell<u64>);

impl StatsSource for RisingClock {
    ghost may_show = { λ _ _. Unit {0} };

    fn server_stats(&self) -> ServerStats {
        ServerStats::none()
    }
}

impl Clock for RisingClock {
    ghost may_answer = { λ _ _. Unit {0} };

    fn now(&self) -> u64 {
        let moment = self.0.get();
        self.0.set(moment.wrapping_add(1));
        moment
    }
}

/// The clock is read once for the commands of a read: an item that lives for a second is there for
/// all commands behind the one that stores it.
#[test]
fn a_moment_for_each_read(rt: HostRuntime) -> Result<(), Fail> {
    let input = b"set a 0 1 1\r\nx\r\nget a\r\nget a\r\nget a\r\nquit\r\n";
    let line = MemoryLine::new(rt.alloc(), input.as_slice())?;
    let (opening, mut line) = opened(rt.alloc(), line)?;
    let clock = RisingClock(Cell::new(1000));
    serve(&rt, rt.alloc(), opening, &mut line, &clock)?;
    let output =
        b"STORED\r\nVALUE a 0 1\r\nx\r\nEND\r\nVALUE a 0 1\r\nx\r\nEND\r\nVALUE a 0 1\r\nx\r\nEND\r\n";
    equal(&rt, line.line.output.as_slice(), output.as_slice());
    Ok(())
}

/// Stores, changes and reads on two shards; after them nothing is read. Keys of 39 bytes take
/// memory.
const SCRIPT: &[u8] =
    b"set aaaaaaaaaaaaaaaaaaaaaaaaaaaaaaaaaaaaaaa 0 0 1\r\nx\r\nget aaaaaaaaaaaaaaaaaaaaaaaaaaaaaaaaaaaaaaa b\r\nappend aaaaaaaaaaaaaaaaaaaaaaaaaaaaaaaaaaaaaaa 0 0 1\r\ny\r\nincr aaaaaaaaaaaaaaaaaaaaaaaaaaaaaaaaaaaaaaa 1\r\nms ccccccccccccccccccccccccccccccccccccccc 1 c\r\nz\r\nmg ccccccccccccccccccccccccccccccccccccccc v\r\nflush_all\r\nmn\r\nget aaaaaaaaaaaaaaaaaaaaaaaaaaaaaaaaaaaaaaa\r\nquit\r\n";

/// The replies to the script if all commands ran, and if one found no memory: the set, the get of
/// two keys, the append, the incr, the ms, the mg, the flush_all, the last get.
const OUTPUTS: [&[u8]; 9] = [
    b"STORED\r\nVALUE aaaaaaaaaaaaaaaaaaaaaaaaaaaaaaaaaaaaaaa 0 1\r\nx\r\nEND\r\nSTORED\r\nCLIENT_ERROR cannot increment or decrement non-numeric value\r\nHD c5\r\nVA 1\r\nz\r\nOK\r\nMN\r\nEND\r\n",
    b"SERVER_ERROR out of memory\r\nEND\r\nNOT_STORED\r\nNOT_FOUND\r\nHD c1\r\nVA 1\r\nz\r\nOK\r\nMN\r\nEND\r\n",
    b"STORED\r\nSERVER_ERROR out of memory\r\nSTORED\r\nCLIENT_ERROR cannot increment or decrement non-numeric value\r\nHD c5\r\nVA 1\r\nz\r\nOK\r\nMN\r\nEND\r\n",
    b"STORED\r\nVALUE aaaaaaaaaaaaaaaaaaaaaaaaaaaaaaaaaaaaaaa 0 1\r\nx\r\nEND\r\nSERVER_ERROR out of memory\r\nCLIENT_ERROR cannot increment or decrement non-numeric value\r\nHD c3\r\nVA 1\r\nz\r\nOK\r\nMN\r\nEND\r\n",
    b"STORED\r\nVALUE aaaaaaaaaaaaaaaaaaaaaaaaaaaaaaaaaaaaaaa 0 1\r\nx\r\nEND\r\nSTORED\r\nSERVER_ERROR out of memory\r\nHD c5\r\nVA 1\r\nz\r\nOK\r\nMN\r\nEND\r\n",
    b"STORED\r\nVALUE aaaaaaaaaaaaaaaaaaaaaaaaaaaaaaaaaaaaaaa 0 1\r\nx\r\nEND\r\nSTORED\r\nCLIENT_ERROR cannot increment or decrement non-numeric value\r\nSERVER_ERROR out of memory\r\nEN\r\nOK\r\nMN\r\nEND\r\n",
    b"STORED\r\nVALUE aaaaaaaaaaaaaaaaaaaaaaaaaaaaaaaaaaaaaaa 0 1\r\nx\r\nEND\r\nSTORED\r\nCLIENT_ERROR cannot increment or decrement non-numeric value\r\nHD c5\r\nSERVER_ERROR out of memory\r\nOK\r\nMN\r\nEND\r\n",
    b"STORED\r\nVALUE aaaaaaaaaaaaaaaaaaaaaaaaaaaaaaaaaaaaaaa 0 1\r\nx\r\nEND\r\nSTORED\r\nCLIENT_ERROR cannot increment or decrement non-numeric value\r\nHD c5\r\nVA 1\r\nz\r\nSERVER_ERROR out of memory\r\nMN\r\nVALUE aaaaaaaaaaaaaaaaaaaaaaaaaaaaaaaaaaaaaaa 0 2\r\nxy\r\nEND\r\n",
    b"STORED\r\nVALUE aaaaaaaaaaaaaaaaaaaaaaaaaaaaaaaaaaaaaaa 0 1\r\nx\r\nEND\r\nSTORED\r\nCLIENT_ERROR cannot increment or decrement non-numeric value\r\nHD c5\r\nVA 1\r\nz\r\nOK\r\nMN\r\nSERVER_ERROR out of memory\r\n",
];

#[test]
fn all_is_done_where_memory_is_ample(rt: HostRuntime) -> Result<(), Fail> {
    let (opening, mut line) = opened(rt.alloc(), MemoryLine::new(rt.alloc(), SCRIPT)?)?;
    let served = serve(&rt, rt.alloc(), opening, &mut line, &FixedClock(1000))?;
    equal(&rt, served, (10, false));
    equal(&rt, line.line.output.as_slice(), OUTPUTS[0]);
    Ok(())
}

/// Holds with all allocations, and with any one of them refused: then nothing was read, or exactly
/// one command found no memory, and the others were answered as usual. Which command it is depends
/// on what was taken when, since all are taken before the shards run the first;
/// `tools/checks/test_refused_allocations.py` shows it, with a window of one.
#[test]
fn a_refused_allocation(rt: HostRuntime) -> Result<(), Fail> {
    let Ok(line) = MemoryLine::new(rt.alloc(), SCRIPT) else {
        return Ok(());
    };
    let Ok((opening, mut line)) = opened(rt.alloc(), line) else {
        return Ok(());
    };
    match serve(&rt, rt.alloc(), opening, &mut line, &FixedClock(1000)) {
        Err(LineError::Memory) => equal(&rt, line.line.calls, 0),
        Ok(served) => {
            equal(&rt, served, (10, false));
            holds(
                &rt,
                OUTPUTS
                    .iter()
                    .any(|output| line.line.output.as_slice() == *output),
            );
        }
    }
    Ok(())
}
