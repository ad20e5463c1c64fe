//! Serves one line, by the options of the command line.
ghost use Rattle.std.specs.Prelude.{◌≡◌, IfOk};
ghost use Rattle.mc_sizes.specs.Sizes.{AreWithin};
ghost use Rattle.mc_record.specs.Opening.{IsOpening};
ghost use Rattle.mc_transport.specs.Explains.{IsExplained};
ghost use Rattle.mc_transport.specs.Place.{unbegun};
ghost use Rattle.mcd.specs.Served.{MayBe};

use crate::refuse;
use crate::standard::Standard;
use mc_history::Evidence;
use mc_record::Opening;
use mc_server::{FixedClock, LineError, MachineClock, open_one, serve_one};
use mc_sizes::Sizes;
use mc_transport::{Clock, Served, Transport};
use std::alloc::Global;
use std::io::{Eprint, Read, Write};
use std::process::ExitCode;
use std::random::RandomSource;
use std::sync::Wait;
use std::time;

/// Serves an input and an output stream as one line until it ends, and returns the exit status.
pub fn serve_standard<
    R: Wait + RandomSource + time::Clock + Eprint + Alloc<A = Global>,
    I: Read + Drop,
    O: Write + Drop,
>(rt: &R, input: I, output: O, at: Option<u64>, sizes: Sizes) -> ExitCode
    requires { AreWithin sizes }
{
    let Ok((opening, seen)) = open_one(rt.alloc(), sizes) else {
        return refuse(rt, "out of memory");
    };
    let mut line = Standard::new(input, output, &seen);
    match serve_line(rt, opening, &mut line, at, sizes) {
        Ok(served) if served.broke => refuse(rt, line.fault().unwrap_or("out of memory")),
        Ok(_) => ExitCode::SUCCESS,
        Err(LineError::Memory) => refuse(rt, "out of memory"),
    }
}

/// Serves one line of the history until it ends, by the machine's clock, or by a clock that is fixed
/// at the given time.
fn serve_line<
    R: Wait + RandomSource + time::Clock + Alloc<A = Global>,
    L: Transport<Warrant = Evidence>,
>(
    rt: &R,
    opening: Opening,
    line: &mut L,
    at: Option<u64>,
    sizes: Sizes,
) -> Result<Served, LineError>
    requires sizes { AreWithin sizes }
    requires opening { IsOpening (record sizes { seats = 1 }) opening.recorders.items
        opening.clerks.items opening.witness }
    requires new { L.place line.old ≡ unbegun opening.witness.name }
    // A server of these sizes explains what was read and written, at such times.
    ensures explained { IfOk result (λ served.
        IsExplained (record sizes { seats = 1 }) (MayBe at)
        (record {
          begin = L.sight line.old;
          now = L.sight line.new;
          commands = served.commands;
          broke = served.broke;
        })) }
{
    match at {
        Some(moment) => serve_by(rt, opening, line, sizes, &FixedClock(moment)),
        None => serve_by(rt, opening, line, sizes, &MachineClock::start(rt)),
    }
}

/// Serves one line until it ends, by this clock.
fn serve_by<R: Wait + RandomSource + Alloc<A = Global>, L: Transport<Warrant = Evidence>, K: Clock>(
    rt: &R,
    opening: Opening,
    line: &mut L,
    sizes: Sizes,
    clock: &K,
) -> Result<Served, LineError>
    requires sizes { AreWithin sizes }
    requires opening { IsOpening (record sizes { seats = 1 }) opening.recorders.items
        opening.clerks.items opening.witness }
    requires new { L.place line.old ≡ unbegun opening.witness.name }
    ensures explained { IfOk result (λ served.
        IsExplained (record sizes { seats = 1 }) (K.may_answer clock.now)
        (record {
          begin = L.sight line.old;
          now = L.sight line.new;
          commands = served.commands;
          broke = served.broke;
        })) }
{
    serve_one(rt, rt.alloc(), opening, line, sizes, clock)
}
