//! Serves one line over shards of its own, without threads. Each piece runs where it is made
//! (docs/DECISIONS.md, E7).
ghost use Rattle.std.specs.Prelude.{◌≡◌, ◌+◌, [], IfOk, OnErr, length};
ghost use Rattle.mc_record.specs.Opening.{IsOpening};
ghost use Rattle.mc_sizes.specs.Sizes.{SuitLines, SuitShards};
ghost use Rattle.mc_transport.specs.Explains.{IsExplained};
ghost use Rattle.mc_transport.specs.Place.{unbegun};
ghost use Rattle.mc_server.specs.internal.Answering.{AnswersAll, Backs, CanAnswer};

use crate::line_history::LineHistory;
use mc_conn::Conn;
use mc_history::Evidence;
use mc_record::Opening;
use mc_ring::Reply;
use mc_sizes::Sizes;
use mc_store::Shard;
use mc_transport::{BufferPool, BufferedConn, Clerk, Clock, LineStep, Served, Transport};
use std::alloc::{AllocError, Global};
use std::random::RandomSource;
use std::snapshot::Snapshot;
use std::sync::Wait;
use std::thread;
use thiserror::Error;

/// Why a line was not served. Nothing was read from it or written to it.
#[derive(Clone, Copy, Debug, Error)]
pub enum LineError {
    /// There is no memory for the shards or the connection, or the system provides no random bytes
    /// for a hash.
    #[error("out of memory for the shards or the connection, or no random bytes from the system")]
    Memory,
}

/// The shards of a server, all empty.
fn make_shards<R: RandomSource>(
    rt: &R,
    alloc: Global,
    sizes: Sizes,
) -> Result<Vec<Shard>, AllocError>
    requires { SuitShards sizes }
    ensures len { IfOk result (λ shards. length shards.items ≡ sizes.shards) }
    ensures empty { IfOk result (λ shards. Backs sizes shards.items []) }
{
    let mut shards = Vec::with_capacity(alloc, sizes.shards)?;
    for index in 0..sizes.shards {
        match Shard::empty(rt, alloc, index, sizes.shards, sizes.bytes, sizes.value) {
            Ok(shard) => shards.push(shard)?,
            Err(_) => return Err(AllocError),
        }
    }
    Ok(shards)
}

/// Runs the pending pieces in order, each on its shard, and accepts their answers. What is run is
/// recorded.
fn answer(alloc: Global, conn: &mut Conn, shards: &mut Vec<Shard>, history: &mut LineHistory)
    requires { CanAnswer conn.old shards.old.items history.old }
    ensures { AnswersAll conn.old shards.old.items history.old conn.new shards.new.items
        history.new }
{
    while let Some((place, mut piece)) = conn.next_piece() {
        let sent = Snapshot::of(&piece);
        let (ticket, part, moment) = (piece.ticket, piece.part, piece.moment);
        let kind = piece.op.kind();
        let shard = &mut shards[place];
        let answer = shard.run_in_place(alloc, &mut piece.op, moment);
        let reply = Reply::new(ticket, part, kind, answer);
        history.note_run(place, sent, &reply);
        let Ok(()) = conn.accept(reply) else {
            unreachable!()
        };
    }
}

/// Serves one line until its input ends, it quits or it fails. It uses one slot, whatever
/// `sizes.seats` is. The line is of the history that was opened, and is written by the evidence of
/// its one clerk.
pub fn serve_one<R: Wait + RandomSource, L: Transport<Warrant = Evidence>, K: Clock>(
    rt: &R,
    alloc: Global,
    opening: Opening,
    line: &mut L,
    sizes: Sizes,
    clock: &K,
) -> Result<Served, LineError>
    requires shards { SuitShards sizes }
    requires lines { SuitLines sizes }
    requires opening { IsOpening (record sizes { seats = 1 }) opening.recorders.items
        opening.clerks.items opening.witness }
    requires new { L.place line.old ≡ unbegun opening.witness.name }
    // One log explains what was read, what was written and what the shards did.
    ensures explained { IfOk result (λ served.
        IsExplained (record sizes { seats = 1 }) (K.may_answer clock.now)
        (record {
          begin = L.sight line.old;
          now = L.sight line.new;
          commands = served.commands;
          broke = served.broke;
        })) }
    ensures refused { OnErr result (L.sight line.new ≡ L.sight line.old) }
    ensures unplaced { OnErr result (L.place line.new ≡ L.place line.old) }
{
    let (Ok(mut shards), Ok(mut buffered_conn), Ok(mut pool)) = (
        make_shards(rt, alloc, sizes),
        BufferedConn::new(alloc, sizes),
        BufferPool::new(alloc),
    ) else {
        return Err(LineError::Memory);
    };
    let mut history = LineHistory::of(opening);
    history.begin(line);
    buffered_conn.take_all(clock);
    for _ in rt.forever() {
        history.note_taken(&buffered_conn.conn);
        answer(alloc, &mut buffered_conn.conn, &mut shards, &mut history);
        let seen = history.clerk.evidence();
        match buffered_conn.go_on(line, clock, &mut pool, &seen) {
            LineStep::Did => {}
            LineStep::Waits => thread::yield_now(),
            LineStep::Ended(served) => return Ok(served),
        }
    }
    unreachable!()
}
