//! Serves streams, each as a connection.
ghost use Rattle.std.specs.Prelude.{◌≡◌, ◌^◌, ◌-◌, IfOk, length, map, min};
ghost use Rattle.std.specs.List.{AllByRecursion};
ghost use Rattle.mc_command.specs.Rules.{is_drop_in};
ghost use Rattle.mc_sizes.specs.Sizes.{MayServe, rules_of};
ghost use Rattle.mc_poll.specs.Zips.{Zips};
ghost use Rattle.mc_net.specs.Tcp.{gone_count, new_source, flow_source};
ghost use Rattle.mc_serve.specs.Connections.{AreServed, ServesConnections, seats_of};

use crate::error::ServeError;
use crate::outcome::Outcome;
use crate::serving::serve;
use mc_budget::ClientMemory;
use mc_history::Evidence;
use mc_net::{Arrivals, StreamSource};
use mc_poll::{GhostLog, Poller};
use mc_record::Opening;
use mc_sizes::Sizes;
use mc_transport::Clock;
use mc_worker::Gate;
use std::alloc::{AllocError, Global};
use std::random::RandomSource;
use std::sync::Wait;
use std::thread::Threads;
use std::time;

/// Serves the streams that arrive until no more come, and reports all connections. It opens one
/// history for all of them. Each of the arrivals has a slot; `sizes.seats` is ignored. Each poller
/// has a thread, as in `serve`. All connections share the memory.
///
/// Errors: `Memory` and `Thread` as in `serve`; `Bind` if a slot could accept no more connections,
/// though more may come.
pub fn serve_streams<
    R: Threads + Wait + RandomSource + time::Clock + Copy + Send + Drop + 'static,
    A: Arrivals + Send + Drop + 'static,
    G: Gate + Send + Sync + Drop + 'static,
    K: Clock + Copy + Send + Drop + 'static,
>(
    rt: &R,
    alloc: Global,
    arrivals: Vec<A>,
    pollers: Vec<Poller>,
    sizes: Sizes,
    gate: G,
    clock: K,
    memory: ClientMemory,
) -> Result<Outcome<A::Stream>, ServeError>
where
    A::Stream: Send + 'static,
    requires { MayServe (record sizes { seats = length arrivals.items }) }
    // One log, of the history that the evidence shows, explains what was read from all connections,
    // what was written to them and what the shards ran.
    ensures explained { IfOk result
        (ServesConnections (record sizes { seats = length arrivals.items }) (K.may_answer clock)) }
    // If the streams to come are known, each of them was served as one connection, in order, and no
    // other was.
    ensures streams { IfOk result (λ served.
        Zips AreServed (map (λ one. A.coming one) arrivals.items) (seats_of served)) }
{
    let seats = arrivals.len();
    let mut opening = Opening::new(alloc, Sizes { seats, ..sizes })?;
    let sources = sources_for(rt, alloc, &mut opening, arrivals, sizes)?;
    let (back, evidence) = serve(
        rt, alloc, opening, sources, pollers, sizes, gate, clock, memory,
    )?;
    gather(back, evidence)
}

/// Creates a source for each of the arrivals, for connections of the opened history. By memcached's
/// rules, connections of other protocols are detected.
fn sources_for<R: time::Clock + Copy + Drop, A: Arrivals + Drop>(
    rt: &R,
    alloc: Global,
    opening: &mut Opening,
    arrivals: Vec<A>,
    sizes: Sizes,
) -> Result<Vec<StreamSource<R, A, Evidence>>, AllocError>
    ensures flow { IfOk result (λ sources.
        map (λ source. flow_source (A.coming source.arrivals) source.out source.gone.items
        source.is_over)
        sources.items ≡
        map (λ one. new_source A.Stream.remaining A.Stream.contents (A.coming one))
        arrivals.items) }
    ensures sniff_protocol { IfOk result (λ sources.
        AllByRecursion (λ source. source.sniffs_protocol ≡ is_drop_in (rules_of sizes))
        sources.items) }
    ensures history { IfOk result (λ sources.
        AllByRecursion (λ source. source.history.name ≡ opening.old.witness.name) sources.items) }
    ensures same { opening.new ≡ opening.old }
{
    let sniffs_protocol = sizes.rules().is_drop_in();
    let mut sources = Vec::with_capacity(alloc, arrivals.len())?;
    for one in arrivals {
        let history = opening.show();
        sources.push(StreamSource::new(*rt, one, history, sniffs_protocol))?;
    }
    Ok(sources)
}

/// Reports the connections of all sources. Fails with `Bind` if one could accept no more.
fn gather<R: time::Clock + Drop, A: Arrivals + Drop>(
    sources: Vec<StreamSource<R, A, Evidence>>,
    evidence: Evidence,
) -> Result<Outcome<A::Stream>, ServeError>
    ensures evidence { IfOk result (λ served. served.evidence ≡ evidence) }
    ensures gone { IfOk result (λ served. (served.ended ≡
        min
        (gone_count
        (map
        (λ source. flow_source (A.coming source.arrivals) source.out source.gone.items
        source.is_over)
        sources.items)) (2 ^ 64 - 1)) ×
        (seats_of served ≡ map (λ source. source.gone.items) sources.items)) }
{
    let mut ended = 0u64;
    let mut seats = GhostLog::new();
    for source in sources {
        if source.failed {
            return Err(ServeError::Bind);
        }
        ended = ended.saturating_add(source.ended);
        seats = seats.and(&source.gone, &());
    }
    Ok(Outcome {
        ended,
        seats,
        evidence,
    })
}
