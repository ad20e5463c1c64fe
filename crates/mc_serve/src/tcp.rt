//! Serves connections over TCP and Unix sockets.
ghost use Rattle.std.specs.Prelude.{◌≡◌, ◌<◌, IfOk, length};
ghost use Rattle.mc_sizes.specs.Sizes.{MayServe};
ghost use Rattle.mc_serve.specs.Connections.{ServesConnections};

use crate::error::ServeError;
use crate::idle_reaper::IdleReaper;
use crate::outcome::Outcome;
use crate::shard_telemetry::ShardTelemetry;
use crate::streams::serve_streams;
use mc_budget::ClientMemory;
use mc_net::{Acceptor, AcceptorHandle, Handoff, Listener, Socket};
use mc_poll::{Poller, SpinPolicy};
use mc_sizes::Sizes;
use mc_telemetry::Telemetry;
use mc_transport::Clock;
use std::alloc::{AllocError, Global};
use std::io::ErrorKind;
use std::net::Net;
use std::random::RandomSource;
use std::sync::Wait;
use std::thread::{JoinHandle, Threads};
use std::{io, thread, time};

/// Spin policy of threads with sockets: block at once if there is no work. Spinning would cost more
/// CPU time than waking.
const AT_ONCE: SpinPolicy = SpinPolicy {
    looks: 0,
    yields: 0,
};

/// Serves the connections that the listeners accept, each in a free slot, until `connections` have
/// ended; forever if it is `None`. Each shard has a thread, which also serves its share of the
/// slots. One more thread accepts. Connections beyond the slots wait in the backlog, or are refused
/// by memcached's rules. All connections share the memory.
///
/// Connections are counted in `telemetry`, which also has the idle timeout and the requests for
/// shutdown. A connection that exceeds the timeout is closed. After a request, none is accepted any
/// more. Each connection is closed once its input is empty and its replies are written, or when the
/// time limit ends.
///
/// Errors: `Memory`; `Thread` if a thread or its poll can't be created; `Bind` if accepting has
/// failed permanently.
pub fn serve_tcp<
    R: Threads + Wait + RandomSource + time::Clock + Net + Copy + Send + Drop + 'static,
    K: Clock + Copy + Send + Drop + 'static,
>(
    rt: &R,
    alloc: Global,
    listeners: Vec<Listener>,
    sizes: Sizes,
    connections: Option<u64>,
    clock: K,
    telemetry: Telemetry,
    memory: ClientMemory,
) -> Result<Outcome<Socket>, ServeError>
    requires { MayServe sizes }
    // One log explains what was read from all connections, what was written to them and what the
    // shards ran.
    ensures { IfOk result (ServesConnections sizes (K.may_answer clock)) }
{
    let Ok(pollers) = socket_pollers(rt, alloc, sizes.seats, sizes.shards) else {
        return Err(ServeError::Thread);
    };
    let opened = Opened::to(
        rt,
        alloc,
        listeners,
        sizes,
        connections,
        telemetry,
        &pollers,
    )?;
    let Opened {
        handoffs,
        gate,
        beside,
    } = opened;
    let served = serve_streams(rt, alloc, handoffs, pollers, sizes, gate, clock, memory);
    beside.end(rt);
    served
}

/// What is set up before the first connection: the channel from the acceptor to each slot, the gate
/// of the workers, and the threads that serve no slot.
#[derive(Drop)]
struct Opened {
    handoffs: Vec<Handoff>,
    gate: ShardTelemetry,
    beside: Beside,
}

impl Opened {
    /// Sets up accepting from these listeners. The pollers are those of the slots' threads.
    ///
    /// Errors: `Memory`, or `Thread` if a thread or a poll can't be created.
    fn to<R: Threads + Wait + time::Clock + Net + Copy + Send + Drop + 'static>(
        rt: &R,
        alloc: Global,
        listeners: Vec<Listener>,
        sizes: Sizes,
        connections: Option<u64>,
        telemetry: Telemetry,
        pollers: &[Poller],
    ) -> Result<Opened, ServeError>
        ensures { IfOk result (λ opened. length opened.handoffs.items ≡ sizes.seats) }
    {
        let mut telemetry = telemetry;
        let refuses = sizes.rules().is_drop_in();
        let acceptor = Acceptor::new(
            rt,
            alloc,
            listeners,
            connections,
            refuses,
            pollers,
            telemetry.acceptor()?,
        );
        let mut acceptor = match acceptor {
            Ok(acceptor) => acceptor,
            Err(fault) if fault.kind() == ErrorKind::OutOfMemory => {
                return Err(ServeError::Memory);
            }
            Err(_) => return Err(ServeError::Thread),
        };
        let handoffs = ways_to(alloc, &mut acceptor, sizes.seats, &mut telemetry)?;
        let gate = ShardTelemetry {
            shards: telemetry.shards(alloc)?,
        };
        let beside = Beside::start(rt, alloc, acceptor, telemetry, pollers)?;
        Ok(Opened {
            handoffs,
            gate,
            beside,
        })
    }
}

/// The threads that serve no slot: the accepting thread and the idle reaper.
#[derive(Drop)]
struct Beside {
    handle: AcceptorHandle,
    idle_reaper: IdleReaper,
    accepting: JoinHandle<()>,
}

impl Beside {
    /// Starts both threads. The pollers are those of the slots' threads.
    fn start<R: Threads + Wait + time::Clock + Copy + Send + Drop + 'static>(
        rt: &R,
        alloc: Global,
        acceptor: Acceptor,
        telemetry: Telemetry,
        pollers: &[Poller],
    ) -> Result<Beside, ServeError> {
        let handle = acceptor.handle()?;
        let idle_reaper = IdleReaper::start(rt, alloc, telemetry, acceptor.handle()?, pollers)?;
        let own = *rt;
        let Ok(accepting) = thread::spawn(rt, move || acceptor.run(&own)) else {
            idle_reaper.dismiss(rt);
            return Err(ServeError::Thread);
        };
        Ok(Beside {
            handle,
            idle_reaper,
            accepting,
        })
    }

    /// Ends and joins both threads.
    fn end<R: Threads>(self, rt: &R) {
        let Beside {
            handle,
            idle_reaper,
            accepting,
        } = self;
        handle.dismiss();
        idle_reaper.dismiss(rt);
        accepting.join(rt);
    }
}

/// Pollers of `threads` threads. Each has one shard and an equal share of the slots; the first ones
/// have one slot more if the division leaves a rest.
fn socket_pollers<R: Net>(
    rt: &R,
    alloc: Global,
    seats: usize,
    threads: usize,
) -> io::Result<Vec<Poller>>
    requires { 0 < threads }
{
    let mut pollers = Vec::with_capacity(alloc, threads)?;
    for thread in 0..threads {
        let one_more = usize::from(thread < seats % threads);
        let places = (seats / threads).saturating_add(one_more);
        pollers.push(Poller::polling(rt, alloc, AT_ONCE, seats, places, 1)?)?;
    }
    Ok(pollers)
}

/// Makes the channel from the acceptor to each slot.
fn ways_to(
    alloc: Global,
    acceptor: &mut Acceptor,
    seats: usize,
    telemetry: &mut Telemetry,
) -> Result<Vec<Handoff>, AllocError>
    ensures { IfOk result (λ handoffs. length handoffs.items ≡ seats) }
{
    let mut handoffs = Vec::with_capacity(alloc, seats)?;
    for _ in 0..seats {
        handoffs.push(acceptor.next_handoff(alloc, telemetry)?)?;
    }
    Ok(handoffs)
}
