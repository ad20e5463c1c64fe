//! Clients over TCP, in the same process.
ghost use Rattle.std.specs.Prelude.{◌≤◌};

use crate::asserting::equal;
use crate::sizes::SMALL;
use mc_budget::ClientMemory;
use mc_net::Listener;
use mc_serve::serve_tcp;
use mc_server::FixedClock;
use mc_sizes::Sizes;
use mc_telemetry::{CoarseClock, Counts, EndTotals, IdleLimit, ShardTotals, Telemetry, Totals};
use std::alloc::Global;
use std::io::{Read, Write};
use std::net::{Net, SocketAddr, TcpListener, TcpStream};
use std::random::RandomSource;
use std::sync::Wait;
use std::test::Fail;
use std::thread::Threads;
use std::{io, thread, time};

/// Sends the commands, and reads the replies until their end.
fn talk<R: Net<Listener = TcpListener, Stream = TcpStream>>(
    rt: &R,
    alloc: Global,
    server: SocketAddr,
    commands: &[u8],
) -> io::Result<Vec<u8>> {
    let stream = TcpStream::connect(rt, server)?;
    (&stream).write_all(commands)?;
    let mut replies = Vec::new(alloc);
    (&stream).read_to_end(&mut replies)?;
    Ok(replies)
}

/// Serves one client that sends these commands. Returns the replies, and how many connections
/// ended.
fn serve_client<
    R: Threads
        + Wait
        + RandomSource
        + time::Clock
        + Net<Listener = TcpListener, Stream = TcpStream>
        + Copy
        + Send
        + 'static,
>(
    rt: &R,
    alloc: Global,
    ring: usize,
    window: usize,
    commands: &'static [u8],
) -> io::Result<(Vec<u8>, Option<u64>)>
    requires ring { (1 ≤ ring) × (ring ≤ 1024) }
    requires window { 1 ≤ window }
{
    let listener = TcpListener::bind(rt, "127.0.0.1:0")?;
    let server = listener.local_addr()?;
    let mut listeners = Vec::new(alloc);
    listeners.push(Listener::of(listener)?)?;
    let own = *rt;
    let client = thread::spawn(rt, move || talk(&own, alloc, server, commands))?;
    let sizes = Sizes {
        ring,
        window,
        ..SMALL
    };
    let telemetry = Telemetry::nothing(alloc);
    let served = serve_tcp(
        rt,
        alloc,
        listeners,
        sizes,
        Some(1),
        FixedClock(1000),
        telemetry,
        ClientMemory::unlimited(),
    );
    Ok((client.join(rt)?, served.ok().map(|served| served.ended)))
}

#[test]
fn a_client_is_served(rt: HostRuntime) -> Result<(), Fail> {
    let commands = b"set a 0 0 1\r\nx\r\nget a\r\nquit\r\n";
    let (replies, ended) = serve_client(&rt, rt.alloc(), 64, 256, commands)?;
    let expected = b"STORED\r\nVALUE a 0 1\r\nx\r\nEND\r\n";
    equal(&rt, replies.as_slice(), expected.as_slice());
    equal(&rt, ended, Some(1));
    Ok(())
}

/// Serves three clients, one of them at another address, on `seats` slots. Returns whether each had
/// its replies, and how many connections ended.
fn serve_three<
    R: Threads
        + Wait
        + RandomSource
        + time::Clock
        + Net<Listener = TcpListener, Stream = TcpStream>
        + Copy
        + Send
        + 'static,
>(rt: &R, alloc: Global, seats: usize) -> io::Result<(bool, Option<u64>)>
    requires seats { (1 ≤ seats) × (seats ≤ 64) }
{
    let listener = TcpListener::bind(rt, "127.0.0.1:0")?;
    let server = listener.local_addr()?;
    let beside = TcpListener::bind(rt, "127.0.0.1:0")?;
    let other = beside.local_addr()?;
    let mut listeners = Vec::new(alloc);
    listeners.push(Listener::of(listener)?)?;
    listeners.push(Listener::of(beside)?)?;
    let own = *rt;
    let first = thread::spawn(rt, move || talk(&own, alloc, server, b"mn\r\nquit\r\n"))?;
    let second = thread::spawn(rt, move || talk(&own, alloc, server, b"get a\r\nquit\r\n"))?;
    let third = thread::spawn(rt, move || talk(&own, alloc, other, b"mg a b\r\nquit\r\n"))?;
    let sizes = Sizes {
        seats,
        ring: 1,
        window: 2,
        ..SMALL
    };
    let telemetry = Telemetry::nothing(alloc);
    let served = serve_tcp(
        rt,
        alloc,
        listeners,
        sizes,
        Some(3),
        FixedClock(1000),
        telemetry,
        ClientMemory::unlimited(),
    );
    let ended = served.ok().map(|served| served.ended);
    let no_op = first.join(rt)?.as_slice() == b"MN\r\n".as_slice();
    let miss = second.join(rt)?.as_slice() == b"END\r\n".as_slice();
    let bad = third.join(rt)?.as_slice() == b"CLIENT_ERROR bad key\r\n".as_slice();
    Ok((no_op && miss && bad, ended))
}

/// Also with more slots than shards, or fewer than clients.
#[test]
fn each_connection_is_counted(rt: HostRuntime) -> Result<(), Fail> {
    equal(&rt, serve_three(&rt, rt.alloc(), 1)?, (true, Some(3)));
    equal(&rt, serve_three(&rt, rt.alloc(), 2)?, (true, Some(3)));
    equal(&rt, serve_three(&rt, rt.alloc(), 5)?, (true, Some(3)));
    Ok(())
}

/// Serves one client that sends nothing, with an idle timeout of one second and counters. Returns
/// what the client read, and the counts.
fn serve_idle<
    R: Threads
        + Wait
        + RandomSource
        + time::Clock
        + Net<Listener = TcpListener, Stream = TcpStream>
        + Copy
        + Send
        + 'static,
>(rt: &R, alloc: Global) -> io::Result<(Vec<u8>, Totals)> {
    let listener = TcpListener::bind(rt, "127.0.0.1:0")?;
    let server = listener.local_addr()?;
    let mut listeners = Vec::new(alloc);
    listeners.push(Listener::of(listener)?)?;
    let own = *rt;
    let client = thread::spawn(
        rt,
        move || talk(&own, alloc, server, b"mn\r\nset a 0 0 9\r\nx"),
    )?;
    let counts = Counts::new(alloc, 2, 2)?;
    let mut telemetry = Telemetry::nothing(alloc);
    telemetry.counts = Some(counts.share(alloc)?);
    telemetry.idle_limit = Some(IdleLimit {
        seconds: CoarseClock::new(alloc)?,
        limit: 1,
    });
    let served = serve_tcp(
        rt,
        alloc,
        listeners,
        SMALL,
        Some(1),
        FixedClock(1000),
        telemetry,
        ClientMemory::unlimited(),
    );
    let ended = served.ok().map(|served| served.ended);
    let mut totals = counts.totals();
    // The connection that ended is the one that was counted.
    totals.ended = totals.ended.min(ended.unwrap_or(0));
    Ok((client.join(rt)?, totals))
}

/// It is closed within a block, after its earlier commands were answered.
#[test]
fn an_idle_client_is_given_up(rt: HostRuntime) -> Result<(), Fail> {
    let (replies, totals) = serve_idle(&rt, rt.alloc())?;
    equal(&rt, replies.as_slice(), b"MN\r\n".as_slice());
    let expected = Totals {
        accepted: 1,
        failed: 0,
        rejected: 0,
        ended: 1,
        broken: 1,
        commands: 1,
        read: 18,
        written: 4,
        ends: EndTotals {
            idle: 1,
            ..EndTotals::default()
        },
        // None of its commands reached a shard.
        shards: ShardTotals::default(),
    };
    equal(&rt, totals, expected);
    Ok(())
}
