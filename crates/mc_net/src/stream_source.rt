//! A slot's source of connections over streams.
ghost use Rattle.std.specs.Prelude.{◌≡◌, ◌^◌, ◌-◌, length, min};
ghost use Rattle.mc_net.specs.Arrivals.{CameWary, KeepsContents};
ghost use Rattle.mc_net.specs.Tcp.{new_source, sight_of, flow_source};
ghost use Rattle.mc_net.specs.Beginning.{place_of};
ghost use Rattle.mc_net.specs.Flow.{Arrives, IsUnbegun, took_back};

use crate::arrivals::{Arrivals, NewStream};
use crate::connection_source::{Accept, ConnectionSource};
use crate::lingering::{Lingering, Lingers};
use crate::stream::Stream;
use crate::tcp_connection::TcpConnection;
use mc_poll::GhostLog;
use mc_transport::Warrant;
use std::snapshot::Snapshot;
use std::time;

/// A served and closed connection, as contracts see it: its state when it was accepted, and just
/// before it was closed.
#[derive(Drop)]
pub struct ClosedConnection<S: Stream, T = ()> {
    begin: Snapshot<TcpConnection<S, T>>,
    line: Snapshot<TcpConnection<S, T>>,
    commands: u64,
    broke: bool,
}

/// Accepts the streams of one slot as connections, and closes them after they were served.
/// Contracts see the list of closed connections; no list is kept at run time.
pub struct StreamSource<R, A: Arrivals, T = ()> {
    rt: R,
    arrivals: A,
    /// A token of the history of its connections.
    history: T,
    /// Whether connections of other protocols are detected and closed, as by memcached's rules. See
    /// docs/DECISIONS.md, P12.
    sniffs_protocol: bool,
    /// The last stream, while it waits for its peer's end of input.
    lingering: Option<Lingering<A::Stream>>,
    /// The connection being served, in the state in which it was accepted.
    out: Option<Snapshot<TcpConnection<A::Stream, T>>>,
    /// Whether its output was ended, since memory to serve it was refused.
    gave_up: bool,
    /// The closed connections.
    pub gone: GhostLog<ClosedConnection<A::Stream, T>, ()>,
    /// `accept` has returned `Over`.
    is_over: bool,
    /// Number of ended connections; it saturates.
    pub ended: u64,
    /// Whether a fault prevents further accepts, though more connections may come.
    pub failed: bool,
    ghost counted: { ended ≡ min (length gone.items) (2 ^ 64 - 1) },
}

impl<R: Drop, A: Arrivals + Drop, T: Drop> Drop for StreamSource<R, A, T> {
    /// Written by hand, so that its owners drop it by a single call (docs/DECISIONS.md, F20).
    fn drop(self) {
        let StreamSource {
            rt: _rt,
            arrivals: _arrivals,
            history: _history,
            sniffs_protocol: _sniffs_protocol,
            lingering: _lingering,
            out: _out,
            gave_up: _gave_up,
            gone: _gone,
            is_over: _is_over,
            ended: _ended,
            failed: _failed,
        } = self;
    }
}

impl<R: time::Clock, A: Arrivals, T: Warrant + Drop> StreamSource<R, A, T> {
    /// A source that has accepted nothing yet, for connections of this token's history. The clock
    /// of `rt` limits how long a connection lingers.
    pub fn new(rt: R, arrivals: A, history: T, sniffs_protocol: bool) -> StreamSource<R, A, T>
        ensures history { T.name result.history ≡ T.name history }
        ensures sniff_protocol { result.sniffs_protocol ≡ sniffs_protocol }
        ensures flow { flow_source (A.coming result.arrivals) result.out result.gone.items
            result.is_over ≡
            new_source A.Stream.remaining A.Stream.contents (A.coming arrivals) }
    {
        StreamSource {
            rt,
            arrivals,
            history,
            sniffs_protocol,
            lingering: None,
            out: None,
            gave_up: false,
            gone: GhostLog::new(),
            is_over: false,
            ended: 0,
            failed: false,
        }
    }
}

/// Whether the last stream still waits for its peer's end of input.
fn lingers<R: time::Clock, A: Arrivals>(
    rt: &R,
    arrivals: &A,
    last: &mut Option<Lingering<A::Stream>>,
) -> bool {
    let Some(lingering) = last else {
        return false;
    };
    match lingering.go_on(rt) {
        Lingers::More => arrivals.call_again(true),
        Lingers::Waits => arrivals.call_again(false),
        Lingers::Over => {
            *last = None;
            return false;
        }
    }
    true
}

impl<R: time::Clock, A: Arrivals, T: Warrant + Drop> ConnectionSource for StreamSource<R, A, T> {
    type Transport = TcpConnection<A::Stream, T>;

    ghost flow = { λ source.
        flow_source (A.coming source.arrivals) source.out source.gone.items source.is_over };

    ghost history = { λ source. T.name source.history };

    fn accept(&mut self) -> Accept<TcpConnection<A::Stream, T>>
        ensures flow { Arrives (λ line. sight_of line) result
            (flow_source (A.coming self.old.arrivals) self.old.out self.old.gone.items
            self.old.is_over)
            (flow_source (A.coming self.new.arrivals) self.new.out self.new.gone.items
            self.new.is_over) }
        // By memcached's rules other protocols are detected.
        ensures sniff_protocol { CameWary self.old.sniffs_protocol result }
        ensures new { IsUnbegun (T.name self.old.history)
            (λ line. place_of T.place_at T.name line.begun) result }
        ensures history { T.name self.new.history ≡ T.name self.old.history }
    {
        if lingers(&self.rt, &self.arrivals, &mut self.lingering) {
            return Accept::NotYet;
        }
        match self.arrivals.next() {
            Accept::Came(new) => {
                let NewStream {
                    stream,
                    meter,
                    is_polled,
                } = new;
                let line = TcpConnection::begin(
                    stream,
                    meter,
                    is_polled,
                    self.sniffs_protocol,
                    &self.history,
                );
                self.out = Some(Snapshot::of(&line));
                self.gave_up = false;
                Accept::Came(line)
            }
            Accept::NotYet => Accept::NotYet,
            Accept::Over => {
                self.is_over = true;
                self.failed = self.arrivals.has_failed();
                Accept::Over
            }
        }
    }

    fn give_up(&mut self, line: &mut TcpConnection<A::Stream, T>) -> bool
        ensures flow { flow_source (A.coming self.new.arrivals) self.new.out self.new.gone.items
            self.new.is_over ≡
            flow_source (A.coming self.old.arrivals) self.old.out self.old.gone.items
            self.old.is_over }
        ensures line { sight_of line.new ≡ sight_of line.old }
        ensures place { place_of T.place_at T.name line.new.begun ≡
            place_of T.place_at T.name line.old.begun }
        ensures history { T.name self.new.history ≡ T.name self.old.history }
    {
        // Once: each end of a socket's output is an event for the poll.
        if !self.gave_up {
            self.gave_up = true;
            line.end_output();
        }
        self.arrivals.call_again(false);
        true
    }

    fn give_back(&mut self, line: TcpConnection<A::Stream, T>, commands: u64, broke: bool)
        ensures flow { flow_source (A.coming self.new.arrivals) self.new.out self.new.gone.items
            self.new.is_over ≡
            took_back (sight_of line) commands broke
            (flow_source (A.coming self.old.arrivals) self.old.out self.old.gone.items
            self.old.is_over) }
        ensures history { T.name self.new.history ≡ T.name self.old.history }
        // Nothing more is written to its stream.
        ensures kept { KeepsContents A.Stream.contents line.tap.stream self.new.lingering }
    {
        if let Some(begin) = self.out.take() {
            let gone = ClosedConnection {
                begin,
                line: Snapshot::of(&line),
                commands,
                broke,
            };
            self.gone = self.gone.and(&gone, &());
            self.ended = self.ended.saturating_add(1);
        }
        self.arrivals.close(line.meter(), commands, broke);
        self.lingering = match line.into_open(broke) {
            Some(stream) => Lingering::begin(&self.rt, stream),
            None => None,
        };
    }
}
