//! Telemetry options, and the threads that they start.
ghost use Rattle.std.specs.Prelude.{◌≡◌, ◌*◌, ◌-◌, ◌^◌, false, IfOk, IfSome, is_some, length, min, option_map};
ghost use Rattle.mc_metrics.specs.TelemetryConfig.{AreCounted, AreFollowed, reporter_count};

use crate::address::address_of;
use crate::pages::Pages;
use crate::reading::Facts;
use crate::server::MetricsServer;
use mc_sizes::Sizes;
use mc_telemetry::{
    CoarseClock, Counts, Drain, IdleLimit, Reporter, Reports, Shutdown, Signals, StopToken,
    Telemetry, reporters,
};
use std::alloc::{AllocError, Global};
use std::fs::File;
use std::io::Eprint;
use std::net::{Net, TcpListener, TcpStream};
use std::random::RandomSource;
use std::rt::Files;
use std::sync::{Arc, Wait};
use std::thread::{JoinHandle, Threads};
use std::{io, thread, time};

/// Telemetry options.
#[derive(Clone, Copy)]
pub struct TelemetryConfig<'a> {
    /// The idle timeout in seconds, if there is one.
    pub idle_timeout: Option<u64>,
    /// Whether connections are logged to standard error.
    pub verbose: bool,
    /// Whether standard error is the system journal.
    pub is_journal: bool,
    /// The address for metrics, if they are served.
    pub metrics: Option<&'a str>,
    /// The longest time in seconds that connections have for a clean shutdown.
    pub drain: u64,
}

/// Why telemetry could not be started.
#[derive(Drop)]
pub enum TelemetryError {
    /// Memory was refused.
    Memory,
    /// A thread could not be created.
    Thread,
    /// The address of the metrics can't be used.
    Metrics(io::Error),
}

impl From<AllocError> for TelemetryError {
    ghost use Rattle.mc_metrics.specs.declared.telemetry.TelemetryError.TheVariants.{Memory};

    ghost from_gives = { λ _ fault. fault ≡ Memory };

    fn from(_error: AllocError) -> TelemetryError {
        TelemetryError::Memory
    }
}

/// A telemetry thread with its stop request.
#[derive(Drop)]
struct TelemetryThread {
    thread: JoinHandle<()>,
    stop_token: Arc<StopToken, Global>,
}

/// The running telemetry threads, and the shutdown stage if the shutdown can be requested.
#[derive(Drop)]
pub struct TelemetryThreads {
    telemetry_threads: Vec<TelemetryThread>,
    shutdown: Option<Shutdown>,
}

/// Who requested a server's shutdown.
#[derive(Clone, Copy)]
pub enum Requester {
    /// A pending signal.
    Signal,
    /// A client, by the command `shutdown`.
    Client,
}

/// How a server ended.
#[derive(Clone, Copy)]
pub enum Ended {
    /// Without a request.
    Unasked,
    /// All connections ended in time.
    InOrder(Requester),
    /// Connections were cut off.
    Cut(Requester),
}

/// Starts the telemetry of a server with this version, ports and sizes: returns the handle for the
/// serving threads, and the telemetry threads.
pub fn start_telemetry<
    R: Threads
        + Wait
        + RandomSource
        + time::Clock
        + Files<File = File>
        + Net<Listener = TcpListener, Stream = TcpStream>
        + Eprint
        + Alloc<A = Global>
        + Copy
        + Send
        + Drop
        + 'static,
>(
    rt: &R,
    version: &'static str,
    ports: &'static [u16],
    sizes: Sizes,
    telemetry_config: TelemetryConfig<'_>,
) -> Result<(Telemetry, TelemetryThreads), TelemetryError>
    ensures { IfOk result (λ begun. AreFollowed telemetry_config.entry sizes begun.0) }
{
    let mut watching = TelemetryThreads {
        telemetry_threads: Vec::new(rt.alloc()),
        shutdown: None,
    };
    match watching.begin(rt, version, ports, sizes, telemetry_config) {
        Ok(telemetry) => Ok((telemetry, watching)),
        Err(fault) => {
            let _ = watching.end(rt);
            Err(fault)
        }
    }
}

impl TelemetryThreads {
    fn begin<
        R: Threads
            + Wait
            + RandomSource
            + time::Clock
            + Files<File = File>
            + Net<Listener = TcpListener, Stream = TcpStream>
            + Eprint
            + Alloc<A = Global>
            + Copy
            + Send
            + Drop
            + 'static,
    >(
        &mut self,
        rt: &R,
        version: &'static str,
        ports: &'static [u16],
        sizes: Sizes,
        telemetry_config: TelemetryConfig<'_>,
    ) -> Result<Telemetry, TelemetryError>
        ensures { IfOk result (λ telemetry. AreFollowed telemetry_config.entry sizes telemetry) }
    {
        let facts = facts_of(version, ports, started(rt), sizes);
        let prefix = prefix_of(telemetry_config.is_journal);
        Ok(Telemetry {
            idle_limit: idle_limit_of(rt.alloc(), telemetry_config.idle_timeout)?,
            reporters: self.reporters(rt, telemetry_config.verbose, prefix, sizes.seats)?,
            counts: self.counts(rt, telemetry_config.metrics, facts, sizes)?,
            drain: self.drain(rt, telemetry_config.drain, sizes.shutdown)?,
        })
    }

    /// The shutdown stage, if the ending signals are blocked and can be polled, or if clients may
    /// request the shutdown.
    fn drain<R: Files<File = File> + Alloc<A = Global>>(
        &mut self,
        rt: &R,
        limit: u64,
        by_clients: bool,
    ) -> Result<Option<Drain>, AllocError>
        ensures { IfOk result (λ drain. IfSome drain (λ drain. drain.limit ≡ limit)) }
    {
        let signals = Signals::blocked(rt, rt.alloc());
        if signals.is_none() && !by_clients {
            return Ok(None);
        }
        let shutdown = Shutdown::new(rt.alloc())?;
        self.shutdown = Some(shutdown.share()?);
        Ok(Some(Drain {
            shutdown,
            signals,
            limit,
        }))
    }

    /// Makes a reporter for each slot and for the accepting thread, and starts the logging thread,
    /// if connections are logged.
    fn reporters<R: Threads + Wait + Eprint + Alloc<A = Global> + Copy + Send + Drop + 'static>(
        &mut self,
        rt: &R,
        verbose: bool,
        prefix: &'static str,
        seats: usize,
    ) -> Result<Vec<Reporter>, TelemetryError>
        ensures { IfOk result (λ all. length all.items ≡ reporter_count verbose seats) }
    {
        if !verbose {
            return Ok(Vec::new(rt.alloc()));
        }
        let (all, reports) = reporters(rt.alloc(), seats.saturating_add(1))?;
        self.spawn_reporter(rt, reports, prefix)?;
        Ok(all)
    }

    /// The counters of the threads of a server of these sizes, if metrics are served or memcached's
    /// rules hold, whose `stats` shows some of them. With an address, a thread serves the metrics
    /// there; without one, no shard publishes its contents.
    fn counts<
        R: Threads
            + Wait
            + RandomSource
            + time::Clock
            + Files<File = File>
            + Net<Listener = TcpListener, Stream = TcpStream>
            + Eprint
            + Alloc<A = Global>
            + Copy
            + Send
            + Drop
            + 'static,
    >(
        &mut self,
        rt: &R,
        word: Option<&str>,
        facts: Facts,
        sizes: Sizes,
    ) -> Result<Option<Counts>, TelemetryError>
        ensures { IfOk result (λ counts. AreCounted (is_some word.entry) sizes counts) }
    {
        let Some(word) = word else {
            return counts_of_stats(rt.alloc(), sizes);
        };
        let counts = Counts::new(rt.alloc(), sizes.shards, sizes.shards)?;
        let pages = Pages::new(rt, rt.alloc(), facts, &counts)?;
        self.spawn_metrics(rt, word, pages)?;
        Ok(Some(counts))
    }

    /// Starts the thread that logs events to standard error.
    fn spawn_reporter<
        R: Threads + Wait + Eprint + Alloc<A = Global> + Copy + Send + Drop + 'static,
    >(&mut self, rt: &R, reports: Reports, prefix: &'static str) -> Result<(), TelemetryError> {
        // Reserved first: a thread whose handle can't be stored would never be joined.
        self.telemetry_threads.reserve(1)?;
        let stop_token = StopToken::new(rt.alloc())?;
        let theirs = Arc::try_clone(&stop_token)?;
        let own = *rt;
        match thread::spawn(rt, move || reports.write_all(&own, prefix, &theirs)) {
            Ok(thread) => self.keep(thread, stop_token),
            Err(_) => Err(TelemetryError::Thread),
        }
    }

    /// Starts the thread that serves metrics at this address.
    fn spawn_metrics<
        R: Threads
            + Wait
            + RandomSource
            + time::Clock
            + Net<Listener = TcpListener, Stream = TcpStream>
            + Eprint
            + Alloc<A = Global>
            + Copy
            + Send
            + Drop
            + 'static,
    >(&mut self, rt: &R, word: &str, pages: Pages) -> Result<(), TelemetryError> {
        self.telemetry_threads.reserve(1)?;
        let server = match metrics_server(rt, word, pages) {
            Ok(server) => server,
            Err(error) => return Err(TelemetryError::Metrics(error)),
        };
        let stop_token = StopToken::new(rt.alloc())?;
        let theirs = Arc::try_clone(&stop_token)?;
        let own = *rt;
        match thread::spawn(rt, move || server.serve(&own, &theirs)) {
            Ok(thread) => self.keep(thread, stop_token),
            Err(_) => Err(TelemetryError::Thread),
        }
    }

    /// Stores a thread; the capacity was reserved.
    fn keep(
        &mut self,
        thread: JoinHandle<()>,
        stop_token: Arc<StopToken, Global>,
    ) -> Result<(), TelemetryError> {
        match self
            .telemetry_threads
            .push(TelemetryThread { thread, stop_token })
        {
            Ok(()) => Ok(()),
            Err(_) => Err(TelemetryError::Memory),
        }
    }

    /// Stops the threads once all events are written. Returns how the server ended.
    pub fn end<R: Threads>(self, rt: &R) -> Ended {
        let TelemetryThreads {
            telemetry_threads,
            shutdown,
        } = self;
        for telemetry_thread in telemetry_threads {
            telemetry_thread.stop_token.dismiss();
            telemetry_thread.thread.join(rt);
        }
        match shutdown {
            Some(shutdown) if shutdown.is_cut() => Ended::Cut(requester_of(&shutdown)),
            Some(shutdown) if shutdown.is_draining() => Ended::InOrder(requester_of(&shutdown)),
            _ => Ended::Unasked,
        }
    }
}

/// Who requested the shutdown; a client, if both did.
fn requester_of(shutdown: &Shutdown) -> Requester {
    if shutdown.is_requested() {
        Requester::Client
    } else {
        Requester::Signal
    }
}

/// The prefix of each log line: the program's name, or under the journal, which adds the name
/// itself, the level `info` (sd-daemon(3)).
fn prefix_of(is_journal: bool) -> &'static str {
    if is_journal { "<6>" } else { "mcd: " }
}

/// The idle timeout with a new clock, if there is a timeout.
fn idle_limit_of(alloc: Global, limit: Option<u64>) -> Result<Option<IdleLimit>, AllocError>
    ensures { IfOk result
        (λ idle_limit. option_map (λ one. one.limit) idle_limit ≡ limit) }
{
    let Some(limit) = limit else {
        return Ok(None);
    };
    let seconds = CoarseClock::new(alloc)?;
    Ok(Some(IdleLimit { seconds, limit }))
}

/// The counters without metrics: by memcached's rules those that `stats` shows, else none.
fn counts_of_stats(alloc: Global, sizes: Sizes) -> Result<Option<Counts>, TelemetryError>
    ensures { IfOk result (λ counts. AreCounted false sizes counts) }
{
    if !sizes.rules().is_drop_in() {
        return Ok(None);
    }
    Ok(Some(Counts::new(alloc, sizes.shards, 0)?))
}

/// The configuration of the server for metrics and page.
fn facts_of(version: &'static str, ports: &'static [u16], started: u64, sizes: Sizes) -> Facts
    ensures version { result.version.now ≡ version.now }
    ensures ports { result.ports.now ≡ ports.now }
    ensures started { result.started ≡ started }
    ensures shards { result.shards ≡ sizes.shards }
    ensures seats { result.seats ≡ sizes.seats }
    ensures limit { result.limit_bytes ≡ min (sizes.shards * sizes.bytes) (2 ^ 64 - 1) }
{
    let shards = sizes.shards as u64;
    Facts {
        version,
        ports,
        shards,
        seats: sizes.seats as u64,
        limit_bytes: shards.saturating_mul(sizes.bytes as u64),
        started,
    }
}

/// The current time in seconds since 1970; 0 if the clock can't be read.
fn started<R: time::Clock>(rt: &R) -> u64 {
    match rt.since_1970() {
        Ok(now) => now.as_secs(),
        Err(_) => 0,
    }
}

/// Listens at this address, logs it to standard error, and makes the metrics server.
fn metrics_server<R: Net<Listener = TcpListener, Stream = TcpStream> + Eprint + Alloc<A = Global>>(
    rt: &R,
    word: &str,
    pages: Pages,
) -> io::Result<MetricsServer> {
    let address = address_of(rt.alloc(), word)?;
    let listener = TcpListener::bind(rt, address.as_str())?;
    let local = listener.local_addr()?;
    let server = MetricsServer::new(rt, rt.alloc(), listener, pages)?;
    let _ = eprintln!(rt; "metrics {local}");
    Ok(server)
}
