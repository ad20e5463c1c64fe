//! Serves clients over sockets, by the options of the command line.
ghost use Rattle.mc_sizes.specs.Sizes.{AreWithin};

use crate::clock::ServerClock;
use crate::files::tell_files;
use crate::places::{Opened, Places, refuse_place};
use crate::refuse;
use crate::start::{tell_start, tell_warnings};
use crate::version::VERSION;
use mc_budget::ClientMemory;
use mc_metrics::{Ended, Requester, TelemetryConfig, TelemetryError, start_telemetry};
use mc_serve::{ServeError, serve_tcp};
use mc_sizes::Sizes;
use std::alloc::Global;
use std::fs::File;
use std::io::Eprint;
use std::net::{Net, TcpListener, TcpStream};
use std::process::ExitCode;
use std::random::RandomSource;
use std::rt::Files;
use std::sync::Wait;
use std::thread::Threads;
use std::time;

/// Listens, serves clients until the server ends, and returns the exit status.
pub fn listen<
    R: Threads
        + Wait
        + RandomSource
        + time::Clock
        + Files<File = File>
        + Net<Listener = TcpListener, Stream = TcpStream>
        + Eprint
        + Alloc<A = Global>
        + Copy
        + Send
        + Drop
        + 'static,
>(
    rt: &R,
    places: Places<'_>,
    connections: Option<u64>,
    sizes: Sizes,
    client_memory: u64,
    telemetry_config: TelemetryConfig<'_>,
) -> ExitCode
    requires { AreWithin sizes }
{
    let Opened {
        listeners,
        names,
        ports,
    } = match Opened::at(rt, places) {
        Ok(opened) => opened,
        Err(status) => return status,
    };
    let (telemetry, watching) = match start_telemetry(
        rt,
        VERSION,
        ports.leak(),
        sizes,
        telemetry_config,
    ) {
        Ok(begun) => begun,
        Err(fault) => return refuse_watching(rt, fault, sizes.shards, telemetry_config.metrics),
    };
    let (Ok(clock), Ok(memory)) = (
        ServerClock::start(*rt, rt.alloc(), &sizes, &telemetry),
        ClientMemory::new(rt.alloc(), client_memory),
    ) else {
        let _ = watching.end(rt);
        return refuse(rt, "out of memory");
    };
    tell_start(rt, &sizes, names.as_str());
    tell_files(rt, sizes.seats, sizes.shards, listeners.len());
    tell_warnings(rt, &sizes);
    let served = serve_tcp(
        rt,
        rt.alloc(),
        listeners,
        sizes,
        connections,
        clock,
        telemetry,
        memory,
    );
    let ended = watching.end(rt);
    match served {
        Ok(_) => report_end(rt, ended),
        Err(refusal) => refuse_serving(rt, refusal, sizes.shards),
    }
}

/// Reports what ended the server, if anything did, and returns the exit status.
fn report_end(rt: &impl Eprint, ended: Ended) -> ExitCode {
    let _ = match ended {
        Ended::Unasked => Ok(()),
        Ended::InOrder(requester) => {
            let name = name_of(requester);
            eprintln!(rt; "mcd: stopped by {name}, all replies written")
        }
        Ended::Cut(requester) => {
            let name = name_of(requester);
            eprintln!(rt; "mcd: stopped by {name}, connections cut off (--drain)")
        }
    };
    ExitCode::SUCCESS
}

/// What ended the server, as it is reported.
fn name_of(requester: Requester) -> &'static str {
    match requester {
        Requester::Signal => "a signal",
        Requester::Client => "a client's shutdown",
    }
}

/// Reports why telemetry could not be started, and returns the exit status.
fn refuse_watching(
    rt: &impl Eprint,
    fault: TelemetryError,
    shards: usize,
    metrics: Option<&str>,
) -> ExitCode {
    match fault {
        TelemetryError::Memory => refuse(rt, "out of memory"),
        TelemetryError::Thread => refuse_threads(rt, shards),
        TelemetryError::Metrics(error) => refuse_place(
            rt,
            "metrics",
            metrics.unwrap_or(""),
            &error,
        ),
    }
}

/// Reports why the server ended, and returns the exit status.
fn refuse_serving(rt: &impl Eprint, refusal: ServeError, shards: usize) -> ExitCode {
    match refusal {
        ServeError::Memory => refuse(rt, "out of memory"),
        ServeError::Thread => refuse_threads(rt, shards),
        ServeError::Bind => refuse(rt, "cannot listen"),
    }
}

/// Reports the number of threads in the options, if they can't be started, and returns the exit
/// status.
fn refuse_threads(rt: &impl Eprint, shards: usize) -> ExitCode {
    let status = refuse(rt, "cannot start a thread");
    let _ = eprintln!(rt;
        "mcd: --shards {shards} needs {shards} threads, and three open files each"
    );
    status
}
