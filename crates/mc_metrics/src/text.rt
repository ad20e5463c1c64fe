//! Metrics in Prometheus' text format, version 0.0.4.
ghost use Rattle.std.specs.Prelude.{◌≡◌, ◌++◌, IfOk, OnOk, flat_map, string_bytes};
ghost use Rattle.mc_metrics.specs.Metrics.{asked_text, command_name, command_text, commands_text, cpu_text, end_text, ended_text, ends_text, metric_text, metrics_text, number_of, reason_count, reason_name, status_text, told_text, totals_of, version_text};

use crate::reading::Reading;
use mc_telemetry::{CommandTotals, EndTotals, ShardTotals};
use std::alloc::{AllocError, Global};

/// A metric with one sample: name, type, HELP text and value.
struct Metric {
    name: &'static str,
    kind: &'static str,
    help: &'static str,
    number: Number,
}

/// A value of a reading.
#[derive(Clone, Copy)]
enum Number {
    /// Always 1: the server runs.
    Up,
    Uptime,
    LimitBytes,
    Shards,
    Seats,
    Open,
    Waiting,
    Accepted,
    Broken,
    Failed,
    Rejected,
    Commands,
    Read,
    Written,
    Items,
    Bytes,
    Evicted,
    Expired,
    TooLarge,
    OutOfMemory,
    Resident,
    Started,
    OpenFiles,
    MostFiles,
}

/// A kind of command.
#[derive(Clone, Copy)]
enum CommandKind {
    Get,
    Set,
    Cas,
    Touch,
    Delete,
    Incr,
    Decr,
    Flush,
}

/// A reason why connections ended.
#[derive(Clone, Copy)]
enum EndReason {
    Binary,
    Http,
    Tls,
    LineTooLong,
    Idle,
    Failed,
    RefusedMemory,
}

/// The types of metrics: a gauge rises and falls, a counter only rises.
const GAUGE: &str = "gauge";

const COUNTER: &str = "counter";

/// All metrics with one sample, in their order of output. Metrics that memcached's exporter has too
/// have its names and its meaning.
const METRICS: [Metric; 24] = [
    Metric {
        name: "memcached_up",
        kind: GAUGE,
        help: "Always 1 while the server runs.",
        number: Number::Up,
    },
    Metric {
        name: "memcached_uptime_seconds",
        kind: GAUGE,
        help: "Seconds since the server started.",
        number: Number::Uptime,
    },
    Metric {
        name: "memcached_limit_bytes",
        kind: GAUGE,
        help: "Memory budget of all items, in bytes.",
        number: Number::LimitBytes,
    },
    Metric {
        name: "mcd_shards",
        kind: GAUGE,
        help: "Number of shards, each with a thread of its own.",
        number: Number::Shards,
    },
    Metric {
        name: "memcached_max_connections",
        kind: GAUGE,
        help: "Maximum number of connections served at a time.",
        number: Number::Seats,
    },
    Metric {
        name: "memcached_current_connections",
        kind: GAUGE,
        help: "Number of open connections.",
        number: Number::Open,
    },
    Metric {
        name: "mcd_connections_waiting",
        kind: GAUGE,
        help: "Connections in the listen backlog.",
        number: Number::Waiting,
    },
    Metric {
        name: "memcached_connections_total",
        kind: COUNTER,
        help: "Connections accepted.",
        number: Number::Accepted,
    },
    Metric {
        name: "mcd_connections_broken_total",
        kind: COUNTER,
        help: "Connections that failed or exceeded the idle timeout.",
        number: Number::Broken,
    },
    Metric {
        name: "mcd_accepts_failed_total",
        kind: COUNTER,
        help: "Failed attempts to accept a connection.",
        number: Number::Failed,
    },
    Metric {
        name: "mcd_connections_rejected_total",
        kind: COUNTER,
        help: "Connections refused because all seats were taken.",
        number: Number::Rejected,
    },
    Metric {
        name: "mcd_commands_total",
        kind: COUNTER,
        help: "Commands received.",
        number: Number::Commands,
    },
    Metric {
        name: "memcached_read_bytes_total",
        kind: COUNTER,
        help: "Bytes read from clients.",
        number: Number::Read,
    },
    Metric {
        name: "memcached_written_bytes_total",
        kind: COUNTER,
        help: "Bytes written to clients.",
        number: Number::Written,
    },
    Metric {
        name: "memcached_current_items",
        kind: GAUGE,
        help: "Number of items.",
        number: Number::Items,
    },
    Metric {
        name: "memcached_current_bytes",
        kind: GAUGE,
        help: "Cost of all items in bytes: key, value and 64 for each item.",
        number: Number::Bytes,
    },
    Metric {
        name: "memcached_items_evicted_total",
        kind: COUNTER,
        help: "Items evicted to make room.",
        number: Number::Evicted,
    },
    Metric {
        name: "mcd_items_expired_total",
        kind: COUNTER,
        help: "Expired items removed as others were stored.",
        number: Number::Expired,
    },
    Metric {
        name: "mcd_values_too_large_total",
        kind: COUNTER,
        help: "Values of set and ms above the value limit, with --drop-in.",
        number: Number::TooLarge,
    },
    Metric {
        name: "mcd_out_of_memory_total",
        kind: COUNTER,
        help: "Commands refused because the system had no memory.",
        number: Number::OutOfMemory,
    },
    Metric {
        name: "process_resident_memory_bytes",
        kind: GAUGE,
        help: "Resident memory of the process, in bytes.",
        number: Number::Resident,
    },
    Metric {
        name: "process_start_time_seconds",
        kind: GAUGE,
        help: "Start time of the process, in seconds since 1970.",
        number: Number::Started,
    },
    Metric {
        name: "process_open_fds",
        kind: GAUGE,
        help: "Number of open file descriptors of the process.",
        number: Number::OpenFiles,
    },
    Metric {
        name: "process_max_fds",
        kind: GAUGE,
        help: "Maximum number of open file descriptors of the process.",
        number: Number::MostFiles,
    },
];

/// The reasons in their order of output.
const ENDS: [EndReason; 7] = [
    EndReason::Binary,
    EndReason::Http,
    EndReason::Tls,
    EndReason::LineTooLong,
    EndReason::Idle,
    EndReason::Failed,
    EndReason::RefusedMemory,
];

/// HELP and TYPE lines of the reasons.
const BEFORE_ENDS: &str =
    "# HELP mcd_connections_ended_total Connections closed because of an error or a limit, by reason.\n# TYPE mcd_connections_ended_total counter\n";

/// The kinds of commands in their order of output.
const COMMANDS: [CommandKind; 8] = [
    CommandKind::Get,
    CommandKind::Set,
    CommandKind::Cas,
    CommandKind::Touch,
    CommandKind::Delete,
    CommandKind::Incr,
    CommandKind::Decr,
    CommandKind::Flush,
];

/// HELP and TYPE lines of the kinds of commands.
const BEFORE_COMMANDS: &str =
    "# HELP memcached_commands_total Commands executed by the shards, by command and outcome.\n# TYPE memcached_commands_total counter\n";

/// The text of all metrics.
pub fn metrics_of(alloc: Global, reading: &Reading) -> Result<String, AllocError>
    ensures { IfOk result (λ text. string_bytes text ≡ metrics_text reading.now) }
{
    let mut text = version_of(alloc, reading.facts.version)?;
    push_metrics(&mut text, &METRICS, reading)?;
    push_cpu(&mut text, reading.process.cpu)?;
    push_ends(&mut text, &reading.totals.ends)?;
    push_commands(&mut text, &reading.totals.shards)?;
    Ok(text)
}

/// The metric with the program's version.
fn version_of(alloc: Global, version: &str) -> Result<String, AllocError>
    ensures { IfOk result (λ text. string_bytes text ≡ version_text version.now) }
{
    format!(in alloc;
        "# HELP memcached_version Version of the server.\n# TYPE memcached_version gauge\nmemcached_version{{version=\"{version}\"}} 1\n"
    )
}

/// Appends these metrics.
fn push_metrics(text: &mut String, metrics: &[Metric], reading: &Reading) -> Result<(), AllocError>
    ensures { OnOk result (string_bytes text.new ≡
        string_bytes text.old ++ flat_map (told_text reading.now) metrics.now) }
{
    for metric in metrics {
        push_metric(text, metric, metric.number.of(reading))?;
    }
    Ok(())
}

/// Appends a metric with this value.
#[tactic(auto, unfolding(crate::specs::Metrics::metric_text))]
fn push_metric(text: &mut String, metric: &Metric, value: u64) -> Result<(), AllocError>
    ensures { OnOk result (string_bytes text.new ≡ string_bytes text.old
        ++ metric_text metric.now.kind.now metric.now.name.now metric.now.help.now value) }
{
    let Metric {
        name,
        kind,
        help,
        ..
    } = metric;
    write!(
        text,
        "# HELP {name} {help}\n# TYPE {name} {kind}\n{name} {value}\n"
    )
}

/// Appends the CPU time, given in hundredths of a second.
#[tactic(auto, unfolding(crate::specs::Metrics::cpu_text))]
fn push_cpu(text: &mut String, hundredths: u64) -> Result<(), AllocError>
    ensures { OnOk result (string_bytes text.new ≡ string_bytes text.old ++ cpu_text hundredths) }
{
    let seconds = hundredths / 100;
    let tenths = hundredths / 10 % 10;
    let rest = hundredths % 10;
    write!(
        text,
        "# HELP process_cpu_seconds_total CPU time used by the process, in seconds.\n# TYPE process_cpu_seconds_total counter\nprocess_cpu_seconds_total {seconds}.{tenths}{rest}\n"
    )
}

/// Appends the number of ended connections by reason.
fn push_ends(text: &mut String, ends: &EndTotals) -> Result<(), AllocError>
    ensures { OnOk result (string_bytes text.new ≡ string_bytes text.old ++ ends_text ends.now) }
{
    text.push_str(BEFORE_ENDS)?;
    push_each_end(text, &ENDS, ends)
}

/// Appends these reasons.
fn push_each_end(
    text: &mut String,
    reasons: &[EndReason],
    ends: &EndTotals,
) -> Result<(), AllocError>
    ensures { OnOk result (string_bytes text.new ≡
        string_bytes text.old ++ flat_map (ended_text ends.now) reasons.now) }
{
    for reason in reasons {
        push_end(text, reason.name(), reason.count(ends))?;
    }
    Ok(())
}

/// Appends the number of connections that ended for one reason.
#[tactic(auto, unfolding(crate::specs::Metrics::end_text))]
fn push_end(text: &mut String, name: &str, count: u64) -> Result<(), AllocError>
    ensures { OnOk result
        (string_bytes text.new ≡ string_bytes text.old ++ end_text name.now count) }
{
    write!(
        text,
        "mcd_connections_ended_total{{reason=\"{name}\"}} {count}\n"
    )
}

/// Appends the number of commands by kind and outcome.
fn push_commands(text: &mut String, shards: &ShardTotals) -> Result<(), AllocError>
    ensures { OnOk result
        (string_bytes text.new ≡ string_bytes text.old ++ commands_text shards.now) }
{
    text.push_str(BEFORE_COMMANDS)?;
    push_each_command(text, &COMMANDS, shards)
}

/// Appends these kinds of commands.
fn push_each_command(
    text: &mut String,
    commands: &[CommandKind],
    shards: &ShardTotals,
) -> Result<(), AllocError>
    ensures { OnOk result (string_bytes text.new ≡
        string_bytes text.old ++ flat_map (asked_text shards.now) commands.now) }
{
    for command in commands {
        push_command(text, command.name(), command.totals(shards))?;
    }
    Ok(())
}

/// Appends the outcomes of one kind of command.
fn push_command(text: &mut String, name: &str, totals: &CommandTotals) -> Result<(), AllocError>
    ensures { OnOk result
        (string_bytes text.new ≡ string_bytes text.old ++ command_text name.now totals.now) }
{
    push_status(text, name, "hit", totals.hits)?;
    push_status(text, name, "miss", totals.misses)?;
    push_status(text, name, "badval", totals.bad_values)
}

/// Appends the number of one outcome.
#[tactic(auto, unfolding(crate::specs::Metrics::status_text))]
fn push_status(text: &mut String, name: &str, status: &str, count: u64) -> Result<(), AllocError>
    ensures { OnOk result
        (string_bytes text.new ≡ string_bytes text.old ++ status_text name.now status.now count) }
{
    write!(
        text,
        "memcached_commands_total{{command=\"{name}\",status=\"{status}\"}} {count}\n"
    )
}

impl Number {
    fn of(self, reading: &Reading) -> u64
        ensures { result ≡ number_of self reading.now }
    {
        match self {
            Number::Up => 1,
            Number::Uptime => reading.uptime,
            Number::LimitBytes => reading.facts.limit_bytes,
            Number::Shards => reading.facts.shards,
            Number::Seats => reading.facts.seats,
            Number::Open => reading.totals.open(),
            Number::Waiting => reading.waiting,
            Number::Accepted => reading.totals.accepted,
            Number::Broken => reading.totals.broken,
            Number::Failed => reading.totals.failed,
            Number::Rejected => reading.totals.rejected,
            Number::Commands => reading.totals.commands,
            Number::Read => reading.totals.read,
            Number::Written => reading.totals.written,
            Number::Items => reading.totals.shards.items,
            Number::Bytes => reading.totals.shards.bytes,
            Number::Evicted => reading.totals.shards.evicted,
            Number::Expired => reading.totals.shards.reclaimed,
            Number::TooLarge => reading.totals.shards.too_large,
            Number::OutOfMemory => reading.totals.shards.out_of_memory,
            Number::Resident => reading.process.resident,
            Number::Started => reading.facts.started,
            Number::OpenFiles => reading.process.open_files,
            Number::MostFiles => reading.process.most_files,
        }
    }
}

impl EndReason {
    fn name(self) -> &'static str
        ensures { result.now ≡ reason_name self }
    {
        match self {
            EndReason::Binary => "binary",
            EndReason::Http => "http",
            EndReason::Tls => "tls",
            EndReason::LineTooLong => "line_too_long",
            EndReason::Idle => "idle",
            EndReason::Failed => "failed",
            EndReason::RefusedMemory => "refused_memory",
        }
    }

    fn count(self, ends: &EndTotals) -> u64
        ensures { result ≡ reason_count self ends.now }
    {
        match self {
            EndReason::Binary => ends.binary,
            EndReason::Http => ends.http,
            EndReason::Tls => ends.tls,
            EndReason::LineTooLong => ends.line_too_long,
            EndReason::Idle => ends.idle,
            EndReason::Failed => ends.failed,
            EndReason::RefusedMemory => ends.refused_memory,
        }
    }
}

impl CommandKind {
    fn name(self) -> &'static str
        ensures { result.now ≡ command_name self }
    {
        match self {
            CommandKind::Get => "get",
            CommandKind::Set => "set",
            CommandKind::Cas => "cas",
            CommandKind::Touch => "touch",
            CommandKind::Delete => "delete",
            CommandKind::Incr => "incr",
            CommandKind::Decr => "decr",
            CommandKind::Flush => "flush",
        }
    }

    fn totals(self, shards: &ShardTotals) -> &CommandTotals
        ensures { result.now ≡ totals_of self shards.now }
    {
        match self {
            CommandKind::Get => &shards.get,
            CommandKind::Set => &shards.set,
            CommandKind::Cas => &shards.cas,
            CommandKind::Touch => &shards.touch,
            CommandKind::Delete => &shards.delete,
            CommandKind::Incr => &shards.incr,
            CommandKind::Decr => &shards.decr,
            CommandKind::Flush => &shards.flush,
        }
    }
}
