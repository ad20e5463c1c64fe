//! The reply to `stats` (protocol.txt, "General-purpose statistics").
ghost use Rattle.std.specs.Prelude.{◌≡◌, ◌%◌, ◌^◌, decimal, length};
ghost use Rattle.std.specs.List.{flat_map, sum_by};
ghost use Rattle.mc_wire.specs.Sink.{Writes};
ghost use Rattle.mc_reply.specs.Text.{command_stats, connections_text, item_stats, process_text, server_text, stat_text, times_text, traffic_text};
ghost use Rattle.mc_reply.specs.internal.SlotTexts.{slot_stat, sums_text, stats_over};

use crate::server_stats::ServerStats;
use itoa::Buffer;
use mc_item::{Answer, Stat};
use mc_wire::{Sink, SinkError, put_parts, write_all};

/// The memcached release that is reported with `--drop-in`.
const RELEASE: &[u8] = b"1.6.18";

/// Number of the shards' statistics that count commands; they come before the traffic.
const COMMANDS: usize = 18;

/// Writes the server's statistics, and the sums over all shards, each of which has a slot.
pub fn put_stats<O: Sink>(
    out: &mut O,
    server: &ServerStats,
    slots: &[Option<Answer>],
) -> Result<(), SinkError>
    ensures { Writes (stats_over server.now slots.now) result (O.sight out.old) (O.sight out.new) }
{
    put_server(out, server)?;
    put_commands(out, slots)?;
    put_traffic(out, server, slots)?;
    put_items(out, slots)?;
    write_all(out, b"END\r\n")
}

/// Writes the statistics of the process and of the connections.
fn put_server<O: Sink>(out: &mut O, server: &ServerStats) -> Result<(), SinkError>
    ensures { Writes (server_text server.now) result (O.sight out.old) (O.sight out.new) }
{
    put_process(out, server)?;
    put_stat(out, b"version", RELEASE)?;
    put_times(out, server)?;
    put_connections(out, server)
}

/// Writes the id of the process, its uptime and the time.
fn put_process<O: Sink>(out: &mut O, server: &ServerStats) -> Result<(), SinkError>
    ensures { Writes (process_text server.now) result (O.sight out.old) (O.sight out.new) }
{
    put_numbers(
        out,
        &[
            (b"pid", server.pid),
            (b"uptime", server.uptime),
            (b"time", server.time),
        ],
    )
}

/// Writes the CPU time of the process.
fn put_times<O: Sink>(out: &mut O, server: &ServerStats) -> Result<(), SinkError>
    ensures { Writes (times_text server.now) result (O.sight out.old) (O.sight out.new) }
{
    let (user, system) = (server.user_time, server.system_time);
    let (mut seconds, mut tenth, mut hundredth) = (Buffer::new(), Buffer::new(), Buffer::new());
    let (mut whole, mut first, mut second) = (Buffer::new(), Buffer::new(), Buffer::new());
    put_parts(
        out,
        &[
            b"STAT rusage_user ",
            seconds.format(user / 100).as_bytes(),
            b".",
            tenth.format(user / 10 % 10).as_bytes(),
            hundredth.format(user % 10).as_bytes(),
            b"0000\r\nSTAT rusage_system ",
            whole.format(system / 100).as_bytes(),
            b".",
            first.format(system / 10 % 10).as_bytes(),
            second.format(system % 10).as_bytes(),
            b"0000\r\n",
        ],
    )
}

/// Writes the numbers of connections.
fn put_connections<O: Sink>(out: &mut O, server: &ServerStats) -> Result<(), SinkError>
    ensures { Writes (connections_text server.now) result (O.sight out.old) (O.sight out.new) }
{
    put_numbers(
        out,
        &[
            (b"max_connections", server.max_connections),
            (b"curr_connections", server.curr_connections),
            (b"total_connections", server.total_connections),
            (b"rejected_connections", server.rejected_connections),
        ],
    )
}

/// Writes the traffic, the limit of the items' cost, and the number of shards, each of which has a
/// thread.
fn put_traffic<O: Sink>(
    out: &mut O,
    server: &ServerStats,
    slots: &[Option<Answer>],
) -> Result<(), SinkError>
    ensures { Writes (traffic_text server.now
        (sum_by (slot_stat Stat.LimitMaxbytes) slots.now % 2 ^ 64) (length slots.now))
        result (O.sight out.old) (O.sight out.new) }
{
    let limit = sum_of(Stat::LimitMaxbytes, slots);
    put_numbers(
        out,
        &[
            (b"bytes_read", server.bytes_read),
            (b"bytes_written", server.bytes_written),
            (b"limit_maxbytes", limit),
            (b"threads", slots.len() as u64),
        ],
    )
}

/// Writes the counts of commands.
fn put_commands<O: Sink>(out: &mut O, slots: &[Option<Answer>]) -> Result<(), SinkError>
    ensures { Writes (sums_text slots.now command_stats) result (O.sight out.old)
        (O.sight out.new) }
{
    let (commands, _) = Stat::all().split_at(COMMANDS);
    put_sums(out, slots, commands)
}

/// Writes the numbers and cost of items. Their limit is written with the traffic.
fn put_items<O: Sink>(out: &mut O, slots: &[Option<Answer>]) -> Result<(), SinkError>
    ensures { Writes (sums_text slots.now item_stats) result (O.sight out.old) (O.sight out.new) }
{
    let (_, items) = Stat::all().split_at(COMMANDS + 1);
    put_sums(out, slots, items)
}

/// Writes these statistics, summed over all shards.
fn put_sums<O: Sink>(out: &mut O, slots: &[Option<Answer>], stats: &[Stat]) -> Result<(), SinkError>
    ensures { Writes (sums_text slots.now stats.now) result (O.sight out.old) (O.sight out.new) }
{
    for stat in stats {
        put_number(out, stat.name(), sum_of(*stat, slots))?;
    }
    Ok(())
}

/// A statistic summed over all shards; it wraps after 2^64 - 1.
fn sum_of(stat: Stat, slots: &[Option<Answer>]) -> u64
    ensures { result ≡ sum_by (slot_stat stat) slots.now % 2 ^ 64 }
{
    let mut sum: u64 = 0;
    for slot in slots {
        let number = number_in(stat, slot);
        sum = sum.wrapping_add(number);
    }
    sum
}

/// A statistic of one shard.
fn number_in(stat: Stat, slot: &Option<Answer>) -> u64
    ensures { result ≡ slot_stat stat slot.now % 2 ^ 64 }
{
    match slot {
        Some(Answer::Stats(stats)) => stat.of(stats.get()),
        Some(_) | None => 0,
    }
}

/// Writes lines whose values are numbers.
fn put_numbers<O: Sink>(out: &mut O, lines: &[(&[u8], u64)]) -> Result<(), SinkError>
    ensures { Writes (flat_map (λ line. stat_text line.0.now (decimal line.1)) lines.now) result
        (O.sight out.old) (O.sight out.new) }
{
    for line in lines {
        put_number(out, line.0, line.1)?;
    }
    Ok(())
}

/// Writes a `STAT` line with a number.
fn put_number<O: Sink>(out: &mut O, name: &[u8], number: u64) -> Result<(), SinkError>
    ensures { Writes (stat_text name.now (decimal number)) result (O.sight out.old)
        (O.sight out.new) }
{
    let mut digits = Buffer::new();
    put_stat(out, name, digits.format(number).as_bytes())
}

/// Writes a `STAT` line.
fn put_stat<O: Sink>(out: &mut O, name: &[u8], value: &[u8]) -> Result<(), SinkError>
    ensures { Writes (stat_text name.now value.now) result (O.sight out.old) (O.sight out.new) }
{
    put_parts(out, &[b"STAT ", name, b" ", value, b"\r\n"])
}
