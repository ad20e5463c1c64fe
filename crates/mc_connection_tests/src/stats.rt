//! The reply to `stats` over three shards, whose answers come in another order.
ghost use Rattle.std.specs.Prelude.{◌≡◌, IfOk};

use crate::asserting::{equal, holds};
use crate::sink::sink;
use crate::unexpected_reply::unexpected_reply_of;
use mc_command::{Command, StatsRequest};
use mc_item::{Answer, BoxedStats, Kind, OpStats, StatClass, Stats, Status};
use mc_join::ReorderBuffer;
use mc_reply::{PendingReply, Ticket};
use mc_ring::Reply;
use mc_split::split;
use std::alloc::Global;
use std::process::Abort;
use std::test::Fail;

const STATS: &[u8] = b"\
    STAT pid 0\r\n\
    STAT uptime 0\r\n\
    STAT time 0\r\n\
    STAT version 1.6.18\r\n\
    STAT rusage_user 0.000000\r\n\
    STAT rusage_system 0.000000\r\n\
    STAT max_connections 0\r\n\
    STAT curr_connections 0\r\n\
    STAT total_connections 0\r\n\
    STAT rejected_connections 0\r\n\
    STAT cmd_get 6\r\n\
    STAT cmd_set 3\r\n\
    STAT cmd_flush 0\r\n\
    STAT cmd_touch 0\r\n\
    STAT get_hits 3\r\n\
    STAT get_misses 3\r\n\
    STAT delete_misses 0\r\n\
    STAT delete_hits 0\r\n\
    STAT incr_misses 0\r\n\
    STAT incr_hits 0\r\n\
    STAT decr_misses 0\r\n\
    STAT decr_hits 0\r\n\
    STAT cas_misses 0\r\n\
    STAT cas_hits 3\r\n\
    STAT cas_badval 0\r\n\
    STAT touch_hits 0\r\n\
    STAT touch_misses 0\r\n\
    STAT store_too_large 0\r\n\
    STAT bytes_read 0\r\n\
    STAT bytes_written 0\r\n\
    STAT limit_maxbytes 3145728\r\n\
    STAT threads 3\r\n\
    STAT bytes 192\r\n\
    STAT curr_items 3\r\n\
    STAT total_items 3\r\n\
    STAT expired_unfetched 0\r\n\
    STAT evictions 3\r\n\
    STAT reclaimed 0\r\n\
    END\r\n";

/// The form of `stats`.
fn stats(alloc: Global) -> Result<PendingReply, Fail>
    ensures { IfOk result (λ pending_reply. pending_reply.ticket.0 ≡ 0) }
{
    let asked = Command::Stats(StatsRequest::General);
    Ok(split(alloc, asked, Ticket(0), 1000, 3)?.pending_reply)
}

/// The statistics of a shard: as many hits, misses and stores with a unique as its number.
fn counts(alloc: Global, shard: usize) -> Result<Answer, Fail> {
    let mut op_stats = OpStats::new();
    for _ in 0..shard {
        op_stats.note(StatClass::Get, Status::Hit);
        op_stats.note(StatClass::Get, Status::Miss);
        op_stats.note(StatClass::Cas, Status::Hit);
    }
    let number = shard as u64;
    let stats = Stats {
        op_stats,
        evicted: number,
        items: number,
        bytes: number.wrapping_mul(64),
        budget: 1_048_576,
    };
    Ok(Answer::Stats(BoxedStats::new(alloc, stats)?))
}

/// The reply of this shard.
fn reply(rt: &impl Abort, shard: usize, answer: Answer) -> Reply {
    holds(rt, answer.is_lawful(Kind::Stats));
    Reply::new(Ticket(0), shard, Kind::Stats, answer)
}

#[test]
fn the_shards_are_counted_together(rt: HostRuntime) -> Result<(), Fail> {
    let alloc = rt.alloc();
    let mut reorder_buffer = ReorderBuffer::new(alloc, 1)?;
    holds(&rt, reorder_buffer.open(stats(alloc)?).is_ok());
    for shard in [2, 0, 1] {
        equal(&rt, reorder_buffer.ready(), 0);
        let flow = reply(&rt, shard, counts(alloc, shard)?);
        equal(&rt, unexpected_reply_of(reorder_buffer.accept(flow)), None);
    }
    let mut out = sink(alloc, usize::MAX);
    equal(&rt, reorder_buffer.hand(&mut out), Ok(1));
    equal(&rt, out.taken.as_slice(), STATS);
    Ok(())
}
