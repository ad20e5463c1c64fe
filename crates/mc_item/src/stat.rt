//! The numbers that `stats` shows (protocol.txt, "General-purpose statistics").
ghost use Rattle.std.specs.Prelude.{◌≡◌, ◌%◌, ◌^◌};
ghost use Rattle.mc_item.specs.Stat.{all_stats, row_of, total};

use crate::op_stats::{StatClass, Status};
use crate::stats::Stats;

/// One of the numbers that `stats` shows.
#[derive(Clone, Copy)]
pub enum Stat {
    CmdGet,
    CmdSet,
    CmdFlush,
    CmdTouch,
    GetHits,
    GetMisses,
    DeleteMisses,
    DeleteHits,
    IncrMisses,
    IncrHits,
    DecrMisses,
    DecrHits,
    CasMisses,
    CasHits,
    CasBadval,
    TouchHits,
    TouchMisses,
    StoreTooLarge,
    LimitMaxbytes,
    Bytes,
    CurrItems,
    TotalItems,
    ExpiredUnfetched,
    Evictions,
    Reclaimed,
}

impl Stat {
    /// All of them, in the order in which they are shown.
    pub fn all() -> &'static [Stat]
        ensures { result.now ≡ all_stats }
    {
        &[
            Stat::CmdGet,
            Stat::CmdSet,
            Stat::CmdFlush,
            Stat::CmdTouch,
            Stat::GetHits,
            Stat::GetMisses,
            Stat::DeleteMisses,
            Stat::DeleteHits,
            Stat::IncrMisses,
            Stat::IncrHits,
            Stat::DecrMisses,
            Stat::DecrHits,
            Stat::CasMisses,
            Stat::CasHits,
            Stat::CasBadval,
            Stat::TouchHits,
            Stat::TouchMisses,
            Stat::StoreTooLarge,
            Stat::LimitMaxbytes,
            Stat::Bytes,
            Stat::CurrItems,
            Stat::TotalItems,
            Stat::ExpiredUnfetched,
            Stat::Evictions,
            Stat::Reclaimed,
        ]
    }

    /// Its name.
    pub fn name(self) -> &'static [u8]
        ensures { result.now ≡ (row_of self).0 }
    {
        match self {
            Stat::CmdGet => b"cmd_get",
            Stat::CmdSet => b"cmd_set",
            Stat::CmdFlush => b"cmd_flush",
            Stat::CmdTouch => b"cmd_touch",
            Stat::GetHits => b"get_hits",
            Stat::GetMisses => b"get_misses",
            Stat::DeleteMisses => b"delete_misses",
            Stat::DeleteHits => b"delete_hits",
            Stat::IncrMisses => b"incr_misses",
            Stat::IncrHits => b"incr_hits",
            Stat::DecrMisses => b"decr_misses",
            Stat::DecrHits => b"decr_hits",
            Stat::CasMisses => b"cas_misses",
            Stat::CasHits => b"cas_hits",
            Stat::CasBadval => b"cas_badval",
            Stat::TouchHits => b"touch_hits",
            Stat::TouchMisses => b"touch_misses",
            Stat::StoreTooLarge => b"store_too_large",
            Stat::LimitMaxbytes => b"limit_maxbytes",
            Stat::Bytes => b"bytes",
            Stat::CurrItems => b"curr_items",
            Stat::TotalItems => b"total_items",
            Stat::ExpiredUnfetched => b"expired_unfetched",
            Stat::Evictions => b"evictions",
            Stat::Reclaimed => b"reclaimed",
        }
    }

    /// What it is of a shard. A sum of counts starts again at 0 after 2^64 - 1.
    pub fn of(self, stats: &Stats) -> u64
        ensures { result ≡ (row_of self).1 stats.now % 2 ^ 64 }
    {
        // What a shard holds is read so that it is known to fit 64 bits.
        let Stats {
            evicted,
            items,
            bytes,
            budget,
            ..
        } = *stats;
        match self {
            Stat::CmdGet => total(stats, StatClass::Get),
            Stat::CmdSet => total(stats, StatClass::Set).wrapping_add(total(stats, StatClass::Cas)),
            Stat::CmdFlush => total(stats, StatClass::Flush),
            Stat::CmdTouch => total(stats, StatClass::Touch),
            Stat::GetHits => stats.op_stats.count(StatClass::Get, Status::Hit),
            Stat::GetMisses => stats.op_stats.count(StatClass::Get, Status::Miss),
            Stat::DeleteMisses => not_deleted(stats),
            Stat::DeleteHits => stats.op_stats.count(StatClass::Delete, Status::Hit),
            Stat::IncrMisses => stats.op_stats.count(StatClass::Incr, Status::Miss),
            Stat::IncrHits => stats.op_stats.count(StatClass::Incr, Status::Hit),
            Stat::DecrMisses => stats.op_stats.count(StatClass::Decr, Status::Miss),
            Stat::DecrHits => stats.op_stats.count(StatClass::Decr, Status::Hit),
            Stat::CasMisses => stats.op_stats.count(StatClass::Cas, Status::Miss),
            Stat::CasHits => stats.op_stats.count(StatClass::Cas, Status::Hit),
            Stat::CasBadval => stats.op_stats.count(StatClass::Cas, Status::BadValue),
            Stat::TouchHits => stats.op_stats.count(StatClass::Touch, Status::Hit),
            Stat::TouchMisses => stats.op_stats.count(StatClass::Touch, Status::Miss),
            Stat::StoreTooLarge => total(stats, StatClass::TooLarge),
            Stat::LimitMaxbytes => budget,
            Stat::Bytes => bytes,
            Stat::CurrItems => items,
            Stat::TotalItems => stored(stats),
            Stat::ExpiredUnfetched => stats.op_stats.count(StatClass::Reclaimed, Status::Miss),
            Stat::Evictions => evicted,
            Stat::Reclaimed => total(stats, StatClass::Reclaimed),
        }
    }
}

/// How often this was asked, whatever came of it.
fn total(stats: &Stats, asked: StatClass) -> u64
    ensures { result ≡ total asked stats.now % 2 ^ 64 }
{
    let op_stats = &stats.op_stats;
    let told = op_stats
        .count(asked, Status::Hit)
        .wrapping_add(op_stats.count(asked, Status::Miss))
        .wrapping_add(op_stats.count(asked, Status::BadValue));
    told.wrapping_add(op_stats.count(asked, Status::NoMemory))
        .wrapping_add(op_stats.count(asked, Status::Refused))
}

/// How many items were stored.
fn stored(stats: &Stats) -> u64
    ensures { result ≡ (row_of Stat.TotalItems).1 stats.now % 2 ^ 64 }
{
    let set = stats.op_stats.count(StatClass::Set, Status::Hit);
    set.wrapping_add(stats.op_stats.count(StatClass::Cas, Status::Hit))
        .wrapping_add(stats.op_stats.count(StatClass::Made, Status::Hit))
}

/// How often no item was there to delete, or one with another unique.
fn not_deleted(stats: &Stats) -> u64
    ensures { result ≡ (row_of Stat.DeleteMisses).1 stats.now % 2 ^ 64 }
{
    let misses = stats.op_stats.count(StatClass::Delete, Status::Miss);
    misses.wrapping_add(stats.op_stats.count(StatClass::Delete, Status::BadValue))
}
