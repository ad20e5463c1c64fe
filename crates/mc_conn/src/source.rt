//! Where it is known what `stats` shows beside the counts of the shards.
ghost use Rattle.std.specs.Prelude.{◌≡◌};

use mc_reply::ServerStats;

/// Knows a server's process, connections and traffic.
pub trait StatsSource {
    ghost use Rattle.mc_reply.specs.declared.server_stats.ServerStats.{ServerStats};

    /// What it may answer.
    ghost may_show: { Self → ServerStats → Type 0 };

    /// What they are when it is asked.
    fn server_stats(&self) -> ServerStats
        ensures { may_show self.now result };
}

/// Constant statistics of the server.
impl StatsSource for ServerStats {
    ghost may_show = { λ known shown. shown ≡ known };

    fn server_stats(&self) -> ServerStats {
        *self
    }
}
