//! The replies to a connection that has the shards to itself.
ghost use Rattle.std.specs.Prelude.{◌≡◌, ◌<◌, List, false};
ghost use Rattle.mc_sizes.specs.declared.sizes.Sizes.{Sizes};
ghost use Rattle.mc_conn.specs.declared.conn.Conn.{Conn};
ghost use Rattle.mc_conn.specs.Conn.{IsConn};
ghost use Rattle.mc_conn.specs.Flow.{Flow, IsAtRest, handed_text};
ghost use Rattle.mc_model.specs.Log.{Entry};
ghost use Rattle.mc_model.specs.Alone.{alone};
ghost use Rattle.mc_model.specs.Served.{IsServedAlone};

/// Assumes that the shards ran only the pieces of one connection, in order, and that no memory was
/// refused. At rest, the connection was then sent the replies to its commands, each run completely
/// before the next. The times at which pieces were sent and answers came don't matter.
pub fn a_connection_is_served_as_alone()
    ensures { (sizes : Sizes) (conn : Conn) (flow : Flow) (log : List Entry) → 0 < sizes.shards →
        IsConn conn flow → flow.broken ≡ false → IsAtRest flow → IsServedAlone sizes flow log →
        handed_text flow ≡ alone sizes flow.taken }
{}
