//! What `stats` shows besides the counts of the shards (protocol.txt, "General-purpose
//! statistics").
ghost use Rattle.std.specs.Prelude.{◌≡◌};
ghost use Rattle.mc_reply.specs.Server.{no_server};

/// A server's process, connections and traffic when a `stats` was taken. No shard has them; the
/// caller that takes the command passes them in.
#[derive(Clone, Copy)]
pub struct ServerStats {
    /// The id of the process.
    pub pid: u64,
    /// Uptime of the server in seconds.
    pub uptime: u64,
    /// The time, in seconds since 1970.
    pub time: u64,
    /// CPU time of the process in user mode, in hundredths of a second.
    pub user_time: u64,
    /// CPU time of the kernel for the process, in hundredths of a second.
    pub system_time: u64,
    /// Maximum number of connections served at a time.
    pub max_connections: u64,
    /// Number of connections served.
    pub curr_connections: u64,
    /// Number of connections accepted.
    pub total_connections: u64,
    /// Number of connections refused because all seats were taken.
    pub rejected_connections: u64,
    /// Bytes read from all connections.
    pub bytes_read: u64,
    /// Bytes written to all connections.
    pub bytes_written: u64,
}

impl ServerStats {
    /// All zero, if nothing is known.
    pub fn none() -> ServerStats
        ensures { result ≡ no_server }
    {
        ServerStats {
            pid: 0,
            uptime: 0,
            time: 0,
            user_time: 0,
            system_time: 0,
            max_connections: 0,
            curr_connections: 0,
            total_connections: 0,
            rejected_connections: 0,
            bytes_read: 0,
            bytes_written: 0,
        }
    }
}
