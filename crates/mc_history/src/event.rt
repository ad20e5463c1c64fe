//! Events of a server's history.
use mc_command::Command;
use mc_item::Answer;
use mc_reply::ServerStats;
use mc_split::Piece;

/// An event of a history. No value of it is ever made: histories are visible to proofs alone.
pub enum Event {
    /// A connection was opened on this slot. Its number is the number of connections opened before.
    Opened {
        seat: usize,
    },
    /// The connection of this number, the last opened on this slot, parsed a command at this time,
    /// in seconds since 1970. `stats` shows this server. The command was given up if memory ran out
    /// before a shard was asked.
    Took {
        seat: usize,
        connection: usize,
        command: Command,
        moment: u64,
        server: ServerStats,
        given_up: bool,
    },
    /// A shard ran a piece for the connection of this number, with this answer.
    Ran {
        shard: usize,
        asker: usize,
        piece: Piece,
        answer: Answer,
    },
}
