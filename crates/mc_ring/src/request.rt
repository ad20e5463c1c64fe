//! What a seat sends to a shard.
use mc_split::Piece;

/// One thing that a seat sends to a shard.
#[derive(Drop)]
pub enum Request {
    /// A piece of a command.
    Piece(Piece),
    /// The seat sends nothing more.
    End,
}
