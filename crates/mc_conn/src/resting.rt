//! What is kept of a connection at rest.
use crate::taken_log::TakenLog;
use mc_join::RestingReplies;
use mc_reader::RestingReader;
use mc_split::Planner;

/// The numbers of a connection that holds nothing else: no byte is unread, no command is open, no
/// piece is unsent, and it is neither closed nor broken. They take no memory.
#[derive(Drop)]
pub struct RestingConn {
    pub(crate) reader: RestingReader,
    pub(crate) replies: RestingReplies,
    pub(crate) planner: Planner,
    pub(crate) log: TakenLog,
}
