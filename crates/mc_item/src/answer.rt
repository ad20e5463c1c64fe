//! What a shard answers, and which answers are lawful for which kind of piece.
ghost use Rattle.std.specs.Prelude.{◌≡◌};
ghost use Rattle.mc_item.specs.Kind.{is_lawful};

use crate::stats::BoxedStats;
use crate::value::Value;

/// The kind of a piece.
#[derive(Clone, Copy, Debug, PartialEq, Eq)]
pub enum Kind {
    Store,
    Fetch,
    Count,
    Delete,
    Touch,
    Flush,
    Stats,
    ResetStats,
    MetaGet,
    MetaStore,
    MetaDelete,
    MetaCount,
}

/// What a shard answers to one piece.
#[derive(Drop)]
pub enum Answer {
    Stored,
    NotStored,
    Exists,
    NotFound,
    TooLarge,
    /// The uniques of the shard are used up.
    NoCas,
    NoMemory,
    Hit {
        flags: u32,
        unique: u64,
        value: Value,
    },
    Miss,
    /// The new number.
    Number(u64),
    NonNumeric,
    Deleted,
    Touched,
    Done,
    MetaHit(MetaHit),
    MetaDone(MetaDone),
    /// What the shard counted, and what it holds.
    Stats(BoxedStats),
    /// The counts begin at 0 again.
    Reset,
}

/// All that the flags of `mg` may show of a hit.
#[derive(Drop)]
pub struct MetaHit {
    pub value: Value,
    pub flags: u32,
    /// Whether it was fetched before this command.
    pub fetched: bool,
    pub marks: Marks,
    pub unique: u64,
    /// The seconds since its last access before this command.
    pub idle: u64,
    /// The seconds left after this command; none is never.
    pub left: Option<u64>,
}

/// The marks of a hit, shown as `W`, `X`, `Z`.
#[derive(Clone, Copy)]
pub struct Marks {
    /// `W`: this client is to recompute the item.
    pub won: bool,
    /// `X`: the item is stale.
    pub stale: bool,
    /// `Z`: another client is to recompute it.
    pub sent: bool,
}

/// What `ms` and `ma` may show of the item that they stored or changed.
#[derive(Clone, Copy)]
pub struct MetaDone {
    /// The new unique.
    pub unique: u64,
    /// The length of the value now stored.
    pub size: u64,
    /// The seconds left; none is never.
    pub left: Option<u64>,
    /// The number now stored, after `ma`; 0 after `ms`.
    pub number: u64,
}

impl Answer {
    /// Whether a piece of this kind may be answered so.
    #[tactic(auto, unfolding(crate::specs::Kind::is_lawful))]
    pub fn is_lawful(&self, kind: Kind) -> bool
        ensures { result ≡ is_lawful kind self.now }
    {
        match self {
            Answer::Stored => matches!(kind, Kind::Store),
            Answer::NotStored | Answer::TooLarge => matches!(kind, Kind::Store | Kind::MetaStore),
            Answer::Exists => matches!(
                kind,
                Kind::Store | Kind::MetaStore | Kind::MetaDelete | Kind::MetaCount
            ),
            Answer::NotFound => !matches!(
                kind,
                Kind::Fetch | Kind::Flush | Kind::MetaGet | Kind::Stats | Kind::ResetStats
            ),
            Answer::NoCas => !matches!(
                kind,
                Kind::Fetch
                    | Kind::Delete
                    | Kind::Touch
                    | Kind::Flush
                    | Kind::Stats
                    | Kind::ResetStats
            ),
            Answer::NoMemory => !matches!(
                kind,
                Kind::Delete | Kind::Flush | Kind::ResetStats | Kind::MetaDelete
            ),
            Answer::Hit { .. } => matches!(kind, Kind::Fetch),
            Answer::Miss => matches!(kind, Kind::Fetch | Kind::MetaGet),
            Answer::Number(_) => matches!(kind, Kind::Count),
            Answer::NonNumeric => matches!(kind, Kind::Count | Kind::MetaCount),
            Answer::Deleted => matches!(kind, Kind::Delete | Kind::MetaDelete),
            Answer::Touched => matches!(kind, Kind::Touch),
            Answer::Done => matches!(kind, Kind::Flush | Kind::MetaDelete),
            Answer::MetaHit(_) => matches!(kind, Kind::MetaGet),
            Answer::MetaDone(_) => matches!(kind, Kind::MetaStore | Kind::MetaCount),
            Answer::Stats(_) => matches!(kind, Kind::Stats),
            Answer::Reset => matches!(kind, Kind::ResetStats),
        }
    }
}
