//! How often a shard ran each kind of operation, and with what outcome: the counts of commands that
//! an operator sees.
ghost use Rattle.std.specs.Prelude.{◌≡◌, ◌<◌};
ghost use Rattle.mc_item.specs.OpStats.{always, counted, counted_in, counter, counting_of, joins_values, kind_met, kind_of_direction, kind_of_fetch, kind_of_store, no_counts, noted, reclaimed_in, status_of};

use crate::answer::Answer;
use crate::op::Op;
use mc_command::{Direction, StoreMode};

/// What a shard is asked, as it is counted: under memcached's names (protocol.txt, "General-purpose
/// statistics").
#[derive(Clone, Copy)]
pub enum StatClass {
    /// `get`, `gets`, `mg` without `T`, and `mg` that misses.
    Get,
    /// `set`, `add`, `replace`, `append`, `prepend`, `ms`.
    Set,
    /// `cas`, and `ms` with `C` that joins no values.
    Cas,
    /// `touch`, `gat`, `gats`, and `mg` with `T` that hits.
    Touch,
    /// `delete`, and `md` that marks no item stale.
    Delete,
    /// `incr`, and `ma` that adds.
    Incr,
    /// `decr`, and `ma` that subtracts.
    Decr,
    /// `flush_all`, on the first shard.
    Flush,
    /// An item that `mg` or `ma` makes of a miss.
    Made,
    /// `set` and `ms` of a value that is too large, by memcached's rules.
    TooLarge,
    /// A dead item whose room a store takes back: a hit if it was fetched since it was stored, else
    /// a miss.
    Reclaimed,
    /// What memcached has no name for: `stats`, `md` that marks an item stale, and the like.
    Other,
}

/// What a piece counts as, by what comes of it.
#[derive(Clone, Copy)]
pub struct Counting {
    /// Where it finds its item.
    pub found: StatClass,
    /// Where it finds none, or one with another unique.
    pub missed: StatClass,
    /// Whether it makes an item of a miss.
    pub made: bool,
}

/// What came of it.
#[derive(Clone, Copy)]
pub enum Status {
    /// The item was there, or was stored.
    Hit,
    /// No item was there, or it was not stored for that.
    Miss,
    /// The item has another unique.
    BadValue,
    /// No memory was left.
    NoMemory,
    /// It was refused for another reason: the value is too large, or no number.
    Refused,
}

/// The number of kinds that are counted; each by its statuses.
const KINDS: usize = 12;

const STATUSES: usize = 5;

/// How often a shard ran each kind of command, and with which outcome, since its counts began. A
/// count starts again at 0 after 2^64 - 1.
#[derive(Clone, Copy)]
pub struct OpStats {
    counts: [u64; KINDS * STATUSES],
}

/// What a direction counts as.
fn kind_of_direction(direction: Direction) -> StatClass
    ensures { result ≡ kind_of_direction direction }
{
    match direction {
        Direction::Increment => StatClass::Incr,
        Direction::Decrement => StatClass::Decr,
    }
}

/// Whether a mode joins values.
fn joins_values(mode: StoreMode) -> bool
    ensures { result ≡ joins_values mode }
{
    matches!(mode, StoreMode::Append | StoreMode::Prepend)
}

/// What a storage command counts as.
fn kind_of_store(compare: Option<u64>, joins: bool) -> StatClass
    ensures { result ≡ kind_of_store compare joins }
{
    if compare.is_some() && !joins {
        StatClass::Cas
    } else {
        StatClass::Set
    }
}

/// What reading an item counts as.
fn kind_of_fetch(touches: bool) -> StatClass
    ensures { result ≡ kind_of_fetch touches }
{
    if touches {
        StatClass::Touch
    } else {
        StatClass::Get
    }
}

impl Counting {
    /// What counts as one kind, whatever comes of it.
    fn always(kind: StatClass) -> Counting
        ensures { result ≡ always kind }
    {
        Counting {
            found: kind,
            missed: kind,
            made: false,
        }
    }

    /// What the piece counts as, on the first shard or another, where it makes an item of a miss or
    /// doesn't.
    #[tactic(auto, unfolding(crate::specs::OpStats::counting_of))]
    pub fn of(op: &Op, first: bool, makes: bool) -> Counting
        ensures { result ≡ counting_of first makes op.now }
    {
        match op {
            Op::Store(asked) => Counting::always(kind_of_store(asked.compare, false)),
            Op::Fetch { touch, .. } => Counting::always(kind_of_fetch(touch.is_some())),
            Op::Count { direction, .. } => Counting::always(kind_of_direction(*direction)),
            Op::Delete { .. } => Counting::always(StatClass::Delete),
            Op::Touch { .. } => Counting::always(StatClass::Touch),
            Op::Flush { .. } if first => Counting::always(StatClass::Flush),
            Op::Discard { .. } => Counting::always(StatClass::TooLarge),
            Op::Flush { .. } | Op::Stats | Op::ResetStats => Counting::always(StatClass::Other),
            Op::MetaGet(asked) => Counting {
                found: kind_of_fetch(asked.touch.is_some()),
                missed: StatClass::Get,
                made: makes,
            },
            Op::MetaStore(asked) => {
                Counting::always(kind_of_store(asked.compare, joins_values(asked.mode)))
            }
            Op::MetaDelete(asked) => Counting {
                found: if asked.invalidate {
                    StatClass::Other
                } else {
                    StatClass::Delete
                },
                missed: StatClass::Delete,
                made: false,
            },
            Op::MetaCount(asked) => {
                let missed = kind_of_direction(asked.direction);
                Counting {
                    found: if makes { StatClass::Other } else { missed },
                    missed,
                    made: makes,
                }
            }
        }
    }

    /// The kind that is counted, by what came of it.
    fn kind_met(self, came: Status) -> StatClass
        ensures { result ≡ kind_met self came }
    {
        match came {
            Status::Miss | Status::BadValue => self.missed,
            Status::Hit | Status::NoMemory | Status::Refused => self.found,
        }
    }
}

impl Status {
    /// What the answer says.
    #[tactic(auto, unfolding(crate::specs::OpStats::status_of))]
    pub fn of(answer: &Answer) -> Status
        ensures { result ≡ status_of answer.now }
    {
        match answer {
            Answer::Stored
            | Answer::Hit { .. }
            | Answer::Number(_)
            | Answer::Deleted
            | Answer::Touched
            | Answer::Done
            | Answer::MetaHit(_)
            | Answer::MetaDone(_)
            | Answer::Stats(_)
            | Answer::Reset => Status::Hit,
            Answer::NotStored | Answer::NotFound | Answer::Miss => Status::Miss,
            Answer::Exists => Status::BadValue,
            Answer::NoMemory => Status::NoMemory,
            Answer::TooLarge | Answer::NoCas | Answer::NonNumeric => Status::Refused,
        }
    }
}

impl OpStats {
    /// Nothing was asked.
    pub const fn new() -> OpStats
        ensures { result ≡ no_counts }
    {
        OpStats {
            counts: [0; KINDS * STATUSES],
        }
    }

    /// How often this was asked and came to that.
    pub fn count(&self, asked: StatClass, status: Status) -> u64
        ensures { result ≡ counted self.now asked status }
    {
        self.counts[place_of(asked, status)]
    }

    /// Counts what was asked and what came of it, and an item that was made of a miss.
    pub fn count_in(&mut self, counting: Counting, came: Status)
        ensures { self.new ≡ counted_in self.old counting came }
    {
        self.note(counting.kind_met(came), came);
        if counting.made {
            self.note(StatClass::Made, came);
        }
    }

    /// Counts a dead item that is removed, by whether it was fetched since it was stored.
    pub fn count_reclaimed(&mut self, fetched: bool)
        ensures { self.new ≡ reclaimed_in self.old fetched }
    {
        let status = if fetched { Status::Hit } else { Status::Miss };
        self.note(StatClass::Reclaimed, status);
    }

    /// Counts what was asked, and what came of it.
    pub fn note(&mut self, asked: StatClass, status: Status)
        ensures { self.new ≡ noted self.old asked status }
    {
        let count = &mut self.counts[place_of(asked, status)];
        *count = count.wrapping_add(1);
    }
}

/// Where a kind and a status are counted.
fn place_of(asked: StatClass, status: Status) -> usize
    ensures place { result ≡ counter asked status }
    ensures within { result < 60 }
{
    asked as usize * STATUSES + status as usize
}
