//! What a reading command makes of the item that it meets.
ghost use Rattle.std.specs.Prelude.{◌≡◌, ◌≤◌, [], true};
ghost use Rattle.mc_wire.specs.declared.TheConstants.{LATEST_MOMENT};
ghost use Rattle.mc_store.specs.Rows.{expiry_from, has_fewer_left, is_won};
ghost use Rattle.mc_store.specs.internal.Access.{is_sent_after};
ghost use Rattle.mc_store.specs.internal.Stored.{item_with};

use crate::fields::Fields;
use mc_item::PackedExpiry;
use mc_wire::LATEST_MOMENT;

/// Which command reads an item.
#[derive(Clone, Copy)]
pub enum FetchKind {
    /// `get`, `gets`, `gat`, `gats`.
    Classic,
    /// `mg`, with the token of its `R`.
    Meta(Option<i64>),
}

/// How an item is read.
#[derive(Clone, Copy)]
pub struct Access {
    /// The second of the access.
    pub time: u64,
    /// The exptime that it sets.
    pub touch: Option<i64>,
    pub kind: FetchKind,
}

/// What an item becomes when it is made the most recently used one in its place.
#[derive(Clone, Copy)]
pub struct Use {
    /// The second of the access.
    pub time: u64,
    pub expiry: PackedExpiry,
    pub fetched: bool,
    pub sent: bool,
}

/// The expiry that an exptime sets at the time; where none is given, the old one.
pub fn expiry_from(exptime: Option<i64>, old: PackedExpiry, time: u64) -> PackedExpiry
    requires { time ≤ LATEST_MOMENT }
    ensures { result ≡ expiry_from exptime old time }
{
    match exptime {
        Some(exptime) => PackedExpiry::from_exptime(exptime, time),
        None => old,
    }
}

/// Whether fewer seconds are left than the token of `R`; an item that never dies has none left.
fn has_fewer_left(left: Option<u64>, recache: Option<i64>) -> bool
    ensures { result ≡ has_fewer_left left recache }
{
    let (Some(left), Some(token)) = (left, recache) else {
        return false;
    };
    token > 0 && left < token as u64
}

/// `W`: no client is to recompute the item, and it is stale or soon dead.
pub fn is_won(item: &Fields, recache: Option<i64>, time: u64) -> bool
    ensures { result ≡ is_won (item_with item.now []) recache time }
{
    !item.sent && (item.stale || has_fewer_left(item.expiry.seconds_left(time), recache))
}

impl FetchKind {
    /// Whether a client is to recompute the item, once it was read.
    fn is_sent_after(self, item: &Fields, time: u64) -> bool
        ensures { result ≡ is_sent_after self (item_with item.now []) time }
    {
        match self {
            FetchKind::Classic => item.sent,
            FetchKind::Meta(recache) => item.sent || is_won(item, recache, time),
        }
    }
}

impl Access {
    /// What the item becomes.
    pub fn use_of(self, item: &Fields) -> Use
        requires { self.time ≤ LATEST_MOMENT }
        ensures { result ≡
            record {
              time = self.time;
              expiry = expiry_from self.touch item.now.expiry self.time;
              fetched = true;
              sent = is_sent_after self.kind (item_with item.now []) self.time;
            } }
    {
        Use {
            time: self.time,
            expiry: expiry_from(self.touch, item.expiry, self.time),
            fetched: true,
            sent: self.kind.is_sent_after(item, self.time),
        }
    }
}
