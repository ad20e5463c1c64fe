//! Reading and touching: `get`, `gat`, `mg`, `touch`.
ghost use Rattle.std.specs.Prelude.{◌≡◌, ◌≤◌, true, false, []};
ghost use Rattle.mc_item.specs.Kind.{is_lawful};
ghost use Rattle.mc_item.specs.declared.op.Op.TheVariants as op;
ghost use Rattle.mc_store.specs.Rows.{hit_of, marks_of};
ghost use Rattle.mc_wire.specs.declared.TheConstants.{LATEST_MOMENT};

use crate::access::{Access, FetchKind, Use, expiry_from, is_won};
use crate::fields::Fields;
use crate::shard::Shard;
use mc_command::MetaFetch;
use mc_item::{Answer, Item, Kind, Marks, MetaHit, PackedExpiry, Value};
use mc_wire::{Key, LATEST_MOMENT};

/// The marks of a hit, by the item before the command.
fn marks_of(item: &Item, recache: Option<i64>, time: u64) -> Marks
    ensures { result ≡ marks_of item.now recache time }
{
    Marks {
        won: is_won(&Fields::of(item), recache, time),
        stale: item.stale,
        sent: item.sent,
    }
}

/// The answer to `get` and its kin, by the item before the command.
fn fetched(item: Item) -> Answer
    ensures { result ≡ Answer.Hit item.flags item.unique item.value }
{
    let (flags, unique) = (item.flags, item.unique);
    Answer::Hit {
        flags,
        unique,
        value: item.value,
    }
}

/// The answer to `mg`, by the item before the command.
fn shown(item: Item, access: Access, recache: Option<i64>) -> Answer
    requires { access.time ≤ LATEST_MOMENT }
    ensures { result ≡ Answer.MetaHit (hit_of item access.touch recache access.time) }
{
    let marks = marks_of(&item, recache, access.time);
    let expiry = expiry_from(access.touch, item.expiry, access.time);
    Answer::MetaHit(MetaHit {
        flags: item.flags,
        fetched: item.fetched,
        marks,
        unique: item.unique,
        idle: access.time.saturating_sub(item.last_access),
        left: expiry.seconds_left(access.time),
        value: item.value,
    })
}

/// An empty item that a client is to fill. It has no unique yet.
fn empty_item(expiry: PackedExpiry) -> Item
    ensures { result ≡
        record {
          value = [];
          flags = 0;
          expiry = expiry;
          unique = 0;
          last_access = 0;
          fetched = false;
          stale = false;
          sent = true;
        } }
{
    Item {
        value: Value::empty(),
        flags: 0,
        expiry,
        unique: 0,
        last_access: 0,
        fetched: false,
        stale: false,
        sent: true,
    }
}

/// What is shown of an empty item that this command made.
fn made_hit(unique: u64, left: Option<u64>) -> MetaHit
    ensures { result ≡
        record {
          value = [];
          flags = 0;
          unique = unique;
          fetched = false;
          idle = 0;
          left = left;
          marks = record { won = true; stale = false; sent = false };
        } }
{
    MetaHit {
        value: Value::empty(),
        flags: 0,
        unique,
        fetched: false,
        idle: 0,
        left,
        marks: Marks {
            won: true,
            stale: false,
            sent: false,
        },
    }
}

impl Shard {
    ghost use Rattle.mc_store.specs.Step.{absent_meta_get};
    ghost use Rattle.mc_store.specs.internal.Parts.{Acts, Does};

    /// An access now.
    fn access(&self, touch: Option<i64>, kind: FetchKind) -> Access
        ensures { result ≡ record { time = self.now.time; touch = touch; kind = kind } }
    {
        Access {
            time: self.time,
            touch,
            kind,
        }
    }

    /// `get`, `gets`; with an exptime `gat` and `gats`.
    #[tactic(auto, unfolding(mc_item::specs::Kind::is_lawful))]
    pub(super) fn fetch(&mut self, key: &Key, touch: Option<i64>) -> Answer
        ensures acts { Acts self.old (op.Fetch key.now touch) result self.new }
        ensures lawful { is_lawful Kind.Fetch result ≡ true }
    {
        let access = self.access(touch, FetchKind::Classic);
        let Ok(found) = self.items.read(key, access) else {
            return Answer::NoMemory;
        };
        match found {
            Some(item) => fetched(item),
            None => Answer::Miss,
        }
    }

    /// `touch`.
    #[tactic(auto, unfolding(mc_item::specs::Kind::is_lawful))]
    pub(super) fn touch(&mut self, key: &Key, exptime: i64) -> Answer
        ensures acts { Acts self.old (op.Touch key.now exptime) result self.new }
        ensures lawful { is_lawful Kind.Touch result ≡ true }
    {
        let Some(item) = self.find(key) else {
            self.items.remove(key);
            return Answer::NotFound;
        };
        let new = Use {
            time: self.time,
            expiry: PackedExpiry::from_exptime(exptime, self.time),
            fetched: item.fetched,
            sent: item.sent,
        };
        match self.items.promote(key, new) {
            Ok(()) => Answer::Touched,
            Err(_refused) => Answer::NoMemory,
        }
    }

    /// `mg`.
    #[tactic(auto, unfolding(mc_item::specs::Kind::is_lawful))]
    pub(super) fn meta_get(&mut self, asked: MetaFetch) -> Answer
        ensures acts { Acts self.old (op.MetaGet asked) result self.new }
        ensures lawful { is_lawful Kind.MetaGet result ≡ true }
    {
        if asked.unnoted {
            return self.meta_see(asked);
        }
        let access = self.access(asked.touch, FetchKind::Meta(asked.recache));
        let Ok(found) = self.items.read(&asked.key, access) else {
            return Answer::NoMemory;
        };
        match found {
            Some(item) => shown(item, access, asked.recache),
            None => self.meta_get_absent(asked.key, asked.vivify),
        }
    }

    /// `mg` with the flag `u`: that the item was read isn't noted.
    #[tactic(auto, unfolding(mc_item::specs::Kind::is_lawful))]
    fn meta_see(&mut self, asked: MetaFetch) -> Answer
        requires { asked.unnoted ≡ true }
        ensures acts { Acts self.old (op.MetaGet asked) result self.new }
        ensures lawful { is_lawful Kind.MetaGet result ≡ true }
    {
        let look = self.access(asked.touch, FetchKind::Meta(asked.recache));
        let Ok(found) = self.items.get_without_touch(&asked.key, look) else {
            return Answer::NoMemory;
        };
        match found {
            Some(item) => shown(item, look, asked.recache),
            None => self.meta_get_absent(asked.key, asked.vivify),
        }
    }

    /// `mg` of a key that is not there: with an exptime it makes an empty item, and this client is
    /// to fill it.
    #[tactic(auto, unfolding(mc_item::specs::Kind::is_lawful))]
    fn meta_get_absent(&mut self, key: Key, vivify: Option<i64>) -> Answer
        ensures does { Does self.old key (λ settled. absent_meta_get settled key vivify) result
            self.new }
        ensures lawful { is_lawful Kind.MetaGet result ≡ true }
    {
        let Some(exptime) = vivify else {
            self.remove_dead(&key);
            return Answer::Miss;
        };
        let item = empty_item(PackedExpiry::from_exptime(exptime, self.time));
        let left = item.expiry.seconds_left(self.time);
        match self.write(key, item, None) {
            Ok(unique) => Answer::MetaHit(made_hit(unique, left)),
            Err(refused) => refused.answer(),
        }
    }
}
