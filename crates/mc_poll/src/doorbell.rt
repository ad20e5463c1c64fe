//! A slot's doorbell: it notifies the shards to which the slot has sent something.
ghost use Rattle.std.specs.Prelude.{◌≡◌, ◌∷◌, ◌++◌, []};

use crate::ghost_log::GhostLog;
use crate::wakers::Wakers;
use std::marker::Model;

/// Notifies shards on behalf of one slot. Contracts see the shards notified since the slot last
/// sent something; no list is kept at run time. See docs/DECISIONS.md, E5.
#[derive(Drop)]
pub struct Doorbell {
    wakers: Wakers,
    seat: usize,
    called: GhostLog<usize, ()>,
}

impl Model for Doorbell {
    ghost use Rattle.std.specs.Prelude.{ℕ, List, map};

    ghost Value = { List ℕ };

    ghost view = { λ doorbell. map (λ one. one.0) doorbell.called.items };
}

impl Doorbell {
    /// A doorbell of slot `seat`, which has notified no shard yet. The wakers are those of the
    /// shards.
    pub fn new(wakers: Wakers, seat: usize) -> Doorbell
        ensures { result ≡ [] }
    {
        Doorbell {
            wakers,
            seat,
            called: GhostLog::new(),
        }
    }

    /// Records that the slot has sent something for which no shard is notified yet.
    pub fn note_sent(&mut self)
        ensures { self.new ≡ [] }
    {
        self.called = GhostLog::new();
    }

    /// Notifies the shard's thread that the slot sends nothing more to it, and wakes that thread if
    /// it sleeps or is about to.
    pub fn call_last(&self, shard: usize) {
        self.wakers.call(shard, self.seat);
    }

    /// Notifies the shard's thread that the slot has sent something, and wakes that thread if it
    /// sleeps or is about to. Call it once for everything sent together.
    pub fn call(&mut self, shard: usize)
        ensures { self.new ≡ self.old ++ shard ∷ [] }
    {
        self.wakers.call(shard, self.seat);
        self.called = self.called.and(&shard, &());
    }
}
