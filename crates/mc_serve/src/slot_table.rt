//! The slots of one thread.
ghost use Rattle.mc_command.specs.declared.rules.Rules.{Rules};
ghost use Rattle.std.specs.Prelude.{◌≡◌, ℕ, List, IsTrue};
ghost use Rattle.std.specs.List.{AllByRecursion};
ghost use Rattle.mc_poll.specs.Zips.{Zips};
ghost use Rattle.mc_serve.specs.Seats.{SeatAt, SeatHolds};
ghost use Rattle.mc_serve.specs.declared.connection_slot.SlotState.TheVariants as slot_state;

use crate::connection_slot::{ConnectionSlot, Stepped};
use mc_history::Evidence;
use mc_net::ConnectionSource;
use mc_poll::{Poller, Readiness, SetBits};
use mc_transport::{BufferPool, Clock, Ready, Transport};

/// Number of slots of a word, each with a bit.
const WORD: usize = 64;

/// The slots that one thread serves. A turn steps only slots that were woken, or whose last step
/// did something.
#[derive(Drop)]
pub struct SlotTable<D: ConnectionSource> {
    pub(crate) all: Vec<ConnectionSlot<D>>,
    /// Number of slots that have not reported `Over` yet.
    left: usize,
}

impl<D: ConnectionSource + Drop> SlotTable<D>
where
    D::Transport: Transport<Warrant = Evidence>,
{
    /// A table of these slots. A new poller has all of them marked, so that each is stepped once.
    pub(crate) fn new(all: Vec<ConnectionSlot<D>>) -> SlotTable<D>
        ensures { result.all ≡ all }
    {
        let left = all.len();
        SlotTable { all, left }
    }

    /// Steps the slots that were woken, or whose last step did something. Returns whether there may
    /// have been one.
    pub(crate) fn step<K: Clock>(
        &mut self,
        poller: &mut Poller,
        clock: &K,
        pool: &mut BufferPool,
    ) -> bool
        requires { (shards : ℕ) × (rules : Rules) × (were : List SeatAt) ×
            Zips (λ was one.
            SeatHolds (λ line. D.Transport.place line) (λ line. D.Transport.sight line) shards
            rules (K.may_answer clock.now) was
            (D.flow one.source) one.session one.slot_state) were self.old.all.items }
        ensures { (shards : ℕ) (rules : Rules) (were : List SeatAt) →
            Zips (λ was one.
            SeatHolds (λ line. D.Transport.place line) (λ line. D.Transport.sight line) shards
            rules (K.may_answer clock.now) was
            (D.flow one.source) one.session one.slot_state) were self.old.all.items →
            Zips (λ was one.
            SeatHolds (λ line. D.Transport.place line) (λ line. D.Transport.sight line) shards
            rules (K.may_answer clock.now) was
            (D.flow one.source) one.session one.slot_state) were self.new.all.items }
    {
        let (first, end) = poller.roused_words();
        for word in first..end {
            self.step_word(word, poller, clock, pool);
        }
        first < end
    }

    /// Does so for the 64 slots of one word. Slots whose step did something are marked again.
    fn step_word<K: Clock>(
        &mut self,
        word: usize,
        poller: &mut Poller,
        clock: &K,
        pool: &mut BufferPool,
    )
        requires { (shards : ℕ) × (rules : Rules) × (were : List SeatAt) ×
            Zips (λ was one.
            SeatHolds (λ line. D.Transport.place line) (λ line. D.Transport.sight line) shards
            rules (K.may_answer clock.now) was
            (D.flow one.source) one.session one.slot_state) were self.old.all.items }
        ensures { (shards : ℕ) (rules : Rules) (were : List SeatAt) →
            Zips (λ was one.
            SeatHolds (λ line. D.Transport.place line) (λ line. D.Transport.sight line) shards
            rules (K.may_answer clock.now) was
            (D.flow one.source) one.session one.slot_state) were self.old.all.items →
            Zips (λ was one.
            SeatHolds (λ line. D.Transport.place line) (λ line. D.Transport.sight line) shards
            rules (K.may_answer clock.now) was
            (D.flow one.source) one.session one.slot_state) were self.new.all.items }
    {
        let mut again = 0u64;
        for place in SetBits::of(word, poller.roused_in(word)) {
            match self.step_at(place, poller, clock, pool) {
                Stepped::Did => again |= 1u64 << (place % WORD),
                Stepped::Waits => {}
                Stepped::Over => self.left = self.left.saturating_sub(1),
            }
        }
        poller.rouse_again(word, again);
    }

    /// Steps the slot at `place`, if there is one. If the step did something, it steps again: a
    /// step reads commands, and the next one writes the replies for which no shard is asked.
    fn step_at<K: Clock>(
        &mut self,
        place: usize,
        poller: &mut Poller,
        clock: &K,
        pool: &mut BufferPool,
    ) -> Stepped
        requires { (shards : ℕ) × (rules : Rules) × (were : List SeatAt) ×
            Zips (λ was one.
            SeatHolds (λ line. D.Transport.place line) (λ line. D.Transport.sight line) shards
            rules (K.may_answer clock.now) was
            (D.flow one.source) one.session one.slot_state) were self.old.all.items }
        ensures { (shards : ℕ) (rules : Rules) (were : List SeatAt) →
            Zips (λ was one.
            SeatHolds (λ line. D.Transport.place line) (λ line. D.Transport.sight line) shards
            rules (K.may_answer clock.now) was
            (D.flow one.source) one.session one.slot_state) were self.old.all.items →
            Zips (λ was one.
            SeatHolds (λ line. D.Transport.place line) (λ line. D.Transport.sight line) shards
            rules (K.may_answer clock.now) was
            (D.flow one.source) one.session one.slot_state) were self.new.all.items }
    {
        if place >= self.all.len() {
            return Stepped::Waits;
        }
        let ready = ready_by(poller.ready(place));
        let slot = &mut self.all[place];
        match slot.step(ready, clock, pool) {
            Stepped::Did => slot.step(None, clock, pool),
            stepped => stepped,
        }
    }

    /// Whether all channels of all slots are closed.
    pub(crate) fn are_over(&self) -> bool
        ensures { IsTrue result →
            AllByRecursion (λ one. one.slot_state ≡ slot_state.Over) self.now.all.items }
    {
        if self.left > 0 {
            return false;
        }
        for place in 0..self.all.len() {
            if !self.all[place].is_over() {
                return false;
            }
        }
        true
    }

    /// Returns the slots.
    pub(crate) fn into_all(self) -> Vec<ConnectionSlot<D>>
        ensures { result ≡ self.all }
    {
        let SlotTable { all, .. } = self;
        all
    }
}

/// The readiness of a socket as its connection takes it.
fn ready_by(readiness: Option<Readiness>) -> Option<Ready> {
    match readiness? {
        Readiness::Ready => Some(Ready::Open),
        Readiness::Closing => Some(Ready::Closing),
    }
}
