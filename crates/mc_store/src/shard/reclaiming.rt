//! Removal of dead items: an item with an expiry waits for its turn to be looked at.
ghost use Rattle.std.specs.Prelude.{◌≡◌, ◌<◌, ◌≤◌, ◌&&◌, ◌==◌, [], not, ℕ, List, Option, IfOk};
ghost use Rattle.std.specs.Option.{IsSome};
ghost use Rattle.std.specs.VecDeque.{deque_len, deque_capacity};
ghost use Rattle.mc_item.specs.declared.item.Item.{Item as TheItem};
ghost use Rattle.mc_item.specs.Expiry.{is_dead};
ghost use Rattle.mc_store.specs.internal.Found.{turn_of};

use crate::fields::Fields;
use crate::flushed::{Flushed, Turns};
use crate::items::is_other;
use crate::shard::Shard;
use mc_item::{Expiry, PackedExpiry};
use mc_wire::Key;
use std::alloc::AllocError;
use std::collections::VecDeque;

/// How many flushed turns a store frees. It is more than of items, so that no store frees both the
/// queue of the turns and the table of the items, where there were as many.
const FREED_TURNS: usize = 16;

/// Makes room for a turn of the item that is to enter under the key, and copies the key for it. An
/// item without an expiry gets none, and neither does one whose unique is a client's token.
pub(super) fn make_turn(
    turns: &mut Turns,
    token: Option<u64>,
    key: &Key,
    expiry: PackedExpiry,
) -> Result<Option<Key>, AllocError>
    ensures turns { turns.new.items ≡ turns.old.items }
    ensures turn { IfOk result (λ turn. turn ≡ turn_of token key.now expiry) }
    ensures room { IfOk result (λ turn. IsSome turn →
        deque_len turns.new < deque_capacity turns.new) }
{
    if token.is_some() {
        return Ok(None);
    }
    if let Expiry::Never = expiry.expiry() {
        return Ok(None);
    }
    let copy = key.clone()?;
    turns.reserve(1)?;
    Ok(Some(copy))
}

/// Removes all turns. The stores that follow free them. If memory is refused for that, they are freed
/// at once.
pub(super) fn clear_turns(turns: &mut Turns, flushed: &mut Flushed<Turns>)
    ensures { turns.new.items ≡ [] }
{
    if turns.is_empty() {
        return;
    }
    let empty = VecDeque::new(*turns.allocator());
    if flushed.take(turns, empty).is_err() {
        turns.clear();
    }
}

/// Whether the item is removed: it is dead, and it isn't the one that enters, which has the unique
/// `entering`.
fn is_reclaimed(item: &Fields, entering: u64, time: u64) -> bool
    ensures { result ≡ (is_dead item.now.expiry time && not (item.now.unique == entering)) }
{
    item.is_dead(time) && item.unique != entering
}

impl Shard {
    ghost use Rattle.mc_store.specs.State.{State, looked, with_turn};
    ghost use Rattle.mc_store.specs.Shard.{IsShard};

    /// Looks at the next two turns, for the item of this unique, which entered. Then it gets the
    /// turn that was made for it. First some flushed turns are freed.
    pub(super) fn take_turns(&mut self, turn: Option<Key>, unique: u64)
        requires { IsSome turn → deque_len self.old.turns < deque_capacity self.old.turns }
        ensures { (state : State) (token : Option ℕ) (key : List ℕ) (item : TheItem) →
            IsShard self.old state → turn ≡ turn_of token key item.expiry → item.unique ≡ unique →
            IsShard self.new (with_turn (looked unique (looked unique state)) token key item) }
    {
        self.flushed_turns.free_some(FREED_TURNS);
        self.look_twice(unique);
        if let Some(own) = turn {
            self.turns.push_back_reserved((own, unique));
        }
    }

    /// Looks at the next two turns, for the item of this unique, which entered.
    // Where no item has an expiry no turn waits, and a look costs more than this test.
    #[inline(always)]
    fn look_twice(&mut self, entering: u64)
        ensures looked { (state : State) → IsShard self.old state →
            IsShard self.new (looked entering (looked entering state)) }
        ensures len { deque_len self.new.turns ≤ deque_len self.old.turns }
        ensures capacity { deque_capacity self.new.turns ≡ deque_capacity self.old.turns }
    {
        if self.turns.is_empty() {
            return;
        }
        self.look(entering);
        self.look(entering);
    }

    /// Looks at the next turn, for the item of this unique, which entered. If the turn's item is
    /// dead, both are removed, and it is counted. If it lives, its turn comes again after all others.
    /// If it was stored again or is gone, the turn is dropped.
    fn look(&mut self, entering: u64)
        ensures looked { (state : State) → IsShard self.old state →
            IsShard self.new (looked entering state) }
        ensures len { deque_len self.new.turns ≤ deque_len self.old.turns }
        ensures capacity { deque_capacity self.new.turns ≡ deque_capacity self.old.turns }
    {
        let Some((key, unique)) = self.turns.pop_front() else {
            return;
        };
        let Some(item) = self.items.peek(&key) else {
            return;
        };
        if is_other(Some(unique), item.unique) {
            return;
        }
        if is_reclaimed(&item, entering, self.time) {
            self.op_stats.count_reclaimed(item.fetched);
            self.items.remove(&key);
            return;
        }
        self.turns.push_back_reserved((key, unique));
    }
}
