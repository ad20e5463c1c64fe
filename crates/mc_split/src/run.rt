//! Pieces of a command with many of them, each made once it is taken.
ghost use Rattle.std.specs.Prelude.{◌≡◌, ◌<◌, ◌∷◌, [], false, IfNone, IfSome, IsTrue, length};
ghost use Rattle.mc_split.specs.internal.Left.{fetches_left};
ghost use Rattle.mc_split.specs.internal.Queue.{asks_left, run_left};

use crate::plan::Piece;
use crate::planner::Planner;
use crate::stats::ToAll;
use mc_item::Op;
use mc_wire::Key;
use std::collections::VecDeque;
use std::marker::Model;

/// The fetches of a get, one piece a key. Of a key that has no piece yet it holds 40 bytes, and the
/// bytes of a key of more than 38.
#[derive(Drop)]
pub(crate) struct Fetches {
    planner: Planner,
    /// The keys whose pieces were not taken.
    keys: VecDeque<Key>,
    touch: Option<i64>,
    /// The number of all keys of the get.
    count: usize,
}

impl Model for Fetches {
    ghost use Rattle.std.specs.Prelude.{ℕ, ◌≤◌, List, length};
    ghost use Rattle.mc_split.specs.declared.plan.Piece.{Piece};
    ghost use Rattle.mc_split.specs.internal.Left.{fetches_left};

    ghost Value = { List (ℕ × Piece) };

    ghost view = { λ run. fetches_left run.planner run.touch run.count run.keys.items };

    ghost invariant = { λ run. length run.keys.items ≤ run.count };
}

impl Fetches {
    /// All fetches of a get.
    pub(crate) fn new(planner: Planner, keys: VecDeque<Key>, touch: Option<i64>) -> Fetches
        ensures { result ≡ fetches_left planner touch (length keys.items) keys.items }
    {
        Fetches {
            planner,
            count: keys.len(),
            keys,
            touch,
        }
    }

    /// Makes the next piece. Allocates nothing.
    #[tactic(auto, using(crate::proofs::Parts::fetch_next))]
    fn next(&mut self) -> Option<(usize, Piece)>
        ensures some { IfSome result (λ piece. self.old ≡ piece ∷ self.new) }
        ensures none { IfNone result (self.old ≡ []) }
    {
        let part = self.count - self.keys.len();
        let key = self.keys.pop_front()?;
        let shard = key.place(self.planner.shards);
        let touch = self.touch;
        let piece = self.planner.piece(part, Op::Fetch { key, touch });
        Some((shard, piece))
    }

    /// Whether no piece is left.
    fn is_over(&self) -> bool
        ensures over { IsTrue result → self.now ≡ [] }
        ensures more { result ≡ false → 0 < length self.now }
    {
        self.keys.is_empty()
    }
}

/// What each shard is asked, one piece a shard, rising.
#[derive(Drop)]
pub(crate) struct Asks {
    pub(crate) planner: Planner,
    pub(crate) asked: ToAll,
    /// The shard of the next piece.
    pub(crate) next: usize,
}

impl Asks {
    /// Makes the next piece. Allocates nothing.
    #[tactic(auto, using(crate::proofs::Parts::ask_next, crate::proofs::Parts::asks_over))]
    fn next(&mut self) -> Option<(usize, Piece)>
        ensures some { IfSome result (λ piece. asks_left self.old ≡ piece ∷ asks_left self.new) }
        ensures none { IfNone result (asks_left self.old ≡ []) }
    {
        let shard = self.next;
        if shard >= self.planner.shards {
            return None;
        }
        self.next = shard + 1;
        Some((shard, self.planner.piece(shard, self.asked.op())))
    }

    /// Whether no piece is left.
    #[tactic(auto, using(crate::proofs::Parts::asks_over, crate::proofs::Parts::asks_go_on))]
    fn is_over(&self) -> bool
        ensures over { IsTrue result → asks_left self.now ≡ [] }
        ensures more { result ≡ false → 0 < length (asks_left self.now) }
    {
        self.next >= self.planner.shards
    }
}

/// The pieces of a command with many of them.
#[derive(Drop)]
pub(crate) enum Run {
    Fetches(Fetches),
    Asks(Asks),
}

impl Run {
    /// Makes the next piece. Allocates nothing.
    pub(crate) fn next(&mut self) -> Option<(usize, Piece)>
        ensures some { IfSome result (λ piece. run_left self.old ≡ piece ∷ run_left self.new) }
        ensures none { IfNone result (run_left self.old ≡ []) }
    {
        match self {
            Run::Fetches(fetches) => fetches.next(),
            Run::Asks(asks) => asks.next(),
        }
    }

    /// Whether no piece is left.
    pub(crate) fn is_over(&self) -> bool
        ensures over { IsTrue result → run_left self.now ≡ [] }
        ensures more { result ≡ false → 0 < length (run_left self.now) }
    {
        match self {
            Run::Fetches(fetches) => fetches.is_over(),
            Run::Asks(asks) => asks.is_over(),
        }
    }
}
