//! The invariant over all tokens of a history, and what each step of a token does to its knowledge.
use crate::event::Event;
use crate::knowledge::Knowledge;
use atomic_table::{Join, Play, Split, TableRule};
use mc_sizes::Sizes;
use std::marker::{Brand, PhantomData};

/// All tokens know prefixes of one lawful history.
pub(crate) struct Rule;

impl TableRule<u64, Knowledge, Sizes> for Rule {
    ghost use Rattle.mc_history.specs.Rule.{IsKept, opening};

    ghost holds = { λ sizes s. IsKept sizes s.views };

    ghost first = { λ sizes. opening sizes };
}

/// The events that a step appends.
pub(crate) trait Occurrence {
    ghost use Rattle.std.specs.Prelude.{List};
    ghost use Rattle.mc_history.specs.declared.event.Event.{Event};

    ghost events: { List Event };
}

impl Occurrence for Brand {
    ghost use Rattle.std.specs.Prelude.{[]};

    ghost events = { [] };
}

/// An actor's events are appended to all that has happened.
pub(crate) struct AddsEvents<E: Occurrence>(PhantomData<E>);

impl<E: Occurrence> Play<u64, Knowledge> for AddsEvents<E> {
    ghost use Rattle.std.specs.Prelude.{◌≡◌};
    ghost use Rattle.mc_history.specs.Rule.{Extends};

    ghost then = { λ s me found new. (new.1 ≡ me.1) × Extends E.events me.0 new.0 };
}

/// A token looks at all that has happened.
pub(crate) struct Looks;

impl Play<u64, Knowledge> for Looks {
    ghost use Rattle.std.specs.Prelude.{◌≡◌};
    ghost use Rattle.mc_history.specs.Rule.{Learns};

    ghost then = { λ s me found new. (new.1 ≡ me.1) × Learns me.0 new.0 };
}

/// A new token knows what this one has seen, and may add nothing.
pub(crate) struct Shows;

impl Split<Knowledge> for Shows {
    ghost use Rattle.mc_history.specs.Rule.{reader};

    ghost left = { λ v. v };

    ghost right = { λ v. reader v.sizes v.seen };
}

/// A new token gets the right to append the events of the first of this token's slots.
pub(crate) struct DealsSeat;

impl Split<Knowledge> for DealsSeat {
    ghost use Rattle.mc_history.specs.Rule.{first_seat, later_seats};

    ghost left = { later_seats };

    ghost right = { first_seat };
}

/// A new token gets the right to append the events of the first of this token's shards.
pub(crate) struct DealsShard;

impl Split<Knowledge> for DealsShard {
    ghost use Rattle.mc_history.specs.Rule.{first_shard, later_shards};

    ghost left = { later_shards };

    ghost right = { first_shard };
}

/// A token receives what another one has seen. The other one is consumed.
pub(crate) struct Hears;

impl Join<Knowledge> for Hears {
    ghost use Rattle.std.specs.Prelude.{[]};
    ghost use Rattle.mc_history.specs.Rule.{hearing, used_up};

    ghost both = { λ v w. hearing v w };

    ghost spent = { used_up };
}
