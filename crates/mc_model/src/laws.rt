//! Laws of all schedules. Each is a function with an empty body, whose contract is the law.
ghost use Rattle.std.specs.Prelude.{◌≡◌, ℕ, List, false};
ghost use Rattle.mc_sizes.specs.Sizes.{AreWithin};
ghost use Rattle.mc_sizes.specs.declared.sizes.Sizes.{Sizes};
ghost use Rattle.mc_model.specs.World.{IsLink, Link, World, empty_world};
ghost use Rattle.mc_model.specs.Events.{Event};
ghost use Rattle.mc_model.specs.declared.event.StepReply.{StepReply};
ghost use Rattle.mc_model.specs.Schedule.{Happens, Leads, Schedule};
ghost use Rattle.mc_model.specs.Rest.{AtRest};
ghost use Rattle.mc_model.specs.Headline.{Headline, handed_bytes};
ghost use Rattle.mc_model.specs.Alone.{IsAlone, alone};
ghost use Rattle.mc_model.specs.Law.{Law};
ghost use Rattle.mc_model.specs.Grows.{Grows};

/// The main theorem, for every list of steps of connections and shards.
///
/// The bytes written to a connection are a prefix of the replies to the commands in its input.
/// Replies are in order, each once, or silent as `noreply` and `q` say; at rest they are complete.
/// Each shard ran each connection's pieces once, in sending order, and each answer is the
/// protocol's step on that shard's items. Nothing follows `quit` or `shutdown`. This holds for all
/// sizes within the limits, and for connections that reuse a slot.
pub fn every_schedule()
    ensures { (sizes : Sizes) (events : List Event) (w : World) →
        AreWithin sizes → Schedule sizes events w → Headline sizes w }
{}

/// Input, commands, answers and output are never changed later: a byte that was written to a
/// connection stays as it is.
pub fn nothing_is_taken_back()
    ensures { (sizes : Sizes) (before after : List Event) (w later : World) (k : ℕ) (link : Link) →
        AreWithin sizes → Schedule sizes before w → Leads sizes w after later → IsLink w k link →
        Grows sizes w k link later }
{}

/// The law holds initially, and each event preserves it, whatever its result.
pub fn every_event_keeps_the_law()
    ensures begin { (sizes : Sizes) → Law sizes empty_world }
    ensures step { (sizes : Sizes) (w later : World) (event : Event) (reply : StepReply) →
        AreWithin sizes → Law sizes w → Happens sizes w event reply later → Law sizes later }
{}

/// If the shards ran pieces of one connection only and no memory was refused, every schedule that
/// brings the connection to rest writes the same bytes to it. They are the replies to its commands,
/// each run completely before the next.
pub fn one_connection_is_served_as_alone()
    ensures { (sizes : Sizes) (events : List Event) (w : World) (k : ℕ) (link : Link) →
        AreWithin sizes → Schedule sizes events w → IsLink w k link → link.broken ≡ false →
        AtRest sizes link → IsAlone w k link →
        handed_bytes sizes w k link ≡ alone sizes link.taken }
{}
