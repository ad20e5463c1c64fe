//! Laws of progress. Each is a function with an empty body, whose contract is the law.
ghost use Rattle.std.specs.Prelude.{◌⊎◌, List};
ghost use Rattle.mc_sizes.specs.Sizes.{AreWithin};
ghost use Rattle.mc_sizes.specs.declared.sizes.Sizes.{Sizes};
ghost use Rattle.mc_model.specs.World.{World};
ghost use Rattle.mc_model.specs.Events.{Event};
ghost use Rattle.mc_model.specs.Schedule.{Schedule};
ghost use Rattle.mc_laws.specs.Progress.{AllAtRest, CanComeToRest, HasWork, IsBounded};
ghost use Rattle.mc_laws.specs.Fair.{ComesToRest, EndlessRun, HasNoInput, IsFairToSeats, IsWeaklyFair, NoneWaitsForever, TakesBytesAtRest, TriesAll};

/// No deadlock: in every reachable state, either all connections are at rest or some step of the
/// server is enabled. Connections and shards never wait for each other in a ring.
pub fn never_stuck()
    ensures { (sizes : Sizes) (events : List Event) (w : World) →
        AreWithin sizes → Schedule sizes events w → AllAtRest sizes w ⊎ HasWork sizes w }
{}

/// Bounded work, from every reachable state. Without new input, at most two steps are done for each
/// command in the input, four for each of its pieces and two for each connection. Some steps lead
/// to rest, where every connection that hasn't failed was sent the replies to all its commands.
pub fn all_comes_to_rest()
    ensures bound { (sizes : Sizes) (events : List Event) (w : World) →
        AreWithin sizes → Schedule sizes events w → IsBounded sizes w }
    ensures rest { (sizes : Sizes) (events : List Event) (w : World) →
        AreWithin sizes → Schedule sizes events w → CanComeToRest sizes w }
{}

/// A run without new input, in which work that stays enabled is eventually done, comes to rest with
/// all replies written.
pub fn fair_runs_come_to_rest()
    ensures { (sizes : Sizes) (events : List Event) (w : World) → AreWithin sizes →
        Schedule sizes events w → (run : EndlessRun sizes w) → HasNoInput run → IsWeaklyFair run →
        ComesToRest run }
{}

/// A run that tries all work again and again, and gets memory for it, is weakly fair.
pub fn what_is_tried_is_fair()
    ensures { (sizes : Sizes) (w : World) → (run : EndlessRun sizes w) → TriesAll run →
        IsWeaklyFair run }
{}

/// Progress under a fair scheduler, whatever input arrives. If work that stays enabled is
/// eventually done and no shard ignores a slot forever, each command in a connection's input is
/// answered, or the connection fails.
pub fn none_waits_forever()
    ensures { (sizes : Sizes) (events : List Event) (w : World) → AreWithin sizes →
        Schedule sizes events w → (run : EndlessRun sizes w) → IsWeaklyFair run →
        IsFairToSeats run → NoneWaitsForever run }
{}

/// In every reachable state, a connection at rest that has neither ended nor failed takes some of
/// the bytes that come.
pub fn bytes_are_taken_at_rest()
    ensures { (sizes : Sizes) (events : List Event) (w : World) →
        AreWithin sizes → Schedule sizes events w → TakesBytesAtRest sizes w }
{}
