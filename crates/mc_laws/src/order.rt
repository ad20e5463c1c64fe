//! Laws of order in time. Each is a function with an empty body, whose contract is the law.
ghost use Rattle.std.specs.Prelude.{ℕ, List};
ghost use Rattle.mc_sizes.specs.Sizes.{AreWithin};
ghost use Rattle.mc_sizes.specs.declared.sizes.Sizes.{Sizes};
ghost use Rattle.mc_model.specs.World.{World};
ghost use Rattle.mc_model.specs.Events.{Event};
ghost use Rattle.mc_model.specs.Schedule.{Leads, Schedule};
ghost use Rattle.mc_laws.specs.Linear.{IsLinearizable};
ghost use Rattle.mc_laws.specs.Order.{HappensBefore, IsHandedOut, IsNotYetAsked, RunsBefore, WasRun};

/// If the reply to a command was written, each of its pieces was run. If it was written before the
/// bytes of another command came, on any connection, its pieces were run before those of the other
/// one.
pub fn what_was_handed_out_ran_before()
    ensures ran { (sizes : Sizes) (events : List Event) (w : World) (k number : ℕ) →
        AreWithin sizes → Schedule sizes events w → IsHandedOut w k number →
        WasRun sizes w k number }
    ensures before { (sizes : Sizes) (before after : List Event) (w later : World) (j a k b : ℕ) →
        AreWithin sizes → Schedule sizes before w → Leads sizes w after later → IsHandedOut w j a →
        IsNotYetAsked sizes w k b → RunsBefore later.log j a k b }
    ensures positions { (sizes : Sizes) (events : List Event) (w : World)
        (led : Schedule sizes events w) (j a k b : ℕ) → AreWithin sizes →
        HappensBefore sizes events w led j a k b → RunsBefore w.log j a k b }
{}

/// For each key, the operations that its shard ran are one sequential order of all that was
/// requested of the key. Each answer is the protocol's step after all earlier operations. The
/// commands of each connection are in sending order, and a command whose reply was written before
/// the bytes of another one came is before that. Replies are made of these answers.
pub fn keys_are_linearizable()
    ensures { (sizes : Sizes) (events : List Event) (w : World) (led : Schedule sizes events w)
        (key : List ℕ) → AreWithin sizes → IsLinearizable sizes events w led key }
{}
