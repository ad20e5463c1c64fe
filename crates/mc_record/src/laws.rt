//! The law of writes: what a connection hands out may be written to its line, by the one history.
//! It is a function with an empty body, whose contract is the law.
ghost use Rattle.std.specs.Prelude.{ℕ, List};
ghost use Rattle.mc_wire.specs.Sink.{Sight};
ghost use Rattle.mc_history.specs.Tokens.{Acting};
ghost use Rattle.mc_history.specs.Writes.{MayWrite};
ghost use Rattle.mc_record.specs.Clerk.{IsOwed, IsSeatActor, connection_of};

/// What the line of a slot's last connection is owed may be written to it, by all that the slot's
/// actor has seen.
pub fn what_was_handed_out_may_be_written()
    ensures { (actor : Acting) (begin now : Sight) (bytes : List ℕ) →
        IsSeatActor actor → IsOwed actor begin now bytes →
        MayWrite actor.name.sizes (connection_of actor) begin now bytes actor.events }
{}
