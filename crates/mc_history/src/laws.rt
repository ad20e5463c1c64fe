//! Laws of every lawful history, and what an actor knows of its own events. Each is a function with
//! an empty body, whose contract is the law.
ghost use Rattle.std.specs.Prelude.{◌≡◌, ◌+◌, ◌++◌, ◌∷◌, [], ℕ, List, Bool, Some, length, map};
ghost use Rattle.std.specs.List.{slice_get};
ghost use Rattle.mc_wire.specs.Sink.{Sight, with_bytes};
ghost use Rattle.mc_wire.specs.Sink as sink;
ghost use Rattle.mc_command.specs.declared.command.Command.{Command};
ghost use Rattle.mc_sizes.specs.declared.sizes.Sizes.{Sizes};
ghost use Rattle.mc_item.specs.declared.answer.Answer.{Answer};
ghost use Rattle.mc_reply.specs.declared.server_stats.ServerStats.{ServerStats};
ghost use Rattle.mc_split.specs.declared.plan.Piece.{Piece};
ghost use Rattle.mc_conn.specs.Due.{due, channel, pieces_from};
ghost use Rattle.mc_conn.specs.History.{Taken};
ghost use Rattle.mc_model.specs.Grows.{Lengthens};
ghost use Rattle.mc_model.specs.Log.{of_asker, on_shard};
ghost use Rattle.mc_model.specs.World.{IsLink, Link};
ghost use Rattle.mc_history.specs.declared.event.Event.{Event};
ghost use Rattle.mc_history.specs.declared.event.Event.TheVariants.{Opened, Ran, Took};
ghost use Rattle.mc_history.specs.declared.knowledge.Role.TheVariants.{Seat, Shard};
ghost use Rattle.mc_history.specs.Worlds.{IsLastOn, IsOpened, link_in, ran_in, ran_on, seats_in, taken_in, took, work_on, world_in};
ghost use Rattle.mc_history.specs.Lawful.{Holds, IsHistory};
ghost use Rattle.mc_history.specs.Roles.{own_part};
ghost use Rattle.mc_history.specs.Tokens.{Acting, Adds, Sees, TakesAll};
ghost use Rattle.mc_history.specs.Writes.{MayWrite};

/// After each lawful history, as after each schedule of the model, each shard's operations are one
/// run of the protocol's step. It ran each connection's pieces once, in sending order, and nothing
/// else.
pub fn lawful_histories_hold()
    ensures { (sizes : Sizes) (history : List Event) → IsHistory sizes history →
        Holds sizes history }
{}

/// The world of a history has exactly the connections that were opened, each with the commands that
/// it took.
pub fn worlds_have_the_connections_opened()
    ensures there { (k : ℕ) (history : List Event) → IsOpened k history →
        IsLink (world_in history) k (link_in k history) }
    ensures alone { (k : ℕ) (link : Link) (history : List Event) →
        IsLink (world_in history) k link → IsOpened k history × (link ≡ link_in k history) }
{}

/// The connection that a slot's actor opens is the last one there, and has taken no command.
pub fn a_connection_opened_is_the_last_on_its_seat()
    ensures { (sizes : Sizes) (c : ℕ) (old new : Acting) → IsHistory sizes new.events →
        (adds : Adds (Opened c) old new) →
        IsLastOn c (length (seats_in adds.before)) new.events
        × (taken_in (length (seats_in adds.before)) new.events ≡ []) }
{}

/// If a slot's actor adds a command, its connection has taken exactly this one more, whatever
/// others did meanwhile.
pub fn a_command_added_is_the_next_taken()
    ensures { (sizes : Sizes) (c k : ℕ) (command : Command) (moment : ℕ) (server : ServerStats)
        (given_up : Bool)
        (old new : Acting) → IsHistory sizes new.events →
        slice_get (seats_in old.events) k ≡ Some c → old.role ≡ Seat c →
        Adds (Took c k command moment server given_up) old new →
        taken_in k new.events ≡ taken_in k old.events
        ++ record { entry = command; moment = moment; server = server; given_up = given_up } ∷ [] }
{}

/// If a slot's actor adds commands together, its connection has taken exactly these more, in order.
pub fn commands_added_are_the_next_taken()
    ensures { (sizes : Sizes) (c k : ℕ) (taken : List Taken) (old new : Acting) →
        IsHistory sizes new.events → slice_get (seats_in old.events) k ≡ Some c →
        old.role ≡ Seat c → TakesAll k taken old new →
        taken_in k new.events ≡ taken_in k old.events ++ taken }
{}

/// A shard's actor that adds an entry has run exactly this one more, whatever others did meanwhile.
pub fn an_entry_added_is_the_next_run()
    ensures { (s asker : ℕ) (piece : Piece) (answer : Answer) (old new : Acting) →
        old.role ≡ Shard s → Adds (Ran s asker piece answer) old new →
        on_shard s (ran_in new.events) ≡ on_shard s (ran_in old.events)
        ++ record { shard = s; asker = asker; piece = piece; answer = answer } ∷ [] }
{}

/// The next piece of a channel is the next that is due for its connection.
pub fn a_channels_next_piece_is_its_connections_next()
    ensures { (sizes : Sizes) (c s k : ℕ) (piece : Piece) (history : List Event) →
        IsHistory sizes history → slice_get (seats_in history) k ≡ Some c →
        slice_get (work_on sizes.shards c s history) (length (ran_on c s history)) ≡
        Some (k, piece) → slice_get (due sizes.shards s (taken_in k history))
        (length (on_shard s (of_asker k (ran_in history)))) ≡ Some piece }
{}

/// An actor that receives evidence did nothing meanwhile: its slot's connection took no command,
/// and its shard ran nothing.
pub fn hearing_adds_nothing_of_ones_own()
    ensures connection { (sizes : Sizes) (c k : ℕ) (heard : List Event) (old new : Acting) →
        IsHistory sizes new.events → slice_get (seats_in old.events) k ≡ Some c →
        old.role ≡ Seat c → Sees heard old new →
        taken_in k new.events ≡ taken_in k old.events }
    ensures shard { (s : ℕ) (heard : List Event) (old new : Acting) →
        old.role ≡ Shard s → Sees heard old new →
        on_shard s (ran_in new.events) ≡ on_shard s (ran_in old.events) }
{}

/// What is due on a channel changes only when the actor of its slot takes commands; opening a
/// connection makes nothing due.
pub fn a_channels_work_is_its_seats_own()
    ensures stays { (sizes : Sizes) (c s : ℕ) (seen history : List Event) →
        IsHistory sizes history → Lengthens seen history →
        own_part (Seat c) history ≡ own_part (Seat c) seen →
        work_on sizes.shards c s history ≡ work_on sizes.shards c s seen }
    ensures opened { (sizes : Sizes) (c s : ℕ) (past : List Event) → IsHistory sizes past →
        work_on sizes.shards c s (past ++ Opened c ∷ []) ≡ work_on sizes.shards c s past }
    ensures took { (sizes : Sizes) (c s k : ℕ) (taken : List Taken) (past : List Event) →
        IsLastOn c k past →
        work_on sizes.shards c s (past ++ map (took c k) taken) ≡ work_on sizes.shards c s past
        ++ map (λ piece. (k, piece))
        (channel s (pieces_from sizes.shards (0 + length (taken_in k past)) taken)) }
{}

/// What evidence shows remains true in all that its receiver sees later: a connection that was
/// opened, a piece that was due, was next on a channel, or was run there.
pub fn what_was_shown_stays()
    ensures opened { (k : ℕ) (seen history : List Event) → Lengthens seen history →
        IsOpened k seen → IsOpened k history }
    ensures due { (shards s k n : ℕ) (seen history : List Event) (piece : Piece) →
        Lengthens seen history → slice_get (due shards s (taken_in k seen)) n ≡ Some piece →
        slice_get (due shards s (taken_in k history)) n ≡ Some piece }
    ensures work { (sizes : Sizes) (c s : ℕ) (seen history : List Event) →
        IsHistory sizes history → Lengthens seen history →
        Lengthens (work_on sizes.shards c s seen) (work_on sizes.shards c s history) }
    ensures ran { (sizes : Sizes) (c s : ℕ) (seen history : List Event) →
        IsHistory sizes history → Lengthens seen history →
        Lengthens (ran_on c s seen) (ran_on c s history) }
{}

/// What may be written to a line may be written later too: a prefix of it; the rest, once a prefix
/// was written; all of it, once more bytes were read of the line, and once more has happened while
/// its connection took no further command.
pub fn what_may_be_written_stays()
    ensures front { (sizes : Sizes) (number : ℕ) (begin now : Sight) (bytes more : List ℕ)
        (history : List Event) → MayWrite sizes number begin now (bytes ++ more) history →
        MayWrite sizes number begin now bytes history }
    ensures rest { (sizes : Sizes) (number : ℕ) (begin now : Sight) (bytes more : List ℕ)
        (history : List Event) → MayWrite sizes number begin now (bytes ++ more) history →
        MayWrite sizes number begin (sink.took bytes now) more history }
    ensures read { (sizes : Sizes) (number : ℕ) (begin now later : Sight) (got bytes : List ℕ)
        (history : List Event) → later.given ≡ with_bytes now.given got →
        later.taken ≡ now.taken → MayWrite sizes number begin now bytes history →
        MayWrite sizes number begin later bytes history }
    ensures grows { (sizes : Sizes) (number : ℕ) (begin now : Sight) (bytes : List ℕ)
        (history later : List Event) → Lengthens history later → IsHistory sizes later →
        taken_in number later ≡ taken_in number history →
        MayWrite sizes number begin now bytes history →
        MayWrite sizes number begin now bytes later }
{}
