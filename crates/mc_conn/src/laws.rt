//! Laws of connections: of the pieces that are due at the shards, of the replies that answer them,
//! and of the bytes handed out. Each is the contract of a function that does nothing.
ghost use Rattle.std.specs.Prelude.{◌≡◌, ◌+◌, ◌<◌, ◌≤◌, ◌↔◌, ◌++◌, ◌∷◌, ℕ, List, [], Some, length, map};
ghost use Rattle.std.specs.List.{AllByRecursion, slice_get};
ghost use Rattle.mc_ring.specs.Reply.{Shown};
ghost use Rattle.mc_split.specs.declared.plan.Piece.{Piece};
ghost use Rattle.mc_join.specs.Replies.{replies};
ghost use Rattle.mc_conn.specs.History.{Taken, MayBeTaken, carried_out};
ghost use Rattle.mc_conn.specs.Due.{Ran, due, pending_replies_of, ran_on};
ghost use Rattle.mc_join.specs.Expects.{Expects};
ghost use Rattle.mc_conn.specs.declared.conn.Conn.{Conn};
ghost use Rattle.mc_conn.specs.Conn.{IfConn, IsConn, taken_by};
ghost use Rattle.mc_conn.specs.Flow.{Flow, IsSound, KeepsHanded, all_pending_replies};
ghost use Rattle.mc_conn.specs.Fits.{CameFrom, Fits, HasCome, IsReplyTo, KeysFit, ReceivesFromShard, Serves, Tells, counts, reply_of};

/// What holds of every connection, whatever came in.
pub fn connections_are_sound()
    ensures { (conn : Conn) → IfConn conn IsSound }
{}

/// A connection has a log of the commands that it took, each as it is carried out: with the refusal
/// in place of one that was given up. What is due for these is due for those, with the same pending
/// replies of replies, and each of them may be taken.
pub fn connections_log_what_they_take()
    ensures log { (conn : Conn) → IfConn conn (λ flow.
        taken_by conn ≡ map carried_out flow.taken) }
    ensures due { (shards s : ℕ) (taken : List Taken) →
        due shards s (map carried_out taken) ≡ due shards s taken }
    ensures pending_replies { (shards : ℕ) (taken : List Taken) →
        pending_replies_of shards (map carried_out taken) ≡ pending_replies_of shards taken }
    ensures may { (taken : List Taken) → AllByRecursion MayBeTaken (map carried_out taken) }
{}

/// The replies that were handed out begin all replies, and still do when a reply is accepted and
/// when a command is taken. So the bytes of several hands, one after another, are one beginning of
/// the texts, and no text is begun twice.
pub fn handed_replies_stay()
    ensures accept { (conn : Conn) (flow : Flow) (reply : Shown) → IsConn conn flow →
        Expects (all_pending_replies flow) flow.accepted reply →
        KeepsHanded flow (record flow { accepted = flow.accepted ++ reply ∷ [] }) }
    ensures take { (conn : Conn) (flow : Flow) (one : Taken) → IsConn conn flow →
        KeepsHanded flow (record flow { taken = flow.taken ++ one ∷ [] }) }
{}

/// The ticket and the part of a piece that is due determine its shard, and its place among what is
/// due there.
pub fn keys_name_one_place()
    ensures { (shards s t i j : ℕ) (taken : List Taken) (p q : Piece) →
        slice_get (due shards s taken) i ≡ Some p → slice_get (due shards t taken) j ≡ Some q →
        p.ticket ≡ q.ticket → p.part ≡ q.part → (s ≡ t) × (i ≡ j) }
{}

/// Nothing is due at a shard that doesn't exist.
pub fn only_shards_are_asked()
    ensures { (shards s : ℕ) (taken : List Taken) → 0 < shards → shards ≤ s →
        due shards s taken ≡ [] }
{}

/// Before any command is taken nothing is due, and nothing was received.
pub fn answers_fit_before_any_command()
    ensures { (shards : ℕ) → Fits shards [] [] (λ s. []) }
{}

/// Where a command is taken, the answers so far stay in their places.
pub fn more_commands_fit()
    ensures { (shards : ℕ) (taken : List Taken) (one : Taken) (accepted : List Shown)
        (received : ℕ → List Shown) → Fits shards taken accepted received →
        Fits shards (taken ++ one ∷ []) accepted received }
{}

/// A reply to the next piece that is due at its shard is expected, and once accepted it is in its
/// place.
pub fn accepted_answers_fit()
    ensures { (shards s : ℕ) (taken : List Taken) (accepted : List Shown) (old new : ℕ → List Shown)
        (p : Piece) (reply : Shown) → Fits shards taken accepted old →
        slice_get (due shards s taken) (length (old s)) ≡ Some p → IsReplyTo p reply →
        ReceivesFromShard old s reply new →
        Expects (pending_replies_of shards taken) accepted reply ×
        Fits shards taken (accepted ++ reply ∷ []) new }
{}

/// The first commands have their replies exactly where everything that is due for them was
/// received.
pub fn come_answers_complete_the_first_commands()
    ensures { (shards count : ℕ) (taken : List Taken) (accepted : List Shown)
        (received : ℕ → List Shown) → count ≤ length taken → Fits shards taken accepted received →
        (count ≤ length (replies (pending_replies_of shards taken) accepted)) ↔
        HasCome shards taken (counts received) count }
{}

/// The replies are the texts of the history whose answers are those received.
pub fn received_answers_tell_the_history()
    ensures { (shards count : ℕ) (taken : List Taken) (accepted : List Shown)
        (received : ℕ → List Shown) → count ≤ length taken → AllByRecursion MayBeTaken taken →
        Fits shards taken accepted received → HasCome shards taken (counts received) count →
        Tells shards taken accepted received count }
{}

/// A connection that doesn't know what the shards send back knows this much of its answers, whether
/// a command is taken, a reply is accepted or a reply is handed back: they fit, should the keys of
/// what was received fit.
pub fn serving_keeps_answers()
    ensures begin { (shards : ℕ) → Serves shards [] [] (λ s. []) }
    ensures take { (shards : ℕ) (taken : List Taken) (one : Taken) (accepted : List Shown)
        (received : ℕ → List Shown) → Serves shards taken accepted received →
        Serves shards (taken ++ one ∷ []) accepted received }
    ensures accept { (shards s : ℕ) (taken : List Taken) (accepted : List Shown)
        (old new : ℕ → List Shown) (reply : Shown) → Serves shards taken accepted old →
        length (old s) < length (due shards s taken) → ReceivesFromShard old s reply new →
        Serves shards taken (accepted ++ reply ∷ []) new }
    ensures unexpected_reply { (shards s : ℕ) (taken : List Taken) (accepted : List Shown)
        (old new : ℕ → List Shown) (reply : Shown) → Serves shards taken accepted old →
        length (old s) < length (due shards s taken) → ReceivesFromShard old s reply new →
        ¬ Expects (pending_replies_of shards taken) accepted reply →
        Serves shards taken accepted new }
{}

/// The keys of the replies fit if each shard ran the first of the pieces that are due there and
/// sent back their replies; and what it ran follows from the pieces and the replies.
pub fn replies_of_shards_fit()
    ensures keys { (shards : ℕ) (taken : List Taken) (received : ℕ → List Shown) →
        ((s : ℕ) → CameFrom shards s taken (received s)) → KeysFit shards taken received }
    ensures ran { (s : ℕ) (ran : List Ran) → AllByRecursion (λ entry. entry.shard ≡ s) ran →
        ran_on s (map (λ entry. entry.piece) ran) (map reply_of ran) ≡ ran }
{}
