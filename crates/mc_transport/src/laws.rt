//! Laws of clerks: how it is known of each reply which piece it answers, whatever the other seats
//! do. Each clause says what one step keeps of the record of a connection.
ghost use Rattle.std.specs.Prelude.{◌≡◌, ◌<◌, ◌++◌, ◌∷◌, ℕ, List, [], Some, length, map, take};
ghost use Rattle.std.specs.List.{slice_get};
ghost use Rattle.mc_ring.specs.declared.request.Request.{Request};
ghost use Rattle.mc_ring.specs.declared.request.Request.TheVariants as request;
ghost use Rattle.mc_ring.specs.Ends.{Ends, received_on, sent_on};
ghost use Rattle.mc_ring.specs.Channel.{Near};
ghost use Rattle.mc_ring.specs.Reply.{Shown};
ghost use Rattle.mc_split.specs.declared.plan.Piece.{Piece};
ghost use Rattle.mc_join.specs.Expects.{Expects};
ghost use Rattle.mc_conn.specs.Due.{due, channel};
ghost use Rattle.mc_conn.specs.Fits.{IsReplyTo, ReceivesFromShard};
ghost use Rattle.mc_conn.specs.History.{Taken, carried_out};
ghost use Rattle.mc_conn.specs.Flow.{Flow, all_pending_replies, all_pieces};
ghost use Rattle.mc_model.specs.Grows.{Lengthens};
ghost use Rattle.mc_transport.specs.Clerk.{AddsWork, IsAnsweredNext, IsDueAt, IsKept};

/// A connection begins on channels on which nothing is under way. It takes commands; these are
/// recorded; then its next piece is the next of its channel.
pub fn recorded_pieces_are_next_on_their_channels()
    ensures begins { (work : ℕ → List Piece) (taken : List Taken) (answers : ℕ → List Shown)
        (before : Ends Near) (flow : Flow) → flow.taken ≡ [] → flow.accepted ≡ [] → taken ≡ [] →
        ((s : ℕ) → s < flow.shards →
        length (received_on before s) ≡ length (sent_on before s)) →
        ((s : ℕ) → s < flow.shards → map request.Piece (work s) ≡ sent_on before s) →
        ((s : ℕ) → s < flow.shards → Lengthens (received_on before s) (answers s)) →
        IsKept work taken answers before flow (λ s. []) }
    ensures takes { (work : ℕ → List Piece) (taken : List Taken) (answers : ℕ → List Shown)
        (before : Ends Near) (flow : Flow) (received : ℕ → List Shown) (one : Taken) →
        IsKept work taken answers before flow received →
        IsKept work taken answers before (record flow { taken = flow.taken ++ one ∷ [] })
        received }
    ensures records { (work work' : ℕ → List Piece) (taken taken' : List Taken)
        (answers answers' : ℕ → List Shown) (before : Ends Near) (flow : Flow)
        (received : ℕ → List Shown) → IsKept work taken answers before flow received →
        taken' ≡ map carried_out flow.taken →
        ((s : ℕ) → AddsWork flow.shards s taken taken' (work s) (work' s)) →
        ((s : ℕ) → Lengthens (answers s) (answers' s)) →
        IsKept work' taken' answers' before flow received }
    ensures sends { (work : ℕ → List Piece) (taken : List Taken) (answers : ℕ → List Shown)
        (before : Ends Near) (flow : Flow) (received : ℕ → List Shown) →
        IsKept work taken answers before flow received → taken ≡ map carried_out flow.taken →
        (shard : ℕ) (piece : Piece) (sent : List Request) → shard < flow.shards →
        slice_get (all_pieces flow) flow.out ≡ Some (shard, piece) →
        sent ≡ sent_on before shard
        ++ map request.Piece (channel shard (take flow.out (all_pieces flow))) →
        IsDueAt (work shard) (length sent) (request.Piece piece) }
{}

/// The next reply of a shard that is owed one answers a piece that is due there; so it is expected,
/// and once it is accepted the keys and the answers fit, with no premise about other replies.
pub fn heard_replies_answer_their_pieces()
    ensures next { (work : ℕ → List Piece) (taken : List Taken) (answers : ℕ → List Shown)
        (before : Ends Near) (flow : Flow) (received : ℕ → List Shown) →
        IsKept work taken answers before flow received →
        (shard : ℕ) (came : List Shown) → shard < flow.shards →
        length (received shard) < length (due flow.shards shard taken) →
        came ≡ received_on before shard ++ received shard →
        IsAnsweredNext (work shard) flow shard (received shard) came }
    ensures hears { (work work' : ℕ → List Piece) (taken : List Taken)
        (answers answers' : ℕ → List Shown) (before : Ends Near) (flow : Flow)
        (received received' : ℕ → List Shown) →
        IsKept work taken answers before flow received →
        (shard : ℕ) (came : List Shown) (reply : Shown) → shard < flow.shards →
        (next : IsAnsweredNext (work shard) flow shard (received shard) came) →
        came ≡ received_on before shard ++ received shard → IsReplyTo next.piece reply →
        ((s : ℕ) → work' s ≡ work s) → ((s : ℕ) → Lengthens (answers s) (answers' s)) →
        slice_get (answers' shard) (length came) ≡ Some reply →
        ReceivesFromShard received shard reply received' →
        Expects (all_pending_replies flow) flow.accepted reply × IsKept work' taken answers' before
        (record flow { accepted = flow.accepted ++ reply ∷ [] }) received' }
{}
