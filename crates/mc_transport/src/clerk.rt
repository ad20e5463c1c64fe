//! The record of what the connections of a seat take.
use crate::warrant::Warrant;
use mc_conn::Conn;
use mc_ring::Reply;

/// Keeps the record of what the connections of a seat take, one after another, and makes the tokens
/// that go with their pieces. It hears the token of each reply, so that the reply is known to
/// answer the piece in its place. With its evidence, replies may be written to the line of the last
/// connection.
pub trait Clerk<T: Warrant> {
    ghost use Rattle.std.specs.Prelude.{ℕ, ◌≡◌, List, [], Some, length};
    ghost use Rattle.std.specs.List.{AllByRecursion, slice_get};
    ghost use Rattle.mc_ring.specs.declared.request.Request.{Request};
    ghost use Rattle.mc_ring.specs.Reply.{Shown, shown};
    ghost use Rattle.mc_ring.specs.Route.{Route};
    ghost use Rattle.mc_split.specs.declared.plan.Piece.{Piece};
    ghost use Rattle.mc_conn.specs.Conn.{taken_by};
    ghost use Rattle.mc_conn.specs.Fits.{IsReplyTo};
    ghost use Rattle.mc_conn.specs.History.{MayBeTaken, Taken};
    ghost use Rattle.mc_model.specs.Grows.{Lengthens};
    ghost use Rattle.mc_wire.specs.Sink.{Sight};
    ghost use Rattle.mc_transport.specs.Clerk.{AddsWork, IsDueAt, IsOwed};
    ghost use Rattle.mc_transport.specs.Place.{Place, bytes_seen};

    // Whether it keeps a record.
    ghost keeps: { Type 0 };

    // A connection was opened.
    ghost opened: { Self → Type 0 };

    // The route of the channel to a shard.
    ghost route: { Self → ℕ → Route };

    // What the last connection took, each command as it is carried out.
    ghost taken: { Self → List Taken };

    // What is due on the channel to a shard, for all connections so far.
    ghost work: { Self → ℕ → List Piece };

    // The replies to what the shard ran of it, as far as they are known.
    ghost answers: { Self → ℕ → List Shown };

    // The place of the last connection's line, by what was seen of the line at its beginning.
    ghost place: { Self → Sight → Place };

    /// Records that the next connection is opened, and shows it to its line.
    fn open(&mut self) -> T
        ensures name { T.name result ≡ (Self.route self.old 0).name }
        ensures place { Self.keeps → (begin : Sight) →
            T.place_at result (bytes_seen begin) ≡ Self.place self.new begin }
        ensures opened { Self.keeps → Self.opened self.new }
        ensures taken { Self.keeps → Self.taken self.new ≡ [] }
        ensures work { (shard : ℕ) → Self.work self.new shard ≡ Self.work self.old shard }
        ensures answers { (shard : ℕ) →
            Lengthens (Self.answers self.old shard) (Self.answers self.new shard) }
        ensures route { Self.route self.new ≡ Self.route self.old };

    /// Records what the connection took beyond what is recorded.
    fn take_all(&mut self, conn: &Conn)
        requires opened { Self.keeps → Self.opened self.old }
        requires begins { Self.keeps →
            Lengthens (Self.taken self.old) (taken_by conn.now) }
        requires may { Self.keeps → AllByRecursion MayBeTaken (taken_by conn.now) }
        ensures opened { Self.keeps → Self.opened self.new }
        ensures taken { Self.keeps → Self.taken self.new ≡ taken_by conn.now }
        ensures work { Self.keeps → (shard : ℕ) →
            AddsWork (Self.route self.old shard).name.sizes.shards shard
            (Self.taken self.old) (Self.taken self.new)
            (Self.work self.old shard) (Self.work self.new shard) }
        ensures answers { (shard : ℕ) →
            Lengthens (Self.answers self.old shard) (Self.answers self.new shard) }
        ensures route { Self.route self.new ≡ Self.route self.old }
        ensures place { Self.keeps → Self.place self.new ≡ Self.place self.old };

    /// A token for the next request to a shard.
    fn token(&mut self) -> T
        ensures shows { (shard : ℕ) (route : Route) (before : List Request) (request : Request) →
            (Self.keeps → (route ≡ Self.route self.old shard)
            × IsDueAt (Self.work self.old shard) (length before) request) →
            T.may_send route before request result }
        ensures opened { Self.opened self.old → Self.opened self.new }
        ensures taken { Self.taken self.new ≡ Self.taken self.old }
        ensures work { Self.work self.new ≡ Self.work self.old }
        ensures answers { Self.answers self.new ≡ Self.answers self.old }
        ensures route { Self.route self.new ≡ Self.route self.old }
        ensures place { Self.place self.new ≡ Self.place self.old };

    /// Evidence of all that is recorded and was heard. By it, what the line of the last connection
    /// is owed may be written there.
    fn evidence(&mut self) -> T
        ensures may { (place : Place) (begin now : Sight) (bytes : List ℕ) →
            (Self.keeps → (place ≡ Self.place self.old begin) × Self.opened self.old
            × IsOwed (Self.route self.old 0).name.sizes (Self.work self.old) (Self.taken self.old)
            (Self.answers self.old) begin now bytes) →
            T.may_write place now bytes result }
        ensures same { self.new ≡ self.old };

    /// Takes up the token of a reply from this shard.
    fn hear(&mut self, shard: usize, token: T, reply: &Reply)
        requires may { Self.keeps → (before : List Shown)
            × T.may_give (Self.route self.old shard) before (shown reply.now) token }
        ensures answers { Self.keeps → (before : List Shown) →
            T.may_give (Self.route self.old shard) before (shown reply.now) token →
            slice_get (Self.answers self.new shard) (length before) ≡ Some (shown reply.now) }
        // It answers the piece in its place.
        ensures fits { Self.keeps → (before : List Shown) (piece : Piece) →
            T.may_give (Self.route self.old shard) before (shown reply.now) token →
            slice_get (Self.work self.old shard) (length before) ≡ Some piece →
            IsReplyTo piece (shown reply.now) }
        ensures grows { (shard : ℕ) →
            Lengthens (Self.answers self.old shard) (Self.answers self.new shard) }
        ensures opened { Self.keeps → Self.opened self.old → Self.opened self.new }
        ensures taken { Self.opened self.old → Self.taken self.new ≡ Self.taken self.old }
        ensures work { (shard : ℕ) → Self.work self.new shard ≡ Self.work self.old shard }
        ensures route { Self.route self.new ≡ Self.route self.old }
        ensures place { Self.keeps → Self.opened self.old →
            Self.place self.new ≡ Self.place self.old };
}

/// Keeps no record.
impl Clerk<()> for () {
    ghost use Rattle.std.specs.Prelude.{[]};
    ghost use Rattle.mc_ring.specs.Route.{no_history};
    ghost use Rattle.mc_transport.specs.Place.{unbegun};

    ghost keeps = { ⊥ };

    ghost opened = { λ clerk. ⊥ };

    ghost route = { λ clerk shard. record { seat = 0; shard = shard; name = no_history } };

    ghost taken = { λ clerk. [] };

    ghost work = { λ clerk shard. [] };

    ghost answers = { λ clerk shard. [] };

    ghost place = { λ clerk begin. unbegun no_history };

    fn open(&mut self) {}

    fn take_all(&mut self, _conn: &Conn) {}

    fn token(&mut self) {}

    fn evidence(&mut self) {}

    fn hear(&mut self, _shard: usize, _token: (), _reply: &Reply) {}
}
