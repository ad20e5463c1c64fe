//! Carries the pieces of a connection to the shards, and their replies back.
ghost use Rattle.mc_command.specs.declared.rules.Rules.{Rules};
ghost use Rattle.std.specs.Prelude.{◌≡◌, ◌<◌, ◌==◌, ◌⊎◌, ℕ, [], false, true, IfOk, IsTrue, length};
ghost use Rattle.std.specs.Bool.{OnFalse, OnTrue};
ghost use Rattle.std.specs.List.{list_all};
ghost use Rattle.mc_transport.specs.Place.{unbegun};
ghost use Rattle.mc_session.specs.Credit.{AreWithin};
ghost use Rattle.mc_session.specs.Routes.{AreOnRoutes};
ghost use Rattle.mc_session.specs.Serving.{AreCalled};

use mc_conn::Conn;
use mc_poll::{Doorbell, Wakers};
use mc_ring::{Request, SeatEnds};
use mc_transport::{BufferPool, BufferedConn, Clerk, Clock, LineStep, Transport, Warrant};
use std::alloc::{AllocError, Global};

/// A seat's ends of its channels, and how many pieces are under way on each. A clerk records what the
/// seat's connections take: a request carries a token of the clerk, and the clerk checks the token of
/// each reply.
#[derive(Drop)]
pub struct ShardLink<T: Warrant = (), C: Clerk<T> = ()> {
    pub(crate) ends: SeatEnds<T>,
    pub(crate) clerk: C,
    /// How many pieces were sent to each shard whose replies were not received yet.
    under_way: Vec<usize>,
    /// The capacity of each ring. No more pieces are under way on a channel, so that a shard never
    /// finds its ring of replies full.
    places: usize,
    /// A piece could not be sent yet.
    blocked: bool,
    /// A piece was sent, and the shards were not called for it yet.
    uncalled: bool,
    shards: Doorbell,
    ghost each_shard: { length under_way.items ≡ length ends.channels },
    ghost all_called: { uncalled ≡ false → AreCalled shards under_way.items },
    // Between any two sends and receives.
    ghost in_credit: { AreWithin places under_way.items },
    ghost routed: { C.keeps → AreOnRoutes (C.route clerk) ends },
}

impl<T: Warrant + Drop, C: Clerk<T> + Drop> ShardLink<T, C> {
    ghost use Rattle.mc_wire.specs.Sink.{Sight};
    ghost use Rattle.std.specs.Prelude.{List};
    ghost use Rattle.mc_ring.specs.Channel.{Near};
    ghost use Rattle.mc_ring.specs.Ends.{Ends};
    ghost use Rattle.mc_ring.specs.Reply.{Shown};
    ghost use Rattle.mc_conn.specs.Conn.{IsConn};
    ghost use Rattle.mc_conn.specs.Flow.{Flow};
    ghost use Rattle.mc_session.specs.Ending.{EndsOne, StandsStill};
    ghost use Rattle.mc_session.specs.Records.{IsLineOf, IsRuledBy, KeepsPlace, RecordsAllOf, RecordsLineOf, RecordsPastOf};
    ghost use Rattle.mc_transport.specs.BufferedConn.{WaitsForLine};
    ghost use Rattle.mc_transport.specs.Clerk.{IsOwed};
    ghost use Rattle.mc_transport.specs.Place.{Place};
    ghost use Rattle.mc_session.specs.Service.{AwaitsShards, IsServedBy, LineSays, ServesSomeLine};
    ghost use Rattle.mc_session.specs.Serving.{IsIdle};
    ghost use Rattle.mc_session.specs.internal.Carrying.{AllOutWhere, AnyOut, CanCarry, CanRecord, ShardLinkGoesOn, NoneOut};

    /// A link with nothing under way, whose rings have `places` places. `shards` has the wakers of
    /// the shards. `AllocError`: memory ran out.
    pub(crate) fn new(
        alloc: Global,
        ends: SeatEnds<T>,
        clerk: C,
        shards: Wakers,
        places: usize,
    ) -> Result<ShardLink<T, C>, AllocError>
        requires routes { C.keeps → AreOnRoutes (C.route clerk) ends }
        ensures clerk { IfOk result (λ shard_link. shard_link.clerk ≡ clerk) }
        ensures ends { IfOk result (λ shard_link. shard_link.ends ≡ ends) }
        ensures idle { IfOk result (λ shard_link. IsIdle shard_link.under_way.items) }
        ensures places { IfOk result (λ shard_link. shard_link.places ≡ places) }
    {
        let under_way = vec![in alloc; 0; ends.shards()]?;
        let shards = Doorbell::new(shards, ends.number());
        Ok(ShardLink {
            ends,
            clerk,
            under_way,
            places,
            blocked: false,
            uncalled: false,
            shards,
        })
    }

    /// Records that a line of the clerk's history begins, and shows it to the line.
    pub(crate) fn begin_line<L: Transport<Warrant = T>>(&mut self, line: &mut L)
        requires new { L.place line.old ≡ unbegun (C.route self.old.clerk 0).name }
        ensures begins { (before : Ends Near) (flow : Flow) → flow.taken ≡ [] →
            flow.accepted ≡ [] → flow.shards ≡ length before.channels →
            RecordsPastOf self.old before →
            RecordsLineOf self.new before flow (λ shard. []) }
        ensures ends { self.new.ends ≡ self.old.ends }
        ensures under_way { self.new.under_way ≡ self.old.under_way }
        ensures places { self.new.places ≡ self.old.places }
        ensures line { (rules : Rules) → IsRuledBy self.old rules →
            IsLineOf self.new rules (L.place line.new) (L.sight line.old) }
        ensures route { C.route self.new.clerk ≡ C.route self.old.clerk }
        ensures sight { L.sight line.new ≡ L.sight line.old }
    {
        let seen = self.clerk.open();
        line.begin(seen);
    }

    /// Records what the connection took since the last record.
    fn note_taken(&mut self, conn: &Conn)
        requires { CanRecord self.old conn.now }
        ensures records { (before : Ends Near) (flow : Flow) (received : ℕ → List Shown) →
            IsConn conn.now flow → flow.shards ≡ length self.old.ends.channels →
            RecordsLineOf self.old before flow received →
            RecordsAllOf self.new before flow received }
        ensures ends { self.new.ends ≡ self.old.ends }
        ensures under_way { self.new.under_way ≡ self.old.under_way }
        ensures places { self.new.places ≡ self.old.places }
        ensures kept { KeepsPlace self.old self.new }
    {
        self.clerk.take_all(conn);
    }

    /// Evidence that the replies due to the line may be written to it.
    fn evidence(&mut self) -> T
        ensures may { (place : Place) (begin now : Sight) (bytes : List ℕ) →
            (C.keeps → (place ≡ C.place self.old.clerk begin) × C.opened self.old.clerk
            × IsOwed (C.route self.old.clerk 0).name.sizes (C.work self.old.clerk)
            (C.taken self.old.clerk) (C.answers self.old.clerk) begin now bytes) →
            T.may_write place now bytes result }
        ensures clerk { self.new.clerk ≡ self.old.clerk }
        ensures ends { self.new.ends ≡ self.old.ends }
        ensures under_way { self.new.under_way ≡ self.old.under_way }
        ensures blocked { self.new.blocked ≡ self.old.blocked }
        ensures called { self.new.uncalled ≡ self.old.uncalled }
        ensures places { self.new.places ≡ self.old.places }
    {
        self.clerk.evidence()
    }

    /// Whether no reply is awaited.
    fn is_idle(&self) -> bool
        ensures { result ≡ list_all (λ count. count == 0) self.now.under_way.items }
    {
        self.under_way.iter().all(|count| *count == 0)
    }

    /// Sends pieces while there is room, and calls the shards.
    #[inline(always)]
    fn send_all(&mut self, conn: &mut Conn)
        requires { CanCarry self.old conn.old }
        ensures goes { ShardLinkGoesOn (AllOutWhere (self.new.blocked ≡ false)) self.old conn.old
            self.new conn.new }
        ensures called { self.new.uncalled ≡ false }
        ensures places { self.new.places ≡ self.old.places }
        ensures kept { KeepsPlace self.old self.new }
    {
        for _ in 0..u64::MAX {
            if !self.send_next(conn) {
                self.call_shards();
                return;
            }
        }
        self.blocked = true;
        self.call_shards();
    }

    /// Sends the next piece, and returns whether it did: not if none is left, or if as many are
    /// under way to its shard as a ring has places.
    fn send_next(&mut self, conn: &mut Conn) -> bool
        requires { CanCarry self.old conn.old }
        ensures goes { ShardLinkGoesOn (AllOutWhere ((result ≡ false) × (self.new.blocked ≡ false)))
            self.old conn.old self.new conn.new }
        // No shard was called since.
        ensures noted { IsTrue result → self.new.shards ≡ [] }
        ensures places { self.new.places ≡ self.old.places }
        ensures kept { KeepsPlace self.old self.new }
    {
        // Mostly none is left, and to ask costs less than to take one out.
        if !conn.has_piece() {
            self.blocked = false;
            return false;
        }
        self.send_piece(conn)
    }

    /// Sends the next piece, as `send_next` does. It is kept out of line: the compiler fills its
    /// locals with zeros at the beginning of the function that has them.
    #[inline(never)]
    fn send_piece(&mut self, conn: &mut Conn) -> bool
        requires { CanCarry self.old conn.old }
        ensures goes { ShardLinkGoesOn (AllOutWhere ((result ≡ false) × (self.new.blocked ≡ false)))
            self.old conn.old self.new conn.new }
        ensures noted { IsTrue result → self.new.shards ≡ [] }
        ensures places { self.new.places ≡ self.old.places }
        ensures kept { KeepsPlace self.old self.new }
    {
        self.blocked = false;
        let Some((shard, piece)) = conn.next_piece() else {
            return false;
        };
        let count = self.under_way[shard];
        if count >= self.places {
            self.blocked = true;
            conn.not_sent(shard, piece);
            return false;
        }
        let token = self.clerk.token();
        match self.ends.send_with(shard, Request::Piece(piece), token) {
            Ok(()) => {
                self.uncalled = true;
                self.shards.note_sent();
                self.under_way[shard] = count + 1;
                true
            }
            Err(request) => {
                self.blocked = true;
                if let Request::Piece(piece) = request {
                    conn.not_sent(shard, piece);
                }
                false
            }
        }
    }

    /// Calls each shard whose replies are awaited, unless that was done since the last piece was
    /// sent.
    fn call_shards(&mut self)
        ensures called { self.new.uncalled ≡ false }
        ensures ends { self.new.ends ≡ self.old.ends }
        ensures clerk { self.new.clerk ≡ self.old.clerk }
        ensures under_way { self.new.under_way ≡ self.old.under_way }
        ensures blocked { self.new.blocked ≡ self.old.blocked }
        ensures places { self.new.places ≡ self.old.places }
    {
        if !self.uncalled {
            return;
        }
        for shard in 0..self.under_way.len() {
            if self.under_way[shard] > 0 {
                self.shards.call(shard);
            }
        }
        self.uncalled = false;
    }

    /// Receives the replies that have come.
    fn receive_all(&mut self, conn: &mut Conn)
        requires { CanCarry self.old conn.old }
        ensures goes { ShardLinkGoesOn NoneOut self.old conn.old self.new conn.new }
        ensures blocked { self.new.blocked ≡ self.old.blocked }
        ensures called { self.new.uncalled ≡ self.old.uncalled }
        ensures places { self.new.places ≡ self.old.places }
        ensures kept { KeepsPlace self.old self.new }
    {
        for shard in 0..self.under_way.len() {
            self.receive_from(conn, shard);
        }
    }

    /// Receives the replies that have come from one shard.
    fn receive_from(&mut self, conn: &mut Conn, shard: usize)
        requires shard { shard < length self.old.under_way.items }
        requires carries { CanCarry self.old conn.old }
        ensures goes { ShardLinkGoesOn NoneOut self.old conn.old self.new conn.new }
        ensures blocked { self.new.blocked ≡ self.old.blocked }
        ensures called { self.new.uncalled ≡ self.old.uncalled }
        ensures same { length self.new.under_way.items ≡ length self.old.under_way.items }
        ensures places { self.new.places ≡ self.old.places }
        ensures kept { KeepsPlace self.old self.new }
    {
        for _ in 0..self.under_way[shard] {
            if !self.receive_next(conn, shard) {
                return;
            }
        }
    }

    /// Receives the next reply from one shard, and returns whether it did: not if none is awaited,
    /// or none has come.
    fn receive_next(&mut self, conn: &mut Conn, shard: usize) -> bool
        requires shard { shard < length self.old.under_way.items }
        requires carries { CanCarry self.old conn.old }
        ensures goes { ShardLinkGoesOn NoneOut self.old conn.old self.new conn.new }
        ensures blocked { self.new.blocked ≡ self.old.blocked }
        ensures called { self.new.uncalled ≡ self.old.uncalled }
        ensures same { length self.new.under_way.items ≡ length self.old.under_way.items }
        ensures places { self.new.places ≡ self.old.places }
        ensures kept { KeepsPlace self.old self.new }
    {
        let Some(left) = self.under_way[shard].checked_sub(1) else {
            return false;
        };
        let Some((reply, token)) = self.ends.receive_with(shard) else {
            return false;
        };
        self.clerk.hear(shard, token, &reply);
        self.under_way[shard] = left;
        // A reply that nobody awaits never comes.
        let _ = conn.accept(reply);
        true
    }

    /// Serves the line a step further: receives the replies that have come, and sends pieces while
    /// there is room. Once every reply has come, it reads and writes as [`BufferedConn::go_on`]
    /// does, and sends the pieces of what was taken. It never blocks. It receives before it sends: where a channel is full then, replies
    /// are still to come on it, which end the wait. What was taken is recorded first, and the
    /// replies are written with the clerk's evidence.
    pub(crate) fn step<L: Transport<Warrant = T>, K: Clock>(
        &mut self,
        buffered_conn: &mut BufferedConn,
        line: &mut L,
        clock: &K,
        pool: &mut BufferPool,
    ) -> LineStep
        requires { ServesSomeLine (K.may_answer clock.now) (L.place line.old) (L.sight line.old)
            self.old buffered_conn.old }
        ensures says { (shards : ℕ) (rules : Rules) (begin : Sight) (before : Ends Near) →
            IsServedBy shards rules (K.may_answer clock.now) begin (L.sight line.old) before
            self.old buffered_conn.old →
            LineSays result shards rules (K.may_answer clock.now) begin (L.sight line.new) before
            self.new buffered_conn.new }
        // Where it waits, each shard of which replies are awaited was called after the last piece
        // was sent.
        ensures called { result ≡ LineStep.Waits →
            AreCalled self.new.shards self.new.under_way.items }
        // It waits for nothing but replies of shards, and once all have come for its line.
        ensures waits { result ≡ LineStep.Waits →
            AwaitsShards self.new ⊎ WaitsForLine buffered_conn.new }
        ensures places { self.new.places ≡ self.old.places }
        ensures kept { KeepsPlace self.old self.new }
        ensures place { L.place line.new ≡ L.place line.old }
    {
        self.note_taken(&buffered_conn.conn);
        self.receive_all(&mut buffered_conn.conn);
        self.send_all(&mut buffered_conn.conn);
        if !self.is_idle() {
            return LineStep::Waits;
        }
        if self.blocked {
            // No reply would end this wait.
            return LineStep::Did;
        }
        let seen = self.evidence();
        let step = buffered_conn.go_on(line, clock, pool, &seen);
        if let LineStep::Did = step {
            return self.send_taken(buffered_conn, clock);
        }
        step
    }

    /// Records what the connection has taken since, and sends its pieces while there is room.
    /// It waits where replies are awaited then.
    #[inline(always)]
    fn send_taken<K: Clock>(&mut self, buffered_conn: &mut BufferedConn, clock: &K) -> LineStep
        requires { CanRecord self.old buffered_conn.old.conn }
        ensures says { (shards : ℕ) (rules : Rules) (begin now : Sight) (before : Ends Near) →
            IsServedBy shards rules (K.may_answer clock.now) begin now before
            self.old buffered_conn.old →
            LineSays result shards rules (K.may_answer clock.now) begin now before
            self.new buffered_conn.new }
        ensures called { result ≡ LineStep.Waits →
            AreCalled self.new.shards self.new.under_way.items }
        ensures waits { result ≡ LineStep.Waits → AwaitsShards self.new }
        ensures places { self.new.places ≡ self.old.places }
        ensures kept { KeepsPlace self.old self.new }
    {
        // Contracts alone need the clock.
        let _ = clock;
        let taken = &buffered_conn.conn;
        self.note_taken(taken);
        self.send_all(&mut buffered_conn.conn);
        if self.is_idle() {
            return LineStep::Did;
        }
        LineStep::Waits
    }

    /// Returns the clerk, once the seat serves no more lines.
    pub(crate) fn into_clerk(self) -> C
        ensures clerk { result ≡ self.clerk }
        ensures routes { C.keeps → AreOnRoutes (C.route result) self.ends }
    {
        let ShardLink { clerk, .. } = self;
        clerk
    }

    /// Sends the shard the End of its channel if there is room, and returns whether it did.
    pub(crate) fn end_channel(&mut self, shard: usize) -> bool
        requires { shard < length self.old.ends.channels }
        ensures ended { OnTrue result (EndsOne shard self.old.ends self.new.ends) }
        ensures full { OnFalse result (StandsStill self.old.ends self.new.ends) }
        ensures places { self.new.places ≡ self.old.places }
        ensures route { C.route self.new.clerk ≡ C.route self.old.clerk }
        ensures recorded { (ends : Ends Near) → RecordsPastOf self.old ends →
            RecordsPastOf self.new ends }
    {
        let token = self.clerk.token();
        match self.ends.send_with(shard, Request::End, token) {
            Ok(()) => {
                self.shards.call_last(shard);
                true
            }
            Err(_) => false,
        }
    }
}
