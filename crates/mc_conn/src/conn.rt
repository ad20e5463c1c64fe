//! One connection: the bytes that come in, the pieces that go to the shards and come back answered,
//! and the replies that go out.
ghost use Rattle.std.specs.Prelude.{◌≡◌, ◌+◌, ◌<◌, ◌≤◌, ◌++◌, ◌∷◌, ◌↔◌, ℕ, List, [], Some, true, false, IfOk, IfErr, IfSome, IfNone, OnOk, OnErr, IsTrue, length, take};
ghost use Rattle.std.specs.List.{slice_get};
ghost use Rattle.mc_ring.specs.Reply.{shown};
ghost use Rattle.mc_command.specs.Rules.{own};
ghost use Rattle.mc_reader.specs.Spelling.{HasNoEnd, most_commands};
ghost use Rattle.mc_join.specs.Length.{capped};
ghost use Rattle.mc_join.specs.Expects.{Expects};
ghost use Rattle.mc_conn.specs.Shutdown.{asks_shutdown};
ghost use Rattle.mc_conn.specs.Flow.{Flow, IsAtRest, IsNotAllTaken, IsAllTaken, IsOpen, IsOver, IsShut, EndsAmidSkipped, IsUsedUp, LeavesUnread, all_pending_replies, all_pieces, all_texts, new_flow, waiting_text};

use crate::dispatcher::Dispatcher;
use crate::resting::RestingConn;
use crate::source::StatsSource;
use crate::taken_log::TakenLog;
use mc_budget::ClientMemory;
use mc_command::Rules;
use mc_join::{Gone, ReorderBuffer, UnexpectedReply};
use mc_reader::{Memory, Reader, Step};
use mc_reply::Ticket;
use mc_ring::Reply;
use mc_split::{Piece, PieceQueue, Planner};
use mc_wire::{MAX_LINE_LIMIT, MAX_VALUE_LIMIT, Sink};
use std::alloc::Global;

/// What `Conn::take` returns.
#[derive(Clone, Copy, Debug, PartialEq, Eq)]
pub enum Taken {
    /// A command was taken, and has this ticket.
    Opened(Ticket),
    /// All commands that the bytes fed spell were taken.
    NeedMore,
    /// As many commands are open as the window has room for.
    Full,
    /// No command comes any more: the connection is closed or broken.
    Closed,
}

/// One connection. A command is open from when it is taken until its reply is handed out; at most a
/// window of them are open at a time.
///
/// The contracts speak of a connection by what came in and what went out so far, as lists: `Flow`.
/// `IsConn conn flow` says that the connection is what these make of it. `IfConn conn (λ flow. ..)`
/// says something of them, whatever they are. Each call says how they grow.
pub struct Conn {
    reader: Reader,
    dispatcher: Dispatcher,
    /// The piece that was put back. It is the oldest, and has a place of its own so that putting it
    /// back takes no memory.
    put_back: Option<(usize, Piece)>,
    broken: bool,
}

impl Drop for Conn {
    /// Written by hand, so that its owners drop it by a single call (docs/DECISIONS.md, F20).
    fn drop(self) {
        let Conn {
            reader: _reader,
            dispatcher: _dispatcher,
            put_back: _put_back,
            broken: _broken,
        } = self;
    }
}

impl Conn {
    ghost use Rattle.mc_conn.specs.Conn.{IsConn, IfConn, IsAwaiting, TakeSays, HandsOut, FailsToHand, RestsAs, SkipsBytes, StaysSilent, held_bytes};

    /// A new connection over `shards` shards by this server's own rules, for values of at most
    /// `limit` bytes and with this window. It takes the room for the longest line and for the open
    /// commands. `Memory`: memory ran out.
    pub fn new(alloc: Global, shards: usize, limit: usize, window: usize) -> Result<Conn, Memory>
        requires shards { 0 < shards }
        requires limit { limit ≤ MAX_VALUE_LIMIT }
        requires window { 0 < window }
        ensures { IfOk result (λ conn. IsConn conn (new_flow shards (own limit) window)) }
    {
        Conn::under(alloc, shards, Rules::own(limit), window)
    }

    /// A new connection over `shards` shards by these rules and with this window. It takes the room
    /// for the longest line and for the open commands. `Memory`: memory ran out.
    pub fn under(alloc: Global, shards: usize, rules: Rules, window: usize) -> Result<Conn, Memory>
        requires shards { 0 < shards }
        requires limit { rules.value_limit ≤ MAX_VALUE_LIMIT }
        requires line { rules.line_limit ≤ MAX_LINE_LIMIT }
        requires window { 0 < window }
        ensures { IfOk result (λ conn. IsConn conn (new_flow shards rules window)) }
    {
        Conn::sharing(alloc, shards, rules, window, ClientMemory::unlimited())
    }

    /// As `under`, and the memory of each incomplete data block is leased from what connections
    /// share.
    #[tactic(auto, unfolding(crate::specs::Conn::IsConn))]
    pub fn sharing(
        alloc: Global,
        shards: usize,
        rules: Rules,
        window: usize,
        memory: ClientMemory,
    ) -> Result<Conn, Memory>
        requires shards { 0 < shards }
        requires limit { rules.value_limit ≤ MAX_VALUE_LIMIT }
        requires line { rules.line_limit ≤ MAX_LINE_LIMIT }
        requires window { 0 < window }
        ensures { IfOk result (λ conn. IsConn conn (new_flow shards rules window)) }
    {
        Ok(Conn {
            reader: Reader::sharing(alloc, rules, memory)?,
            dispatcher: Dispatcher {
                reorder_buffer: ReorderBuffer::new(alloc, window)?,
                unsent: PieceQueue::new(alloc),
                planner: Planner {
                    alloc,
                    ticket: Ticket(0),
                    moment: 0,
                    shards,
                },
                stats_asked: false,
                log: TakenLog::new(),
            },
            put_back: None,
            broken: false,
        })
    }

    /// Takes a front of the piece and returns its length in bytes: 0 on an ended or broken
    /// connection. Allocates nothing.
    #[tactic(auto, unfolding(crate::specs::Conn::IsConn, crate::specs::Conn::IsAwaiting))]
    pub fn feed(&mut self, piece: &[u8]) -> usize
        ensures within { result ≤ length piece.now }
        ensures fed { IfConn self.old (λ flow.
            IsConn self.new (record flow { fed = flow.fed ++ take result piece.now })) }
        // Some byte is taken right after `take` answered `NeedMore`.
        ensures progress { IfConn self.old (λ flow. IsOpen flow → IsAllTaken flow →
            IsAwaiting self.old → 0 < length piece.now → 0 < result) }
        // The whole of a piece that isn't too long is taken where every byte before it is part of a
        // command taken.
        ensures whole { IfConn self.old (λ flow. IsOpen flow → IsUsedUp flow →
            length piece.now ≤ flow.rules.line_limit → result ≡ length piece.now) }
        // After the last command everything is taken, and dropped.
        ensures shut { IfConn self.old (λ flow. IsOpen flow → IsShut flow →
            result ≡ length piece.now) }
        ensures ended { IfConn self.old (λ flow. IsTrue flow.ended → result ≡ 0) }
        ensures broken { IfConn self.old (λ flow. IsTrue flow.broken → result ≡ 0) }
    {
        if self.broken {
            return 0;
        }
        self.reader.feed(piece)
    }

    /// Ends the input: no more bytes come. It takes no memory.
    #[tactic(auto, unfolding(crate::specs::Conn::IsConn))]
    pub fn end(&mut self)
        ensures { IfConn self.old (λ flow. IsConn self.new (record flow { ended = true })) }
    {
        self.reader.end();
    }

    /// Whether the connection is closed or broken. It takes no memory.
    #[tactic(auto, unfolding(crate::specs::Conn::IsConn))]
    pub fn is_over(&self) -> bool
        ensures over { IfConn self.now (λ flow. IsTrue result ↔ IsOver flow) }
        // A stream has at most `most_commands` commands.
        ensures most { IfConn self.now (λ flow. flow.broken ≡ false →
            length flow.taken ≤ most_commands) }
    {
        if self.broken {
            return true;
        }
        self.reader.is_closed() || (self.reader.is_ended() && !self.whole())
    }

    /// Takes the next command, at this moment in seconds since 1970. Tickets count from 0. A
    /// command for which memory runs out is taken all the same: its reply is "out of memory"
    /// (protocol.txt, "Error strings"), and no shard is asked. Where the command is `stats`, the
    /// source is asked what it shows of the server, and for no other.
    #[tactic(auto, unfolding(crate::specs::Conn::IsConn, crate::specs::Conn::IsAwaiting))]
    pub fn take<S: StatsSource>(&mut self, alloc: Global, moment: u64, source: &S) -> Taken
        ensures says { TakeSays self.old moment (S.may_show source.now) result self.new }
        ensures over { IfConn self.old (λ flow. IsOver flow → result ≡ Taken.Closed) }
    {
        if self.is_over() {
            return Taken::Closed;
        }
        if self.dispatcher.reorder_buffer.is_full() {
            return Taken::Full;
        }
        let Some(ticket) = self.dispatcher.reorder_buffer.next_ticket() else {
            // The reader returns no more commands than there are tickets, so this is never reached.
            return Taken::Full;
        };
        self.dispatcher.planner.ticket = ticket;
        self.dispatcher.planner.moment = moment;
        self.dispatcher.stats_asked = false;
        match self.reader.next_into(alloc, &mut self.dispatcher) {
            Step::Gave => {
                self.dispatcher.open_noted(source);
                Taken::Opened(ticket)
            }
            Step::NeedMore => Taken::NeedMore,
            Step::Closed => Taken::Closed,
        }
    }

    /// Whether `next_piece` would return a piece. It takes no memory.
    #[tactic(auto, unfolding(crate::specs::Conn::IsConn))]
    pub fn has_piece(&self) -> bool
        ensures { IfConn self.now (λ flow.
            (result ≡ false) ↔ (flow.out ≡ length (all_pieces flow))) }
    {
        self.put_back.is_some() || !self.dispatcher.unsent.is_empty()
    }

    /// Takes out the oldest piece that has not left, with its shard. It takes no memory.
    #[tactic(auto, unfolding(crate::specs::Conn::IsConn))]
    pub fn next_piece(&mut self) -> Option<(usize, Piece)>
        ensures some { IfSome result (λ piece. IfConn self.old (λ flow.
            (slice_get (all_pieces flow) flow.out ≡ Some piece) ×
            IsConn self.new (record flow { out = flow.out + 1; lent = true }))) }
        ensures none { IfNone result (IfConn self.old (λ flow.
            (flow.out ≡ length (all_pieces flow)) × IsConn self.new flow)) }
    {
        if self.put_back.is_some() {
            return self.put_back.take();
        }
        self.dispatcher.unsent.pop()
    }

    /// Puts the piece that was taken out last back in front, with its shard. It takes no memory.
    #[tactic(auto, unfolding(crate::specs::Conn::IsConn))]
    pub fn not_sent(&mut self, shard: usize, piece: Piece)
        ensures { (flow : Flow) (before : ℕ) → IsConn self.old flow → IsTrue flow.lent →
            flow.out ≡ before + 1 → slice_get (all_pieces flow) before ≡ Some (shard, piece) →
            IsConn self.new (record flow { out = before; lent = false }) }
    {
        self.put_back = Some((shard, piece));
    }

    /// Accepts the answer to a piece, whichever open command and part it belongs to; of a broken
    /// connection too. `UnexpectedReply`: no such answer is awaited, and the reply is handed back
    /// unchanged. It takes no memory.
    #[inline(always)]
    #[tactic(auto, unfolding(crate::specs::Conn::IsConn))]
    pub fn accept(&mut self, reply: Reply) -> Result<(), UnexpectedReply>
        ensures ok { OnOk result (IfConn self.old (λ flow.
            Expects (all_pending_replies flow) flow.accepted (shown reply) ×
            IsConn self.new (record flow { accepted = flow.accepted ++ shown reply ∷ [] }))) }
        ensures unexpected_reply { IfErr result
            (λ unexpected_reply. shown unexpected_reply.reply ≡ shown reply) }
        ensures err { OnErr result (IfConn self.old (λ flow.
            (¬ Expects (all_pending_replies flow) flow.accepted (shown reply)) ×
            IsConn self.new flow)) }
    {
        self.dispatcher.reorder_buffer.accept(reply)
    }

    /// How many bytes `hand` would write, `u64::MAX` where they are more; of a broken connection 0.
    /// It takes no memory.
    #[tactic(auto, unfolding(crate::specs::Conn::IsConn))]
    pub fn ready(&self) -> u64
        ensures whole { IfConn self.now (λ flow. flow.broken ≡ false →
            result ≡ capped (length (waiting_text flow))) }
        ensures broken { IfConn self.now (λ flow. IsTrue flow.broken → result ≡ 0) }
    {
        if self.broken {
            return 0;
        }
        self.dispatcher.reorder_buffer.ready()
    }

    /// To how many commands `hand` would hand out the reply, silent ones among them; of a broken
    /// connection to none. It takes no memory.
    #[tactic(auto, unfolding(crate::specs::Conn::IsConn))]
    pub fn passes(&self) -> usize
        ensures whole { IfConn self.now (λ flow. flow.broken ≡ false →
            flow.handed + result ≡ length (all_texts flow)) }
        ensures broken { IfConn self.now (λ flow. IsTrue flow.broken → result ≡ 0) }
    {
        if self.broken {
            return 0;
        }
        self.dispatcher.reorder_buffer.passes()
    }

    /// Writes the replies whose turn has come, a silent one as nothing, and returns how many
    /// commands they answer. A broken connection writes nothing and returns 0. Allocates nothing.
    /// `Gone`: the sink failed. It took a prefix of what was due, and the connection is broken.
    pub fn hand<O: Sink>(&mut self, out: &mut O) -> Result<u64, Gone>
        ensures ok { IfOk result (λ count. IfConn self.old (λ flow. flow.broken ≡ false →
            HandsOut flow count self.new (O.sight out.old) (O.sight out.new))) }
        ensures gone { OnErr result (IfConn self.old (λ flow.
            FailsToHand flow self.new (O.sight out.old) (O.sight out.new))) }
        ensures silent { IfOk result (λ count. IfConn self.old (λ flow. IsTrue flow.broken →
            StaysSilent flow count self.new (O.sight out.old) (O.sight out.new))) }
    {
        let handed = self.hand_due(out);
        self.free_spare();
        handed
    }

    /// Writes the replies, as `hand` does.
    #[inline(always)]
    #[tactic(auto, using(crate::proofs::Handing::none_waits, crate::proofs::Handing::all_together), unfolding(crate::specs::Conn::IsConn))]
    fn hand_due<O: Sink>(&mut self, out: &mut O) -> Result<u64, Gone>
        ensures ok { IfOk result (λ count. IfConn self.old (λ flow. flow.broken ≡ false →
            HandsOut flow count self.new (O.sight out.old) (O.sight out.new))) }
        ensures gone { OnErr result (IfConn self.old (λ flow.
            FailsToHand flow self.new (O.sight out.old) (O.sight out.new))) }
        ensures silent { IfOk result (λ count. IfConn self.old (λ flow. IsTrue flow.broken →
            StaysSilent flow count self.new (O.sight out.old) (O.sight out.new))) }
    {
        if self.broken {
            return Ok(0);
        }
        let handed = self.dispatcher.reorder_buffer.hand(out);
        self.broken = handed.is_err();
        handed
    }

    /// Frees memory for unsent pieces that an idle connection doesn't need, where no command is
    /// left to take.
    #[inline(always)]
    fn free_spare(&mut self)
        ensures { self.new ≡ self.old }
    {
        if self.dispatcher.unsent.has_spare() && !self.whole() {
            self.dispatcher.unsent.free_spare();
        }
    }

    /// Breaks the connection: no byte is read or written any more, while the pieces of the commands
    /// taken still leave and their answers are accepted. It takes no memory.
    #[tactic(auto, unfolding(crate::specs::Conn::IsConn))]
    pub fn broken(&mut self)
        ensures { IfConn self.old (λ flow. IsConn self.new (record flow { broken = true })) }
    {
        self.broken = true;
    }

    /// Whether a command taken asks for the server's end: `shutdown`, after which nothing is read.
    /// It takes no memory.
    pub fn asks_shutdown(&self) -> bool
        ensures { IfConn self.now (λ flow. result ≡ asks_shutdown flow.taken) }
    {
        self.dispatcher.log.asks_shutdown()
    }

    /// Whether a command that the bytes fed spell is not taken yet. It takes no memory.
    #[tactic(auto, unfolding(crate::specs::Conn::IsConn))]
    pub fn whole(&self) -> bool
        ensures whole { IfConn self.now (λ flow. IsTrue result ↔ IsNotAllTaken flow) }
        ensures all { IfConn self.now (λ flow. (result ≡ false) ↔ IsAllTaken flow) }
    {
        self.reader.whole()
    }

    /// How many bytes are held that are not part of a command taken: those that are unread, and
    /// those of a data block that is being read. It takes no memory.
    #[tactic(auto, unfolding(crate::specs::Conn::IsConn, crate::specs::Conn::held_bytes, crate::specs::Conn::SkipsBytes))]
    pub fn held(&self) -> usize
        ensures value { result ≡ held_bytes self.now }
        ensures most { IfConn self.now (λ flow.
            result ≤ flow.rules.line_limit + flow.rules.value_limit + 2) }
        // No more than the bytes fed that are not part of a command taken, until the last command
        // is taken.
        ensures unread { IfConn self.now (λ flow. (unread : List ℕ) →
            LeavesUnread flow unread → result ≤ length unread) }
        // A line whose end has not come is held whole.
        ensures line { IfConn self.now (λ flow. (unread : List ℕ) →
            LeavesUnread flow unread → HasNoEnd unread → result ≡ length unread) }
        // A block that is skipped is not held.
        ensures skipping { IfConn self.now (λ flow. EndsAmidSkipped flow →
            result ≤ flow.rules.line_limit) }
        // Nor is one that memory ran out for.
        ensures skipped { SkipsBytes self.now → result ≤ self.now.reader.rules.line_limit }
    {
        self.reader.held()
    }

    /// Whether nothing is under way: no command unread, no piece unsent and no command open; of a
    /// broken connection, no piece unsent and none unanswered. It takes no memory.
    #[tactic(auto, unfolding(crate::specs::Conn::IsConn))]
    pub fn is_at_rest(&self) -> bool
        ensures { IfConn self.now (λ flow. IsTrue result ↔ IsAtRest flow) }
    {
        if self.has_piece() {
            return false;
        }
        if self.broken {
            return self.dispatcher.reorder_buffer.passes()
                == self.dispatcher.reorder_buffer.waiting();
        }
        !self.whole() && self.dispatcher.reorder_buffer.waiting() == 0
    }

    /// The numbers of the connection, if nothing else is to be kept: no byte is unread, no command
    /// is open, no piece is unsent, and it is neither closed nor broken. It takes no memory.
    #[inline(always)]
    pub fn at_rest(&self) -> Option<RestingConn>
        ensures rests { IfSome result (λ resting. RestsAs resting self.now) }
        ensures goes_on { IfSome result (λ _. IfConn self.now (λ flow. ¬ IsOver flow)) }
    {
        let replies = self.dispatcher.reorder_buffer.at_rest()?;
        if self.put_back.is_some() || !self.dispatcher.unsent.is_empty() {
            return None;
        }
        let reader = self.reader.at_rest()?;
        if self.broken || self.is_over() {
            return None;
        }
        Some(RestingConn {
            reader,
            replies,
            planner: self.dispatcher.planner,
            log: self.dispatcher.log.same(),
        })
    }

    /// Becomes the connection that rested, and returns whether it did: only if it is at rest
    /// itself, and has the same line limit and the same window. Allocates nothing.
    #[inline(always)]
    pub fn resume(&mut self, resting: &RestingConn) -> bool
        ensures { IsTrue result → RestsAs resting.now self.new }
    {
        if self.put_back.is_some() || !self.dispatcher.unsent.is_empty() {
            return false;
        }
        if !self.reader.resume(&resting.reader)
            || !self.dispatcher.reorder_buffer.resume(&resting.replies)
        {
            return false;
        }
        self.dispatcher.planner = resting.planner;
        self.dispatcher.stats_asked = false;
        self.dispatcher.log = resting.log.same();
        self.broken = false;
        true
    }

    /// Resets the state for the next connection if this one is at rest and closed or broken, and
    /// returns whether it did. Otherwise nothing changes. Allocates nothing.
    pub fn renew(&mut self) -> bool
        ensures when { IfConn self.old (λ flow. IsTrue result ↔ (IsAtRest flow × IsOver flow)) }
        ensures new { IsTrue result → IfConn self.old (λ flow.
            IsConn self.new (new_flow flow.shards flow.rules flow.window)) }
        ensures same { result ≡ false → self.new ≡ self.old }
    {
        let renewed = self.reset();
        self.free_spare();
        renewed
    }

    /// Begins the next connection, as `renew` does.
    #[tactic(auto, unfolding(crate::specs::Conn::IsConn))]
    fn reset(&mut self) -> bool
        ensures when { IfConn self.old (λ flow. IsTrue result ↔ (IsAtRest flow × IsOver flow)) }
        ensures new { IsTrue result → IfConn self.old (λ flow.
            IsConn self.new (new_flow flow.shards flow.rules flow.window)) }
        ensures same { result ≡ false → self.new ≡ self.old }
    {
        if !self.is_at_rest() || !self.is_over() {
            return false;
        }
        self.reader.reset();
        self.dispatcher.reorder_buffer.reset();
        self.dispatcher.log = TakenLog::new();
        self.broken = false;
        true
    }
}
