//! Events of a connection: open, bytes in, commands parsed, replies out, end and failure.
ghost use Rattle.std.specs.Prelude.{◌≡◌, ◌<◌, ◌≤◌, ◌+◌, ◌↔◌, false, IsTrue, length};
ghost use Rattle.mc_conn.specs.Conn.{IfConn};
ghost use Rattle.mc_conn.specs.Flow.{IsAllTaken, IsOpen, waiting_text};
ghost use Rattle.mc_sim.specs.Feeding.{FeedsInto, HandsInto, HandsOnto, MayBegin, MayTake, Refreshed, TakesBytes};
ghost use Rattle.mc_sim.specs.Stands.{StepsByEvent};
ghost use Rattle.mc_model.specs.Events.Event.{Open, Feed, Take, Hand, End, Break};

use crate::sim::page::Page;
use crate::sim::{Connection, Seat, Sim};
use mc_conn::{Conn, Taken};
use mc_model::StepReply;
use mc_reply::ServerStats;
use std::alloc::Global;

impl Sim {
    /// Ends the input.
    pub(crate) fn end(&mut self, seat: usize) -> StepReply
        ensures { StepsByEvent self.old (End seat) result self.new }
    {
        let Some(number) = self.find(seat) else {
            return StepReply::Idle;
        };
        if self.connections[number].ended {
            return StepReply::Idle;
        }
        self.connections[number].ended = true;
        self.seats[seat].conn.end();
        StepReply::Done
    }

    /// The connection fails.
    pub(crate) fn cut(&mut self, seat: usize) -> StepReply
        ensures { StepsByEvent self.old (Break seat) result self.new }
    {
        let Some(number) = self.find(seat) else {
            return StepReply::Idle;
        };
        if self.connections[number].broken {
            return StepReply::Idle;
        }
        self.connections[number].broken = true;
        self.seats[seat].conn.broken();
        StepReply::Done
    }

    /// Parses the next command.
    pub(crate) fn take(&mut self, alloc: Global, seat: usize, moment: u64) -> StepReply
        ensures { StepsByEvent self.old (Take seat moment) result self.new }
    {
        let Some(_) = self.find(seat) else {
            return StepReply::Idle;
        };
        match self.seats[seat]
            .conn
            .take(alloc, moment, &ServerStats::none())
        {
            Taken::Opened(_) => StepReply::Done,
            Taken::NeedMore => StepReply::Idle,
            Taken::Full => StepReply::Idle,
            Taken::Closed => StepReply::Idle,
        }
    }

    /// Opens a new connection on the slot.
    pub(crate) fn begin(&mut self, alloc: Global, seat: usize) -> StepReply
        ensures { StepsByEvent self.old (Open seat) result self.new }
    {
        if self.seats.len() <= seat {
            return StepReply::Idle;
        }
        if !may_begin(&self.seats[seat]) {
            return StepReply::Idle;
        }
        let number = self.connections.len();
        let connection = Connection {
            seat,
            ended: false,
            broken: false,
            fed: Vec::new(alloc),
            handed: Vec::new(alloc),
        };
        if self.connections.push(connection).is_err() {
            return StepReply::NoMemory;
        }
        let place = &mut self.seats[seat];
        place.conn.renew();
        place.current = Some(number);
        StepReply::Done
    }

    /// Feeds bytes.
    pub(crate) fn feed(&mut self, alloc: Global, seat: usize, bytes: &[u8]) -> StepReply
        ensures { StepsByEvent self.old (Feed seat bytes.now) result self.new }
    {
        let Some(number) = self.find(seat) else {
            return StepReply::Idle;
        };
        if !may_take(&self.connections[number], bytes) {
            return StepReply::Idle;
        }
        let place = &mut self.seats[seat];
        let kept = &mut self.connections[number];
        feed_into(alloc, &mut place.conn, &mut kept.fed, bytes)
    }

    /// Writes all replies that are due.
    pub(crate) fn hand(&mut self, alloc: Global, seat: usize) -> StepReply
        ensures { StepsByEvent self.old (Hand seat) result self.new }
    {
        let Some(number) = self.find(seat) else {
            return StepReply::Idle;
        };
        if self.seats[seat].conn.passes() == 0 {
            return StepReply::Idle;
        }
        let place = &mut self.seats[seat];
        let kept = &mut self.connections[number];
        hand_out(alloc, &mut place.conn, &mut kept.handed)
    }
}

/// Whether the slot has had no connection, or its connection may be replaced.
fn may_begin(place: &Seat) -> bool
    ensures { IfConn place.now.conn (λ flow. IsTrue result ↔ MayBegin flow place.now.current) }
{
    place.current.is_none() || (place.conn.is_at_rest() && place.conn.is_over())
}

/// Whether the connection takes bytes: it has neither ended nor failed, and there are some.
fn may_take(kept: &Connection, bytes: &[u8]) -> bool
    ensures { IsTrue result ↔ MayTake kept.now bytes.now }
{
    !kept.ended && !kept.broken && !bytes.is_empty()
}

/// Feeds a connection, and appends the bytes that it took to its input. Memory for all of them is
/// reserved first.
fn feed_into(alloc: Global, conn: &mut Conn, fed: &mut Vec<u8>, bytes: &[u8]) -> StepReply
    ensures { FeedsInto conn.old fed.old.items bytes.now result conn.new fed.new.items }
{
    let before = fed.len();
    if fed.extend_from_slice(bytes).is_err() {
        return StepReply::NoMemory;
    }
    let count = feed_some(alloc, conn, bytes);
    fed.truncate(before + count);
    if count == 0 {
        return StepReply::Idle;
    }
    StepReply::Done
}

/// Feeds a connection, and returns the number of bytes that it took.
fn feed_some(alloc: Global, conn: &mut Conn, bytes: &[u8]) -> usize
    ensures within { result ≤ length bytes.now }
    ensures taken { IfConn conn.old (λ flow. IsOpen flow →
        TakesBytes flow bytes.now result conn.new) }
{
    refresh(alloc, conn);
    conn.feed(bytes)
}

/// Requests the next command of a connection whose commands are all parsed. There is none, so it is
/// ready for more bytes.
fn refresh(alloc: Global, conn: &mut Conn)
    ensures { IfConn conn.old (λ flow. Refreshed flow conn.new) }
{
    if !conn.whole() {
        ask(alloc, conn);
    }
}

/// Requests the next command of a connection whose commands are all parsed.
fn ask(alloc: Global, conn: &mut Conn)
    ensures { IfConn conn.old (λ flow. IsAllTaken flow → Refreshed flow conn.new) }
{
    let _ = conn.take(alloc, 0, &ServerStats::none());
}

/// Writes all replies that are due, after the earlier output. Memory for all of them is reserved
/// first.
fn hand_out(alloc: Global, conn: &mut Conn, handed: &mut Vec<u8>) -> StepReply
    ensures { HandsInto conn.old handed.old.items result conn.new handed.new.items }
{
    let bytes = std::mem::replace(handed, Vec::new(alloc));
    match Page::with_room(bytes, conn.ready()) {
        Ok(page) => hand_onto(conn, page, handed),
        Err(bytes) => {
            *handed = bytes;
            StepReply::NoMemory
        }
    }
}

/// Writes all replies that are due to a page; its bytes become the connection's output.
fn hand_onto(conn: &mut Conn, page: Page, handed: &mut Vec<u8>) -> StepReply
    ensures { IfConn conn.old (λ flow. flow.broken ≡ false → page.failed ≡ false →
        length page.bytes.items + length (waiting_text flow) < page.limit →
        HandsOnto flow page.bytes.items result conn.new handed.new.items) }
{
    let mut page = page;
    let result = conn.hand(&mut page);
    *handed = page.into_bytes();
    match result {
        Ok(_) => StepReply::Done,
        // Never reached: the page has space for all of it.
        Err(_) => StepReply::NoMemory,
    }
}
