//! Events of the rings: pieces are sent to shards and run, replies are returned.
ghost use Rattle.mc_sim.specs.Stands.{StepsByEvent};
ghost use Rattle.mc_model.specs.Events.Event.{Send, Pop, Give, Receive};

use crate::sim::{LogEntry, Sim};
use mc_model::StepReply;
use std::alloc::Global;

impl Sim {
    /// Sends the slot's oldest unsent piece to its shard's ring.
    pub(crate) fn send(&mut self, seat: usize) -> StepReply
        ensures { StepsByEvent self.old (Send seat) result self.new }
    {
        let Some(_) = self.find(seat) else {
            return StepReply::Idle;
        };
        let Some((shard, piece)) = self.seats[seat].conn.next_piece() else {
            return StepReply::Idle;
        };
        match self.rings.send(seat, shard, piece) {
            Ok(()) => StepReply::Done,
            Err(piece) => {
                self.seats[seat].conn.not_sent(shard, piece);
                StepReply::Idle
            }
        }
    }

    /// The shard takes the oldest piece that the slot sent, and runs it.
    pub(crate) fn pop(&mut self, alloc: Global, shard: usize, seat: usize) -> StepReply
        ensures { StepsByEvent self.old (Pop shard seat) result self.new }
    {
        let Some(connection) = self.find(seat) else {
            return StepReply::Idle;
        };
        if !self.rings.waits(shard, seat) {
            return StepReply::Idle;
        }
        if self.log.reserve(1).is_err() {
            return StepReply::NoMemory;
        }
        let Some(ran) = self.rings.pop(alloc, shard, seat) else {
            return StepReply::Idle;
        };
        self.log.push_reserved(LogEntry {
            shard,
            connection,
            ticket: ran.ticket,
            part: ran.part,
            moment: ran.moment,
        });
        StepReply::Done
    }

    /// The shard sends the reply that its worker holds.
    pub(crate) fn give(&mut self, alloc: Global, shard: usize) -> StepReply
        ensures { StepsByEvent self.old (Give shard) result self.new }
    {
        if self.rings.give(alloc, shard) {
            StepReply::Done
        } else {
            StepReply::Idle
        }
    }

    /// The slot receives the oldest reply that the shard sent to it.
    pub(crate) fn receive(&mut self, seat: usize, shard: usize) -> StepReply
        ensures { StepsByEvent self.old (Receive seat shard) result self.new }
    {
        let Some(_) = self.find(seat) else {
            return StepReply::Idle;
        };
        let Some(reply) = self.rings.receive(seat, shard) else {
            return StepReply::Idle;
        };
        // Can't fail: the reply answers a piece of an open command.
        let _ = self.seats[seat].conn.accept(reply);
        StepReply::Done
    }
}
