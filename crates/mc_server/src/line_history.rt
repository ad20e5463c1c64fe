//! The history of one line that is served without threads.
ghost use Rattle.std.specs.Prelude.{◌≡◌, List, IfOk, [], ◌∷◌, ◌++◌};
ghost use Rattle.std.specs.List.{AllByRecursion};
ghost use Rattle.mc_conn.specs.Conn.{IsConn};
ghost use Rattle.mc_conn.specs.History.{Taken};
ghost use Rattle.mc_conn.specs.Flow.{Flow};
ghost use Rattle.mc_model.specs.Log.{Entry, reply_to};
ghost use Rattle.mc_record.specs.Opening.{IsOpening};
ghost use Rattle.mc_ring.specs.Reply.{shown};
ghost use Rattle.mc_transport.specs.Place.{Place, unbegun};
ghost use Rattle.mc_sizes.specs.declared.sizes.Sizes.{Sizes};
ghost use Rattle.mc_wire.specs.Sink.{Sight};
ghost use Rattle.mc_server.specs.internal.Recording.{CanNote, CanNoteRun, IsFresh, IsHistoryOf, IsWhole, entry_for};

use mc_conn::Conn;
use mc_history::Evidence;
use mc_record::{Opening, Recorder, SeatClerk};
use mc_ring::Reply;
use mc_sizes::Sizes;
use mc_split::Piece;
use mc_transport::{Clerk, Transport};
use mc_worker::Scribe;
use std::alloc::{AllocError, Global};
use std::snapshot::Snapshot;

/// Opens the history of one line over shards of these sizes, with one slot. Returns it with
/// evidence of it, for the line that is made. It fails if memory is refused.
pub fn open_one(alloc: Global, sizes: Sizes) -> Result<(Opening, Evidence), AllocError>
    ensures opening { IfOk result (λ opened. IsOpening (record sizes { seats = 1 })
        opened.0.recorders.items opened.0.clerks.items opened.0.witness) }
    ensures name { IfOk result (λ opened. opened.1.name ≡ opened.0.witness.name) }
{
    let mut opening = Opening::new(alloc, Sizes { seats: 1, ..sizes })?;
    let seen = opening.show();
    Ok((opening, seen))
}

/// The history of one line: the clerk of its slot, and the recorder of each shard. Its events are
/// visible to contracts alone.
#[derive(Drop)]
pub(crate) struct LineHistory {
    pub(crate) clerk: SeatClerk,
    recorders: Vec<Recorder>,
}

impl LineHistory {
    /// The history that was opened for one slot.
    pub(crate) fn of(opening: Opening) -> LineHistory
        requires opening { IsOpening opening.witness.name.sizes opening.recorders.items
            opening.clerks.items opening.witness }
        requires one { opening.witness.name.sizes.seats ≡ 1 }
        ensures fresh { IsFresh opening.witness.name.sizes result.clerk result.recorders.items }
        ensures name { result.clerk.name ≡ opening.witness.name }
    {
        let Opening {
            recorders,
            mut clerks,
            source: _source,
            witness: _witness,
        } = opening;
        let Some(clerk) = clerks.pop() else {
            unreachable!()
        };
        LineHistory { clerk, recorders }
    }

    /// Records that the line's connection is opened, and shows it to the line.
    pub(crate) fn begin<L: Transport<Warrant = Evidence>>(&mut self, line: &mut L)
        requires new { L.place line.old ≡ unbegun self.old.clerk.name }
        ensures begins { (sizes : Sizes) → IsFresh sizes self.old.clerk self.old.recorders.items →
            IsHistoryOf sizes (L.place line.new) (L.sight line.old) [] [] self.new.clerk
            self.new.recorders.items }
        ensures sight { L.sight line.new ≡ L.sight line.old }
    {
        let seen = self.clerk.open();
        line.begin(seen);
    }

    /// Records what the connection took beyond what is recorded.
    pub(crate) fn note_taken(&mut self, conn: &Conn)
        requires { CanNote self.old.clerk self.old.recorders.items conn.now }
        ensures { (sizes : Sizes) (place : Place) (begin : Sight) (flow : Flow)
            (log : List Entry) → IsConn conn.now flow →
            IsHistoryOf sizes place begin flow.taken log self.old.clerk self.old.recorders.items →
            IsWhole sizes place begin flow.taken log self.new.clerk self.new.recorders.items }
    {
        self.clerk.take_all(conn);
    }

    /// Records that the next piece was run on this shard, with this reply.
    pub(crate) fn note_run(&mut self, shard: usize, piece: Snapshot<Piece>, reply: &Reply)
        requires may { CanNoteRun self.old.clerk self.old.recorders.items shard piece.value
            reply.now.answer }
        requires reply { shown reply.now ≡ reply_to (entry_for shard piece.value reply.now.answer) }
        ensures { (sizes : Sizes) (place : Place) (begin : Sight) (taken : List Taken)
            (log : List Entry) → AllByRecursion (λ entry. entry.asker ≡ 0) log →
            IsWhole sizes place begin taken log self.old.clerk self.old.recorders.items →
            IsWhole sizes place begin taken
            (log ++ entry_for shard piece.value reply.now.answer ∷ [])
            self.new.clerk self.new.recorders.items }
    {
        let sent = self.clerk.token();
        let recorder = &mut self.recorders[shard];
        recorder.runs(0, sent, piece, &reply.answer);
        let given = recorder.token();
        self.clerk.hear(shard, given, reply);
    }
}
