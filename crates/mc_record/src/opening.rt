//! Opening a history.
ghost use Rattle.std.specs.Prelude.{◌≡◌, ◌≤◌, IfOk};
ghost use Rattle.std.specs.Arc.{arc_value};
ghost use Rattle.mc_history.specs.declared.knowledge.Role.TheVariants.{Seat as of_seat, Shard as of_shard};
ghost use Rattle.mc_record.specs.Opening.{ActInOrder, IsOpening};

use crate::clerk::SeatClerk;
use crate::recorder::Recorder;
use mc_history::{Actors, Evidence, History, Member};
use mc_sizes::Sizes;
use std::alloc::{AllocError, Global};
use std::sync::Arc;

/// A new history, as the recorder of each shard and the clerk of each seat, in the order of their
/// numbers. Nothing has happened.
#[derive(Drop)]
pub struct Opening {
    pub recorders: Vec<Recorder>,
    pub clerks: Vec<SeatClerk>,
    /// Shows the history to channels that are made. It acts for no seat of the server.
    pub source: Member,
    /// Shows the history to lines that are made, and joins it at the end. It acts for no seat of
    /// the server.
    pub witness: Member,
    ghost one_history: { source.name ≡ witness.name },
}

impl Opening {
    /// Opens a history for a server of these sizes. It fails if memory is refused.
    pub fn new(alloc: Global, sizes: Sizes) -> Result<Opening, AllocError>
        ensures { IfOk result (λ opening. IsOpening sizes opening.recorders.items
            opening.clerks.items opening.witness) }
    {
        let (history, mut actors) = History::new(alloc, sizes)?;
        let history = Arc::new(alloc, history)?;
        let recorders = recorders_of(alloc, &history, &mut actors, sizes.shards)?;
        let clerks = clerks_of(alloc, &history, &mut actors, sizes.seats)?;
        let source = Member::new(actors.next_seat(&*history), Arc::try_clone(&history)?);
        let witness = Member::new(actors.next_seat(&*history), history);
        Ok(Opening {
            recorders,
            clerks,
            source,
            witness,
        })
    }

    /// Shows the history, for a line that is made.
    pub fn show(&mut self) -> Evidence
        ensures name { result.name ≡ self.old.witness.name }
        ensures same { self.new ≡ self.old }
    {
        self.witness.show()
    }
}

/// The recorders of the first `count` shards.
fn recorders_of(
    alloc: Global,
    history: &Arc<History, Global>,
    actors: &mut Actors,
    count: usize,
) -> Result<Vec<Recorder>, AllocError>
    requires first { actors.old ≡ record { name = arc_value history.now; seats = 0; shards = 0 } }
    requires most { count ≤ (arc_value history.now).sizes.shards }
    ensures recorders { IfOk result (λ recorders.
        ActInOrder of_shard (arc_value history.now) count recorders.items) }
    ensures left { IfOk result (λ _.
        actors.new ≡ record { name = arc_value history.now; seats = 0; shards = count }) }
{
    let mut recorders = Vec::with_capacity(alloc, count)?;
    for _ in 0..count {
        let actor = actors.next_shard(&**history);
        let member = Member::new(actor, Arc::try_clone(history)?);
        recorders.push(Recorder::new(member))?;
    }
    Ok(recorders)
}

/// The clerks of the first `count` seats.
fn clerks_of(
    alloc: Global,
    history: &Arc<History, Global>,
    actors: &mut Actors,
    count: usize,
) -> Result<Vec<SeatClerk>, AllocError>
    requires name { actors.old.name ≡ arc_value history.now }
    requires first { actors.old.seats ≡ 0 }
    requires most { count ≤ (arc_value history.now).sizes.seats }
    ensures clerks { IfOk result (λ clerks.
        ActInOrder of_seat (arc_value history.now) count clerks.items) }
    ensures name { IfOk result (λ _. actors.new.name ≡ arc_value history.now) }
{
    let mut clerks = Vec::with_capacity(alloc, count)?;
    for _ in 0..count {
        let actor = actors.next_seat(&**history);
        let member = Member::new(actor, Arc::try_clone(history)?);
        clerks.push(SeatClerk::new(member))?;
    }
    Ok(clerks)
}
