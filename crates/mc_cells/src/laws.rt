//! The laws of kept values, for proofs of those who keep them.
ghost use Rattle.mc_cells.specs.Laws.{KeptIsThere, OrderIsFree, PlacesDiffer};

/// Does nothing: its contract states what follows from that values are kept.
pub fn every_kept()
    ensures there { KeptIsThere }
    ensures order { OrderIsFree }
    ensures places { PlacesDiffer }
{}
