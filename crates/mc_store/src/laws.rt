//! The laws of the step, for proofs about runs of one shard or of several.
ghost use Rattle.std.specs.Prelude.{◌≡◌};
ghost use Rattle.mc_store.specs.Laws.{AnswersAreLawful, StepsAgree, OthersStay, DeadGo, UniquesRise, UniquesDiffer, UniquesTell, TokensAreTaken, TimeRises, WinnersAreFirst, SentStays};
ghost use Rattle.mc_store.specs.State.{item_overhead};
ghost use Rattle.mc_store.specs.RunLaws.{RunsAreOrderly, RunsShareNoUnique, RunsLeaveOthers, NewIsGiven, SameUniqueSameItem, ToldAlone};

use crate::ITEM_OVERHEAD;

/// Does nothing: its contract states what follows from the step, whatever the operations and their
/// moments.
pub fn every_step()
    ensures lawful { AnswersAreLawful }
    ensures determined { StepsAgree }
    ensures others { OthersStay }
    ensures dead_go { DeadGo }
    ensures uniques_rise { UniquesRise }
    ensures uniques_differ { UniquesDiffer }
    ensures uniques_tell { UniquesTell }
    ensures tokens_are_taken { TokensAreTaken }
    ensures time { TimeRises }
    ensures winners_are_first { WinnersAreFirst }
    ensures sent_stays { SentStays }
{}

/// Does nothing: its contract states what follows of lists of operations.
pub fn every_run()
    ensures orderly { RunsAreOrderly }
    ensures share_no_unique { RunsShareNoUnique }
    ensures leave_others { RunsLeaveOthers }
    ensures new_is_given { NewIsGiven }
    ensures same_unique_same_item { SameUniqueSameItem }
    ensures told_alone { ToldAlone }
{}

/// What an item costs beside its key and its value is this number.
pub fn overhead()
    ensures { ITEM_OVERHEAD ≡ item_overhead }
{}
