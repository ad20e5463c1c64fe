//! Laws of the command table, for clients of this crate.
ghost use Rattle.mc_command.specs.FlagOrder.{FlagsInAnyOrder};
ghost use Rattle.mc_command.specs.Laws.{IsNeverOutOfMemory, DataCanBeGivenUp};

/// The table never returns `Memory` for a line by itself: only the reader does.
#[tactic(auto, using(crate::proofs::Blocks::never_given_up))]
pub fn table_is_never_out_of_memory()
    ensures { IsNeverOutOfMemory }
{}

/// A line with a data block is a command that may be refused for want of memory.
#[tactic(auto, using(crate::proofs::Blocks::data_stores))]
pub fn data_can_be_given_up()
    ensures { DataCanBeGivenUp }
{}

/// The order of a meta line's flags determines only the order in which they are returned. With its
/// flags in another order, the line is the same command but for that, or it is refused too, with as
/// many bytes skipped after it.
#[tactic(auto, using(crate::proofs::FlagOrder::flags_reordered))]
pub fn flags_in_any_order()
    ensures { FlagsInAnyOrder }
{}
