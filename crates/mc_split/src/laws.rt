//! Laws of the pieces and of the reply of every command.
ghost use Rattle.mc_split.specs.Laws.{NumbersParts, AsksOneKind, AsksShardOfKey, AsksShardsWithin, IsEmptyWhereSilent, AsksAsLoud, AsksAlike};

/// The parts of a command are 0, 1, 2 and so on, in the order of its pieces.
pub fn parts_are_numbered()
    ensures { NumbersParts }
{}

/// A piece is for the shard of the key that it asks for.
pub fn pieces_name_their_shard()
    ensures { AsksShardOfKey }
{}

/// Every shard that is asked is there.
pub fn shards_are_there()
    ensures { AsksShardsWithin }
{}

/// All pieces of a command are of one kind, that of its pending reply.
pub fn pieces_are_of_one_kind()
    ensures { AsksOneKind }
{}

/// A reply is empty of `quit`, with `noreply` and where `q` hides what was answered, and nowhere
/// else.
pub fn only_silent_replies_are_empty()
    ensures { IsEmptyWhereSilent }
{}

/// A quiet command asks the same of the same shards as the loud one.
pub fn quiet_commands_ask_as_loud()
    ensures { AsksAsLoud }
{}

/// Returned flags, whichever and in whatever order, change nothing of what is asked.
pub fn flags_change_no_piece()
    ensures { AsksAlike }
{}
