//! The receiver of parsed commands.
ghost use Rattle.std.specs.Prelude.{◌≡◌, ◌≤◌, ◌∷◌, [], None, length};
ghost use Rattle.mc_wire.specs.Key.{key_fault};
ghost use Rattle.mc_wire.specs.Words.{words_of};
ghost use Rattle.mc_wire.specs.declared.TheConstants.{MAX_VALUE_LIMIT};
ghost use Rattle.mc_command.specs.Command.{with_block};
ghost use Rattle.mc_command.specs.Field.{AreKeys};
ghost use Rattle.mc_fast.specs.FastCommand.{get_of, meta_get_of, set_of};

use mc_command::{Command, MetaGet, MetaSet, Profile};

/// Receives the commands of a stream, one after another. Common commands arrive as borrowed words
/// of their line, so that no `Command` is built and moved for them; contracts are stated in terms
/// of `Command` all the same. No method fails: the receiver itself answers a command for which
/// memory is refused.
pub trait CommandSink {
    ghost use Rattle.mc_command.specs.declared.command.Command.{Command};

    /// Whether it may receive a command.
    ghost can_take: { Self → Type 0 };

    /// Relates the receiver before, the command received, and the receiver after.
    ghost takes: { Self → Command → Self → Type 0 };

    /// `mn`.
    fn no_op(&mut self)
        requires { can_take self.old }
        ensures { takes self.old Command.MetaNoop self.new };

    /// `get KEY`, or `gets KEY`, which also returns the cas unique.
    fn get_one(&mut self, key: &[u8], with_unique: bool)
        requires can { can_take self.old }
        requires key { key_fault key.now ≡ None }
        ensures { takes self.old (get_of (key.now ∷ []) with_unique) self.new };

    /// `get KEY ..`, or `gets KEY ..`: the first key, and the text of the remaining keys.
    fn get(&mut self, first: &[u8], others: &[u8], with_unique: bool)
        requires can { can_take self.old }
        requires first { key_fault first.now ≡ None }
        requires others { AreKeys (words_of others.now) }
        ensures { takes self.old (get_of (first.now ∷ words_of others.now) with_unique) self.new };

    /// `mg KEY v`, answered by the rules of the profile.
    fn meta_get_value(&mut self, profile: Profile, key: &[u8])
        requires can { can_take self.old }
        requires key { key_fault key.now ≡ None }
        ensures { takes self.old (meta_get_of profile key.now) self.new };

    /// `mg` with any flags.
    fn meta_get(&mut self, get: MetaGet)
        requires { can_take self.old }
        ensures { takes self.old (Command.MetaGet get) self.new };

    /// `ms`; `block` replaces the block in `set`.
    fn meta_set(&mut self, set: MetaSet, block: &[u8])
        requires can { can_take self.old }
        requires small { length block.now ≤ MAX_VALUE_LIMIT }
        ensures { takes self.old (with_block (Command.MetaSet set) block.now) self.new };

    /// `set KEY FLAGS EXPTIME LEN [noreply]` with its data block.
    fn set(&mut self, key: &[u8], flags: u32, exptime: i64, noreply: bool, block: &[u8])
        requires can { can_take self.old }
        requires key { key_fault key.now ≡ None }
        requires small { length block.now ≤ MAX_VALUE_LIMIT }
        ensures { takes self.old (set_of key.now flags exptime noreply block.now) self.new };

    /// Any other command, or a line that is rejected.
    fn other(&mut self, command: Command)
        requires { can_take self.old }
        ensures { takes self.old command self.new };
}
