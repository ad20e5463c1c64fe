//! Laws of the parsed commands of a byte stream, for every input and all rules.
ghost use Rattle.std.specs.Prelude.{◌≡◌, ◌++◌, ℕ, List, [], IsTrue};
ghost use Rattle.std.specs.List.{AllByRecursion};
ghost use Rattle.mc_command.specs.declared.command.Command.{Command};
ghost use Rattle.mc_command.specs.declared.rules.Rules.{Rules};
ghost use Rattle.mc_reader.specs.Reader.{IfReader};
ghost use Rattle.mc_reader.specs.Spelling.{AreCommands, BeginCommands, Begins, MayBeGiven, Spells, entries_of, is_closed};
ghost use Rattle.mc_reader.specs.declared.reader.Reader.{Reader};

/// No text of a command is a proper prefix of another one, and a text denotes one command.
pub fn no_text_begins_another()
    ensures { (rules : Rules) (text more : List ℕ) (entry other : Command) →
        Spells rules text entry → Spells rules (text ++ more) other →
        (more ≡ []) × (entry ≡ other) }
{}

/// The commands of an input are unique.
pub fn one_list_of_commands()
    ensures { (rules : Rules) (input : List ℕ) (entries others : List Command) →
        AreCommands rules input entries → AreCommands rules input others → entries ≡ others }
{}

/// The commands of a prefix of the input are a prefix of the commands of the whole input. They are
/// equal if they end with one that closes the stream.
pub fn commands_only_grow()
    ensures kept { (rules : Rules) (input more : List ℕ) (entries : List Command) →
        BeginCommands rules input entries → BeginCommands rules (input ++ more) entries }
    ensures begin { (rules : Rules) (input more : List ℕ) (entries others : List Command) →
        AreCommands rules input entries → AreCommands rules (input ++ more) others →
        Begins entries others }
    ensures closed { (rules : Rules) (input more : List ℕ) (entries : List Command) →
        AreCommands rules input entries → IsTrue (is_closed entries) →
        AreCommands rules (input ++ more) entries }
{}

/// Every input has its commands.
pub fn every_input_has_commands()
    ensures { (rules : Rules) (input : List ℕ) →
        (entries : List Command) × AreCommands rules input entries }
{}

/// The commands returned by a reader are a prefix of those of its input. A command is given up only
/// if its rules allow it.
pub fn readers_give_commands()
    ensures begin { (reader : Reader) → IfReader reader (λ rules fed ended given.
        BeginCommands rules fed (entries_of given)) }
    ensures may { (reader : Reader) → IfReader reader (λ rules fed ended given.
        AllByRecursion MayBeGiven given) }
{}
