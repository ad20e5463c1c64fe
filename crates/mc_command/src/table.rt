//! Lookup tables of words.
ghost use Rattle.std.specs.Prelude.{◌≡◌};
ghost use Rattle.std.specs.Map.{lookup};
ghost use Rattle.std.specs.Str.{bytes_eq};
ghost use Rattle.mc_command.specs.internal.WordTable.{rows_of};

/// Looks up a word in a table.
pub(crate) fn find_word<T: Copy>(table: &[(&[u8], T)], word: &[u8]) -> Option<T>
    ensures { result ≡ lookup (bytes_eq word.now) (rows_of table.now) }
{
    for (name, value) in table {
        if word == *name {
            return Some(*value);
        }
    }
    None
}
