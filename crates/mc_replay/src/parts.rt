//! Splitting text at a separator: lines of a file, or words of a line. See docs/DECISIONS.md, Y2.
ghost use Rattle.std.specs.Prelude.{◌≡◌, ◌∷◌, ◌==◌, []};
ghost use Rattle.std.specs.Option.{option_map_or};
ghost use Rattle.std.specs.List.{position};
ghost use Rattle.std.specs.Iterator.{YieldsFirstRef, item_count};
ghost use Rattle.mc_replay.specs.Text.{parts_of};
ghost use Rattle.mc_replay.specs.internal.Parts.{parts_left};

/// Iterator over the parts of a text. There is one more part than separators.
#[derive(Drop)]
pub(crate) struct PartWalk<'a> {
    rest: Option<&'a [u8]>,
    separator: u8,
}

/// Splits a text at this separator.
pub(crate) fn parts(text: &[u8], separator: u8) -> PartWalk<'_>
    ensures { parts_left result ≡ parts_of separator text.now }
{
    PartWalk {
        rest: Some(text),
        separator,
    }
}

impl<'a> Iterator for PartWalk<'a> {
    type Item = &'a [u8];

    ghost next_gives = { YieldsFirstRef parts_left };

    ghost remaining = { item_count parts_left };

    fn next(&mut self) -> Option<&'a [u8]> {
        let rest = self.rest?;
        let (part, after) = cut(rest, self.separator);
        self.rest = after;
        Some(part)
    }
}

/// The text before and after the first separator; `None` for the latter if there is no separator.
fn cut(text: &[u8], separator: u8) -> (&[u8], Option<&[u8]>)
    ensures { parts_of separator text.now
        ≡ result.0.now ∷ option_map_or (λ rest. parts_of separator rest.now) result.1 [] }
{
    match first_of(text, separator) {
        Some(at) => (&text[..at], Some(&text[at + 1..])),
        None => (text, None),
    }
}

/// The index of the first separator.
fn first_of(text: &[u8], separator: u8) -> Option<usize>
    ensures { result ≡ position (λ byte. byte == separator) text.now }
{
    text.iter().position(|byte| *byte == separator)
}
