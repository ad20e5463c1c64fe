//! Tests of what no contract states: that calls succeed with ample memory, that a skipped block
//! takes none, and that parsing continues after a refused allocation.
ghost use Rattle.std.specs.Prelude.{◌<◌};

use crate::asserting::{equal, holds};
use mc_command::{Command, CommandError, Rules};
use mc_reader::{Next, Reader, readers_give_commands};
use mc_wire::{
    DEFAULT_LINE_LIMIT, DEFAULT_VALUE_LIMIT, DROP_IN_LINE_LIMIT, MAX_VALUE_LIMIT, MIN_LINE_LIMIT,
    MIN_VALUE_LIMIT,
};
use std::alloc::Global;
use std::process::Abort;
use std::test::Fail;

static PIECE: [u8; 65_536] = [b'x'; 65_536];

/// The next result of a reader, in short.
#[derive(Clone, Copy, Debug, PartialEq, Eq)]
enum Came {
    Store,
    Get,
    MetaSet,
    MetaNoop,
    Version,
    Verbosity,
    Quit,
    Refused(CommandError),
    Discard(CommandError),
    Other,
    NeedMore,
    Closed,
}

fn what_came(next: &Next) -> Came {
    match next {
        Next::Command(Command::Store(_)) => Came::Store,
        Next::Command(Command::Get(_)) => Came::Get,
        Next::Command(Command::MetaSet(_)) => Came::MetaSet,
        Next::Command(Command::MetaNoop) => Came::MetaNoop,
        Next::Command(Command::Version(_)) => Came::Version,
        Next::Command(Command::Verbosity { .. }) => Came::Verbosity,
        Next::Command(Command::Quit) => Came::Quit,
        Next::Command(Command::Refused(refusal)) => Came::Refused(*refusal),
        Next::Command(Command::Discard { refusal, .. }) => Came::Discard(*refusal),
        Next::Command(_) => Came::Other,
        Next::NeedMore => Came::NeedMore,
        Next::Closed => Came::Closed,
    }
}

/// The next result.
fn next_of(alloc: Global, reader: &mut Reader) -> Came {
    what_came(&reader.next(alloc))
}

/// Asserts that the whole piece is taken.
fn feed_all(rt: &impl Abort, reader: &mut Reader, piece: &[u8]) {
    equal(rt, reader.feed(piece), piece.len());
}

/// Asserts the next results.
fn gives(rt: &impl Abort, alloc: Global, reader: &mut Reader, wanted: &[Came]) {
    for one in wanted {
        equal(rt, next_of(alloc, reader), *one);
    }
}

/// Asserts that the results up to the next `NeedMore` are a prefix of the expected commands, and
/// returns their number.
fn gives_some(rt: &impl Abort, alloc: Global, reader: &mut Reader, wanted: &[Came]) -> usize {
    for (count, one) in wanted.iter().enumerate() {
        let given = next_of(alloc, reader);
        if given == Came::NeedMore {
            return count;
        }
        equal(rt, given, *one);
    }
    wanted.len()
}

/// Asserts that the input, cut into pieces of this size, is parsed into exactly these commands.
fn gives_cut(
    rt: &impl Abort,
    alloc: Global,
    size: usize,
    input: &[u8],
    wanted: &[Came],
) -> Result<(), Fail>
    requires { 0 < size }
{
    let mut reader = Reader::new(alloc, DEFAULT_VALUE_LIMIT)?;
    let mut count = 0;
    for piece in input.chunks(size) {
        feed_all(rt, &mut reader, piece);
        let (_, behind) = wanted.split_at(wanted.len().min(count));
        count = gives_some(rt, alloc, &mut reader, behind).saturating_add(count);
    }
    equal(rt, count, wanted.len());
    gives(rt, alloc, &mut reader, &[Came::NeedMore]);
    Ok(())
}

#[test]
fn every_cutting_gives_the_same(rt: HostRuntime) -> Result<(), Fail> {
    let input =
        b"version x\r\nverbosity 1\r\nverbosity\r\n\r\nmn x\r\nmg a v v\r\nmg a ?\r\nms a 1 C1 ME\r\nx\r\nset a x 0 3\r\nabc\r\nset a 0 0 y\r\nset a 0 0 3\r\nabcde\r\nset a 0 0 4\r\nmn\r\n\r\nget a b\n";
    let wanted = [
        Came::Version,
        Came::Verbosity,
        Came::Refused(CommandError::BadFormat),
        Came::Refused(CommandError::Unknown),
        Came::MetaNoop,
        Came::Refused(CommandError::DuplicateFlag),
        Came::Refused(CommandError::InvalidFlag),
        Came::Refused(CommandError::BadFormat),
        Came::Refused(CommandError::BadFormat),
        Came::Refused(CommandError::BadFormat),
        Came::Refused(CommandError::BadChunk),
        Came::Refused(CommandError::Unknown),
        Came::Store,
        Came::Get,
    ];
    let alloc = rt.alloc();
    gives_cut(&rt, alloc, 1, input, &wanted)?;
    gives_cut(&rt, alloc, 2, input, &wanted)?;
    gives_cut(&rt, alloc, 3, input, &wanted)?;
    gives_cut(&rt, alloc, 7, input, &wanted)?;
    gives_cut(&rt, alloc, 65_536, input, &wanted)
}

#[test]
fn each_call_with_ample_memory(rt: HostRuntime) -> Result<(), Fail> {
    let alloc = rt.alloc();
    let mut reader = Reader::new(alloc, DEFAULT_VALUE_LIMIT)?;
    holds(&rt, !reader.whole());
    gives(&rt, alloc, &mut reader, &[Came::NeedMore]);
    feed_all(&rt, &mut reader, b"set a 0 0 2\r\nhi\r\nget a\r\nms c 1");
    holds(&rt, reader.whole());
    equal(&rt, reader.held(), 30);
    gives(
        &rt,
        alloc,
        &mut reader,
        &[Came::Store, Came::Get, Came::NeedMore],
    );
    equal(&rt, reader.held(), 6);
    reader.end();
    equal(&rt, reader.feed(b"\r\n"), 0);
    gives(&rt, alloc, &mut reader, &[Came::Closed]);
    reader.reset();
    feed_all(&rt, &mut reader, b"mn\r\nquit\r\nmn\r\n");
    gives(
        &rt,
        alloc,
        &mut reader,
        &[Came::MetaNoop, Came::Quit, Came::Closed],
    );
    feed_all(&rt, &mut reader, b"mn\r\n");
    gives(&rt, alloc, &mut reader, &[Came::Closed]);
    Ok(())
}

/// The longest block that a line can announce is not stored, and is skipped to its last byte.
#[test]
fn a_skipped_block_is_not_kept(rt: HostRuntime) -> Result<(), Fail> {
    let alloc = rt.alloc();
    let mut reader = Reader::new(alloc, DEFAULT_VALUE_LIMIT)?;
    feed_all(&rt, &mut reader, b"set a 0 0 4294967295\r\n");
    // The block and one of the two bytes after it.
    for _ in 0..65_536u32 {
        gives(&rt, alloc, &mut reader, &[Came::NeedMore]);
        feed_all(&rt, &mut reader, &PIECE);
        equal(&rt, reader.held(), 0);
    }
    gives(&rt, alloc, &mut reader, &[Came::NeedMore]);
    feed_all(&rt, &mut reader, b"xmn\r\n");
    gives(
        &rt,
        alloc,
        &mut reader,
        &[
            Came::Refused(CommandError::TooLarge),
            Came::MetaNoop,
            Came::NeedMore,
        ],
    );
    Ok(())
}

/// Passes whichever allocation is refused, as with `rt try --test --fail-alloc N` for each N: the
/// command is refused, its block is skipped, and later commands are parsed. Each key needs an
/// allocation.
#[test]
fn a_refused_allocation_gives_up_one_command(rt: HostRuntime) {
    let alloc = rt.alloc();
    let Ok(mut reader) = Reader::new(alloc, DEFAULT_VALUE_LIMIT) else {
        return;
    };
    feed_all(
        &rt,
        &mut reader,
        b"\
        set a:key:of:39:bytes:lies:in:its:own:block 0 0 4\r\nmn\r\n\r\n\
        get a:key:of:39:bytes:lies:in:its:own:block b c\r\n\
        ms YTprZXk6b2Y6Mzk6Ynl0ZXM6bGllczppbjppdHM6b3duOmJsb2Nr 4 b k\r\nmn\r\n\r\n\
        get d:key:of:39:bytes:lies:in:its:own:block\r\n\
        mn\r\n",
    );
    let mut refused = 0u8;
    for wanted in [
        Came::Store,
        Came::Get,
        Came::MetaSet,
        Came::Get,
        Came::MetaNoop,
    ] {
        let given = next_of(alloc, &mut reader);
        if given == Came::Refused(CommandError::Memory) && wanted != Came::MetaNoop {
            refused = refused.saturating_add(1);
        } else {
            equal(&rt, given, wanted);
        }
    }
    holds(&rt, refused <= 1);
    gives(&rt, alloc, &mut reader, &[Came::NeedMore]);
}

/// Feeds a word of `count` bytes, at most `size` at a time.
fn feed_word(rt: &impl Abort, reader: &mut Reader, count: usize, size: usize) {
    let mut left = count;
    for _ in 0..count {
        let (piece, _) = PIECE.split_at(left.min(size).min(PIECE.len()));
        feed_all(rt, reader, piece);
        left -= piece.len();
        if left == 0 {
            break;
        }
    }
}

/// Lines are accepted up to each line limit, in whatever pieces they arrive.
#[test]
fn lines_at_the_limit(rt: HostRuntime) -> Result<(), Fail> {
    let alloc = rt.alloc();
    for limit in [MIN_LINE_LIMIT, DEFAULT_LINE_LIMIT, DROP_IN_LINE_LIMIT] {
        let rules = Rules {
            line_limit: limit,
            ..Rules::own(DEFAULT_VALUE_LIMIT)
        };
        let mut reader = Reader::under(alloc, rules)?;
        feed_all(&rt, &mut reader, b"mn ");
        feed_word(&rt, &mut reader, limit - 4, 1_000);
        gives(&rt, alloc, &mut reader, &[Came::NeedMore]);
        equal(&rt, reader.held(), limit - 1);
        feed_all(&rt, &mut reader, b"\n");
        gives(&rt, alloc, &mut reader, &[Came::MetaNoop, Came::NeedMore]);
        equal(&rt, reader.held(), 0);
        feed_all(&rt, &mut reader, b"mn ");
        feed_word(&rt, &mut reader, limit - 3, 60_000);
        let too_long = Came::Refused(CommandError::LineTooLong);
        gives(&rt, alloc, &mut reader, &[too_long, Came::Closed]);
    }
    Ok(())
}

/// Values are accepted up to each value limit.
#[test]
fn values_at_the_limit(rt: HostRuntime) -> Result<(), Fail> {
    let alloc = rt.alloc();
    for limit in [MIN_VALUE_LIMIT, DEFAULT_VALUE_LIMIT, MAX_VALUE_LIMIT] {
        let mut reader = Reader::new(alloc, limit)?;
        for (count, wanted) in [
            (limit - 1, Came::Store),
            (limit, Came::Store),
            (limit + 1, Came::Refused(CommandError::TooLarge)),
        ] {
            let line = format!(in alloc; "set a 0 0 {count}\r\n")?;
            feed_all(&rt, &mut reader, line.as_bytes());
            gives(&rt, alloc, &mut reader, &[Came::NeedMore]);
            equal(&rt, reader.is_skipping(), count > limit);
            let mut left = count;
            for _ in 0..MAX_VALUE_LIMIT {
                let (piece, _) = PIECE.split_at(left.min(PIECE.len()));
                feed_all(&rt, &mut reader, piece);
                left -= piece.len();
                if left == 0 {
                    break;
                }
                gives(&rt, alloc, &mut reader, &[Came::NeedMore]);
            }
            equal(&rt, left, 0);
            feed_all(&rt, &mut reader, b"\r\n");
            gives(&rt, alloc, &mut reader, &[wanted, Came::NeedMore]);
        }
    }
    readers_give_commands();
    Ok(())
}
