//! Measures how many bytes a connection holds while it is fed: the unread ones, and those of an
//! incomplete block. They never exceed the longest line plus the largest block.
use crate::escape::unescape;
use mc_conn::{Conn, Taken};
use mc_reply::ServerStats;
use mc_wire::{DEFAULT_LINE_LIMIT, DEFAULT_VALUE_LIMIT, MAX_VALUE_LIMIT, MIN_VALUE_LIMIT};
use std::alloc::Global;

/// The value limits to try.
const LIMITS: [usize; 3] = [MIN_VALUE_LIMIT, DEFAULT_VALUE_LIMIT, MAX_VALUE_LIMIT];

/// A window that no row fills.
const MANY: usize = 4_096;

/// The Unix time of every command; it doesn't matter here.
const MOMENT: u64 = 1_000;

/// How a connection is fed.
#[derive(Clone, Copy)]
struct Feeding {
    /// Maximum number of bytes fed at once.
    piece: usize,
    /// Maximum number of open commands. None is answered, so with a window of 1 the bytes after the
    /// first command stay unread.
    window: usize,
}

/// Many bytes at once, and a window that no row fills.
const FAST: Feeding = Feeding {
    piece: 60_000,
    window: MANY,
};

/// The ways in which each input is fed.
const FEEDINGS: [Feeding; 4] = [
    FAST,
    Feeding {
        piece: 7,
        window: MANY,
    },
    Feeding {
        piece: 60_000,
        window: 1,
    },
    Feeding {
        piece: 7,
        window: 1,
    },
];

/// A block with bytes after it, and the expected number of held bytes when it is fed by `FAST`.
#[derive(Clone, Copy)]
struct LongBlock {
    /// The input, escaped as in a row.
    text: &'static [u8],
    /// The value limit of the connection.
    limit: usize,
    /// The peak must be at least this many bytes.
    least: usize,
    /// The peak must be at most this many bytes.
    most: usize,
}

/// Blocks of each limit's size, and one that is skipped.
const BLOCKS: [LongBlock; 4] = [
    LongBlock {
        text: b"set a 0 0 1024\r\n{1024*x}\r\n{65000*y}",
        limit: MIN_VALUE_LIMIT,
        least: 1_024,
        most: 66_562,
    },
    LongBlock {
        text: b"set a 0 0 1048576\r\n{1048576*x}\r\n{65000*y}",
        limit: DEFAULT_VALUE_LIMIT,
        least: 1_048_576,
        most: 1_114_114,
    },
    LongBlock {
        text: b"set a 0 0 8388608\r\n{8388608*x}\r\n{65000*y}",
        limit: MAX_VALUE_LIMIT,
        least: 8_388_608,
        most: 8_454_146,
    },
    LongBlock {
        text: b"set a 0 0 4294967295\r\n{70000*x}",
        limit: DEFAULT_VALUE_LIMIT,
        least: 0,
        most: 65_536,
    },
];

/// A connection, and the peak of its held bytes.
#[derive(Drop)]
struct Watched {
    conn: Conn,
    most: usize,
}

impl Watched {
    /// A new connection; `None` if memory is refused.
    fn new(alloc: Global, limit: usize, window: usize) -> Option<Watched> {
        let limit = limit.min(MAX_VALUE_LIMIT);
        let conn = Conn::new(alloc, 2, limit, window.max(1)).ok()?;
        Some(Watched { conn, most: 0 })
    }

    /// Updates the peak.
    fn look(&mut self) {
        self.most = self.most.max(self.conn.held());
    }

    /// Feeds a prefix of the piece, and returns its length.
    fn feed(&mut self, piece: &[u8]) -> usize {
        let count = self.conn.feed(piece);
        self.look();
        count
    }

    /// Parses commands until none is complete.
    fn take_all(&mut self, alloc: Global) {
        for _ in 0..=MANY {
            let taken = self.conn.take(alloc, MOMENT, &ServerStats::none());
            self.look();
            if !matches!(taken, Taken::Opened(_)) {
                return;
            }
        }
    }

    /// Feeds the input in pieces of at most `size` bytes, and parses commands after each. Stops at
    /// a piece of which nothing is taken, and returns the number of bytes taken.
    fn feed_all(&mut self, alloc: Global, input: &[u8], size: usize) -> usize {
        let mut given = 0usize;
        for _ in 0..input.len() {
            let (_, rest) = input.split_at(given.min(input.len()));
            let (piece, _) = rest.split_at(size.min(rest.len()));
            let count = self.feed(piece);
            self.take_all(alloc);
            given = given.saturating_add(count);
            if count == 0 {
                break;
            }
        }
        self.conn.end();
        self.take_all(alloc);
        given
    }
}

/// The peak of held bytes; `None` if memory was refused, or if the input wasn't taken completely
/// although the window wasn't full.
fn most_held(alloc: Global, input: &[u8], limit: usize, feeding: Feeding) -> Option<usize> {
    let mut watched = Watched::new(alloc, limit, feeding.window)?;
    let given = watched.feed_all(alloc, input, feeding.piece);
    if feeding.window == MANY && given != input.len() {
        return None;
    }
    Some(watched.most)
}

/// Whether the peak stays within its bound at this value limit, in whatever pieces the input is
/// fed.
fn is_bounded_below(alloc: Global, input: &[u8], limit: usize) -> bool {
    for feeding in FEEDINGS {
        match most_held(alloc, input, limit, feeding) {
            Some(most) if most <= DEFAULT_LINE_LIMIT.saturating_add(limit).saturating_add(2) => {}
            _ => return false,
        }
    }
    true
}

/// Whether the peak stays within its bound at each value limit.
pub fn is_bounded(alloc: Global, input: &[u8]) -> bool {
    for limit in LIMITS {
        if !is_bounded_below(alloc, input, limit) {
            return false;
        }
    }
    true
}

/// Whether the peak of the block is between `least` and `most`.
fn is_held(alloc: Global, block: LongBlock) -> bool {
    let Ok(input) = unescape(alloc, block.text) else {
        return false;
    };
    match most_held(alloc, input.as_slice(), block.limit, FAST) {
        Some(held) => {
            held >= block.least && held <= block.most && is_bounded(alloc, input.as_slice())
        }
        None => false,
    }
}

/// The number of blocks, and the number of those whose peak is out of range.
pub fn blocks_held(alloc: Global) -> (u32, u32) {
    let mut blocks = 0u32;
    let mut failed = 0u32;
    for block in BLOCKS {
        blocks = blocks.saturating_add(1);
        if !is_held(alloc, block) {
            failed = failed.saturating_add(1);
        }
    }
    (blocks, failed)
}
