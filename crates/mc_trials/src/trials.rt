//! The trials: checks of the output of lines that were served by real threads.
use crate::gates::{Come, Meeting, Met};
use crate::gathered::Gathered;
use crate::line::{Cutting, Fault, MemoryLine};
use crate::load::{Loads, wrong_among};
use crate::rising::Rising;
use crate::server::{MOMENT, Server};
use crate::text::split_line;
use mc_command::Profile;
use mc_net::ServedLine;
use mc_server::FixedClock;
use mc_sizes::Sizes;
use mc_wire::number_u64;
use mc_worker::OpenGate;
use std::alloc::AllocError;
use std::random::RandomSource;
use std::sync::atomic::{AtomicU64, Ordering};
use std::sync::{Arc, Wait};
use std::thread::Threads;

/// The input and the expected output of a line, whatever the lines beside it send.
#[derive(Clone, Copy)]
struct Conversation {
    input: &'static [u8],
    output: &'static [u8],
    /// Number of commands.
    commands: u64,
}

const CONVERSATIONS: [Conversation; 4] = [
    Conversation {
        input: b"set a 0 0 1\r\n0\r\nget a\r\n",
        output: b"STORED\r\nVALUE a 0 1\r\n0\r\nEND\r\n",
        commands: 2,
    },
    Conversation {
        input: b"set b 0 0 1\r\n1\r\nget b\r\n",
        output: b"STORED\r\nVALUE b 0 1\r\n1\r\nEND\r\n",
        commands: 2,
    },
    Conversation {
        input: b"set d 0 0 1 noreply\r\n2\r\nget d\r\n",
        output: b"VALUE d 0 1\r\n2\r\nEND\r\n",
        commands: 2,
    },
    Conversation {
        input: b"set e 0 0 1\r\n3\r\nset f 0 0 1\r\n4\r\nget e g f\r\nwrong\r\nmn\r\nquit\r\nget e\r\n",
        output: b"STORED\r\nSTORED\r\nVALUE e 0 1\r\n3\r\nVALUE f 0 1\r\n4\r\nEND\r\nERROR\r\nMN\r\n",
        commands: 6,
    },
];

/// A trial's parameters: number of lines, sizes of rings and windows, and how lines are cut.
#[derive(Clone, Copy)]
struct Setup {
    lines: usize,
    ring: usize,
    window: usize,
    cutting: Cutting,
}

impl Setup {
    fn new(lines: usize, ring: usize, window: usize, cutting: Cutting) -> Setup {
        Setup {
            lines,
            ring,
            window,
            cutting,
        }
    }
}

/// The parameters to try.
fn shapes() -> [Setup; 8] {
    [
        Setup::new(1, 1, 1, Cutting::NONE),
        Setup::new(3, 64, 256, Cutting::NONE),
        Setup::new(8, 1, 256, Cutting::ONE_BYTE_A_WRITE),
        Setup::new(8, 64, 1, Cutting::SEVEN_BYTES_A_READ),
        Setup::new(8, 1, 1, Cutting::ONE_BYTE_A_CALL),
        Setup::new(64, 64, 256, Cutting::NONE),
        Setup::new(64, 1, 1, Cutting::NONE),
        Setup::new(64, 1, 256, Cutting::ONE_BYTE_A_CALL),
    ]
}

/// The conversation of a line that fails; no other line uses its keys.
const FAILING: Conversation = Conversation {
    input: b"set x 0 0 3\r\nabc\r\nget x\r\nappend x 0 0 1\r\nd\r\nget x y z\r\nmn\r\n",
    output: b"STORED\r\nVALUE x 0 3\r\nabc\r\nEND\r\nSTORED\r\nVALUE x 0 4\r\nabcd\r\nEND\r\nMN\r\n",
    commands: 5,
};

/// The conversation of a line whose item expires; each command is a second later than the previous
/// one.
const FADING: Conversation = Conversation {
    input: b"set a 0 3 1\r\nx\r\nget a\r\nget a\r\nget a\r\nquit\r\n",
    output: b"STORED\r\nVALUE a 0 1\r\nx\r\nEND\r\nVALUE a 0 1\r\nx\r\nEND\r\nEND\r\n",
    commands: 5,
};

/// The reply to a get of keys that are not stored.
const NONE_STORED: &[u8] = b"END\r\n";

/// The replies to an add, without their ends.
const ADDED: [&[u8]; 2] = [b"STORED", b"NOT_STORED"];

/// Upper bound of the reads, and of the writes, of a line that fails.
const MAX_CALLS: usize = 200;

/// Number of increments by each of two lines.
const COUNTS: u64 = 1_000;

/// Number of times that the shards must meet at the gate.
const MEETINGS: u64 = 100;

/// Number of arrivals for which a line waits before it sends behind another line's piece: both
/// lines, and the piece at the gate.
const BOTH_LINES_AND_A_PIECE: u64 = 3;

/// Number of keys of one letter on the longest line.
const MAX_KEYS: usize = 32_766;

/// The sizes of a server with this many shards, and with rings and windows of these sizes.
fn sizes(shards: usize, ring: usize, window: usize) -> Sizes {
    Sizes {
        profile: Profile::Own,
        seats: 1,
        shards,
        bytes: 65_536,
        ring,
        value: 1_048_576,
        line: 65_536,
        window,
        shutdown: false,
    }
}

impl<R: Threads + Wait + RandomSource + Copy + Send + Drop + 'static> Server<R> {
    /// The name and the result of each trial.
    pub fn trials(&self) -> Result<Vec<(&'static str, bool)>, AllocError> {
        let mut trials = Vec::with_capacity(self.alloc, 12)?;
        trials.push(("lines side by side", self.lines_side_by_side()?))?;
        trials.push(("two lines count together", self.two_lines_count()?))?;
        trials.push(("as many lines at once as there are", self.lines_at_once()?))?;
        let for_two = self.shards_meet(&[b"get a\r\n", b"get b\r\n"])?;
        trials.push(("two shards meet for two lines", for_two))?;
        let for_one = self.shards_meet(&[b"get a b\r\n"])?;
        trials.push(("two shards meet for one line", for_one))?;
        trials.push(("a ring holds what it says", self.rings_hold()?))?;
        trials.push(("a window is as wide as it says", self.windows_are_wide()?))?;
        trials.push(("a line fails beside another", self.a_line_fails()?))?;
        trials.push(("the longest line over rings of 1", self.longest_line()?))?;
        trials.push(("each command has a moment of its own", self.moments_rise()?))?;
        trials.push(("a load", self.loads_come_out_right()?))?;
        Ok(trials)
    }

    /// Lines with these inputs and one cutting.
    fn lines_of(&self, inputs: &[&[u8]], cutting: Cutting) -> Result<Vec<MemoryLine>, AllocError> {
        let mut lines = Vec::with_capacity(self.alloc, inputs.len())?;
        for input in inputs {
            lines.push(MemoryLine::of(self.alloc, input, cutting)?)?;
        }
        Ok(lines)
    }

    /// Whether each line gets its own replies, for various numbers of lines and sizes of shards,
    /// rings and windows.
    fn lines_side_by_side(&self) -> Result<bool, AllocError> {
        let mut is_right = true;
        for shards in [1, 2, 3, 16] {
            is_right = self.lines_over(shards)? && is_right;
        }
        Ok(is_right)
    }

    /// The check of `lines_side_by_side` over `shards` shards.
    fn lines_over(&self, shards: usize) -> Result<bool, AllocError> {
        let mut is_right = true;
        for shape in shapes() {
            let sizes = sizes(shards, shape.ring, shape.window);
            is_right = self.converse(shape.lines, sizes, shape.cutting)? && is_right;
        }
        Ok(is_right)
    }

    /// The check of `lines_side_by_side` for `count` lines, cut in this way.
    fn converse(&self, count: usize, sizes: Sizes, cutting: Cutting) -> Result<bool, AllocError> {
        let mut lines = Vec::with_capacity(self.alloc, count)?;
        for number in 0..count {
            let input = conversation_of(number).input;
            lines.push(MemoryLine::of(self.alloc, input, cutting)?)?;
        }
        match self.serve(lines, sizes) {
            Some(served) => Ok(served.len() == count && are_right(served.as_slice())),
            None => Ok(false),
        }
    }

    /// Whether two lines that increment the same number see each count exactly once between them.
    fn two_lines_count(&self) -> Result<bool, AllocError> {
        let mut input = Vec::from_slice(self.alloc, b"add c 0 0 1\r\n0\r\n")?;
        for _ in 0..COUNTS {
            input.extend_from_slice(b"incr c 1\r\n")?;
        }
        let mut is_right = true;
        for (ring, window) in [(1, 1), (1, 256), (64, 1), (64, 256)] {
            let inputs = [input.as_slice(), input.as_slice()];
            let lines = self.lines_of(&inputs, Cutting::NONE)?;
            is_right = match self.serve(lines, sizes(2, ring, window)) {
                Some(served) => have_counted(served.as_slice()) && is_right,
                None => false,
            };
        }
        Ok(is_right)
    }

    /// Whether 2, 3 and 64 lines are all served at once: each waits in its first read until the
    /// others are in theirs.
    fn lines_at_once(&self) -> Result<bool, AllocError> {
        let mut is_right = true;
        for count in [2, 3, 64] {
            is_right = self.gather(count)? && is_right;
        }
        Ok(is_right)
    }

    /// The check of `lines_at_once` for this number of lines.
    fn gather(&self, count: usize) -> Result<bool, AllocError> {
        let come: Come = Arc::new(self.alloc, AtomicU64::new(0))?;
        let all = u64::try_from(count).unwrap_or(u64::MAX);
        let mut lines = Vec::with_capacity(self.alloc, count)?;
        for number in 0..count {
            let input = conversation_of(number).input;
            let line = MemoryLine::of(self.alloc, input, Cutting::NONE)?;
            lines.push(Gathered::new(line, &come, all)?)?;
        }
        let clock = FixedClock(MOMENT);
        let Some(served) = self.serve_by(lines, sizes(2, 64, 256), OpenGate, clock) else {
            return Ok(false);
        };
        let mut is_right = served.len() == count;
        for (number, one) in served.iter().enumerate() {
            let wanted = conversation_of(number).output;
            is_right = one.line.saw_all && one.line.line.output.as_slice() == wanted && is_right;
        }
        Ok(is_right)
    }

    /// Whether both shards were at the gate at once, for each of many pieces, and each line has its
    /// replies.
    fn shards_meet(&self, commands: &[&[u8]]) -> Result<bool, AllocError> {
        let mut lines = Vec::with_capacity(self.alloc, commands.len())?;
        for command in commands {
            let mut input = Vec::new(self.alloc);
            add_times(&mut input, command, MEETINGS)?;
            lines.push(MemoryLine::of(self.alloc, input.as_slice(), Cutting::NONE)?)?;
        }
        Ok(self.meetings(lines, sizes(2, 64, 256), MEETINGS)? == Some(2 * MEETINGS))
    }

    /// Whether a ring holds exactly `ring` pieces. While a shard is blocked, a piece for the other
    /// shard is sent behind as many pieces as the ring holds, and not behind one more.
    fn rings_hold(&self) -> Result<bool, AllocError> {
        let mut is_right = true;
        for ring in [1, 2, 64] {
            let places = u64::try_from(ring).unwrap_or(u64::MAX);
            let sizes = sizes(2, ring, 256);
            let held = self.meets_behind(places, sizes)?;
            let full = self.meets_behind(places.saturating_add(1), sizes)?;
            is_right = held == Some(true) && full == Some(false) && is_right;
        }
        Ok(is_right)
    }

    /// Whether exactly `window` commands of a line can be open. While a shard is blocked, a piece
    /// for the other shard is sent if its command is the last one within the window, and not if it
    /// is the next.
    fn windows_are_wide(&self) -> Result<bool, AllocError> {
        let mut is_right = true;
        for window in [2, 3, 256] {
            let commands = u64::try_from(window).unwrap_or(u64::MAX);
            let sizes = sizes(2, 1_024, window);
            let within = self.meets_behind(commands.saturating_sub(1), sizes)?;
            let behind = self.meets_behind(commands, sizes)?;
            is_right = within == Some(true) && behind == Some(false) && is_right;
        }
        Ok(is_right)
    }

    /// Whether the shards meet at the gate if a line sends `before` pieces to one of them and then
    /// one to the other. Meanwhile the first is blocked by another line's piece. `None` if the
    /// replies are wrong.
    fn meets_behind(&self, before: u64, sizes: Sizes) -> Result<Option<bool>, AllocError> {
        let arrived: Come = Arc::new(self.alloc, AtomicU64::new(0))?;
        let met: Met = Arc::new(self.alloc, AtomicU64::new(0))?;
        let gate = Meeting::new(&met, &arrived)?;
        let mut input = Vec::new(self.alloc);
        add_times(&mut input, b"get a\r\n", before)?;
        add_times(&mut input, b"get b\r\n", 1)?;
        let holding = MemoryLine::of(self.alloc, b"get a\r\n", Cutting::NONE)?;
        let behind = MemoryLine::of(self.alloc, input.as_slice(), Cutting::NONE)?;
        let mut lines = Vec::with_capacity(self.alloc, 2)?;
        lines.push(Gathered::new(holding, &arrived, 1)?)?;
        lines.push(Gathered::new(behind, &arrived, BOTH_LINES_AND_A_PIECE)?)?;
        let mut wanted = Vec::new(self.alloc);
        add_times(&mut wanted, NONE_STORED, before.saturating_add(1))?;
        let Some(served) = self.serve_by(lines, sizes, gate, FixedClock(MOMENT)) else {
            return Ok(None);
        };
        let [first, second] = served.as_slice() else {
            return Ok(None);
        };
        let is_right = second.line.saw_all
            && first.line.line.output.as_slice() == NONE_STORED
            && second.line.line.output.as_slice() == wanted.as_slice();
        Ok(is_right.then_some(met.load(Ordering::SeqCst) > 0))
    }

    /// Number of times that a shard saw the other one at the gate; `None` unless each line has
    /// `replies` replies of a miss.
    fn meetings(
        &self,
        lines: Vec<MemoryLine>,
        sizes: Sizes,
        replies: u64,
    ) -> Result<Option<u64>, AllocError> {
        let arrived: Come = Arc::new(self.alloc, AtomicU64::new(0))?;
        let met: Met = Arc::new(self.alloc, AtomicU64::new(0))?;
        let gate = Meeting::new(&met, &arrived)?;
        let mut wanted = Vec::new(self.alloc);
        add_times(&mut wanted, NONE_STORED, replies)?;
        let Some(served) = self.serve_by(lines, sizes, gate, FixedClock(MOMENT)) else {
            return Ok(None);
        };
        let is_right = served
            .iter()
            .all(|one| one.line.output.as_slice() == wanted.as_slice());
        Ok(if is_right {
            Some(met.load(Ordering::SeqCst))
        } else {
            None
        })
    }

    /// Whether a line that fails at any read or write leaves the other one unaffected.
    fn a_line_fails(&self) -> Result<bool, AllocError> {
        let mut is_right = true;
        for (ring, window) in [(1, 1), (1, 256), (64, 1), (64, 256)] {
            let sizes = sizes(2, ring, window);
            let reading = self.fails_at_each(sizes, Fault::Reading)?;
            let writing = self.fails_at_each(sizes, Fault::Writing)?;
            is_right = is_right && reading && writing;
        }
        Ok(is_right)
    }

    /// The check of `a_line_fails` at each read, or at each write, up to the last one.
    fn fails_at_each<F: Fn(usize) -> Fault>(
        &self,
        sizes: Sizes,
        fault: F,
    ) -> Result<bool, AllocError>
        requires { F.IsAlwaysCallable fault }
    {
        for number in 0..MAX_CALLS {
            match self.fails_at(sizes, fault(number))? {
                Some(true) => {}
                Some(false) => return Ok(number > 10),
                None => return Ok(false),
            }
        }
        Ok(false)
    }

    /// Whether the line that was to fail did fail; `None` if its output, or that of the line beside
    /// it, is wrong.
    fn fails_at(&self, sizes: Sizes, fault: Fault) -> Result<Option<bool>, AllocError> {
        let cutting = Cutting {
            piece: 5,
            portion: 3,
            fault,
        };
        let other = CONVERSATIONS[0];
        let mut lines = self.lines_of(&[FAILING.input], cutting)?;
        lines.push(MemoryLine::of(self.alloc, other.input, Cutting::NONE)?)?;
        let Some(served) = self.serve(lines, sizes) else {
            return Ok(None);
        };
        let [first, second] = served.as_slice() else {
            return Ok(None);
        };
        if !is_right(second, other) || !self.is_right_failed(first, fault)? {
            return Ok(None);
        }
        Ok(Some(first.broke))
    }

    /// Whether a line that failed was reported as failed, and got a prefix of its output. After a
    /// failed read, this prefix is the complete replies to what was read.
    fn is_right_failed(
        &self,
        served: &ServedLine<MemoryLine>,
        fault: Fault,
    ) -> Result<bool, AllocError> {
        let line = &served.line;
        if !line.failed {
            return Ok(is_right(served, FAILING));
        }
        if !served.broke || !FAILING.output.starts_with(line.output.as_slice()) {
            return Ok(false);
        }
        if let Fault::Writing(_) = fault {
            return Ok(true);
        }
        let alone = MemoryLine::of(self.alloc, line.given(), Cutting::NONE)?;
        match self.serve_alone(alone, sizes(2, 64, 256)) {
            Some(one) => Ok(one.line.output.as_slice() == line.output.as_slice()),
            None => Ok(false),
        }
    }

    /// Whether a get with as many keys as a line can hold is answered over rings of capacity 1.
    fn longest_line(&self) -> Result<bool, AllocError> {
        let mut input = Vec::from_slice(self.alloc, b"get")?;
        for _ in 0..MAX_KEYS {
            input.extend_from_slice(b" k")?;
        }
        input.push(b'\n')?;
        let lines = self.lines_of(&[input.as_slice()], Cutting::NONE)?;
        match self.serve(lines, sizes(2, 1, 1)) {
            Some(served) => Ok(
                served
                    .iter()
                    .all(|one| one.line.output.as_slice() == NONE_STORED),
            ),
            None => Ok(false),
        }
    }

    /// Whether the clock is read again for each command of a window of one: an item with three
    /// seconds to live is found by the next two commands, and has then expired.
    fn moments_rise(&self) -> Result<bool, AllocError> {
        let lines = self.lines_of(&[FADING.input], Cutting::NONE)?;
        let clock = Rising::new(self.alloc, MOMENT)?;
        match self.serve_by(lines, sizes(2, 64, 1), OpenGate, clock) {
            Some(served) => Ok(served.iter().all(|one| is_right(one, FADING))),
            None => Ok(false),
        }
    }

    /// Whether loads are answered correctly, pipelined and one command at a time.
    fn loads_come_out_right(&self) -> Result<bool, AllocError> {
        let mut is_right = true;
        for (lines, shards, batch) in [(1, 1, 256), (8, 4, 256), (8, 2, 1), (2, 16, 7)] {
            let loads = Loads::new(self.alloc, lines, 1_000, batch)?;
            let wrong = match self.serve(loads.lines, sizes(shards, 64, 256)) {
                Some(served) => wrong_among(served.as_slice(), loads.replies.as_slice()),
                None => lines,
            };
            is_right = is_right && wrong == 0;
        }
        Ok(is_right)
    }
}

/// Appends the text `times` times.
fn add_times(texts: &mut Vec<u8>, text: &[u8], times: u64) -> Result<(), AllocError> {
    for _ in 0..times {
        texts.extend_from_slice(text)?;
    }
    Ok(())
}

/// The conversation of the line of this number: the lines take turns.
fn conversation_of(number: usize) -> Conversation {
    CONVERSATIONS[number % CONVERSATIONS.len()]
}

/// Whether the line's output is exactly that of the conversation.
fn is_right(served: &ServedLine<MemoryLine>, conversation: Conversation) -> bool {
    !served.broke
        && served.commands == conversation.commands
        && served.line.output.as_slice() == conversation.output
}

/// Whether each line's output is that of its conversation.
fn are_right(served: &[ServedLine<MemoryLine>]) -> bool {
    let mut are_right = true;
    for (number, one) in served.iter().enumerate() {
        are_right = is_right(one, conversation_of(number)) && are_right;
    }
    are_right
}

/// Whether one of the two lines created the number, and each count was returned exactly once.
fn have_counted(served: &[ServedLine<MemoryLine>]) -> bool {
    let [first, second] = served else {
        return false;
    };
    let (one, counts) = split_line(first.line.output.as_slice());
    let (other, other_counts) = split_line(second.line.output.as_slice());
    let [added, not_added] = ADDED;
    let made_once = one == added && other == not_added || one == not_added && other == added;
    made_once && !first.broke && !second.broke && are_all_counts(counts, other_counts)
}

/// Whether two ascending lists have each count exactly once between them.
fn are_all_counts(one: &[u8], other: &[u8]) -> bool {
    let (mut one, mut other) = (one, other);
    for count in 1..=2 * COUNTS {
        let (first, after_first) = split_line(one);
        let (second, after_second) = split_line(other);
        if number_u64(first).ok() == Some(count) {
            one = after_first;
        } else if number_u64(second).ok() == Some(count) {
            other = after_second;
        } else {
            return false;
        }
    }
    one.is_empty() && other.is_empty()
}
