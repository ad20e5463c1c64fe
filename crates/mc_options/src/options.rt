//! Parsing of the command line into what the program does and its sizes.
ghost use Rattle.std.specs.Prelude.{◌≡◌, ◌≤◌, ◌+◌, ◌*◌, ◌/◌, [], Ok, Err, IfOk, IfErr, IfSome, OnOk, is_some, map, option_map, string_bytes, unwrap_or};
ghost use Rattle.clap.specs.Words.{FailsBy, first_value, found_of, rows_of};
ghost use Rattle.mc_sizes.specs.Sizes.{AreWithin};
ghost use Rattle.mc_options.specs.Program.{rows_in, word_faults};
ghost use Rattle.mc_options.specs.Wrong.{wrong_of};
ghost use Rattle.mc_options.specs.Numbers.{budget_by, bytes_of, client_memory_by, counted_of, default_line, digits_of, ends_by, greater, needed_for, megabytes_of, memory_of, mode_by, mode_in, number_given, number_if_given, number_in, octal, shares_by, size_given, size_in, sizes_by, total_of, unit_of, unless_bytes, without_last};
ghost use Rattle.mc_options.specs.Flags.{is_flag, profile_by};
ghost use Rattle.mc_options.specs.Calls.{HasAllowedSizes, SpellsOptions, call_by, call_of, first_given, given_in, is_one_ignored, places_in, places_of, port_by, replay_by, stdio_by, tcp_by};
ghost use Rattle.mc_options.specs.Faults.{IsFaultOf, IsOfOptions};

use crate::error::OptionError;
use crate::program::program_options;
use clap::ArgMatches;
use mc_command::Profile;
use mc_sizes::{
    DEFAULT_BUDGET, DEFAULT_RING, DEFAULT_SEATS, DEFAULT_SHARDS, DEFAULT_WINDOW, MAX_BUDGET,
    MAX_SEATS, MAX_SHARDS, MAX_WINDOW, MIN, MIN_BUDGET, Sizes,
};
use mc_wire::{
    DEFAULT_LINE_LIMIT, DEFAULT_VALUE_LIMIT, DROP_IN_LINE_LIMIT, MAX_LINE_LIMIT, MAX_VALUE_LIMIT,
    MIN_LINE_LIMIT, MIN_VALUE_LIMIT, number_u64,
};
use std::alloc::{AllocError, Global};

/// Maximum of `--connections`.
const MAX_CONNECTIONS: u64 = 4_294_967_295;

/// Maximum of `--idle-timeout` in seconds: a year.
const MAX_IDLE: u64 = 31_536_000;

/// Default and maximum of `--drain`, in seconds.
const DEFAULT_DRAIN: usize = 5;

const MAX_DRAIN: usize = 86_400;

/// Default host to listen on.
const DEFAULT_HOST: &str = "127.0.0.1";

/// Default port to listen on.
const DEFAULT_PORT: &str = "11211";

/// Default file mode of a Unix socket.
const DEFAULT_MODE: u32 = 0o700;

/// Minimum, least default and maximum of `--client-memory`, in bytes.
const MIN_CLIENT_MEMORY: usize = 16_777_216;

const DEFAULT_CLIENT_MEMORY: usize = 33_554_432;

const MAX_CLIENT_MEMORY: usize = 1_099_511_627_776;

/// A megabyte, memcached's unit of `-m`, in bytes.
const MEGABYTE: usize = 1_048_576;

/// What the program does.
#[derive(Drop, PartialEq)]
pub enum Options<'a> {
    /// Serve clients that connect.
    Listen {
        /// The words that say where to listen, each an address or several separated by commas; see
        /// `listening_path` and `listening_address`. At least one, unless there is a path.
        places: Vec<&'a str>,
        /// The path of an additional Unix socket.
        path: Option<&'a str>,
        /// The file mode of Unix sockets.
        mode: u32,
        /// The port of addresses without one.
        port: &'a str,
        /// Number of connections after which the program ends, if it is limited.
        connections: Option<u64>,
        /// The idle timeout in seconds, if there is one.
        idle_timeout: Option<u64>,
        /// Whether connections are logged to standard error.
        verbose: bool,
        /// The address and port, or the port, at which metrics are served, if they are.
        metrics: Option<&'a str>,
        /// Seconds that connections have for a clean shutdown.
        drain: u64,
        /// Only print the memory that such a server takes.
        plan: bool,
        /// Whether an option of memcached is given that has no effect.
        ignores: bool,
        sizes: Sizes,
        /// What all connections together may hold, in bytes.
        client_memory: usize,
    },
    /// Serve one connection over standard input and output.
    Stdio {
        /// The Unix time of every command, or `None` for the machine's clock.
        at: Option<u64>,
        sizes: Sizes,
    },
    /// Run the schedule in a file.
    Replay {
        file: &'a str,
    },
    /// Print the version.
    Version,
}

/// Parses the command line, whose first word is the program's name.
pub fn read_options<'a>(alloc: Global, words: &'a [String]) -> Result<Options<'a>, OptionError<'a>>
    ensures words { OnOk result (word_faults (map string_bytes words.entry.now) ≡ []) }
    ensures given { IfOk result
        (SpellsOptions (given_in (map string_bytes words.entry.now))
        (places_in (map string_bytes words.entry.now))) }
    ensures within { IfOk result HasAllowedSizes }
    ensures refused { IfErr result (IsFaultOf (map string_bytes words.entry.now)) }
{
    match parse_places(alloc, words) {
        Ok((matches, places)) => options_in(&matches, places),
        Err(error) => Err(OptionError::Call(error)),
    }
}

/// The parsed options, and the words that say where to listen.
fn parse_places<'a>(
    alloc: Global,
    words: &'a [String],
) -> Result<(ArgMatches<'a>, Vec<&'a str>), clap::Error>
    ensures matches { IfOk result (λ parsed.
        rows_of (found_of parsed.0) ≡ rows_in (map string_bytes words.entry.now)) }
    ensures places { IfOk result (λ parsed.
        map (λ word. word.now) parsed.1.items ≡ places_in (map string_bytes words.entry.now)) }
    ensures call { FailsBy (word_faults (map string_bytes words.entry.now)) result }
{
    let matches = parse(alloc, words)?;
    let places = places_of(alloc, &matches)?;
    Ok((matches, places))
}

/// The parsed options.
fn parse<'a>(alloc: Global, words: &'a [String]) -> Result<ArgMatches<'a>, clap::Error>
    ensures matches { IfOk result
        (λ matches. rows_of (found_of matches) ≡ rows_in (map string_bytes words.entry.now)) }
    ensures call { FailsBy (word_faults (map string_bytes words.entry.now)) result }
{
    let program = program_options(alloc)?;
    program.try_get_matches_from(words)
}

/// The words that say where to listen, in order: those of `--listen`, or the default host if
/// neither it nor the path of a Unix socket is given.
fn places_of<'m, 'a: 'm>(
    alloc: Global,
    matches: &'m ArgMatches<'a>,
) -> Result<Vec<&'a str>, AllocError>
    ensures { IfOk result (λ places.
        map (λ word. word.now) places.items ≡ places_of (rows_of (found_of matches.now))) }
{
    match matches.get_strs("listen") {
        Some(words) => words.to_vec(alloc),
        None if is_given(matches, "unix-socket") => Ok(Vec::new(alloc)),
        None => {
            let mut places = Vec::new(alloc);
            places.push(DEFAULT_HOST)?;
            Ok(places)
        }
    }
}

/// What the program does, with these addresses.
fn options_in<'a>(
    matches: &ArgMatches<'a>,
    places: Vec<&'a str>,
) -> Result<Options<'a>, OptionError<'a>>
    ensures given { IfOk result
        (SpellsOptions (first_value (found_of matches.now))
        (map (λ word. word.now) places.entry.items)) }
    ensures within { IfOk result HasAllowedSizes }
    ensures refused { IfErr result (λ fault.
        IsOfOptions fault ×
        (call_by (first_value (found_of matches.now)) (map (λ word. word.now) places.entry.items) ≡
        Err (wrong_of fault))) }
{
    if is_flag(matches, "version") {
        return Ok(Options::Version);
    }
    if matches.get_str("items").is_some() {
        return Err(OptionError::Items);
    }
    if let Some(file) = matches.get_str("replay") {
        return replay_in(matches, file);
    }
    if is_flag(matches, "stdio") {
        return stdio_in(matches);
    }
    listen_in(matches, places)
}

/// The options of `--replay`.
fn replay_in<'a>(matches: &ArgMatches<'a>, file: &'a str) -> Result<Options<'a>, OptionError<'a>>
    ensures given { IfOk result (λ options.
        replay_by (first_value (found_of matches.now)) file.now ≡ Ok (call_of options)) }
    ensures within { IfOk result HasAllowedSizes }
    ensures refused { IfErr result (λ fault.
        IsOfOptions fault ×
        (replay_by (first_value (found_of matches.now)) file.now ≡ Err (wrong_of fault))) }
{
    let options = &[
        "at",
        "listen",
        "shards",
        "seats",
        "bytes",
        "memory",
        "value-limit",
        "line-limit",
        "window",
        "client-memory",
        "connections",
        "idle-timeout",
        "metrics",
        "drain",
        "port",
        "memory-limit",
        "udp-port",
        "unix-socket",
        "unix-mask",
        "user",
        "pidfile",
    ];
    let flags = &[
        "stdio",
        "verbose",
        "drop-in",
        "plan",
        "daemon",
        "enable-shutdown",
    ];
    if let Some(option) = first_given(matches, options, flags) {
        return Err(OptionError::NotOfReplay { option });
    }
    Ok(Options::Replay { file })
}

/// The options of `--stdio`.
fn stdio_in<'a>(matches: &ArgMatches<'a>) -> Result<Options<'a>, OptionError<'a>>
    ensures given { IfOk result
        (λ options. stdio_by (first_value (found_of matches.now)) ≡ Ok (call_of options)) }
    ensures within { IfOk result HasAllowedSizes }
    ensures refused { IfErr result (λ fault.
        IsOfOptions fault ×
        (stdio_by (first_value (found_of matches.now)) ≡ Err (wrong_of fault))) }
{
    let options = &[
        "listen",
        "seats",
        "client-memory",
        "connections",
        "idle-timeout",
        "metrics",
        "drain",
        "port",
        "udp-port",
        "unix-socket",
        "unix-mask",
        "user",
        "pidfile",
    ];
    let others = &["verbose", "plan", "daemon", "enable-shutdown"];
    if let Some(option) = first_given(matches, options, others) {
        return Err(OptionError::NotOfStdio { option });
    }
    let at = number_if_given(matches, "at", 0, u64::MAX)?;
    let sizes = sizes_in(matches, 1)?;
    Ok(Options::Stdio { at, sizes })
}

/// The options of a server that listens at these addresses.
fn listen_in<'a>(
    matches: &ArgMatches<'a>,
    places: Vec<&'a str>,
) -> Result<Options<'a>, OptionError<'a>>
    ensures given { IfOk result (λ options.
        tcp_by (first_value (found_of matches.now)) (map (λ word. word.now) places.entry.items) ≡
        Ok (call_of options)) }
    ensures within { IfOk result HasAllowedSizes }
    ensures refused { IfErr result (λ fault.
        IsOfOptions fault ×
        (tcp_by (first_value (found_of matches.now)) (map (λ word. word.now) places.entry.items) ≡
        Err (wrong_of fault))) }
{
    if let Some(option) = first_given(matches, &["at"], &[]) {
        return Err(OptionError::NotOfTcp { option });
    }
    let seats = number_given(matches, "seats", MIN, DEFAULT_SEATS, MAX_SEATS)?;
    let connections = number_if_given(matches, "connections", 1, MAX_CONNECTIONS)?;
    let idle_timeout = number_if_given(matches, "idle-timeout", 1, MAX_IDLE)?;
    let drain = number_given(matches, "drain", 0, DEFAULT_DRAIN, MAX_DRAIN)?;
    let sizes = sizes_in(matches, seats)?;
    let client_memory = client_memory_in(matches, sizes)?;
    let port = port_in(matches)?;
    let mode = mode_in(matches)?;
    Ok(Options::Listen {
        places,
        path: matches.get_str("unix-socket"),
        mode,
        port,
        connections,
        idle_timeout,
        verbose: is_flag(matches, "verbose"),
        metrics: matches.get_str("metrics"),
        drain: drain as u64,
        plan: is_flag(matches, "plan"),
        ignores: is_one_ignored(matches),
        sizes,
        client_memory,
    })
}

/// Whether an option of memcached is given that has no effect.
fn is_one_ignored(matches: &ArgMatches<'_>) -> bool
    ensures { result ≡ is_one_ignored (first_value (found_of matches.now)) }
{
    is_given(matches, "user") || is_given(matches, "pidfile") || is_flag(matches, "daemon")
}

/// The default port of addresses. Fails if a UDP port is requested.
fn port_in<'a>(matches: &ArgMatches<'a>) -> Result<&'a str, OptionError<'a>>
    ensures given { IfOk result
        (λ port. port_by (first_value (found_of matches.now)) ≡ Ok port.now) }
    ensures refused { IfErr result (λ fault.
        IsOfOptions fault ×
        (port_by (first_value (found_of matches.now)) ≡ Err (wrong_of fault))) }
{
    number_if_given(matches, "udp-port", 0, 0)?;
    match matches.get_str("port") {
        Some(word) => {
            number_in("port", word, 1, 65_535)?;
            Ok(word)
        }
        None => Ok(DEFAULT_PORT),
    }
}

/// The file mode of Unix sockets; 0700 by default.
fn mode_in<'a>(matches: &ArgMatches<'a>) -> Result<u32, OptionError<'a>>
    ensures given { IfOk result
        (λ mode. mode_by (first_value (found_of matches.now)) ≡ Ok mode) }
    ensures refused { IfErr result (λ fault.
        IsOfOptions fault ×
        (mode_by (first_value (found_of matches.now)) ≡ Err (wrong_of fault))) }
{
    match matches.get_str("unix-mask") {
        Some(word) => mode_of(word),
        None => Ok(DEFAULT_MODE),
    }
}

/// Parses an octal file mode.
fn mode_of<'a>(word: &'a str) -> Result<u32, OptionError<'a>>
    ensures given { IfOk result (λ mode. mode_in word.entry.now ≡ Ok mode) }
    ensures refused { IfErr result (λ fault.
        IsOfOptions fault × (mode_in word.entry.now ≡ Err (wrong_of fault))) }
{
    let digits = number_u64(word.as_bytes()).ok();
    digits.and_then(octal).ok_or(OptionError::Mode { word })
}

/// Converts three digits, parsed in decimal, to the octal number that they denote.
fn octal(digits: u64) -> Option<u32>
    ensures { result ≡ octal digits }
{
    let (middle, low) = (digits / 10 % 10, digits % 10);
    if digits > 777 || middle > 7 || low > 7 {
        return None;
    }
    Some((digits / 100 * 64 + middle * 8 + low) as u32)
}

/// The sizes, the profile and whether clients may end the server, for one with `seats` slots.
fn sizes_in<'a>(matches: &ArgMatches<'a>, seats: usize) -> Result<Sizes, OptionError<'a>>
    requires least { MIN ≤ seats }
    requires greatest { seats ≤ MAX_SEATS }
    ensures given { IfOk result
        (λ sizes. sizes_by (first_value (found_of matches.now)) seats ≡ Ok sizes) }
    ensures within { IfOk result AreWithin }
    ensures refused { IfErr result (λ fault.
        IsOfOptions fault ×
        (sizes_by (first_value (found_of matches.now)) seats ≡ Err (wrong_of fault))) }
{
    let profile = profile_in(matches);
    let shutdown = is_flag(matches, "enable-shutdown");
    let longest = default_line(profile);
    let budget = budget_in(matches)?;
    let value = size_given(
        matches,
        "value-limit",
        MIN_VALUE_LIMIT,
        DEFAULT_VALUE_LIMIT,
        MAX_VALUE_LIMIT,
    )?;
    let line = size_given(
        matches,
        "line-limit",
        MIN_LINE_LIMIT,
        longest,
        MAX_LINE_LIMIT,
    )?;
    let window = number_given(matches, "window", MIN, DEFAULT_WINDOW, MAX_WINDOW)?;
    Ok(Sizes {
        profile,
        seats,
        shards: budget.shards,
        bytes: budget.bytes,
        ring: DEFAULT_RING,
        value,
        line,
        window,
        shutdown,
    })
}

/// What all connections together may hold, in bytes: by default a quarter of the memory for items,
/// and at least 32 MiB.
fn client_memory_in<'a>(matches: &ArgMatches<'a>, sizes: Sizes) -> Result<usize, OptionError<'a>>
    requires { AreWithin sizes }
    ensures given { IfOk result (λ size.
        client_memory_by (first_value (found_of matches.now)) (sizes.shards * sizes.bytes) ≡
        Ok size) }
    ensures refused { IfErr result (λ fault.
        IsOfOptions fault ×
        (client_memory_by (first_value (found_of matches.now)) (sizes.shards * sizes.bytes) ≡
        Err (wrong_of fault))) }
{
    let quarter = quarter_of(sizes.shards, sizes.bytes);
    size_given(
        matches,
        "client-memory",
        MIN_CLIENT_MEMORY,
        greater(quarter, DEFAULT_CLIENT_MEMORY),
        MAX_CLIENT_MEMORY,
    )
}

/// A quarter of the budget of all shards together.
fn quarter_of(shards: usize, bytes: usize) -> usize
    requires shards { shards ≤ 64 }
    requires bytes { bytes ≤ 68719476736 }
    ensures value { result ≡ shards * bytes / 4 }
    ensures within { result ≤ 1099511627776 }
{
    shards * bytes / 4
}

/// The protocol profile.
fn profile_in(matches: &ArgMatches<'_>) -> Profile
    ensures { result ≡ profile_by (first_value (found_of matches.now)) }
{
    if is_flag(matches, "drop-in") {
        Profile::DropIn
    } else {
        Profile::Own
    }
}

/// The default line limit in bytes.
fn default_line(profile: Profile) -> usize
    ensures value { result ≡ default_line profile }
    ensures within { (2048 ≤ result) × (result ≤ 8388608) }
{
    if matches!(profile, Profile::DropIn) {
        DROP_IN_LINE_LIMIT
    } else {
        DEFAULT_LINE_LIMIT
    }
}

/// Number of shards, and the memory budget of each in bytes.
#[derive(Clone, Copy)]
struct Budget {
    shards: usize,
    bytes: usize,
}

/// The allowed number of shards.
#[derive(Clone, Copy)]
struct Range {
    fewest: usize,
    most: usize,
}

/// The number of shards and the budget of each. Without `--shards` there are two, or as many as
/// `--memory` needs.
fn budget_in<'a>(matches: &ArgMatches<'a>) -> Result<Budget, OptionError<'a>>
    ensures given { IfOk result (λ budget.
        budget_by (first_value (found_of matches.now)) ≡ Ok (budget.shards, budget.bytes)) }
    ensures within { IfOk result (λ budget.
        (1 ≤ budget.shards) × (budget.shards ≤ 64) ×
        ((1024 ≤ budget.bytes) × (budget.bytes ≤ 68719476736))) }
    ensures refused { IfErr result (λ fault.
        IsOfOptions fault ×
        (budget_by (first_value (found_of matches.now)) ≡ Err (wrong_of fault))) }
{
    let shards = number_if_given(matches, "shards", MIN as u64, MAX_SHARDS as u64)?;
    let range = range_of(shards);
    let has_bytes = is_given(matches, "bytes");
    let memory = matches.get_str("memory");
    let megabytes = matches.get_str("memory-limit");
    let total = total_in(range, has_bytes, memory, megabytes)?;
    shares_in(matches, range, total)
}

/// The allowed number of shards: exactly the given one, or by default 2 to 64.
fn range_of(shards: Option<u64>) -> Range
    requires { IfSome shards (λ number. (1 ≤ number) × (number ≤ 64)) }
    ensures fewest { result.fewest ≡ unwrap_or shards 2 }
    ensures most { result.most ≡ unwrap_or shards 64 }
    ensures within { (1 ≤ result.fewest) × (result.fewest ≤ result.most) × (result.most ≤ 64) }
{
    match shards {
        Some(number) => Range {
            fewest: number as usize,
            most: number as usize,
        },
        None => Range {
            fewest: DEFAULT_SHARDS,
            most: MAX_SHARDS,
        },
    }
}

/// The budget of all shards together, if it is given by `--memory` or, in megabytes, by
/// `--memory-limit`. Fails if more than one option sets a budget.
fn total_in<'a>(
    range: Range,
    has_bytes: bool,
    memory: Option<&'a str>,
    megabytes: Option<&'a str>,
) -> Result<Option<usize>, OptionError<'a>>
    requires range { (1 ≤ range.fewest) × (range.fewest ≤ range.most) × (range.most ≤ 64) }
    ensures given { IfOk result (λ total.
        total_of range.fewest range.most has_bytes (option_map (λ text. text.now) memory.entry)
        (option_map (λ text. text.now) megabytes.entry) ≡ Ok total) }
    ensures within { IfOk result (λ total. IfSome total
        (λ size. (1024 * range.fewest ≤ size) × (size ≤ 68719476736 * range.most))) }
    ensures refused { IfErr result (λ fault.
        IsOfOptions fault ×
        (total_of range.fewest range.most has_bytes (option_map (λ text. text.now) memory.entry)
        (option_map (λ text. text.now) megabytes.entry) ≡ Err (wrong_of fault))) }
{
    match (memory, megabytes) {
        (None, None) => Ok(None),
        (Some(text), None) => memory_in(range, has_bytes, text),
        (None, Some(text)) => megabytes_in(range, has_bytes, text),
        (Some(_), Some(_)) => Err(OptionError::TwoBudgets),
    }
}

/// The value of `--memory`. Fails if `--bytes` is given too.
fn memory_in<'a>(
    range: Range,
    has_bytes: bool,
    text: &'a str,
) -> Result<Option<usize>, OptionError<'a>>
    requires range { (1 ≤ range.fewest) × (range.fewest ≤ range.most) × (range.most ≤ 64) }
    ensures given { IfOk result (λ total.
        unless_bytes has_bytes (memory_of range.fewest range.most text.entry.now) ≡ Ok total) }
    ensures within { IfOk result (λ total. IfSome total
        (λ size. (1024 * range.fewest ≤ size) × (size ≤ 68719476736 * range.most))) }
    ensures refused { IfErr result (λ fault.
        IsOfOptions fault ×
        (unless_bytes has_bytes (memory_of range.fewest range.most text.entry.now) ≡
        Err (wrong_of fault))) }
{
    if has_bytes {
        return Err(OptionError::TwoBudgets);
    }
    let least = MIN_BUDGET * range.fewest;
    let greatest = MAX_BUDGET * range.most;
    let size = size_in("memory", text, least, greatest)?;
    Ok(Some(size))
}

/// The value of `--memory-limit` in bytes. Fails if `--bytes` is given too.
fn megabytes_in<'a>(
    range: Range,
    has_bytes: bool,
    text: &'a str,
) -> Result<Option<usize>, OptionError<'a>>
    requires range { (1 ≤ range.fewest) × (range.fewest ≤ range.most) × (range.most ≤ 64) }
    ensures given { IfOk result (λ total.
        unless_bytes has_bytes (megabytes_of range.most text.entry.now) ≡ Ok total) }
    ensures within { IfOk result (λ total. IfSome total
        (λ size. (1024 * range.fewest ≤ size) × (size ≤ 68719476736 * range.most))) }
    ensures refused { IfErr result (λ fault.
        IsOfOptions fault ×
        (unless_bytes has_bytes (megabytes_of range.most text.entry.now) ≡ Err (wrong_of fault))) }
{
    if has_bytes {
        return Err(OptionError::TwoBudgets);
    }
    let greatest = MAX_BUDGET / MEGABYTE * range.most;
    let number = number_in("memory-limit", text, 1, greatest as u64)?;
    Ok(Some(number as usize * MEGABYTE))
}

/// Shards and budgets from the total budget, or from `--bytes`.
fn shares_in<'a>(
    matches: &ArgMatches<'a>,
    range: Range,
    total: Option<usize>,
) -> Result<Budget, OptionError<'a>>
    requires range { (1 ≤ range.fewest) × (range.fewest ≤ range.most) × (range.most ≤ 64) }
    requires total { IfSome total
        (λ size. (1024 * range.fewest ≤ size) × (size ≤ 68719476736 * range.most)) }
    ensures given { IfOk result (λ budget.
        shares_by (first_value (found_of matches.now)) range.fewest total ≡
        Ok (budget.shards, budget.bytes)) }
    ensures within { IfOk result (λ budget.
        (1 ≤ budget.shards) × (budget.shards ≤ 64) ×
        ((1024 ≤ budget.bytes) × (budget.bytes ≤ 68719476736))) }
    ensures refused { IfErr result (λ fault.
        IsOfOptions fault ×
        (shares_by (first_value (found_of matches.now)) range.fewest total ≡
        Err (wrong_of fault))) }
{
    match total {
        Some(size) => Ok(shares_of(range, size)),
        None => {
            let bytes = size_given(matches, "bytes", MIN_BUDGET, DEFAULT_BUDGET, MAX_BUDGET)?;
            Ok(Budget {
                shards: range.fewest,
                bytes,
            })
        }
    }
}

/// Divides the total equally among as few shards as allowed and needed.
fn shares_of(range: Range, total: usize) -> Budget
    requires range { (1 ≤ range.fewest) × (range.fewest ≤ range.most) × (range.most ≤ 64) }
    requires total { (1024 * range.fewest ≤ total) × (total ≤ 68719476736 * range.most) }
    ensures shards { result.shards ≡ greater range.fewest (needed_for total) }
    ensures bytes { result.bytes ≡ total / greater range.fewest (needed_for total) }
    ensures within { (1 ≤ result.shards) × (result.shards ≤ 64) ×
        ((1024 ≤ result.bytes) × (result.bytes ≤ 68719476736)) }
{
    let needed = (total + (MAX_BUDGET - 1)) / MAX_BUDGET;
    let shards = greater(range.fewest, needed);
    let bytes = share_of(total, shards);
    Budget { shards, bytes }
}

/// The larger of the two.
fn greater(a: usize, b: usize) -> usize
    ensures { result ≡ greater a b }
{
    if a < b { b } else { a }
}

/// The budget of each shard.
fn share_of(total: usize, shards: usize) -> usize
    requires some { (1 ≤ shards) × (shards ≤ 64) }
    requires least { 1024 * shards ≤ total }
    requires greatest { total ≤ 68719476736 * shards }
    ensures value { result ≡ total / shards }
    ensures within { (1024 ≤ result) × (result ≤ 68719476736) }
{
    total / shards
}

/// The first of these options that is given, with or without a value.
fn first_given(
    matches: &ArgMatches<'_>,
    options: &[&'static str],
    flags: &[&'static str],
) -> Option<&'static str>
    ensures { option_map (λ name. name.now) result ≡
        first_given (first_value (found_of matches.now)) (map (λ name. name.now) options.now)
        (map (λ name. name.now) flags.now) }
{
    for option in options {
        if matches.get_str(option).is_some() {
            return Some(option);
        }
    }
    for flag in flags {
        if is_flag(matches, flag) {
            return Some(flag);
        }
    }
    None
}

/// Whether an option is given.
fn is_given(matches: &ArgMatches<'_>, name: &str) -> bool
    ensures { result ≡ is_some (first_value (found_of matches.now) name.now) }
{
    matches.get_str(name).is_some()
}

/// Whether an option without a value is given.
fn is_flag(matches: &ArgMatches<'_>, name: &str) -> bool
    ensures { result ≡ is_flag (first_value (found_of matches.now)) name.now }
{
    match matches.get_str(name) {
        Some(text) => text == "true",
        None => false,
    }
}

/// The value of a numeric option, between `least` and `most`; its default if it isn't given.
fn number_given<'a>(
    matches: &ArgMatches<'a>,
    option: &'static str,
    least: usize,
    default: usize,
    most: usize,
) -> Result<usize, OptionError<'a>>
    requires least { least ≤ default }
    requires most { default ≤ most }
    ensures given { IfOk result (λ number.
        number_given (first_value (found_of matches.now)) option.now least default most ≡
        Ok number) }
    ensures within { IfOk result (λ number. (least ≤ number) × (number ≤ most)) }
    ensures refused { IfErr result (λ fault.
        IsOfOptions fault ×
        (number_given (first_value (found_of matches.now)) option.now least default most ≡
        Err (wrong_of fault))) }
{
    match matches.get_str(option) {
        Some(word) => Ok(number_in(option, word, least as u64, most as u64)? as usize),
        None => Ok(default),
    }
}

/// The value of a numeric option, between `least` and `most`, if it is given.
fn number_if_given<'a>(
    matches: &ArgMatches<'a>,
    option: &'static str,
    least: u64,
    most: u64,
) -> Result<Option<u64>, OptionError<'a>>
    ensures given { IfOk result (λ number.
        number_if_given (first_value (found_of matches.now)) option.now least most ≡ Ok number) }
    ensures within { IfOk result
        (λ given. IfSome given (λ number. (least ≤ number) × (number ≤ most))) }
    ensures refused { IfErr result (λ fault.
        IsOfOptions fault ×
        (number_if_given (first_value (found_of matches.now)) option.now least most ≡
        Err (wrong_of fault))) }
{
    match matches.get_str(option) {
        Some(word) => Ok(Some(number_in(option, word, least, most)?)),
        None => Ok(None),
    }
}

/// Parses a number between `least` and `most`.
fn number_in<'a>(
    option: &'static str,
    word: &'a str,
    least: u64,
    most: u64,
) -> Result<u64, OptionError<'a>>
    ensures given { IfOk result
        (λ number. number_in option.now least most word.entry.now ≡ Ok number) }
    ensures within { IfOk result (λ number. (least ≤ number) × (number ≤ most)) }
    ensures refused { IfErr result (λ fault.
        IsOfOptions fault ×
        (number_in option.now least most word.entry.now ≡ Err (wrong_of fault))) }
{
    match number_u64(word.as_bytes()) {
        Ok(number) if number >= least && number <= most => Ok(number),
        _ => Err(OptionError::Number {
            option,
            word,
            least,
            most,
        }),
    }
}

/// The value of a size option in bytes, between `least` and `most`; its default if it isn't given.
fn size_given<'a>(
    matches: &ArgMatches<'a>,
    option: &'static str,
    least: usize,
    default: usize,
    most: usize,
) -> Result<usize, OptionError<'a>>
    requires least { least ≤ default }
    requires most { default ≤ most }
    ensures given { IfOk result (λ size.
        size_given (first_value (found_of matches.now)) option.now least default most ≡ Ok size) }
    ensures within { IfOk result (λ size. (least ≤ size) × (size ≤ most)) }
    ensures refused { IfErr result (λ fault.
        IsOfOptions fault ×
        (size_given (first_value (found_of matches.now)) option.now least default most ≡
        Err (wrong_of fault))) }
{
    match matches.get_str(option) {
        Some(word) => size_in(option, word, least, most),
        None => Ok(default),
    }
}

/// Parses a size in bytes between `least` and `most`.
fn size_in<'a>(
    option: &'static str,
    word: &'a str,
    least: usize,
    most: usize,
) -> Result<usize, OptionError<'a>>
    ensures given { IfOk result (λ size. size_in option.now least most word.entry.now ≡ Ok size) }
    ensures within { IfOk result (λ size. (least ≤ size) × (size ≤ most)) }
    ensures refused { IfErr result (λ fault.
        IsOfOptions fault × (size_in option.now least most word.entry.now ≡ Err (wrong_of fault))) }
{
    let least = least as u64;
    let most = most as u64;
    match bytes_of(word.as_bytes()) {
        Some(size) if size >= least && size <= most => Ok(size as usize),
        _ => Err(OptionError::Size {
            option,
            word,
            least,
            most,
        }),
    }
}

/// Parses a size in bytes: a number below 2^64, optionally followed by `k`, `m`, `g`, `b`, `kb`,
/// `mb` or `gb` in either case. `None` if it is invalid.
fn bytes_of(text: &[u8]) -> Option<u64>
    ensures { result ≡ bytes_of text.now }
{
    let counted = counted_of(text);
    let unit = unit_of(counted);
    let digits = digits_of(counted, unit);
    match number_u64(digits) {
        Ok(number) => number.checked_mul(unit),
        Err(_) => None,
    }
}

/// The text without a trailing `b` or `B`.
fn counted_of(text: &[u8]) -> &[u8]
    ensures { result.now ≡ counted_of text.now }
{
    if ends_by(text, b"b", b"B") {
        without_last(text)
    } else {
        text
    }
}

/// The factor of the unit letter at the end: 1024, its square or its cube; 1 if there is none.
fn unit_of(text: &[u8]) -> u64
    ensures value { result ≡ unit_of text.now }
{
    if ends_by(text, b"k", b"K") {
        1_024
    } else if ends_by(text, b"m", b"M") {
        1_048_576
    } else if ends_by(text, b"g", b"G") {
        1_073_741_824
    } else {
        1
    }
}

/// Whether the text ends with this letter in either case.
fn ends_by(text: &[u8], small: &[u8], capital: &[u8]) -> bool
    ensures { result ≡ ends_by text.now small.now capital.now }
{
    text.ends_with(small) || text.ends_with(capital)
}

/// The text without its unit letter, if the factor is more than 1.
fn digits_of(text: &[u8], unit: u64) -> &[u8]
    requires { unit ≡ unit_of text.now }
    ensures { result.now ≡ digits_of text.now }
{
    if unit == 1 { text } else { without_last(text) }
}

/// The text without its last byte.
fn without_last(text: &[u8]) -> &[u8]
    ensures { result.now ≡ without_last text.now }
{
    text.split_at(text.len().saturating_sub(1)).0
}
