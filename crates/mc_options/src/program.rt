//! The options of the program, as `--help` shows them.
ghost use Rattle.std.specs.Prelude.{◌≡◌, IfOk, map};
ghost use Rattle.clap.specs.Words.{app_of, with_rule};
ghost use Rattle.mc_options.specs.Program.{program, with_rules};
ghost use Rattle.mc_options.specs.internal.Told.{action_of, by_letter, told_rule};

use clap::{Arg, ArgAction, Command};
use std::alloc::{AllocError, Global};

/// Usage lines below the list of options.
const CALLS: &str = "\
mcd [--listen PLACE..] [--seats N] [--memory SIZE] [options]   serve clients
mcd --plan [options]                        print the memory that it needs
mcd --stdio [--at SECONDS] [limits]         serve one connection
mcd --replay FILE                           run a schedule

Limits are --shards, --bytes, --memory, --memory-limit, --value-limit,
--line-limit, --window and --drop-in. A SIZE is in bytes, or has a unit of
1024: 64k, 64m (or 64M, 64mb), 4g. Defaults are in [].
memcached's -U 0, -d, -u USER and -P FILE are accepted and ignored.";

/// An option: name, short letter, metavariable and help text. A flag has no metavariable. If the
/// metavariable ends with dots, the option may be repeated. An option without a help text is
/// hidden: it has no effect, or it is an alias.
type Told<'a> = (&'a str, Option<char>, &'a str, &'a str);

/// The options in the order of `--help`: usage, server sizes, telemetry, and the remaining ones of
/// memcached. A short letter has memcached's meaning.
const OPTIONS: [Told<'static>; 30] = [
    (
        "listen",
        Some('l'),
        "PLACE..",
        "Listen on HOST[:PORT], PORT or unix:PATH [127.0.0.1:11211]",
    ),
    (
        "stdio",
        None,
        "",
        "Serve one connection over standard input and output",
    ),
    (
        "replay",
        None,
        "FILE",
        "Run the schedule in FILE, and print the result",
    ),
    (
        "at",
        None,
        "SECONDS",
        "Use this Unix time for every command, with --stdio",
    ),
    ("version", None, "", "Print the version and the toolchain"),
    (
        "plan",
        None,
        "",
        "Print the memory that these options need, and exit",
    ),
    (
        "shards",
        Some('t'),
        "N",
        "Shards, a thread each, 1 to 64 [2, or as many as --memory needs]",
    ),
    (
        "seats",
        Some('c'),
        "N",
        "Connections served at a time, 1 to 65536 [1024]",
    ),
    (
        "bytes",
        None,
        "SIZE",
        "Memory for the items of each shard, 1k to 64g [16m]",
    ),
    (
        "memory",
        None,
        "SIZE",
        "Memory for the items of all shards, instead of --bytes",
    ),
    (
        "value-limit",
        Some('I'),
        "SIZE",
        "Largest value, 1k to 8m [1m]",
    ),
    (
        "line-limit",
        None,
        "SIZE",
        "Longest line, 2k to 8m [64k; with --drop-in 1m]",
    ),
    (
        "window",
        None,
        "N",
        "Pending commands of each connection, 1 to 4096 [256]",
    ),
    (
        "client-memory",
        None,
        "SIZE",
        "Memory for what clients send and don't read, 16m to 1024g [32m or more]",
    ),
    (
        "connections",
        None,
        "N",
        "Exit after this many connections, 1 to 4294967295",
    ),
    (
        "drop-in",
        None,
        "",
        "Follow memcached 1.6 where its rules differ",
    ),
    ("items", None, "N", ""),
    (
        "idle-timeout",
        None,
        "SECONDS",
        "Close connections idle for SECONDS, 1 to 31536000",
    ),
    (
        "verbose",
        Some('v'),
        "",
        "Log connections to standard error",
    ),
    (
        "metrics",
        None,
        "ADDRESS",
        "Serve metrics over HTTP on [HOST:]PORT [127.0.0.1]",
    ),
    (
        "drain",
        None,
        "SECONDS",
        "Cut off connections SECONDS after a blocked SIGTERM, 0 to 86400 [5]",
    ),
    (
        "port",
        Some('p'),
        "N",
        "Default port of --listen, 1 to 65535 [11211]",
    ),
    (
        "memory-limit",
        Some('m'),
        "N",
        "The same as --memory, in megabytes",
    ),
    ("udp-port", Some('U'), "N", ""),
    (
        "unix-socket",
        Some('s'),
        "PATH",
        "Listen on a Unix socket, alone or in addition to --listen",
    ),
    (
        "unix-mask",
        Some('a'),
        "MODE",
        "Mode of Unix sockets, in octal [700]",
    ),
    (
        "enable-shutdown",
        Some('A'),
        "",
        "Let clients stop the server with shutdown (needs --drop-in)",
    ),
    ("daemon", Some('d'), "", ""),
    ("user", Some('u'), "NAME", ""),
    ("pidfile", Some('P'), "FILE", ""),
];

/// The program with its options.
#[tactic(auto, unfolding(crate::specs::Program::program))]
pub fn program_options<'a>(alloc: Global) -> Result<Command<'a>, AllocError>
    ensures { IfOk result (λ command. app_of command ≡ program) }
{
    let command = Command::new(alloc, "mcd").after_help(CALLS);
    with_options(alloc, command, &OPTIONS)
}

/// Adds these options to the program.
fn with_options<'a>(
    alloc: Global,
    program: Command<'a>,
    options: &[Told<'a>],
) -> Result<Command<'a>, AllocError>
    ensures { IfOk result (λ more. app_of more ≡
        with_rules (app_of program.entry)
        (map (λ told. told_rule told.0.now told.1 told.2.now) options.now)) }
{
    let mut more = program;
    for option in options {
        more = with_option(alloc, more, option)?;
    }
    Ok(more)
}

/// Adds one option to the program.
fn with_option<'a>(
    alloc: Global,
    program: Command<'a>,
    told: &Told<'a>,
) -> Result<Command<'a>, AllocError>
    ensures { IfOk result (λ more. app_of more ≡
        with_rule (app_of program.entry)
        (told_rule told.now.0.now told.now.1 told.now.2.now)) }
{
    let (name, letter, value, help) = *told;
    let named = Arg::new(alloc, name)
        .long(name)
        .help(help)
        .hide(help.is_empty());
    let option = by_letter(named, letter);
    if value.is_empty() {
        program.arg(option.action(ArgAction::SetTrue))
    } else {
        program.arg(option.action(action_of(value)).value_name(value))
    }
}

/// How repetitions of an option are handled, by its metavariable: values are collected, or a
/// repetition is refused.
fn action_of(value: &str) -> ArgAction
    ensures { result ≡ action_of value.now }
{
    if value.as_bytes().ends_with(b"..") {
        ArgAction::Append
    } else {
        ArgAction::Set
    }
}

/// Adds the short letter to an option, if it has one.
fn by_letter<'a>(option: Arg<'a>, letter: Option<char>) -> Arg<'a>
    ensures { result ≡ by_letter letter option.entry }
{
    match letter {
        Some(letter) => option.short(letter),
        None => option,
    }
}
