//! The calls of the program, from the words of their command lines.
use crate::asserting::{equal, holds};
use mc_command::Profile;
use mc_options::{OptionError, Options, read_options};
use mc_sizes::Sizes;
use std::alloc::{AllocError, Global};

/// Why a test fails without an assertion.
#[derive(Debug, Drop)]
enum Fail {
    Memory,
    /// The status of a call that was refused.
    Options(u8),
}

impl From<AllocError> for Fail {
    fn from(_error: AllocError) -> Fail {
        Fail::Memory
    }
}

impl From<OptionError<'_>> for Fail {
    fn from(fault: OptionError<'_>) -> Fail {
        Fail::Options(fault.status())
    }
}

/// The words of a command line.
fn words_of(alloc: Global, line: &str) -> Result<Vec<String>, AllocError> {
    let mut words = Vec::new(alloc);
    for word in line.split(' ') {
        words.push(String::from_str(alloc, word)?)?;
    }
    Ok(words)
}

#[test]
fn no_option(rt: HostRuntime) -> Result<(), Fail> {
    let alloc = rt.alloc();
    let words = words_of(alloc, "mcd")?;
    let wanted = Sizes {
        profile: Profile::Own,
        seats: 1_024,
        shards: 2,
        bytes: 16_777_216,
        ring: 20,
        value: 1_048_576,
        line: 65_536,
        window: 256,
        shutdown: false,
    };
    match read_options(alloc, words.as_slice())? {
        Options::Listen {
            places,
            path,
            mode,
            port,
            connections,
            idle_timeout,
            verbose,
            metrics,
            plan,
            ignores,
            drain,
            sizes,
            client_memory,
        } => {
            holds(&rt, places.as_slice() == ["127.0.0.1"].as_slice());
            equal(&rt, (path, metrics, port), (None, None, "11211"));
            equal(&rt, (connections, idle_timeout), (None, None));
            equal(&rt, (verbose, plan, ignores), (false, false, false));
            equal(&rt, (mode, drain), (0o700, 5));
            equal(&rt, client_memory, 33_554_432);
            holds(&rt, sizes == wanted);
        }
        _ => holds(&rt, false),
    }
    Ok(())
}

#[test]
fn each_call(rt: HostRuntime) -> Result<(), Fail> {
    let alloc = rt.alloc();
    let words = words_of(
        alloc,
        "mcd --stdio --at 1000 --drop-in --shards 016 --bytes 1024 --value-limit=8388608 --window 1",
    )?;
    let options = read_options(alloc, words.as_slice())?;
    let sizes = Sizes {
        profile: Profile::DropIn,
        seats: 1,
        shards: 16,
        bytes: 1_024,
        ring: 20,
        value: 8_388_608,
        line: 1_048_576,
        window: 1,
        shutdown: false,
    };
    holds(
        &rt,
        options
            == Options::Stdio {
                at: Some(1000),
                sizes,
            },
    );
    let words = words_of(alloc, "mcd --replay a.schedule")?;
    let options = read_options(alloc, words.as_slice())?;
    holds(&rt, options == Options::Replay { file: "a.schedule" });
    let words = words_of(alloc, "mcd --version --items 5")?;
    let options = read_options(alloc, words.as_slice())?;
    holds(&rt, options == Options::Version);
    Ok(())
}

/// By default a quarter of the memory for items, and at least 32 MiB.
#[test]
fn client_memory(rt: HostRuntime) -> Result<(), Fail> {
    let alloc = rt.alloc();
    let calls = [
        ("mcd --client-memory 16m", 16_777_216),
        ("mcd --client-memory 1024g", 1_099_511_627_776),
        ("mcd --memory 64m", 33_554_432),
        ("mcd --memory 1g", 268_435_456),
        ("mcd --memory 1g --client-memory 64m", 67_108_864),
        ("mcd --shards 4 --bytes 64m", 67_108_864),
    ];
    for (call, bytes) in calls {
        let words = words_of(alloc, call)?;
        match read_options(alloc, words.as_slice())? {
            Options::Listen { client_memory, .. } => equal(&rt, client_memory, bytes),
            _ => holds(&rt, false),
        }
    }
    Ok(())
}

#[test]
fn places(rt: HostRuntime) -> Result<(), Fail> {
    let alloc = rt.alloc();
    let calls = [
        ("mcd", ["127.0.0.1"].as_slice(), None, 0o700),
        ("mcd -s a", [].as_slice(), Some("a"), 0o700),
        (
            "mcd -l a,b --listen unix:c -a 0770",
            ["a,b", "unix:c"].as_slice(),
            None,
            0o770,
        ),
        (
            "mcd -l 1 --unix-socket a --unix-mask 7",
            ["1"].as_slice(),
            Some("a"),
            7,
        ),
    ];
    for (call, wanted, at, bits) in calls {
        let words = words_of(alloc, call)?;
        match read_options(alloc, words.as_slice())? {
            Options::Listen {
                places,
                path,
                mode,
                ..
            } => {
                holds(&rt, places.as_slice() == wanted);
                equal(&rt, (call, path, mode), (call, at, bits));
            }
            _ => assert!(rt; false, "{call}"),
        }
    }
    Ok(())
}

#[test]
fn numbers_of_bytes(rt: HostRuntime) -> Result<(), Fail> {
    let alloc = rt.alloc();
    let calls = [
        (
            "mcd --stdio --bytes 64k --value-limit 2m",
            65_536,
            2_097_152,
        ),
        (
            "mcd --stdio --bytes 1g --value-limit 1k",
            1_073_741_824,
            1_024,
        ),
        (
            "mcd --stdio --memory 100m --shards 3",
            34_952_533,
            1_048_576,
        ),
        ("mcd --stdio --memory 2048 --shards 2", 1_024, 1_048_576),
        ("mcd --stdio -m 64 -I 2MB", 33_554_432, 2_097_152),
        ("mcd --stdio --memory 129gb", 46_170_898_432, 1_048_576),
    ];
    for (call, bytes, value) in calls {
        let words = words_of(alloc, call)?;
        match read_options(alloc, words.as_slice())? {
            Options::Stdio { sizes, .. } => {
                equal(&rt, (call, sizes.bytes), (call, bytes));
                equal(&rt, (call, sizes.value), (call, value));
            }
            _ => assert!(rt; false, "{call}"),
        }
    }
    Ok(())
}

#[test]
fn line_limits(rt: HostRuntime) -> Result<(), Fail> {
    let alloc = rt.alloc();
    let calls = [
        ("mcd --stdio", 65_536),
        ("mcd --stdio --drop-in", 1_048_576),
        ("mcd --stdio --line-limit 2k", 2_048),
        ("mcd --stdio --drop-in --line-limit 8m", 8_388_608),
    ];
    for (call, line) in calls {
        let words = words_of(alloc, call)?;
        match read_options(alloc, words.as_slice())? {
            Options::Stdio { sizes, .. } => equal(&rt, (call, sizes.line), (call, line)),
            _ => assert!(rt; false, "{call}"),
        }
    }
    Ok(())
}

#[test]
fn faults(rt: HostRuntime) -> Result<(), Fail> {
    let alloc = rt.alloc();
    let calls = [
        ("mcd --stdio --shards 65", 2),
        ("mcd --stdio --bytes 1023", 2),
        ("mcd --stdio --value-limit 1023", 2),
        ("mcd --stdio --line-limit 2047", 2),
        ("mcd --stdio --line-limit 8388609", 2),
        ("mcd --stdio --window 4097", 2),
        ("mcd --stdio --at x", 2),
        ("mcd --stdio --listen 127.0.0.1:0", 2),
        ("mcd --stdio --at 1 --at 1", 2),
        ("mcd --items 5", 2),
        ("mcd --at 5", 2),
        ("mcd --seats 65537", 2),
        ("mcd -s a -a 778", 2),
        ("mcd -a 1000", 2),
        ("mcd --stdio -s a", 2),
        ("mcd --replay a --unix-mask 700", 2),
        ("mcd -s a -s b", 2),
        ("mcd --connections 0", 2),
        ("mcd --replay a --stdio", 2),
        ("mcd --replay a --shards 2", 2),
        ("mcd --replay a --drop-in", 2),
        ("mcd --drop-in=true", 2),
        ("mcd --tcp-port 11211", 2),
        ("mcd --bytes 64k --memory 1m", 2),
        ("mcd --memory 2047", 2),
        ("mcd --bytes k", 2),
        ("mcd --bytes 1kk", 2),
        ("mcd --bytes 18014398509481985k", 2),
        ("mcd --help", 0),
    ];
    for (call, status) in calls {
        let words = words_of(alloc, call)?;
        match read_options(alloc, words.as_slice()) {
            Ok(_) => assert!(rt; false, "{call}"),
            Err(fault) => equal(&rt, (call, fault.status()), (call, status)),
        }
    }
    Ok(())
}
