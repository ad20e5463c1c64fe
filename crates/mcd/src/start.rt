//! The messages of the program once it listens.
ghost use Rattle.std.specs.Prelude.{◌≡◌, ◌/◌};
ghost use Rattle.mcd.specs.Start.{rules_of};

use crate::plan::memory_of;
use crate::version::VERSION;
use mc_command::Profile;
use mc_sizes::Sizes;
use std::io::Eprint;

/// The cost of an item besides its key and its value, and the length of the shortest key, in bytes.
const COST: usize = 65;

/// Logs to standard error that the program listens at these places, with its name, version, rules,
/// threads and memory.
pub fn tell_start(rt: &impl Eprint, sizes: &Sizes, names: &str) {
    let rules = rules_of(sizes.profile);
    let threads = sizes.shards;
    let memory = mebibytes(memory_of(sizes));
    let _ = eprintln!(rt;
        "mcd {VERSION}: {rules}, {threads} threads, {memory} MiB, listening on {names}"
    );
}

/// Warns on standard error if no shard has room for the largest value, or if `shutdown` is enabled
/// without memcached's rules.
pub fn tell_warnings(rt: &impl Eprint, sizes: &Sizes) {
    if sizes.shutdown && !sizes.rules().is_drop_in() {
        tell_no_shutdown(rt);
    }
    let most = sizes.bytes.saturating_sub(COST);
    if sizes.value > most {
        let limit = sizes.value;
        let _ = eprintln!(rt;
            "mcd: warning: --value-limit is {limit}, but no shard can hold a value above {most} bytes: raise --memory"
        );
    }
}

/// Warns on standard error that clients can't end the server: the native rules have no `shutdown`.
fn tell_no_shutdown(rt: &impl Eprint) {
    let _ = eprintln!(rt; "mcd: warning: --enable-shutdown is ignored without --drop-in");
}

/// Warns on standard error that memcached's options without a meaning here are ignored. See
/// docs/DECISIONS.md, O4.
pub fn tell_ignored(rt: &impl Eprint) {
    let _ = eprintln!(rt;
        "mcd: warning: --daemon, --user and --pidfile are ignored: use the service manager"
    );
}

/// The name of the server's rules.
pub fn rules_of(profile: Profile) -> &'static str
    ensures { result.now ≡ rules_of profile }
{
    match profile {
        Profile::DropIn => "memcached's rules",
        Profile::Own => "native rules",
    }
}

/// Bytes as mebibytes, rounded down.
pub fn mebibytes(bytes: u64) -> u64
    ensures { result ≡ bytes / 1048576 }
{
    bytes / 1_048_576
}
