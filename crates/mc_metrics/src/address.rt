//! The address at which metrics are served.
ghost use Rattle.std.specs.Prelude.{◌≡◌, IfOk, string_bytes};
ghost use Rattle.mc_metrics.specs.Address.{address_of, host_before};

use std::alloc::{AllocError, Global};

/// Parses the value of `--metrics` into host and port. A port alone, with or without a leading
/// colon, is on 127.0.0.1, so that metrics aren't public by default.
pub fn address_of(alloc: Global, word: &str) -> Result<String, AllocError>
    ensures { IfOk result (λ address. string_bytes address ≡ address_of word.now) }
{
    let host = host_before(word.as_bytes());
    format!(in alloc; "{host}{word}")
}

/// The host to put before the word, if it has none.
fn host_before(word: &[u8]) -> &'static str
    ensures { result.now ≡ host_before word.now }
{
    if word.starts_with(b":") {
        "127.0.0.1"
    } else if word.contains(&b':') {
        ""
    } else {
        "127.0.0.1:"
    }
}
