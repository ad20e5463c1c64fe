//! Addresses to listen on, as given on the command line.
ghost use Rattle.std.specs.Prelude.{◌≡◌, IfOk, option_map, string_bytes};
ghost use Rattle.mc_options.specs.Address.{address_of, before, behind, colons_in, is_bare, is_port, lacking, path_of};

use mc_wire::number_u64;
use std::alloc::{AllocError, Global};

/// The path of a Unix socket, if the word is `unix:PATH`.
pub fn listening_path(word: &str) -> Option<&str>
    ensures { option_map (λ path. path.now) result ≡ path_of word.now }
{
    word.strip_prefix("unix:")
}

/// Converts a word of `--listen` to `HOST:PORT`; `port` is used if the word has none. The word is
/// `HOST:PORT`, `HOST`, or a port alone, which is on 127.0.0.1. IPv6 addresses may lack their
/// brackets.
pub fn listening_address(alloc: Global, word: &str, port: &str) -> Result<String, AllocError>
    ensures { IfOk result (λ address. string_bytes address ≡ address_of word.now port.now) }
{
    let before = before(word.as_bytes());
    let behind = behind(word.as_bytes());
    let lacking = if behind.is_empty() { "" } else { port };
    format!(in alloc; "{before}{word}{behind}{lacking}")
}

/// The text to insert before the word: the default host, or a missing bracket.
fn before(word: &[u8]) -> &'static str
    ensures { result.now ≡ before word.now }
{
    if is_port(word) {
        "127.0.0.1:"
    } else if is_bare(word) {
        "["
    } else if word.starts_with(b":") {
        "127.0.0.1"
    } else {
        ""
    }
}

/// The text to insert between the word and the default port; empty if the word has a port.
fn behind(word: &[u8]) -> &'static str
    ensures { result.now ≡ behind word.now }
{
    if is_port(word) {
        ""
    } else if is_bare(word) {
        "]:"
    } else if colons_in(word) == 0 || word.ends_with(b"]") {
        ":"
    } else {
        ""
    }
}

/// Whether the word is a port alone.
fn is_port(word: &[u8]) -> bool
    ensures { result ≡ is_port word.now }
{
    number_u64(word).is_ok()
}

/// Whether the word is an IPv6 address without brackets.
fn is_bare(word: &[u8]) -> bool
    ensures { result ≡ is_bare word.now }
{
    !word.starts_with(b"[") && colons_in(word) > 1
}

/// Number of colons in the word.
fn colons_in(word: &[u8]) -> usize
    ensures count { result ≡ colons_in word.now }
{
    word.iter().filter(|byte| **byte == b':').count()
}
