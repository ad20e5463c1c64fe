//! The machine's host name.
ghost use Rattle.std.specs.Prelude.{◌≡◌};
ghost use Rattle.std.specs.List.{list_all};
ghost use Rattle.mc_metrics.specs.Host.{host_of, is_host_byte};

use std::alloc::Global;
use std::fs::File;
use std::io;
use std::io::Read;
use std::rt::Files;

/// The host name; empty if it isn't known or isn't valid.
pub(crate) fn host_name<R: Files<File = File>>(rt: &R, alloc: Global) -> String {
    match read_name(rt, alloc) {
        Ok(name) => name,
        Err(_) => String::new(alloc),
    }
}

/// Reads the host name from /proc.
fn read_name<R: Files<File = File>>(rt: &R, alloc: Global) -> io::Result<String> {
    let mut file = File::open(rt, "/proc/sys/kernel/hostname")?;
    let mut text = String::new(alloc);
    file.read_to_string(&mut text)?;
    Ok(String::from_str(alloc, host_in(text.as_str()))?)
}

/// The name in the text without trailing space. Empty if it has a byte that host names don't have,
/// so that it needs no escaping in HTML.
fn host_in(text: &str) -> &str
    ensures { result.now ≡ host_of text.now }
{
    let name = text.trim_end();
    if are_of_host(name.as_bytes()) {
        name
    } else {
        ""
    }
}

/// Whether all bytes are allowed in a host name.
fn are_of_host(name: &[u8]) -> bool
    ensures { result ≡ list_all is_host_byte name.now }
{
    name.iter().all(|byte| is_host_byte(*byte))
}

/// Whether the byte is allowed in a host name.
fn is_host_byte(byte: u8) -> bool
    ensures { result ≡ is_host_byte byte }
{
    byte.is_ascii_alphanumeric() || byte == b'-' || byte == b'.' || byte == b'_'
}
