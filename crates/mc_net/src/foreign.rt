//! Detection of other protocols.
ghost use Rattle.std.specs.Prelude.{◌≡◌};
ghost use Rattle.mc_net.specs.Foreign.{is_foreign, is_http, protocol_of};

use mc_telemetry::Manner;

/// Number of bytes needed to detect another protocol.
pub(crate) const FIRST_BYTES: usize = 9;

/// Whether a connection with these first bytes speaks another protocol: memcached's binary
/// protocol, TLS or HTTP. No command begins like that, since command names are in lower case.
#[tactic(auto, unfolding(crate::specs::Foreign::is_foreign))]
pub(crate) fn is_foreign(bytes: &[u8]) -> bool
    ensures { result ≡ is_foreign bytes.now }
{
    bytes.starts_with(&[0x80]) || bytes.starts_with(&[0x16, 0x03]) || is_http(bytes)
}

/// The reason to log for a connection with these first bytes of another protocol.
#[tactic(auto, unfolding(crate::specs::Foreign::protocol_of))]
pub(crate) fn protocol_of(bytes: &[u8]) -> Manner
    ensures { result ≡ protocol_of bytes.now }
{
    if bytes.starts_with(&[0x80]) {
        Manner::Binary
    } else if bytes.starts_with(&[0x16]) {
        Manner::Tls
    } else {
        Manner::Http
    }
}

/// Whether these are the first bytes of an HTTP request.
#[tactic(auto, unfolding(crate::specs::Foreign::is_http))]
fn is_http(bytes: &[u8]) -> bool
    ensures { result ≡ is_http bytes.now }
{
    bytes.starts_with(b"GET /")
        || bytes.starts_with(b"HEAD /")
        || bytes.starts_with(b"POST /")
        || bytes.starts_with(b"PUT /")
        || bytes.starts_with(b"DELETE /")
        || bytes.starts_with(b"OPTIONS /")
        || bytes.starts_with(b"PATCH /")
        || bytes.starts_with(b"TRACE /")
}
