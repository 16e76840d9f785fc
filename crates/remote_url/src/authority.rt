//! `HOST[:PORT]`.

ghost use Rattle.std.specs.Prelude.{◌≡◌, ◌<◌, ◌^◌, ℕ, List, ◌∷◌, [], ◌++◌, IfOk, OnOk, OnErr, IsTrue};
ghost use Rattle.std.specs.List.{list_all};
ghost use Rattle.std.specs.Str.Parse.{IsNumeral, digits_value};
ghost use Rattle.remote_url.specs.Grammar.{IsAuthority, IsName, IsAddress, IsPort, Ports, WithPort, is_name_byte, is_address_byte};

use crate::cuts::{around, behind};
use crate::fault::UrlFault;

/// A server's address.
#[derive(Clone, Copy, Debug, PartialEq, Eq)]
pub struct Authority<'a> {
    /// All of it, as it stands in the URL.
    pub text: &'a str,
    /// The name or the IP address, without brackets.
    pub host: &'a str,
    pub port: u16,
}

/// Reads `HOST[:PORT]`, with this port where there is none.
///
/// # Errors
///
/// `NoHost`, `Host` and `Port`.
pub fn authority_of(text: &str, default: u16) -> Result<Authority<'_>, UrlFault>
    ensures read { IfOk result (λ a. (a.text.now ≡ text.now) × IsAuthority default text.now a.host.now a.port) }
    ensures refused { OnErr result ((host : List ℕ) (port : ℕ) → ¬ (IsAuthority default text.now host port)) }
{
    match behind(text, "[") {
        Some(rest) => address_and_port(text, rest, default),
        None => name_and_port(text, default),
    }
}

/// A name or an IPv4 address, and a port.
fn name_and_port(text: &str, default: u16) -> Result<Authority<'_>, UrlFault>
    ensures read { IfOk result (λ a. (a.text.now ≡ text.now) × IsName a.host.now × WithPort default a.host.now text.now a.port) }
    ensures refused { OnErr result ((host : List ℕ) (port : ℕ) → IsName host → ¬ (WithPort default host text.now port)) }
{
    match around(text, ':') {
        Some((host, digits)) => {
            check_name(host)?;
            let port = port_of(digits)?;
            Ok(Authority { text, host, port })
        }
        None => {
            check_name(text)?;
            Ok(Authority {
                text,
                host: text,
                port: default,
            })
        }
    }
}

/// An IPv6 address behind its bracket, and a port.
fn address_and_port<'a>(
    text: &'a str,
    rest: &'a str,
    default: u16,
) -> Result<Authority<'a>, UrlFault>
    requires { text.now ≡ 91 ∷ rest.now }
    ensures read { IfOk result (λ a. (a.text.now ≡ text.now) × IsAddress a.host.now
        × WithPort default (91 ∷ (a.host.now ++ (93 ∷ []))) text.now a.port) }
    ensures refused { OnErr result ((host : List ℕ) (port : ℕ) → IsAddress host
        → ¬ (WithPort default (91 ∷ (host ++ (93 ∷ []))) text.now port)) }
{
    match around(rest, ']') {
        Some((host, after)) => {
            check_address(host)?;
            let port = port_behind(after, default)?;
            Ok(Authority { text, host, port })
        }
        None => Err(UrlFault::Host),
    }
}

/// `[:PORT]`, with this port where there is none.
fn port_behind(after: &str, default: u16) -> Result<u16, UrlFault>
    ensures read { IfOk result (λ port. Ports default after.now port) }
    ensures none { OnErr result ((port : ℕ) → ¬ (Ports default after.now port)) }
{
    match behind(after, ":") {
        Some(digits) => port_of(digits),
        None => {
            if !after.is_empty() {
                return Err(UrlFault::Host);
            }
            Ok(default)
        }
    }
}

/// That a text is a host's name or an IPv4 address.
fn check_name(host: &str) -> Result<(), UrlFault>
    ensures is { OnOk result (IsName host.now) }
    ensures none { OnErr result (¬ (IsName host.now)) }
{
    if host.is_empty() {
        return Err(UrlFault::NoHost);
    }
    if !is_name(host) {
        return Err(UrlFault::Host);
    }
    Ok(())
}

/// That a text can be an IPv6 address.
fn check_address(host: &str) -> Result<(), UrlFault>
    ensures is { OnOk result (IsAddress host.now) }
    ensures none { OnErr result (¬ (IsAddress host.now)) }
{
    if host.is_empty() {
        return Err(UrlFault::NoHost);
    }
    if !is_address(host) {
        return Err(UrlFault::Host);
    }
    Ok(())
}

/// The number of decimal digits that fits 16 bits.
fn port_of(digits: &str) -> Result<u16, UrlFault>
    ensures read { IfOk result (λ port. IsPort digits.now port) }
    ensures none { OnErr result ((port : ℕ) → ¬ (IsPort digits.now port)) }
{
    if digits.starts_with('+') {
        return Err(UrlFault::Port);
    }
    match digits.parse::<u16>() {
        Ok(port) => Ok(port),
        Err(_) => Err(UrlFault::Port),
    }
}

fn is_name(host: &str) -> bool
    ensures { result ≡ list_all is_name_byte host.now }
{
    host.as_bytes().iter().all(may_name)
}

fn is_address(host: &str) -> bool
    ensures { result ≡ list_all is_address_byte host.now }
{
    host.as_bytes().iter().all(may_address)
}

/// Whether a byte can stand in a name or an IPv4 address.
fn may_name(byte: &u8) -> bool
    ensures { result ≡ is_name_byte byte.now }
{
    byte.is_ascii_alphanumeric() || *byte == b'-' || *byte == b'.' || *byte == b'_'
}

/// Whether a byte can stand in an IPv6 address.
fn may_address(byte: &u8) -> bool
    ensures { result ≡ is_address_byte byte.now }
{
    byte.is_ascii_hexdigit() || *byte == b':' || *byte == b'.'
}
