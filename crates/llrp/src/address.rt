//! A reader's address as a person writes it.

/// The port that LLRP has of its own.
const LLRP_PORT: u16 = 5084;

/// A host's name or address, and a port.
#[derive(Clone, Copy, Debug, PartialEq, Eq)]
pub struct Address<'a> {
    pub host: &'a str,
    pub port: u16,
}

/// A host with a port from 1 to 65,535, if both are there.
fn with_port<'a>(host: &'a str, port: &str) -> Option<Address<'a>> {
    match port.parse::<u16>() {
        Ok(port) if port > 0 && !host.is_empty() => Some(Address { host, port }),
        _ => None,
    }
}

/// A host with LLRP's own port, if it is there.
fn with_own_port(host: &str) -> Option<Address<'_>> {
    if host.is_empty() {
        None
    } else {
        Some(Address {
            host,
            port: LLRP_PORT,
        })
    }
}

/// The address of HOST or HOST:PORT. An IPv6 address stands in brackets where a port follows.
pub fn address_of(text: &str) -> Option<Address<'_>> {
    if let Some(bracketed) = text.strip_prefix('[') {
        let (host, after) = bracketed.split_once(']')?;
        return match after.strip_prefix(':') {
            Some(port) => with_port(host, port),
            None if after.is_empty() => with_own_port(host),
            None => None,
        };
    }
    match text.split_once(':') {
        Some((host, port)) if !port.contains(':') => with_port(host, port),
        _ => with_own_port(text),
    }
}
