//! How a client connects to its reader.

use crate::address::Address;
use crate::notes::{Notes, Urgency};
use crate::waiting::Waiting;
use std::alloc::Global;
use std::net::{Net, SocketAddr, TcpListener, TcpStream, ToSocketAddrs};

/// Connects to an address, for as long as the client may wait.
fn connect_to<N: Net<Listener = TcpListener, Stream = TcpStream>>(
    net: &N,
    address: SocketAddr,
    waiting: &Waiting<'_>,
) -> Option<TcpStream> {
    let stream = match waiting.time_to_read().ok()? {
        None => TcpStream::connect(net, address).ok()?,
        Some(timeout) => TcpStream::connect_timeout(net, &address, timeout).ok()?,
    };
    waiting.begins();
    Some(stream)
}

/// Connects to the first of the host's addresses that takes a connection, within the time that the client
/// waits for an answer. How long the system looks up a name is not bounded.
pub fn connect<N: Net<Listener = TcpListener, Stream = TcpStream>>(
    net: &N,
    reader: Address<'_>,
    waiting: &Waiting<'_>,
) -> Option<TcpStream> {
    let addresses = (reader.host, reader.port).to_socket_addrs(net).ok()?;
    for address in addresses {
        if let Some(stream) = connect_to(net, address, waiting) {
            return Some(stream);
        }
    }
    None
}

/// Says to what the client is connected.
pub fn say_connected(alloc: Global, notes: &Notes<'_>, stream: &TcpStream) {
    if let Ok(address) = stream.peer_addr() {
        if let Ok(text) = address.to_string(alloc) {
            notes.say_all(Urgency::Info, b"connected to ", text.as_bytes(), b"", b"");
        }
    }
}
