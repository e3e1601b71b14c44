//! Clients of a simulated reader, one after another.

ghost use Rattle.std.specs.Prelude.{◌≡◌, IfOk};
ghost use Rattle.llrp_stream.specs.Calls.Device.{CanWrite};
ghost use Rattle.llrp.specs.Calls.Clients.{SaysReady, ServesClients, host_text, most_clients, ready_line};

use crate::network::conclude;
use crate::sim::serve_next;
use llrp_endpoints::Script;
use llrp_listing::{Text, ToolErr, write_all};
use llrp_stream::Sink;
use std::alloc::{AllocError, Global};
use std::net::TcpListener;

/// The text of an address: one of IPv6 stands in brackets.
fn host_text(alloc: Global, address: &str) -> Result<Text, AllocError>
    ensures { IfOk result (λ text. text ≡ host_text address.now) }
{
    let mut text = Text::new(alloc);
    if address.as_bytes().contains(&b':') {
        text.push_text(b"[")?;
        text.push_text(address.as_bytes())?;
        text.push_text(b"]")?;
    } else {
        text.push_text(address.as_bytes())?;
    }
    Ok(text)
}

/// The line that says where a reader listens.
fn ready_line(alloc: Global, address: &str, port: u16) -> Result<Text, AllocError>
    ensures { IfOk result (λ text. text ≡ ready_line address.now port) }
{
    let host = host_text(alloc, address)?;
    let mut text = Text::new(alloc);
    text.push_text(b"llrp: listening on ")?;
    text.push_text(host.as_slice())?;
    text.push_text(b":")?;
    text.push_number(port as u128)?;
    text.push_text(b"\n")?;
    Ok(text)
}

/// Writes where a reader listens. The errors are `Write` and `Memory`.
pub fn say_ready<E: Sink>(alloc: Global, address: &str, port: u16, e: &mut E) -> Result<(), ToolErr>
    requires { CanWrite (E.log e.old) }
    ensures { SaysReady address.now port (E.log e.old) (E.log e.new) result }
{
    let Ok(text) = ready_line(alloc, address, port) else {
        return Err(ToolErr::Memory);
    };
    write_all(e, text.as_slice())
}

/// How many clients are served at most: one where nothing is said of it, and without end where the
/// number is 0.
pub fn most_clients(clients: Option<u16>) -> u64
    ensures { result ≡ most_clients clients }
{
    match clients {
        None => 1,
        Some(0) => u64::MAX,
        Some(clients) => clients as u64,
    }
}

/// Serves clients of a listener one after another, each as a new reader by the script from its
/// beginning. For each one that did not end well it writes how that ended as a line to `e`. Returns the
/// greatest of their exit statuses.
pub fn serve_clients<E: Sink>(
    alloc: Global,
    listener: &TcpListener,
    script: &Script,
    most: u64,
    e: &mut E,
) -> Result<u8, ToolErr>
    requires { CanWrite (E.log e.old) }
    ensures { ServesClients script.now most (E.log e.old) (E.log e.new) result }
{
    let mut status = 0;
    for _ in 0..most {
        let Ok(script) = script.try_clone(alloc) else {
            return conclude(Some(Err(ToolErr::Memory)), e);
        };
        let Some(outcome) = serve_next(alloc, listener, script) else {
            return conclude(None, e);
        };
        let ended = conclude(Some(outcome), e)?;
        if ended > status {
            status = ended;
        }
    }
    Ok(status)
}
