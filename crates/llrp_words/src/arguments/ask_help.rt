//! What the help of `ask` says after its arguments.

/// The help of `ask`.
pub(crate) const ASK_HELP: &str = "\
Connects to an LLRP reader, waits until it accepts the connection, and sends the messages of FILE, one
by one. FILE is a listing as show --all prints it, with every message and parameter of LLRP 1.1. After
each message that has a response it waits for the message of that kind and id, or an ERROR_MESSAGE of
that id; a CUSTOM_MESSAGE may stay without an answer. A line between two messages,
  = 2.5s
waits that many seconds for what comes. With --raw a line
  ! 04FE 0000 000A 0000 0001
sends these octets as they are, a message or not, and waits for nothing. KEEPALIVEs are acknowledged. At
the end it sends CLOSE_CONNECTION, unless a message of FILE did.

Each message of the reader is printed as show --all does, as soon as it is whole. Where a response has a
status other than 0 the messages that are left are not sent; with --go-on they are. The line
llrp: status N names the first such status, and the exit status is 1.

Example:
  $ echo 0 GET_READER_CAPABILITIES 1 1 0 > capabilities.txt
  $ llrp ask reader.example capabilities.txt";
