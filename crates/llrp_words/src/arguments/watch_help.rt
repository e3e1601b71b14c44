//! What the help of `watch` and `stop` says after their arguments.

/// The help of `watch`.
pub(crate) const WATCH_HELP: &str = "\
Connects to an LLRP reader and prints the tags that it sees for as long as the connection lasts. Each tag
of each report is an object of JSON with what the reader says of it, a line each. It begins with the
host's time at which its report was read, and with the TEXT of --name, if that is given:
  {\"at\":\"2026-01-31T23:59:59.123456Z\",\"reader\":TEXT,\"epc\":..
With --text the lines are
  TEXT ANTENNA RSSI TIME   a tag, as inventory prints it, and that time
With --messages they are not of tags: each message of the reader, and the fault of each frame that is no
message, is a line as show --json --all prints it with the same --limit. It cannot be given with --text.
With --keys the object of a tag whose EPC has a key ends in its members, as for inventory, and with
--schemes all words of GIAI-96, GSRNP-96, SGCN-96, CPI-96 and USDoD-96 have their tag URIs. --keys cannot
be given with --text, and neither of them with --messages.
The reader may send every message and parameter of LLRP 1.1, as makers' Custom ones; what docs/tables.md
leaves out of its set is left out.

It first deletes the reader's ROSpec with the id of its own, so that what an earlier run left does not
hinder it; other ROSpecs stay as they are. The ROSpec is that of FILE, as for inventory, so that --every,
--id, --antennas and --power cannot be given. Without FILE it is one with the antennas of LIST and the id
N, which says of each tag its antenna, channel, strength, first and last time, and how often it was seen.

With --power the reader is first asked for its capabilities, and the ROSpec takes the greatest power of
its table that is not above DBM, a number with at most two decimals; write a negative one as --power=-1.
If the table has none that low, the run ends with the line llrp: power least N, of the least that it has,
and status 1.

With --access the messages on AccessSpecs that its FILE lists, as show --all prints them, are sent besides:
those that delete one AccessSpec before each DELETE_ROSPEC, and all others before ENABLE_ROSPEC. If the
reader refuses to add, enable or disable one, the run ends with the line llrp: status N and status 1.

The reader is asked for a KEEPALIVE every so often. If it sends nothing for three times as long, the run
ends with the line llrp: read and status 3; if it takes nothing for as long, with llrp: write and status
3. If it closes the connection, the run ends with llrp: early and status 1. With --again the command
writes that line and connects again: after a second where it printed tags, else after twice the last
pause, and after no more than SECONDS.

With --for it ends once the seconds have passed: it stops and deletes its ROSpec and closes the
connection, and the status is 0. A reader of which nothing comes then is not waited for.

Once the reader has accepted the connection, a frame that is no message is passed over, and a line on
standard error says so, unless it has the id of the request that waits for its response; so is a message
that answers nothing and that no reader sends by itself.

A signal ends it, and leaves its ROSpec on the reader; stop deletes that.

Example:
  $ llrp watch reader.example --again 60";

/// The help of `stop`.
pub(crate) const STOP_HELP: &str = "\
Connects to an LLRP reader, deletes the ROSpec with the id N, or with that of FILE, and closes the
connection. The status is 0 whether the reader had such a ROSpec or not. A reader that refuses the
connection, as it still has another one, is asked again until SECONDS have passed.

It takes what watch takes, so that a service gives both the same words. --rospec, --id and --access say
what is deleted: with --access, before the ROSpec, each AccessSpec that a message of its FILE deletes. All
others are passed over, and the file of --save is not opened.

Example:
  $ llrp stop reader.example";
