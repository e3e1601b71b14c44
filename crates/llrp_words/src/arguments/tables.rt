//! The arguments of each command.

use super::rows::{Row, Takes};

/// The arguments of `show`.
pub(super) const SHOW: [Row; 10] = [
    Row {
        name: "hex",
        takes: Takes::Flag,
        help: "Read hexadecimal digits in place of bytes",
    },
    Row {
        name: "all",
        takes: Takes::Flag,
        help: "Take every message and parameter of LLRP 1.1",
    },
    Row {
        name: "limit",
        takes: Takes::NumberOr("N", 10, 1_048_576, "65536"),
        help: "The most octets that a message may have",
    },
    Row {
        name: "json",
        takes: Takes::Flag,
        help: "Write lines of JSON in place of the listing",
    },
    Row {
        name: "names",
        takes: Takes::Text("SET"),
        help: "The names of fields with --json: those of the profile, or of the standard",
    },
    Row {
        name: "keys",
        takes: Takes::Flag,
        help: "Print the key of each EPC after it, as gtin 80614141123458 6789",
    },
    Row {
        name: "schemes",
        takes: Takes::Text("SCHEMES"),
        help: "The schemes of EPCs: all, which has GIAI-96, GSRNP-96, SGCN-96, CPI-96 and USDoD-96 too",
    },
    Row {
        name: "segments",
        takes: Takes::Flag,
        help: "Read tshark's lines of a capture, as llrp-capture passes them on",
    },
    Row {
        name: "port",
        takes: Takes::Text("PORT"),
        help: "The reader's port in the capture; 5084 without it",
    },
    Row {
        name: "FILE",
        takes: Takes::Places,
        help: "The files to read; without one, and for -, standard input",
    },
];

/// The arguments of `encode`.
pub(super) const ENCODE: [Row; 7] = [
    Row {
        name: "hex",
        takes: Takes::Flag,
        help: "Write hexadecimal digits in place of bytes",
    },
    Row {
        name: "all",
        takes: Takes::Flag,
        help: "Take every message and parameter of LLRP 1.1",
    },
    Row {
        name: "limit",
        takes: Takes::NumberOr("N", 10, 1_048_576, "65536"),
        help: "The most octets that a message may have",
    },
    Row {
        name: "json",
        takes: Takes::Flag,
        help: "Read lines of JSON in place of a listing",
    },
    Row {
        name: "keys",
        takes: Takes::Flag,
        help: "Read lines that have the key of an EPC after it, and compare it",
    },
    Row {
        name: "schemes",
        takes: Takes::Text("SCHEMES"),
        help: "The schemes of EPCs: all, which has GIAI-96, GSRNP-96, SGCN-96, CPI-96 and USDoD-96 too",
    },
    Row {
        name: "FILE",
        takes: Takes::Places,
        help: "The files to read; without one, and for -, standard input",
    },
];

/// The arguments of `epc`.
pub(super) const EPC: [Row; 9] = [
    Row {
        name: "TEXT",
        takes: Takes::Place,
        help: "24 hexadecimal digits, a tag URI or a raw URI",
    },
    Row {
        name: "forms",
        takes: Takes::Flag,
        help: "Print all forms of the word, a line each",
    },
    Row {
        name: "list",
        takes: Takes::Flag,
        help: "Read texts on standard input, a line each",
    },
    Row {
        name: "json",
        takes: Takes::Flag,
        help: "Print all forms of each word as an object of JSON",
    },
    Row {
        name: "to",
        takes: Takes::Text("FORM"),
        help: "Print the text in this form: tag, pure, element, link, hex or key",
    },
    Row {
        name: "prefix-digits",
        takes: Takes::Number("N", 6, 12),
        help: "How many digits the company prefix of a key has",
    },
    Row {
        name: "filter",
        takes: Takes::Number("F", 0, 7),
        help: "The filter value of a key or pure identity; without it 0",
    },
    Row {
        name: "prefixes",
        takes: Takes::Text("FILE"),
        help: "A file that says how many digits company prefixes have",
    },
    Row {
        name: "schemes",
        takes: Takes::Text("SCHEMES"),
        help: "The schemes of EPCs: all, which has GIAI-96, GSRNP-96, SGCN-96, CPI-96 and USDoD-96 too",
    },
];

/// The arguments of `fields`.
pub(super) const FIELDS: [Row; 2] = [
    Row {
        name: "NAME",
        takes: Takes::Place,
        help: "The name of a message or parameter; without it all",
    },
    Row {
        name: "all",
        takes: Takes::Flag,
        help: "Take every message and parameter of LLRP 1.1",
    },
];

/// The arguments of `explain`.
pub(super) const EXPLAIN: [Row; 6] = [
    Row {
        name: "hex",
        takes: Takes::Flag,
        help: "Read hexadecimal digits in place of bytes",
    },
    Row {
        name: "all",
        takes: Takes::Flag,
        help: "Take every message and parameter of LLRP 1.1",
    },
    Row {
        name: "limit",
        takes: Takes::NumberOr("N", 10, 1_048_576, "65536"),
        help: "The most octets that a message may have",
    },
    Row {
        name: "json",
        takes: Takes::Flag,
        help: "Print each frame as one object of JSON on a line",
    },
    Row {
        name: "only",
        takes: Takes::Number("ID", 0, 4_294_967_295),
        help: "Print only the frames whose MessageID is ID; the others count",
    },
    Row {
        name: "FILE",
        takes: Takes::Places,
        help: "The files to read; without one, and for -, standard input",
    },
];

/// The arguments of `sim`.
pub(super) const SIM: [Row; 8] = [
    Row {
        name: "PORT",
        takes: Takes::NeededNumber(0, 65_535),
        help: "The port to listen on; 0 for a free one, with --ready",
    },
    Row {
        name: "all",
        takes: Takes::Flag,
        help: "Answer requests of general clients outside the set besides",
    },
    Row {
        name: "bind",
        takes: Takes::Text("ADDRESS"),
        help: "The address to listen on; without it 127.0.0.1",
    },
    Row {
        name: "clients",
        takes: Takes::Number("N", 0, 65_535),
        help: "How many clients to serve, one after another; without it 1, and 0 for no end",
    },
    Row {
        name: "clock",
        takes: Takes::Text("CLOCK"),
        help: "Let time pass by itself: real, or real*N for N times as fast",
    },
    Row {
        name: "answers",
        takes: Takes::Text("FILE"),
        help: "Answer by FILE what the reader does not know; with --all or --clock",
    },
    Row {
        name: "ready",
        takes: Takes::Flag,
        help: "Say on standard error where it listens, once it does",
    },
    Row {
        name: "keep",
        takes: Takes::Flag,
        help: "Keep the ROSpecs from client to client; with --all or --clock",
    },
];

/// The arguments of `inventory`.
pub(super) const INVENTORY: [Row; 15] = [
    Row {
        name: "HOST",
        takes: Takes::NeededPlace,
        help: "The reader's name or address",
    },
    Row {
        name: "PORT",
        takes: Takes::NeededNumber(1, 65_535),
        help: "The reader's port; LLRP's own is 5084",
    },
    Row {
        name: "rospec",
        takes: Takes::Text("FILE"),
        help: "Take the ROSpec of this file, in place of one with all antennas",
    },
    Row {
        name: "every",
        takes: Takes::Number("N", 0, 65_535),
        help: "How many tags make a report; without it 0, which leaves it to the polls",
    },
    Row {
        name: "polls",
        takes: Takes::Number("P", 0, 65_535),
        help: "How often reports are asked for; without it once",
    },
    Row {
        name: "reports",
        takes: Takes::Number("K", 1, 65_535),
        help: "How many reports with tags are awaited, in place of the poll",
    },
    Row {
        name: "check",
        takes: Takes::Flag,
        help: "Compare the reader's table with what the client sees",
    },
    Row {
        name: "clean",
        takes: Takes::Flag,
        help: "Delete the ROSpecs that the reader has first",
    },
    Row {
        name: "json",
        takes: Takes::Flag,
        help: "Print an object of JSON for each tag and report",
    },
    Row {
        name: "all",
        takes: Takes::Flag,
        help: "Take every message and parameter of LLRP 1.1",
    },
    Row {
        name: "timeout",
        takes: Takes::Number("SECONDS", 1, 65_535),
        help: "How long the reader may be silent; without it, for ever",
    },
    Row {
        name: "limit",
        takes: Takes::NumberOr("N", 4_096, 1_048_576, "65536"),
        help: "The most octets that a message may have",
    },
    Row {
        name: "verbose",
        takes: Takes::Flag,
        help: "Say more on standard error: what was refused, strange or passed over",
    },
    Row {
        name: "keys",
        takes: Takes::Flag,
        help: "Print the key of each EPC as members of its object, as gtin and serial",
    },
    Row {
        name: "schemes",
        takes: Takes::Text("SCHEMES"),
        help: "The schemes of EPCs: all, which has GIAI-96, GSRNP-96, SGCN-96, CPI-96 and USDoD-96 too",
    },
];

/// The arguments of `loop`.
pub(super) const LOOP: [Row; 8] = [
    Row {
        name: "rospec",
        takes: Takes::Text("FILE"),
        help: "Take the ROSpec of this file, in place of one with all antennas",
    },
    Row {
        name: "every",
        takes: Takes::Number("N", 0, 65_535),
        help: "How many tags make a report; without it 0, which leaves it to the polls",
    },
    Row {
        name: "polls",
        takes: Takes::Number("P", 0, 65_535),
        help: "How often reports are asked for; without it once",
    },
    Row {
        name: "reports",
        takes: Takes::Number("K", 1, 65_535),
        help: "How many reports with tags are awaited, in place of the poll",
    },
    Row {
        name: "check",
        takes: Takes::Flag,
        help: "Compare the reader's table with what the client sees",
    },
    Row {
        name: "clean",
        takes: Takes::Flag,
        help: "Delete the ROSpecs that the reader has first",
    },
    Row {
        name: "json",
        takes: Takes::Flag,
        help: "Print an object of JSON for each tag and report",
    },
    Row {
        name: "all",
        takes: Takes::Flag,
        help: "Take every message and parameter of LLRP 1.1",
    },
];

/// The arguments of `watch`.
pub(super) const WATCH: [Row; 18] = [
    Row {
        name: "HOST",
        takes: Takes::NeededPlace,
        help: "The reader's name or address, or HOST:PORT; the port is 5084 without one",
    },
    Row {
        name: "rospec",
        takes: Takes::Text("FILE"),
        help: "Take the ROSpec of this file, in place of one with all antennas",
    },
    Row {
        name: "id",
        takes: Takes::Number("N", 1, 4_294_967_295),
        help: "The id of its ROSpec; without it 5084",
    },
    Row {
        name: "every",
        takes: Takes::Number("N", 1, 65_535),
        help: "How many tags make a report; without it 1",
    },
    Row {
        name: "keepalive",
        takes: Takes::Number("SECONDS", 0, 65_535),
        help: "How often the reader shows that it lives; without it 10, and 0 for never",
    },
    Row {
        name: "again",
        takes: Takes::Number("SECONDS", 1, 65_535),
        help: "Connect again whenever it ends, after 1, 2, 4 .. SECONDS",
    },
    Row {
        name: "text",
        takes: Takes::Flag,
        help: "Print words in place of JSON",
    },
    Row {
        name: "antennas",
        takes: Takes::Text("LIST"),
        help: "The antennas of its ROSpec, as 1,2; without it all",
    },
    Row {
        name: "limit",
        takes: Takes::NumberOr("N", 4_096, 1_048_576, "1048576"),
        help: "The most octets that a message may have",
    },
    Row {
        name: "save",
        takes: Takes::Text("FILE"),
        help: "Append what the reader sends to this file, frame by frame",
    },
    Row {
        name: "verbose",
        takes: Takes::Flag,
        help: "Say more on standard error: what was refused, strange or passed over",
    },
    Row {
        name: "for",
        takes: Takes::Number("SECONDS", 1, 4_294_967_295),
        help: "End after so many seconds: stop and delete its ROSpec, and close",
    },
    Row {
        name: "name",
        takes: Takes::Text("TEXT"),
        help: "What each line of JSON has as the reader",
    },
    Row {
        name: "power",
        takes: Takes::Text("DBM"),
        help: "The most power of its ROSpec, in dBm, as 25.5; without it the reader's own",
    },
    Row {
        name: "messages",
        takes: Takes::Flag,
        help: "Print each message of the reader as a line of JSON, in place of tags",
    },
    Row {
        name: "access",
        takes: Takes::Text("FILE"),
        help: "Send the messages on AccessSpecs of this file too",
    },
    Row {
        name: "keys",
        takes: Takes::Flag,
        help: "Print the key of each EPC as members of its object, as gtin and serial",
    },
    Row {
        name: "schemes",
        takes: Takes::Text("SCHEMES"),
        help: "The schemes of EPCs: all, which has GIAI-96, GSRNP-96, SGCN-96, CPI-96 and USDoD-96 too",
    },
];

/// What `stop` takes beside the arguments of `watch`.
pub(super) const STOP_TIMEOUT: Row = Row {
    name: "timeout",
    takes: Takes::Number("SECONDS", 1, 65_535),
    help: "How long the reader may be silent; without it 5",
};

/// The arguments of `ask`.
pub(super) const ASK: [Row; 6] = [
    Row {
        name: "HOST",
        takes: Takes::NeededPlace,
        help: "The reader's name or address, or HOST:PORT; the port is 5084 without one",
    },
    Row {
        name: "FILE",
        takes: Takes::NeededPlace,
        help: "The file with the messages, and with lines = SECONDSs between them",
    },
    Row {
        name: "json",
        takes: Takes::Flag,
        help: "Write lines of JSON in place of the listing",
    },
    Row {
        name: "timeout",
        takes: Takes::Number("SECONDS", 1, 65_535),
        help: "How long to wait for an answer; without it 10",
    },
    Row {
        name: "go-on",
        takes: Takes::Flag,
        help: "Go on where the reader refuses a message",
    },
    Row {
        name: "raw",
        takes: Takes::Flag,
        help: "Take lines ! HEX too, whose octets are sent as they are",
    },
];

/// The arguments of `access`.
pub(super) const ACCESS: [Row; 12] = [
    Row {
        name: "HOST",
        takes: Takes::NeededPlace,
        help: "The reader's name or address, or HOST:PORT; the port is 5084 without one",
    },
    Row {
        name: "tag",
        takes: Takes::NeededText("TAG"),
        help: "The tag's EPC in hexadecimal digits or as a tag URI, or any",
    },
    Row {
        name: "read",
        takes: Takes::Texts("BANK:WORD:COUNT"),
        help: "Read words of a bank, as tid:0:6; 0 words are all",
    },
    Row {
        name: "write",
        takes: Takes::Texts("BANK:WORD=HEX"),
        help: "Write words into a bank, as user:0=1234ABCD",
    },
    Row {
        name: "epc",
        takes: Takes::Text("URI"),
        help: "Give the tag the EPC of this tag URI",
    },
    Row {
        name: "lock",
        takes: Takes::Texts("FIELD=HOW"),
        help: "Lock a bank or a password, as user=lock",
    },
    Row {
        name: "password-file",
        takes: Takes::Text("FILE"),
        help: "Take the access password from this file, 8 hexadecimal digits",
    },
    Row {
        name: "verify",
        takes: Takes::Flag,
        help: "Read back what was written",
    },
    Row {
        name: "antenna",
        takes: Takes::Number("N", 1, 65_535),
        help: "The antenna; without it all",
    },
    Row {
        name: "settle",
        takes: Takes::Number("SECONDS", 1, 65_535),
        help: "How long to look for further tags before a change; without it 1",
    },
    Row {
        name: "timeout",
        takes: Takes::Number("SECONDS", 1, 65_535),
        help: "How long to wait for a tag and for each answer; without it 10",
    },
    Row {
        name: "json",
        takes: Takes::Flag,
        help: "Write lines of JSON",
    },
];
