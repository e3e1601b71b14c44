//! What the help of each command says after its arguments.

/// The help of `show`.
pub(crate) const SHOW_HELP: &str = "\
Reads a stream of LLRP messages on standard input, or each FILE as a stream by itself, and prints its
listing on standard output:
  0 NAME VERSION ID FIELDS   a message
  LEVEL NAME FIELDS TAIL     a parameter, one level below its parent
  ! ID BIT REASON            a frame that is not a message: its id, its first fault and the fault's bit
  ? N                        N bytes of an unfinished frame at the end
  ! BROKEN                   a length below 10, at which the stream breaks off
docs/errors.md explains each REASON. A frame of more octets than --limit is a fault, where N is 10 to
1,048,576, and so are parameters nested more than 16 levels deep. So is a message or parameter that
docs/tables.md leaves out of its set; with --all they are those of the whole standard. The status
is 0 if all frames are messages and the last one is whole, and 1 if not. With --json each frame is one
line of JSON in place of its lines, as docs/json.md says; with --names standard its fields have the
names that they have with --all, and with --names profile, or without it, those of their own set.
With --keys a tab and the key of an EPC follow it, and with --schemes all words of GIAI-96, GSRNP-96,
SGCN-96, CPI-96 and USDoD-96 have their tag URIs; both read all of the input first, and go with no
--json.
With --segments the input is lines that llrp-capture has tshark print of a capture. A line
# TIME STREAM SIDE stands before each frame, where SIDE is reader or client; ? GAP N says that N bytes of
that side are in no frame, since a segment is missing. With --json these are members.
Of several files the greatest status counts; that of a file that cannot be read is 3.

Example:
  $ echo 083E0000000A00000007 | llrp show --hex
  0 KEEPALIVE 2 7
  $ echo 083E0000000A00000007 | llrp show --hex --json
  {\"message\":\"KEEPALIVE\",\"version\":2,\"id\":7}";

/// The help of `encode`.
pub(crate) const ENCODE_HELP: &str = "\
Reads a listing on standard input, or each FILE as a listing by itself, a line 0 NAME VERSION ID for
each message, and writes the bytes of the messages on standard output. A line that is refused ends its
listing with status 1, and is named on standard error with the reason, which docs/errors.md explains;
so is a message of more octets than --limit, where N is 10 to 1,048,576, or a parameter more than
16 levels deep. The names are those of the set of docs/tables.md, or with --all those of the whole
standard. With --json it reads lines as show --json writes them, with the members of an object in any
order; docs/json.md has the reasons. With --keys and --schemes all it reads all of a listing that show
writes with them, and refuses a key that is not that of its EPC. Of several files the greatest status
counts, as for show.

Example:
  $ echo 0 KEEPALIVE 2 7 | llrp encode --hex
  083E0000000A00000007
  $ echo '{\"id\":7,\"version\":2,\"message\":\"KEEPALIVE\"}' | llrp encode --hex --json
  083E0000000A00000007";

/// The help of `epc`.
pub(crate) const EPC_HELP: &str = "\
Prints the text of a tag's 96-bit word, or the word of a text:
  24 hexadecimal digits   the word's tag URI; or its raw URI, and # REASON BIT, which is why it has no
                          tag URI, and the first bit of the part that fails
  any other text          the 24 digits of its word; or ! REASON, which is why no word has this text
docs/errors.md explains each REASON. The status is 1 for a text of no word, and 0 for every other.

With --forms it prints a line FORM TEXT for each form of the word: tag and raw URIs (tag), pure identity
URIs (pure), element strings (element), Digital Link URIs (link), digits (hex), and keys by name (key).
With --to it prints the text in that form; docs/tables.md has examples. TEXT may then have any of these
forms. A pure identity URI and a key do not say the filter value, and a key not how many digits its
company prefix has, so that no key is read without --prefix-digits or --prefixes. FILE has lines START
LENGTH, which say that company prefixes that begin with START have LENGTH digits; the longest START that
fits counts. With --list there is a line for each line of standard input, and the status is 1 if one of
them is ! REASON. With --json, beside --forms or --list, a line is an object with a member for each form,
and beside --to with that of the form.

With --schemes all words of GIAI-96, GSRNP-96, SGCN-96, CPI-96 and USDoD-96 have their tag URIs, which are
raw URIs without it, and with --forms, --to and --list their other forms; USDoD-96 has no key.

Examples:
  $ llrp epc 3074257BF7194E4000001A85
  urn:epc:tag:sgtin-96:3.0614141.812345.6789
  $ llrp epc urn:epc:tag:sgtin-96:3.0614141.812345.6789
  3074257BF7194E4000001A85
  $ llrp epc --to hex --prefix-digits 7 --filter 3 '(01)80614141123458(21)6789'
  3074257BF7194E4000001A85";

/// The help of `fields`.
pub(crate) const FIELDS_HELP: &str = "\
Prints what the tables say of the message or parameter NAME, or a line for each of them:
  NUMBER NAME: FIELDS; PARAMETERS; in PLACES
FIELDS have their names and bits, in the order in which a frame has them, and where not every value is
lawful the range; words, text, bits and octets stand for what comes after them. Of PARAMETERS one with
? may be there, one with * any number of times, and one with + at least once; any other is there once.
PLACES are those that a parameter may stand in. A hyphen stands for none. The tables are those of the
profile, or with --all of the whole standard. The status is 1 where nothing has the name.

Example:
  $ llrp fields AISpecStopTrigger
  184 AISpecStopTrigger: Type 8 (0..3), Duration 32; GPITriggerValue?, TagObservationTrigger?; in AISpec";

/// The help of `explain`.
pub(crate) const EXPLAIN_HELP: &str = "\
Reads a stream of LLRP messages on standard input, or each FILE, to its end, and prints of each frame
  frame N, OCTETS octets
  BIT WIDTH LEVEL FIELD VALUE
and a line for each field of its message in the order of the frame's bits, reserved ones, heads and
counts too: the bit at which the field begins, how many bits it has, how many levels below the message
its parameter is, its name, and its value in decimal, or x and the octets of a tail in hexadecimal. After
a tab comes the name of the message or parameter whose type it is, or the name that docs/tables.md has
for the number. Of a frame that is not a message there are the lines before its first fault, those that
are refused, and the line of the fault: its bit, the octet that has it, and the REASON with a sentence.
  ? N                        N bytes of an unfinished frame at the end
  ! BROKEN                   a length below 10, at which the stream breaks off
A frame is printed when its last byte was read, with --hex its last digit. With --json each frame is one
line, an object with frame, octets, fields and, where it has one, fault: docs/json.md.
A frame of more octets than --limit is a fault, where N is 10 to 1,048,576. With --all the messages
and parameters are those of the whole standard. With --only the frames whose MessageID is ID are
printed alone, where ID is 0 to 4,294,967,295, as show lists it, in ! ID BIT REASON too; the others
count, and print nothing. The status is that of show, of all frames.

Example:
  $ echo 083E0000000A00000007 | llrp explain --hex
  frame 1, 10 octets
  BIT WIDTH LEVEL FIELD VALUE
  0 3 0 reserved 0
  3 3 0 Version 2
  6 10 0 MessageType 62\tKEEPALIVE
  16 32 0 MessageLength 10
  48 32 0 MessageID 7";

/// The help of `sim`.
pub(crate) const SIM_HELP: &str = "\
Reads a script of what the reader's antennas see on standard input, to its end. Then it listens on
127.0.0.1 and serves one client as an LLRP reader. The lines of a script:
  AFTER NOW seen ANTENNA RSSI TEXT   directly after AFTER messages, at the moment NOW in microseconds,
                                     an antenna sees the tag with this tag URI or raw URI
  AFTER NOW tick                     time goes on to NOW

With --all it also answers GET_READER_CAPABILITIES, GET_READER_CONFIG and GET_SUPPORTED_VERSION, with
which general clients begin, and DELETE_ACCESSSPEC, ENABLE_ACCESSSPEC, DISABLE_ACCESSSPEC and
GET_ACCESSSPECS, as a reader that has no AccessSpecs. A script does not count these. A connection begins
in version 1, and SET_PROTOCOL_VERSION changes it; a message of another version is refused. Of messages
with parameters of all of LLRP 1.1 the reader takes what it has. --answers FILE answers messages that
are not in docs/tables.md: a line ? FORM, and the messages to answer with, as show --all lists them. FORM
is a request's line there; a word * stands for any. With --keep a client finds the ROSpecs that the one
before it left, of which none is active.

With --clients N it serves N clients one after another, each as a new reader by the script from its
beginning; the exit status is the greatest of theirs. With --ready the line
  llrp: listening on ADDRESS:PORT
stands on standard error as soon as a client can connect, where PORT is a free one if 0 was given.
--bind ADDRESS listens there; LLRP has no password, so let it be an address that only your own
machines can reach.

With --clock real time passes by itself, and with real*N N times as fast: KEEPALIVEs and the ends of
ROSpecs come when they are due, and the client is served as by --all. A script may then have lines
with a moment too, where TIME is such as 500ms or 2s:
  accepted+TIME WHAT                 this long after the connection was accepted
  started+TIME WHAT                  this long after a ROSpec first became active
  MOMENT every TIME for TIME WHAT    again and again, beginning at such a moment
WHAT is one of these:
  seen ANTENNA RSSI TEXT, tick       as above
  seen ANTENNAS RSSIS FILE           each time the next tag of a file, such as seen 1,2 -70..-50 tags.txt
  antenna N off, antenna N on        an event of which the client hears if it asked to
  gpi N high, gpi N low              the same of a general-purpose input
  expect KIND within TIME            the client has to send such a message by then; else its connection
                                     ends with llrp: expect: line L, and the status is 1
  silent TIME                        the reader sends nothing for that long, and then what it has to say
  octets HEX                         it sends these octets, 64 at most, whatever they are
  send                               it sends the messages that the lines below list, as show --all does
  cut N                              of its next message it sends N octets, and closes the connection
  status N KIND TEXT                 its next message of that kind has the status N and this text
  close                              it closes the connection

Example:
  $ printf '2 5 tick\\n' | llrp sim 5084";

/// The help of `inventory`.
pub(crate) const INVENTORY_HELP: &str = "\
Connects to an LLRP reader and asks it for its tags: it adds a ROSpec, enables and starts it, polls for
reports, and stops and deletes it again. With --reports it awaits K reports with tags, which the reader
sends itself after each tag (or after N, with --every), and polls only if --polls says so. With --timeout,
a connection or a read that gets nothing for that many seconds ends the command.

With --rospec the ROSpec is that of FILE: its lines as show prints them below ADD_ROSPEC, from
1 ROSpec ID PRIORITY 0 on, read as encode reads them. Its start trigger says whether it is started, and
its ROReportSpec when the reader reports, so that --every cannot be given; it is disabled, not stopped.
docs/client.md has an example.

What it prints on standard output:
  TEXT ANTENNA RSSI        a tag: its tag URI, raw URI or bits N xHEX, its antenna, and its strength in
                           dBm; - is written for one that the reader did not report
  = K                      the end of a report of K tags
  total TAGS REPORTS       the end of all reports
or with --json an object of JSON for each, a line each:
  {\"epc\":TEXT,\"antenna\":ANTENNA,\"rssi\":RSSI}   a tag; what the reader did not report is left out
  {\"report\":K}
  {\"tags\":TAGS,\"reports\":REPORTS}
With --keys, which goes with --json, the object of a tag whose EPC has a key ends in its members, as
  \"gtin\":\"80614141123458\",\"serial\":\"6789\"}
With --schemes all words of GIAI-96, GSRNP-96, SGCN-96, CPI-96 and USDoD-96 have their tag URIs, which are
raw URIs without it.

A message or parameter that docs/tables.md leaves out of its set is passed over, and a report that
has one as a whole. With --all the reader may send every message and parameter of LLRP 1.1, as makers'
Custom ones: of each message what the set has is taken, and so is each tag of a report.

With --check it asks the reader for its ROSpecs before it deletes its own. They have to be exactly those
that it knows of, in the same states; otherwise it ends with the line llrp: strange and status 1. This
finds reader firmware that loses a ROSpec, keeps an old one or reports a wrong state.

Example:
  $ llrp inventory 127.0.0.1 5084 --polls 2";

/// The help of `loop`.
pub(crate) const LOOP_HELP: &str = "\
Reads a script on standard input, as sim does, and prints what inventory prints of the reader that acts
by it. Both ends are in this program, and talk over one TCP connection. The options are as for inventory.

Example:
  $ printf '3 0 seen 1 -60 urn:epc:tag:gid-96:1.2.3\\n' | llrp loop
  urn:epc:tag:gid-96:1.2.3 1 -60
  = 1
  total 1 1";
