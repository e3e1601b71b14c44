//! What the help of `access` says after its arguments.

/// The help of `access`.
pub(crate) const ACCESS_HELP: &str = "\
Connects to an LLRP reader, and does to one tag, once, what the options say: first what --read says, then
--write, --epc and --lock, and with --verify it reads back what was written. BANK is reserved, epc, tid or
user; a WORD has 16 bits, and is counted from 0. FIELD is kill, access, epc, tid or user, the passwords and
the banks; HOW is lock, unlock, permanent-lock or permanent-unlock. What is permanent is never undone.

The tag is the one with the EPC of --tag in whole, or the first with any. Before a tag is written or
locked the reader looks for tags for --settle seconds; if there is more than one that might be meant,
nothing is done (llrp: several tags). If none comes in --timeout seconds, the line is llrp: no tag. Each
operation is a line with its result by name, and after a read the words in hexadecimal digits. The
AccessSpec and the ROSpec, both with the id 5084, are deleted before and after.

The exit status is 0 if the tag did all operations, and what was read back is what was written; 1 if not, or
if the reader refuses something or no tag comes; 4 if a change was asked for and no result of it came, so
that the tag may have been changed (llrp: unknown, read again); else as ever.

Example:
  $ llrp access reader.example --tag any --read tid:0:6";
