//! The fields of a line that tshark prints.

ghost use Rattle.std.specs.Prelude.{◌≡◌, ◌≢◌, ◌<◌, ◌∷◌, [], MatchOption, length};
ghost use Rattle.llrp_capture.specs.Calls.Rows.{IsRow, fields_of};

/// The fields of a line, in their order, as text.
#[derive(Clone, Copy, Debug, PartialEq, Eq)]
pub struct Row<'a> {
    /// frame.time_epoch
    pub time: &'a str,
    /// tcp.stream
    pub stream: &'a str,
    /// ip.src
    pub address: &'a str,
    /// ipv6.src
    pub wide_address: &'a str,
    /// tcp.srcport
    pub port: &'a str,
    /// tcp.flags
    pub flags: &'a str,
    /// tcp.seq
    pub sequence: &'a str,
    /// tcp.payload
    pub payload: &'a str,
}

/// The first field and what stands after its tab.
fn cut(text: &str) -> Option<(&str, &str)>
    ensures { MatchOption result (fields_of text.now ≡ text.now ∷ [])
        (λ parts. fields_of text.now ≡ parts.0.now ∷ fields_of parts.1.now) }
{
    text.split_once('\t')
}

/// A text that is one field.
fn whole(text: &str) -> Option<&str>
    ensures { MatchOption result (1 < length (fields_of text.now))
        (λ field. fields_of text.now ≡ field.now ∷ []) }
{
    match cut(text) {
        Some(_) => None,
        None => Some(text),
    }
}

/// The fields of a line without its end, if there are eight.
pub fn row_of(line: &str) -> Option<Row<'_>>
    ensures { MatchOption result (length (fields_of line.now) ≢ 8) (IsRow line.now) }
{
    let (time, rest) = cut(line)?;
    let (stream, rest) = cut(rest)?;
    let (address, rest) = cut(rest)?;
    let (wide_address, rest) = cut(rest)?;
    let (port, rest) = cut(rest)?;
    let (flags, rest) = cut(rest)?;
    let (sequence, rest) = cut(rest)?;
    let payload = whole(rest)?;
    Some(Row {
        time,
        stream,
        address,
        wide_address,
        port,
        flags,
        sequence,
        payload,
    })
}
