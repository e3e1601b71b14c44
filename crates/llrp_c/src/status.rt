//! How a call ended.

ghost use Rattle.std.specs.Prelude.{◌≡◌, ◌≤◌, ◌++◌};
ghost use Rattle.llrp_c.specs.Status.{code_of, json_code, json_name, key_code, key_name, status_name, node_code, status_of, status_of_member, status_with, uri_code, word_code};

use llrp_json_read::Reason;
use llrp_listing::Refusal;
use llrp_tree::NodeFault;
use tag_epc::WordReason;
use tag_uri::UriFault;

/// The rules that refuse a text in a form, besides those of tag URIs.
#[derive(Clone, Copy)]
pub enum KeyRule {
    /// The text begins as no other form, and is not 24 hexadecimal digits.
    Hex,
    /// It is not known how many digits the company prefix has.
    Prefix,
    /// The key has fewer digits than it has to have.
    Length,
    /// The check digit is wrong.
    Check,
    /// After the key comes what it does not have there.
    Serial,
}

/// The rules that refuse a line of JSON, besides those that a listing has too.
#[derive(Clone, Copy)]
pub enum JsonRule {
    /// The line is not one text of JSON.
    Json,
    /// It has a member that such objects do not have.
    Unknown,
    /// It lacks a member.
    Missing,
    /// It has a member twice or more.
    Twice,
    /// A value has another type.
    Mistyped,
    /// A number is out of its range, or a string is not the digits of octets.
    Value,
}

/// How a call ended. Its code is a constant of `include/llrp.h`.
#[derive(Clone, Copy)]
pub enum Status {
    /// It succeeded.
    Done,
    /// Some frame is not a message.
    Faulty,
    /// A length field below 10 breaks the stream.
    Broken,
    /// The room is too small.
    Room,
    /// An argument has the wrong length.
    Length,
    /// The text is not UTF-8.
    Utf8,
    /// The listing is too long.
    Long,
    /// Memory ran out.
    Memory,
    /// The stream has less than a frame.
    More,
    /// The word has no tag URI, because of this part.
    Word(WordReason),
    /// The word has no tag URI, because its last part is not a 1 and a serial number.
    Serial,
    /// The word has no tag URI, or the text is not a word's, because of a code of USDoD-96.
    Code,
    /// The text is not a word's, because of this rule.
    Uri(UriFault),
    /// The line has no LF at its end, is too long, or has a byte other than printable ASCII.
    Line,
    /// The line's level may not come here.
    Level,
    /// The line's name may not come here.
    Name,
    /// The line does not have as many words as its kind has.
    Fields,
    /// A word of the line is not a number that its field can have.
    Number,
    /// The line's last word is not a tail that its kind can have.
    Tail,
    /// A message is longer than 1,048,576 octets.
    OverLimit,
    /// A parameter or message is not lawful, because of this fault.
    Node(NodeFault),
    /// The text is refused in its form, because of this rule.
    Key(KeyRule),
    /// The line of JSON is refused, because of this rule.
    Json(JsonRule),
}

/// The code of the part of a word that fails.
fn word_code(reason: WordReason) -> u32
    ensures { result ≡ word_code reason }
{
    match reason {
        WordReason::Header => 16,
        WordReason::Partition => 17,
        WordReason::Prefix => 18,
        WordReason::Reference => 19,
        WordReason::Zeros => 20,
    }
}

/// The code of the rule that refuses a text.
fn uri_code(fault: UriFault) -> u32
    ensures { result ≡ uri_code fault }
{
    match fault {
        UriFault::Start => 32,
        UriFault::Scheme => 33,
        UriFault::Parts => 34,
        UriFault::Digit => 35,
        UriFault::LeadingZero => 36,
        UriFault::Filter => 37,
        UriFault::Digits => 38,
        UriFault::Range => 39,
        UriFault::RawForm => 40,
        UriFault::RawOfLawful => 41,
    }
}

/// The code of the fault of a parameter or a message.
fn node_code(fault: NodeFault) -> u32
    ensures { result ≡ node_code fault }
{
    match fault {
        NodeFault::FieldCount => 64,
        NodeFault::Value => 65,
        NodeFault::Tail => 66,
        NodeFault::Misplaced => 67,
        NodeFault::TooMany => 68,
        NodeFault::Missing => 69,
        NodeFault::TooDeep => 70,
        NodeFault::TooLong => 71,
    }
}

/// The code of a rule that refuses a text in a form.
fn key_code(rule: KeyRule) -> u32
    ensures { result ≡ key_code rule }
{
    match rule {
        KeyRule::Hex => 80,
        KeyRule::Prefix => 81,
        KeyRule::Length => 82,
        KeyRule::Check => 83,
        KeyRule::Serial => 84,
    }
}

/// The name of a rule that refuses a text in a form.
fn key_name(rule: KeyRule) -> &'static str
    ensures { result.now ≡ key_name rule }
{
    match rule {
        KeyRule::Hex => "Hex",
        KeyRule::Prefix => "Prefix",
        KeyRule::Length => "Length",
        KeyRule::Check => "Check",
        KeyRule::Serial => "Serial",
    }
}

/// The code of a rule that refuses a line of JSON.
fn json_code(rule: JsonRule) -> u32
    ensures { result ≡ json_code rule }
{
    match rule {
        JsonRule::Json => 96,
        JsonRule::Unknown => 97,
        JsonRule::Missing => 98,
        JsonRule::Twice => 99,
        JsonRule::Mistyped => 100,
        JsonRule::Value => 101,
    }
}

/// The name of a rule that refuses a line of JSON.
fn json_name(rule: JsonRule) -> &'static str
    ensures { result.now ≡ json_name rule }
{
    match rule {
        JsonRule::Json => "Json",
        JsonRule::Unknown => "Unknown",
        JsonRule::Missing => "Missing",
        JsonRule::Twice => "Twice",
        JsonRule::Mistyped => "Mistyped",
        JsonRule::Value => "Value",
    }
}

impl Status {
    /// The status of a refused line.
    pub fn of_refusal(reason: Refusal) -> Status
        ensures { result ≡ status_of reason }
    {
        match reason {
            Refusal::Line => Status::Line,
            Refusal::Level => Status::Level,
            Refusal::Name => Status::Name,
            Refusal::Fields => Status::Fields,
            Refusal::Number => Status::Number,
            Refusal::Tail => Status::Tail,
            Refusal::Epc(fault) => Status::Uri(fault),
            Refusal::Node(fault) => Status::Node(fault),
            Refusal::OverLimit => Status::OverLimit,
        }
    }

    /// The status of a refused line of JSON.
    pub fn of_reason(reason: Reason) -> Status
        ensures { result ≡ status_of_member reason }
    {
        match reason {
            Reason::Line => Status::Line,
            Reason::Json => Status::Json(JsonRule::Json),
            Reason::Unknown => Status::Json(JsonRule::Unknown),
            Reason::Missing => Status::Json(JsonRule::Missing),
            Reason::Twice => Status::Json(JsonRule::Twice),
            Reason::Mistyped => Status::Json(JsonRule::Mistyped),
            Reason::Name => Status::Name,
            Reason::Value => Status::Json(JsonRule::Value),
            Reason::Epc(fault) => Status::Uri(fault),
            Reason::Node(fault) => Status::Node(fault),
            Reason::OverLimit => Status::OverLimit,
        }
    }

    /// The code that a call returns.
    pub fn code(self) -> u32
        ensures { result ≡ code_of self }
    {
        match self {
            Status::Done => 0,
            Status::Faulty => 1,
            Status::Broken => 2,
            Status::Room => 3,
            Status::Length => 4,
            Status::Utf8 => 5,
            Status::Long => 6,
            Status::Memory => 7,
            Status::More => 8,
            Status::Word(reason) => word_code(reason),
            Status::Serial => 21,
            Status::Code => 22,
            Status::Uri(fault) => uri_code(fault),
            Status::Line => 48,
            Status::Level => 49,
            Status::Name => 50,
            Status::Fields => 51,
            Status::Number => 52,
            Status::Tail => 53,
            Status::OverLimit => 54,
            Status::Node(fault) => node_code(fault),
            Status::Key(rule) => key_code(rule),
            Status::Json(rule) => json_code(rule),
        }
    }

    /// The name of the status: its own words and, if it has a fault inside, that fault's.
    pub fn names(self) -> (&'static str, &'static str)
        ensures { result.0.now ++ result.1.now ≡ status_name self }
    {
        match self {
            Status::Done => ("Ok", ""),
            Status::Faulty => ("Faulty", ""),
            Status::Broken => ("Broken", ""),
            Status::Room => ("Room", ""),
            Status::Length => ("Length", ""),
            Status::Utf8 => ("Utf8", ""),
            Status::Long => ("Long", ""),
            Status::Memory => ("Memory", ""),
            Status::More => ("More", ""),
            Status::Word(reason) => (reason.name(), ""),
            Status::Serial => ("Serial", ""),
            Status::Code => ("Code", ""),
            Status::Uri(fault) => (fault.name(), ""),
            Status::Line => Refusal::Line.names(),
            Status::Level => Refusal::Level.names(),
            Status::Name => Refusal::Name.names(),
            Status::Fields => Refusal::Fields.names(),
            Status::Number => Refusal::Number.names(),
            Status::Tail => Refusal::Tail.names(),
            Status::OverLimit => Refusal::OverLimit.names(),
            Status::Node(fault) => Refusal::Node(fault).names(),
            Status::Key(rule) => (key_name(rule), ""),
            Status::Json(rule) => (json_name(rule), ""),
        }
    }
}

/// The status with a code up to 15, if there is one: how the call itself ended.
#[tactic(auto, unfolding(crate::specs::Status::status_with, crate::specs::Status::statuses))]
fn call_status_with(code: u32) -> Option<Status>
    requires { code ≤ 15 }
    ensures { result ≡ status_with code }
{
    match code {
        0 => Some(Status::Done),
        1 => Some(Status::Faulty),
        2 => Some(Status::Broken),
        3 => Some(Status::Room),
        4 => Some(Status::Length),
        5 => Some(Status::Utf8),
        6 => Some(Status::Long),
        7 => Some(Status::Memory),
        8 => Some(Status::More),
        _ => None,
    }
}

/// The status with a code from 16 to 31, if there is one: why a word has no tag URI.
#[tactic(auto, unfolding(crate::specs::Status::status_with, crate::specs::Status::statuses))]
fn word_status_with(code: u32) -> Option<Status>
    requires least { 16 ≤ code }
    requires most { code ≤ 31 }
    ensures { result ≡ status_with code }
{
    match code {
        16 => Some(Status::Word(WordReason::Header)),
        17 => Some(Status::Word(WordReason::Partition)),
        18 => Some(Status::Word(WordReason::Prefix)),
        19 => Some(Status::Word(WordReason::Reference)),
        20 => Some(Status::Word(WordReason::Zeros)),
        21 => Some(Status::Serial),
        22 => Some(Status::Code),
        _ => None,
    }
}

/// The status with a code from 32 to 47, if there is one: the rule that refuses a text.
#[tactic(auto, unfolding(crate::specs::Status::status_with, crate::specs::Status::statuses))]
fn uri_status_with(code: u32) -> Option<Status>
    requires least { 32 ≤ code }
    requires most { code ≤ 47 }
    ensures { result ≡ status_with code }
{
    match code {
        32 => Some(Status::Uri(UriFault::Start)),
        33 => Some(Status::Uri(UriFault::Scheme)),
        34 => Some(Status::Uri(UriFault::Parts)),
        35 => Some(Status::Uri(UriFault::Digit)),
        36 => Some(Status::Uri(UriFault::LeadingZero)),
        37 => Some(Status::Uri(UriFault::Filter)),
        38 => Some(Status::Uri(UriFault::Digits)),
        39 => Some(Status::Uri(UriFault::Range)),
        40 => Some(Status::Uri(UriFault::RawForm)),
        41 => Some(Status::Uri(UriFault::RawOfLawful)),
        _ => None,
    }
}

/// The status with a code from 48 to 63, if there is one: why a line is refused.
#[tactic(auto, unfolding(crate::specs::Status::status_with, crate::specs::Status::statuses))]
fn line_status_with(code: u32) -> Option<Status>
    requires least { 48 ≤ code }
    requires most { code ≤ 63 }
    ensures { result ≡ status_with code }
{
    match code {
        48 => Some(Status::Line),
        49 => Some(Status::Level),
        50 => Some(Status::Name),
        51 => Some(Status::Fields),
        52 => Some(Status::Number),
        53 => Some(Status::Tail),
        54 => Some(Status::OverLimit),
        _ => None,
    }
}

/// The status with a code from 64 to 79, if there is one: the fault of a parameter or a message.
#[tactic(auto, unfolding(crate::specs::Status::status_with, crate::specs::Status::statuses))]
fn node_status_with(code: u32) -> Option<Status>
    requires least { 64 ≤ code }
    requires most { code ≤ 79 }
    ensures { result ≡ status_with code }
{
    match code {
        64 => Some(Status::Node(NodeFault::FieldCount)),
        65 => Some(Status::Node(NodeFault::Value)),
        66 => Some(Status::Node(NodeFault::Tail)),
        67 => Some(Status::Node(NodeFault::Misplaced)),
        68 => Some(Status::Node(NodeFault::TooMany)),
        69 => Some(Status::Node(NodeFault::Missing)),
        70 => Some(Status::Node(NodeFault::TooDeep)),
        71 => Some(Status::Node(NodeFault::TooLong)),
        _ => None,
    }
}

/// The status with a code from 80 to 95, if there is one: the rule that refuses a text in a form.
#[tactic(auto, unfolding(crate::specs::Status::status_with, crate::specs::Status::statuses))]
fn key_status_with(code: u32) -> Option<Status>
    requires least { 80 ≤ code }
    requires most { code ≤ 95 }
    ensures { result ≡ status_with code }
{
    match code {
        80 => Some(Status::Key(KeyRule::Hex)),
        81 => Some(Status::Key(KeyRule::Prefix)),
        82 => Some(Status::Key(KeyRule::Length)),
        83 => Some(Status::Key(KeyRule::Check)),
        84 => Some(Status::Key(KeyRule::Serial)),
        _ => None,
    }
}

/// The status with a code from 96 on, if there is one: the rule that refuses a line of JSON.
#[tactic(auto, unfolding(crate::specs::Status::status_with, crate::specs::Status::statuses))]
fn json_status_with(code: u32) -> Option<Status>
    requires { 96 ≤ code }
    ensures { result ≡ status_with code }
{
    match code {
        96 => Some(Status::Json(JsonRule::Json)),
        97 => Some(Status::Json(JsonRule::Unknown)),
        98 => Some(Status::Json(JsonRule::Missing)),
        99 => Some(Status::Json(JsonRule::Twice)),
        100 => Some(Status::Json(JsonRule::Mistyped)),
        101 => Some(Status::Json(JsonRule::Value)),
        _ => None,
    }
}

/// The status with this code, if there is one.
pub(crate) fn status_with(code: u32) -> Option<Status>
    ensures { result ≡ status_with code }
{
    match code {
        0..=15 => call_status_with(code),
        16..=31 => word_status_with(code),
        32..=47 => uri_status_with(code),
        48..=63 => line_status_with(code),
        64..=79 => node_status_with(code),
        80..=95 => key_status_with(code),
        _ => json_status_with(code),
    }
}
