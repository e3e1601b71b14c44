//! Laws of the messages that reader and client send.

ghost use Rattle.std.specs.Prelude.{◌≡◌, ◌<◌, ◌≤◌, ◌^◌, ℕ, List};
ghost use Rattle.llrp_tree.specs.declared.TheConstants.{MAX_LIMIT};
ghost use Rattle.llrp_session.specs.Contents.{ReaderMessage, ClientMessage, request};
ghost use Rattle.llrp_session.specs.Calls.Contents.{heard};
ghost use Rattle.llrp_session.specs.ReaderMessages.{reader_message};
ghost use Rattle.llrp_session.specs.ClientMessages.{client_message};
ghost use Rattle.llrp_session.specs.Reading.{request_of, heard_of};
ghost use Rattle.llrp_session.specs.Calls.LawfulWords.{IsSendable, IsLawfulReaderMessage, IsLawfulClientMessage, SaysRoSpec};
ghost use Rattle.llrp_session.specs.World.{WorldEvent};
ghost use Rattle.llrp_session.specs.Calls.World.{run, opening};
ghost use Rattle.llrp_session.specs.MessageWorld.{run_messages, message_opening, AreGiven};
ghost use Rattle.llrp_session.specs.Calls.MessageWorld.{in_messages, AreOfRoSpecs, AreSendable};
ghost use Rattle.llrp_session.specs.Calls.MessageAgreement.{AfterAllMessages, ViewCatchesUp, ViewIsTable, ReportsArrive, ReportsAreKept, NothingIsUnexpected, PendingIsOnTheWay, NothingIsPending, TablesArrive};
ghost use Rattle.llrp_session.specs.MessageAgreement.{ReaderHasHistory, OneActive, NoneDiffers};

/// What is read in a message is what the message was built from.
#[tactic(auto, using(crate::proofs::MessageReading::heard_back, crate::proofs::MessageReading::request_back))]
pub fn messages_read_back()
    ensures down { (m : ReaderMessage) → heard_of (reader_message m) ≡ heard m.word }
    ensures up { (m : ClientMessage) → SaysRoSpec m.word
        → request_of (client_message m) ≡ request m.word }
{}

/// A message built from lawful words is lawful, and within the limit, which is 4,096 octets or more.
pub fn messages_are_lawful()
    ensures down { (limit : ℕ) (m : ReaderMessage) → 4096 ≤ limit → limit ≤ MAX_LIMIT
        → IsLawfulReaderMessage limit m → IsSendable limit (reader_message m) }
    ensures up { (limit : ℕ) (m : ClientMessage) → 4096 ≤ limit → limit ≤ MAX_LIMIT
        → IsLawfulClientMessage limit m → IsSendable limit (client_message m) }
{}

/// A world in which messages travel runs exactly as one in which words travel, with the message of
/// each word in its place.
#[tactic(auto, using(crate::proofs::MessageWorlds::runs_alike))]
pub fn worlds_agree()
    ensures { (limit reader_first client_first : ℕ) (events : List WorldEvent)
        → AreOfRoSpecs events →
        run_messages events (message_opening limit reader_first client_first)
        ≡ in_messages (run events (opening limit reader_first client_first)) }
{}

/// Whatever happens to a client and a reader, each message on its way is lawful and within the
/// limit, so building it can fail only for lack of memory.
pub fn messages_sent_are_lawful()
    ensures up { (limit reader_first client_first : ℕ) (events : List WorldEvent) → 4096 ≤ limit
        → limit ≤ MAX_LIMIT → reader_first < 2 ^ 32 → AreGiven events →
        AreSendable limit (run_messages events (message_opening limit reader_first
        client_first)).up }
    ensures down { (limit reader_first client_first : ℕ) (events : List WorldEvent) → 4096 ≤ limit
        → limit ≤ MAX_LIMIT → reader_first < 2 ^ 32 → AreGiven events →
        AreSendable limit (run_messages events (message_opening limit reader_first
        client_first)).down }
{}

/// Whatever happens to a client and a reader while whole messages travel between them, the two ends
/// agree; here said of the messages themselves.
pub fn ends_agree_in_messages()
    ensures view_catches_up { AfterAllMessages ViewCatchesUp }
    ensures view_is_table { AfterAllMessages ViewIsTable }
    ensures reports_arrive { AfterAllMessages ReportsArrive }
    ensures reports_are_kept { AfterAllMessages ReportsAreKept }
    ensures reader_has_history { AfterAllMessages ReaderHasHistory }
    ensures one_active { AfterAllMessages OneActive }
    ensures nothing_is_unexpected { AfterAllMessages NothingIsUnexpected }
    ensures pending_is_on_the_way { AfterAllMessages PendingIsOnTheWay }
    ensures nothing_is_pending { AfterAllMessages NothingIsPending }
    ensures tables_arrive { AfterAllMessages TablesArrive }
    ensures none_differs { AfterAllMessages NoneDiffers }
{}
