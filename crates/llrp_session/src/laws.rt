//! Laws of reader and client over every list of events, and of their messages.

mod messages;

ghost use Rattle.std.specs.Prelude.{◌≡◌, ℕ, ◌^◌, ◌<◌, ◌≤◌, length, IfOk, IfSome, None, Ok};
ghost use Rattle.llrp_session.specs.Calls.Sightings.{AfterAllEvents, ReportsInOrder, OverflowsTold, HoldsFewEnough, OneActive as OneIsActive};
ghost use Rattle.llrp_session.specs.Contents.{Command, Heard};
ghost use Rattle.llrp_session.specs.Table.{active};
ghost use Rattle.llrp_session.specs.ReaderMachine.{Reader, ReaderEvent, Tick, Up, new_reader, next, turn_begun};
ghost use Rattle.llrp_session.specs.Calls.NextClient.{for_next_client};
ghost use Rattle.llrp_session.specs.Calls.Due.{next_due};
ghost use Rattle.llrp_session.specs.ClientMachine.{Client, command, take};
ghost use Rattle.llrp_session.specs.Calls.LawfulWords.{IsLawfulClientMessage};
ghost use Rattle.llrp_tree.specs.Lawful.{IsLawfulMessage};
ghost use Rattle.llrp_tree.specs.Tree.{MessageTree};
ghost use Rattle.llrp_session.specs.Reading.{request_of};
ghost use Rattle.llrp_session.specs.Calls.LawfulStates.{IsLawfulReader, IsLawfulReaderEvent, IsLawfulRequest, AreLawfulReaderMessages, AreLawfulClientMessages};
ghost use Rattle.llrp_session.specs.MessageWorld.{IsGivenCommand};
ghost use Rattle.llrp_session.specs.Calls.TableLaws.{EntersOne, ChangesEach, RemovesThoseNamed, EntersOneInView, ChangesEachInView, RemovesThoseNamedInView, SeesEach, EachOnce};
ghost use Rattle.llrp_session.specs.Calls.Agreement.{AfterAll, ViewCatchesUp, ViewIsTable, ReportsArrive, ReportsAreKept, ReaderHasHistory, OneActive, NothingIsUnexpected, PendingIsOnTheWay, NothingIsPending, TablesArrive, NoneDiffers};

pub use messages::{
    ends_agree_in_messages, messages_are_lawful, messages_read_back, messages_sent_are_lawful,
    worlds_agree,
};

/// Whatever happens to a reader, no sighting that counts is lost except those that an overflow
/// event counts, and none is reported twice.
pub fn sightings_kept()
    ensures reports_in_order { AfterAllEvents ReportsInOrder }
    ensures overflows_told { AfterAllEvents OverflowsTold }
    ensures holds_few_enough { AfterAllEvents HoldsFewEnough }
    ensures one_active { AfterAllEvents OneIsActive }
{}

/// Whatever happens to a client and a reader while whole messages travel between them, the two ends
/// agree.
pub fn ends_agree_whole()
    ensures view_catches_up { AfterAll ViewCatchesUp }
    ensures view_is_table { AfterAll ViewIsTable }
    ensures reports_arrive { AfterAll ReportsArrive }
    ensures reports_are_kept { AfterAll ReportsAreKept }
    ensures reader_has_history { AfterAll ReaderHasHistory }
    ensures one_active { AfterAll OneActive }
    ensures nothing_is_unexpected { AfterAll NothingIsUnexpected }
    ensures pending_is_on_the_way { AfterAll PendingIsOnTheWay }
    ensures nothing_is_pending { AfterAll NothingIsPending }
    ensures tables_arrive { AfterAll TablesArrive }
    ensures none_differs { AfterAll NoneDiffers }
{}

/// A reader's table of ROSpecs, and a client's view of it, are finite maps from ids to states; a
/// reader's table has each id once and never 0.
pub fn tables_are_maps()
    ensures enter { EntersOne }
    ensures change { ChangesEach }
    ensures remove { RemovesThoseNamed }
    ensures enter_in_view { EntersOneInView }
    ensures change_in_view { ChangesEachInView }
    ensures remove_in_view { RemovesThoseNamedInView }
    ensures seen { SeesEach }
    ensures each_once { AfterAllEvents EachOnce }
{}

/// A step of a reader sends at most three messages.
#[tactic(auto, using(crate::proofs::ThreeAtMost::three_at_most))]
pub fn three_messages_at_most()
    ensures { (now : ℕ) (event : ReaderEvent) (reader : Reader)
        → IfOk (next now event reader) (λ turn. length turn.sent ≤ 3) }
{}

/// A reader that its client has left is as lawful as before, its own ids go on, and none of its
/// ROSpecs is active.
#[tactic(auto, using(crate::proofs::NextClients::lawful_for_next, crate::proofs::NextClients::none_active))]
pub fn leaving_keeps_what_is_lawful()
    ensures lawful { (reader : Reader) → IsLawfulReader reader
        → IsLawfulReader (for_next_client reader) }
    ensures ids { (reader : Reader) → (for_next_client reader).next_id ≡ reader.next_id }
    ensures idle { (reader : Reader) → active (for_next_client reader).table ≡ None }
{}

/// Before the moment at which a reader next does something by itself, time changes nothing.
#[tactic(auto, using(crate::proofs::NextClients::still_before))]
pub fn nothing_happens_before_it_is_due()
    ensures { (now : ℕ) (reader : Reader) → reader.phase ≡ Up
        → IfSome (next_due reader) (λ moment. now < moment)
        → next now Tick reader ≡ Ok (turn_begun reader) }
{}

/// If the numbers of a reader or client, and of what it is given, fit the types that hold them,
/// then each message that it sends is lawful and within the limit. The numbers that a reader reads
/// in a lawful message always fit.
#[tactic(auto, using(crate::proofs::LawfulReaders::reader_says_lawful, crate::proofs::LawfulRequests::lawful_request, crate::proofs::LawfulClients::command_is_lawful, crate::proofs::LawfulClients::answer_is_lawful))]
pub fn machines_say_what_is_lawful()
    ensures reader_as_new { (limit first_id : ℕ) → 4096 ≤ limit → first_id < 2 ^ 32
        → IsLawfulReader (new_reader limit first_id) }
    ensures reader { (now : ℕ) (event : ReaderEvent) (reader : Reader) → now < 2 ^ 64
        → IsLawfulReaderEvent event → IsLawfulReader reader →
        IfOk (next now event reader) (λ turn. AreLawfulReaderMessages reader.limit turn.sent
        × (IsLawfulReader turn.reader × (turn.reader.limit ≡ reader.limit))) }
    ensures request { (m : MessageTree) → IsLawfulMessage m → IsLawfulRequest (request_of m) }
    ensures command { (client : Client) (asked : Command) → IsGivenCommand asked →
        IfOk (command client asked) (λ sending. IsLawfulClientMessage client.limit
        sending.message) }
    ensures answer { (client : Client) (id : ℕ) (heard : Heard) → id < 2 ^ 32 →
        IfOk (take client id heard) (λ taking. AreLawfulClientMessages client.limit taking.sent) }
{}
