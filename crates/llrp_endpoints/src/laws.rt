//! Laws of scripts, of serving, of clients that follow a plan, and of the two ends of a connection.

ghost use Rattle.std.specs.Prelude.{List, ◌<◌, ◌≡◌, ◌≤◌, ◌^◌, ℕ};
ghost use Rattle.llrp_tree.specs.declared.TheConstants.{MAX_LIMIT};
ghost use Rattle.llrp_tree.specs.Lawful.{AreOctets};
ghost use Rattle.llrp_session.specs.ReaderMachine.{Reader};
ghost use Rattle.llrp_stream.specs.declared.item.Item.{Item};
ghost use Rattle.llrp_endpoints.specs.EndsAgree.{AfterAllBytes, BytesAreMessages, EachEventHappens, EachScheduleRuns, IsARunOfMessages, NothingIsUnexpected, ViewCatchesUp, ViewIsTable, ReportsArrive, ReportsAreKept, PendingIsOnTheWay, NothingIsPending, TablesArrive};
ghost use Rattle.llrp_session.specs.MessageAgreement.{ReaderHasHistory, OneActive, NoneDiffers};
ghost use Rattle.llrp_endpoints.specs.Plan.{Plan};
ghost use Rattle.llrp_endpoints.specs.Calls.HeardLaws.{EachRoSpecIsHeard, HeardIsLawful, ProfileIsHeard};
ghost use Rattle.llrp_endpoints.specs.Calls.PlanLaws.{course_of, CanEnd, CoursesGoOn, EndsMean, HasOneCourse, IsValid, SendsWithinLimit, StrangeIsTheReaders, TakesEachCommand, TakesInOrder, TakesOneByOne, TakesWhereAwaited};
ghost use Rattle.llrp_endpoints.specs.Calls.Script.{IsLawfulScript, IsScript};
ghost use Rattle.llrp_endpoints.specs.Calls.ScriptLaws.{ScriptOrRefused};
ghost use Rattle.llrp_endpoints.specs.Calls.ServingLaws.{FramesReadBack, IsServedInOneWay, OneTextOfFrames, SaysWithinLimit};
ghost use Rattle.llrp_endpoints.specs.Serving.{Serves};
ghost use Rattle.llrp_endpoints.specs.declared.script.Entry.{Entry};

/// Each lawful list of entries has exactly one script, and a text is the script of at most one
/// list.
pub fn one_script()
    ensures is { (entries : List Entry) → IsLawfulScript entries → (text : List ℕ)
        × IsScript entries text }
    ensures one_text { (entries : List Entry) (s t : List ℕ) → IsScript entries s
        → IsScript entries t → s ≡ t }
    ensures one_list { (a b : List Entry) (text : List ℕ) → IsScript a text
        → IsScript b text → a ≡ b }
{}

/// A text is a script or has exactly one first refused line, and never both.
pub fn script_or_refused()
    ensures { (text : List ℕ) → ScriptOrRefused text }
{}

/// For a given reader, script and bytes of a client, serving sends one list of messages and ends in
/// one state.
#[tactic(auto, using(crate::proofs::OneServing::served_in_one_way))]
pub fn one_serving()
    ensures { (reader : Reader) (entries : List Entry) (bytes : List ℕ) → reader.limit ≤ MAX_LIMIT
        → AreOctets bytes → IsServedInOneWay (Serves reader entries bytes) }
{}

/// A list of messages has one list of frames, so the messages determine the bytes that serving
/// sends.
pub fn one_text_of_frames()
    ensures { OneTextOfFrames }
{}

/// Frames of messages that may be sent at a limit are read back, at that limit, as these messages.
pub fn frames_read_back()
    ensures { FramesReadBack }
{}

/// Serving sends lawful messages, none longer than the reader's limit.
pub fn served_within_limit()
    ensures { SaysWithinLimit }
{}

/// A client that follows a plan sends lawful messages, none longer than its limit.
pub fn sent_within_limit()
    ensures { SendsWithinLimit }
{}

/// Whatever a reader sends, a client that follows a plan never refuses one of its commands. It ends
/// as `Strange` exactly if the reader sent a message that was not expected, a table that differs
/// from the client's view, or a frame with a fault other than an unknown type.
pub fn plan_is_never_refused()
    ensures each_command_is_taken { (limit : ℕ) (plan : Plan) → 4096 ≤ limit → IsValid plan
        → TakesEachCommand limit plan }
    ensures strange_is_the_readers { (limit : ℕ) (plan : Plan) → 4096 ≤ limit → IsValid plan
        → StrangeIsTheReaders limit plan }
{}

/// What the profile has of a lawful message of the whole standard is a lawful message of the profile
/// with the same type, version, id and fields.
pub fn heard_is_lawful()
    ensures { HeardIsLawful }
{}

/// A frame of a message of the profile is also a frame of a message of the whole standard, of which
/// the profile has that message: reading the whole standard changes nothing for a reader of the
/// profile.
#[tactic(auto, using(crate::proofs::ProfileHeard::profile_is_heard))]
pub fn profile_is_heard()
    ensures { ProfileIsHeard }
{}

/// Each ROSpec of a reader's table is heard, with its ROSpecID, Priority and CurrentState, also one
/// that the profile cannot say, and no other is.
#[tactic(auto, using(crate::proofs::TableHeard::each_rospec_is_heard))]
pub fn each_rospec_is_heard()
    ensures { EachRoSpecIsHeard }
{}

/// All whole frames of some bytes have one course. As more bytes come, what was sent and reported
/// stays, and an end stays an end.
pub fn course_is_determined()
    ensures one_course { (limit : ℕ) (plan : Plan) (bytes : List ℕ) → limit ≤ MAX_LIMIT
        → AreOctets bytes → HasOneCourse limit plan bytes }
    ensures goes_on { (limit : ℕ) (plan : Plan) → CoursesGoOn limit plan }
{}

/// A client that follows a plan takes its steps in order, and sends their commands with ids from 1
/// on. It takes each one as soon as the message that it awaits comes: the first at the connection;
/// one that follows GET_REPORT at a report that comes after it; one that follows the wait for a
/// report with a tag at such a report; any other at the response to the command before, which for
/// GET_ROSPECS lists the client's view, or at an ERROR_MESSAGE of status 0 under that command's id.
pub fn plan_sends_its_commands()
    ensures in_order { (limit : ℕ) (plan : Plan) (items : List Item)
        → TakesInOrder plan (course_of limit plan items) }
    ensures one_by_one { (limit : ℕ) (plan : Plan) → TakesOneByOne limit plan }
    ensures where_awaited { (limit : ℕ) (plan : Plan) → 4096 ≤ limit → IsValid plan
        → TakesWhereAwaited limit plan }
{}

/// If a client that follows a plan ends well, all commands were sent, and there were as many
/// reports with tags as the plan awaits, and one more report for each poll; if it ends as `Early`,
/// a step was left. Both come of a message that ends the connection, and `Peer` of one that has
/// that status. Each plan can end well.
pub fn plan_ends()
    ensures mean { (limit : ℕ) (plan : Plan) (items : List Item) → EndsMean limit plan items }
    ensures can_end { (limit : ℕ) (plan : Plan) → 4096 ≤ limit → IsValid plan
        → CanEnd limit plan }
{}

/// Whatever happens to a client and a reader, and in whatever pieces each reads the other's bytes,
/// the two ends agree: each event can come next, no end ever meets a faulty frame or a broken
/// stream, and what holds over whole messages holds of the messages in the bytes.
pub fn ends_agree()
    ensures goes_on { EachScheduleRuns }
    ensures each_event_happens { EachEventHappens }
    ensures bytes_are_messages { BytesAreMessages }
    ensures is_a_run_of_messages { IsARunOfMessages }
    ensures view_catches_up { ViewCatchesUp }
    ensures view_is_table { AfterAllBytes ViewIsTable }
    ensures reports_arrive { AfterAllBytes ReportsArrive }
    ensures reports_are_kept { AfterAllBytes ReportsAreKept }
    ensures reader_has_history { AfterAllBytes (λ w. ReaderHasHistory w.ends) }
    ensures one_active { AfterAllBytes (λ w. OneActive w.ends) }
    ensures nothing_is_unexpected { NothingIsUnexpected }
    ensures pending_is_on_the_way { AfterAllBytes PendingIsOnTheWay }
    ensures nothing_is_pending { AfterAllBytes NothingIsPending }
    ensures tables_arrive { AfterAllBytes TablesArrive }
    ensures none_differs { AfterAllBytes (λ w. NoneDiffers w.ends) }
{}
