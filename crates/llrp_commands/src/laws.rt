//! Laws of the commands, and of the words that they come of.

ghost use Rattle.std.specs.Prelude.{◌≡◌, List, Result, false, ℕ};
ghost use Rattle.llrp_listing.specs.declared.outcome.ToolErr.{ToolErr};
ghost use Rattle.llrp_stream.specs.Device.{SinkLog, SourceLog};
ghost use Rattle.llrp_words.specs.Calls.Arguments.{AsksElsewhere, parses};
ghost use Rattle.llrp_commands.specs.Calls.Command.{LeftAlone, PrintsEpcIfAsked, ShowsIfAsked};
ghost use Rattle.llrp_commands.specs.Calls.Does.{Runs};
ghost use Rattle.llrp_commands.specs.Calls.Encode.{EncodesIfAsked};
ghost use Rattle.llrp_commands.specs.Calls.Epc.{LeavesFileIfAsked, RunsEpcIfAsked};
ghost use Rattle.llrp_commands.specs.Calls.Explain.{ExplainsIfAsked};
ghost use Rattle.llrp_commands.specs.Calls.Fields.{FieldsIfAsked};
ghost use Rattle.llrp_commands.specs.Calls.Labelled.{LabelsEncodedIfAsked, LabelsShownIfAsked};
ghost use Rattle.llrp_commands.specs.Calls.ShowNames.{NamesIfAsked};
ghost use Rattle.llrp_commands.specs.Calls.ShowSegments.{CapturesIfAsked, SegmentsIfAsked};

pub use llrp_words::laws::{
    epc_has_words, explain_has_flags, fields_has_flag, show_and_encode_have_flag,
};

/// What runs for words that ask for a command is, for each command and each of its options, what that command
/// does.
pub fn each_command_runs()
    ensures show { (words : List (List ℕ)) (r0 r1 : SourceLog) (w0 w1 e0 e1 : SinkLog)
        (answer : Result ℕ ToolErr) → Runs words r0 r1 w0 w1 e0 e1 answer
        → ShowsIfAsked words r0 r1 w0 w1 e0 e1 answer }
    ensures names { (words : List (List ℕ)) (r0 r1 : SourceLog) (w0 w1 e0 e1 : SinkLog)
        (answer : Result ℕ ToolErr) → Runs words r0 r1 w0 w1 e0 e1 answer
        → NamesIfAsked words r0 r1 w0 w1 e0 e1 answer }
    ensures segments { (words : List (List ℕ)) (r0 r1 : SourceLog) (w0 w1 e0 e1 : SinkLog)
        (answer : Result ℕ ToolErr) → Runs words r0 r1 w0 w1 e0 e1 answer
        → CapturesIfAsked words r0 r1 w0 w1 e0 e1 answer
        → SegmentsIfAsked words r0 r1 w0 w1 e0 e1 answer }
    ensures labels_shown { (words : List (List ℕ)) (r0 r1 : SourceLog) (w0 w1 e0 e1 : SinkLog)
        (answer : Result ℕ ToolErr) → Runs words r0 r1 w0 w1 e0 e1 answer
        → LabelsShownIfAsked words r0 r1 w0 w1 e0 e1 answer }
    ensures encode { (words : List (List ℕ)) (r0 r1 : SourceLog) (w0 w1 e0 e1 : SinkLog)
        (answer : Result ℕ ToolErr) → Runs words r0 r1 w0 w1 e0 e1 answer
        → EncodesIfAsked words r0 r1 w0 w1 e0 e1 answer }
    ensures labels_encoded { (words : List (List ℕ)) (r0 r1 : SourceLog) (w0 w1 e0 e1 : SinkLog)
        (answer : Result ℕ ToolErr) → Runs words r0 r1 w0 w1 e0 e1 answer
        → LabelsEncodedIfAsked words r0 r1 w0 w1 e0 e1 answer }
    ensures epc { (words : List (List ℕ)) (r0 r1 : SourceLog) (w0 w1 e0 e1 : SinkLog)
        (answer : Result ℕ ToolErr) → Runs words r0 r1 w0 w1 e0 e1 answer
        → PrintsEpcIfAsked words r0 r1 w0 w1 e0 e1 answer }
    ensures options { (words : List (List ℕ)) (r0 r1 : SourceLog) (w0 w1 e0 e1 : SinkLog)
        (answer : Result ℕ ToolErr) → Runs words r0 r1 w0 w1 e0 e1 answer
        → RunsEpcIfAsked words r0 r1 w0 w1 e0 e1 answer }
    ensures file { (words : List (List ℕ)) (r0 r1 : SourceLog) (w0 w1 e0 e1 : SinkLog)
        (answer : Result ℕ ToolErr) → Runs words r0 r1 w0 w1 e0 e1 answer
        → LeavesFileIfAsked words r0 r1 w0 w1 e0 e1 answer }
    ensures fields { (words : List (List ℕ)) (r0 r1 : SourceLog) (w0 w1 e0 e1 : SinkLog)
        (answer : Result ℕ ToolErr) → Runs words r0 r1 w0 w1 e0 e1 answer
        → FieldsIfAsked words r0 r1 w0 w1 e0 e1 answer }
    ensures explain { (words : List (List ℕ)) (r0 r1 : SourceLog) (w0 w1 e0 e1 : SinkLog)
        (answer : Result ℕ ToolErr) → Runs words r0 r1 w0 w1 e0 e1 answer
        → ExplainsIfAsked words r0 r1 w0 w1 e0 e1 answer }
    ensures refused { (words : List (List ℕ)) (r0 r1 : SourceLog) (w0 w1 e0 e1 : SinkLog)
        (answer : Result ℕ ToolErr) → Runs words r0 r1 w0 w1 e0 e1 answer
        → parses words ≡ false → r1 ≡ r0 }
    ensures elsewhere { (words : List (List ℕ)) (r0 r1 : SourceLog) (w0 w1 e0 e1 : SinkLog)
        (answer : Result ℕ ToolErr) → Runs words r0 r1 w0 w1 e0 e1 answer
        → AsksElsewhere words → LeftAlone r0 r1 w0 w1 e0 e1 answer }
{}
