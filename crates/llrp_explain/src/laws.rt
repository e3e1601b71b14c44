//! Laws of the lines of a message and of an open tree.

ghost use Rattle.std.specs.Prelude.{◌≡◌, ℕ, ◌+◌, ◌*◌, ◌<◌, ◌≤◌, ◌^◌, ◌++◌, ◌∷◌, [], Bool, List, None, Option, Some, length};
ghost use Rattle.llrp_tree.specs.Tree.{MessageTree};
ghost use Rattle.llrp_tree.specs.OpenTree.{Begun, covers};
ghost use Rattle.llrp_tree.specs.Frame.{Frame};
ghost use Rattle.llrp_tree.specs.Spelling.{message_digits};
ghost use Rattle.tag_bits.specs.Digits.{digits_of_bytes};
ghost use Rattle.llrp_schema.specs.declared.kinds.Kind.{Kind};
ghost use Rattle.llrp_schema.specs.declared.kinds.KindSet.{KindSet};
ghost use Rattle.llrp_tree.specs.declared.fault.Reason.{Reason};
ghost use Rattle.llrp_explain.specs.Calls.ExplainLines.{ExplainLine, digits_of_lines, bits_of_lines, message_lines, open_lines};
ghost use Rattle.llrp_explain.specs.Calls.ExplainJson.{HasShortColumns, field_json, line_object};
ghost use Rattle.llrp_explain.specs.Calls.ExplainText.{line_text, number_text, read_text};
ghost use Rattle.llrp_tree.specs.OpenTree.{IsOpenTree};
ghost use Rattle.llrp_tree.specs.FirstFault.{next_fault};
ghost use Rattle.llrp_tree.specs.Calls.Deciding.{deciding};
ghost use Rattle.llrp_explain.specs.Calls.FaultLines.{ExplainsFault, refused_lines};

/// The digits of the lines, joined, are those of the message, and of what an open tree covers.
pub fn lines_are_digits()
    ensures message { (m : MessageTree) → digits_of_lines (message_lines m) ≡ message_digits m }
    ensures open { (t : List Begun) → digits_of_lines (open_lines t) ≡ covers t }
    ensures widths { (lines : List ExplainLine) → bits_of_lines lines ≡ length (digits_of_lines lines) }
{}

/// The widths of the lines of a frame's message add up to eight times its octets, and their digits are its digits.
pub fn lines_are_frame()
    ensures digits { (m : MessageTree) (bytes : List ℕ) (limit : ℕ) → Frame m bytes limit
        → digits_of_lines (message_lines m) ≡ digits_of_bytes bytes }
    ensures bits { (m : MessageTree) (bytes : List ℕ) (limit : ℕ) → Frame m bytes limit
        → bits_of_lines (message_lines m) ≡ 8 * length bytes }
{}

/// The digits of the lines of a frame that has a fault, and those of the refused part after them, are its first ones.
pub fn fault_lines_are_frame()
    ensures { (p : KindSet) (limit : ℕ) (frame : List ℕ) (bit : ℕ) (reason : Reason)
        (lines refused : List ExplainLine) → 10 ≤ length frame
        → ExplainsFault p limit frame bit reason lines refused → (others : List Bool)
        × (digits_of_bytes frame ≡ digits_of_lines lines ++ (digits_of_lines refused ++ others)) }
{}

/// The object that is made of a line's text has the line's columns, and the reading of its number.
pub fn objects_have_columns()
    ensures read { (before : Option Kind) (refused : Bool) (bit : ℕ) (l : ExplainLine)
        (text : List ℕ) → HasShortColumns bit l → read_text before bit l ≡ text ++ 10 ∷ []
        → field_json refused text ≡ line_object before refused bit l }
    ensures plain { (refused : Bool) (bit : ℕ) (l : ExplainLine) (text : List ℕ)
        → HasShortColumns bit l → l.kind ≡ None → line_text bit l ≡ text ++ 10 ∷ []
        → field_json refused text ≡ line_object None refused bit l }
{}

/// From the number of a line its bits are had again: in a field of a kind no two numbers have the same text.
pub fn numbers_have_bits()
    ensures { (kind : Kind) (name : List ℕ) (width v w : ℕ) → v < 2 ^ width → w < 2 ^ width
        → v < 10 ^ 64 → w < 10 ^ 64
        → number_text kind name width v ≡ number_text kind name width w → v ≡ w }
{}

/// The digits that decide a fault have the lines of what is refused, whatever comes after them.
pub fn refused_lines_are_decided()
    ensures { (tree : List Begun) (rest more : List Bool) (bit : ℕ) (reason : Reason)
        → IsOpenTree tree → next_fault tree (rest ++ more) ≡ Some (bit, reason)
        → deciding tree (rest ++ more) ≤ length (covers tree) + length rest
        → refused_lines tree reason (rest ++ more) ≡ refused_lines tree reason rest }
{}
