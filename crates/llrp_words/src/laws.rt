//! Laws of how the words are parsed.

ghost use Rattle.std.specs.Prelude.{List, ℕ};
ghost use Rattle.llrp_words.specs.Calls.Arguments.{AsksEncodeIfNamed, AsksEpcIfNamed, AsksExplainIfNamed, AsksFieldsIfNamed, AsksShowIfNamed};

/// If the words are parsed and name epc, they ask for it with one text or none, and with each of its
/// options or without.
pub fn epc_has_words()
    ensures { (words : List (List ℕ)) → AsksEpcIfNamed words }
{}

/// If the words are parsed and name show or encode, they ask for it with --hex or without, with
/// --all or without, with --json or without, and with one limit.
pub fn show_and_encode_have_flag()
    ensures show { (words : List (List ℕ)) → AsksShowIfNamed words }
    ensures encode { (words : List (List ℕ)) → AsksEncodeIfNamed words }
{}

/// If the words are parsed and name fields, they ask for it with --all or without, and with one name
/// or none.
pub fn fields_has_flag()
    ensures { (words : List (List ℕ)) → AsksFieldsIfNamed words }
{}

/// If the words are parsed and name explain, they ask for it with --hex or without, with --all or
/// without, with --json or without, with one id or none, and with one limit.
pub fn explain_has_flags()
    ensures { (words : List (List ℕ)) → AsksExplainIfNamed words }
{}
