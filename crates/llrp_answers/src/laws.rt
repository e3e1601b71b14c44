//! Laws over the definitions.

ghost use Rattle.llrp_tree.specs.Tree.{MessageTree};
ghost use Rattle.llrp_answers.specs.Calls.Laws.{AreWordsOfLine};

/// The words that a form is compared with are those of the line that `show --all` prints.
pub fn words_are_of_the_line()
    ensures { (m : MessageTree) → AreWordsOfLine m }
{}
