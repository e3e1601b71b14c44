//! Laws of results, and of the course of a client.

ghost use Rattle.llrp_operations.specs.Calls.Access.{DoneIsDoneToIt, SaysWhenDone};
ghost use Rattle.llrp_operations.specs.Calls.CourseLaws.{AdmitsChange, ChangesOne, DeletesBoth};
ghost use Rattle.llrp_operations.specs.Calls.Laws.{SaysWhatSucceeds};
ghost use Rattle.llrp_operations.specs.Calls.Targets.{MeansOneEpc};

/// What `has_succeeded` returns is true exactly if there is one result for each operation, in order, each of
/// which is of the AccessSpec, of the operation's kind and id, and 0.
pub fn says_what_succeeds()
    ensures { SaysWhatSucceeds }
{}

/// `run_access` returns that all was done exactly if results came, and there is one for each operation, in
/// order, as `says_what_succeeds` has it, in TagReportData of the tag that is meant, and if, where it verifies,
/// the words that were read back are those that were written.
pub fn says_when_done()
    ensures { SaysWhenDone }
{}

/// If `run_access` returns that all was done, a message of the reader says so of the tag that is meant: by the
/// EPC of its TagReportData, with one result for each operation, in order, each of them 0 and whole.
pub fn done_is_done_to_it()
    ensures { DoneIsDoneToIt }
{}

/// Whatever a reader says, and whenever time is over or the connection is lost: a client that is to change a
/// tag asks for its AccessSpec only if one EPC was seen that the mask selects, which has some octets and is the
/// one that is meant.
pub fn changes_one_tag()
    ensures { ChangesOne }
{}

/// Whatever a reader says, and whenever time is over or the connection is lost: a client that is to change a
/// tag, and asked for its AccessSpec to be enabled, does not end as if no tag had come, or as if nothing had
/// been changed.
pub fn admits_change()
    ensures { AdmitsChange }
{}

/// Whatever a reader says, and whenever time is over or the connection is lost: what a client asks for begins
/// with DELETE_ACCESSSPEC and DELETE_ROSPEC, and where its course has ended with the connection standing, it
/// ended with both and CLOSE_CONNECTION. Of a reader that did not accept it a client asks nothing.
pub fn deletes_both()
    ensures { DeletesBoth }
{}

/// The AccessSpec of a request that names an EPC, as it is sent, fits each tag that has this EPC, and no tag with
/// another one, as a longer one that begins alike.
pub fn means_one_epc()
    ensures { MeansOneEpc }
{}
