//! Laws of what a simulated reader in real time says.

ghost use Rattle.std.specs.Prelude.{◌≡◌, ◌∷◌, [], ℕ, MatchOption};
ghost use Rattle.llrp_session.specs.Contents.{Request, Response};
ghost use Rattle.llrp_session.specs.declared.types.Operation.{Operation};
ghost use Rattle.llrp_session.specs.ReaderMachine.{Reader, field_error, serve, turn_begun};
ghost use Rattle.llrp_live.specs.Calls.RefusedRequests.{IsRefusedFor, refused_field};

/// A request that a reader's machine answers with M_FieldError alone has a field for whose value it
/// is refused, and it is the one that is named.
#[tactic(auto, using(crate::proofs::RefusedLemmas::named_is_refused))]
pub fn named_fields_are_refused()
    ensures { (now version id : ℕ) (request : Request) (reader : Reader) (operation : Operation)
        → (serve now version id request (turn_begun reader)).sent
        ≡ record { version = version; id = id; word = Response operation field_error } ∷ []
        → MatchOption (refused_field request) ⊥ (IsRefusedFor reader.table request) }
{}
