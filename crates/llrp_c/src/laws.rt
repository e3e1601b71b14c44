//! Laws of the statuses.

ghost use Rattle.std.specs.Prelude.{◌≡◌, Some};
ghost use Rattle.llrp_c.specs.declared.status.Status.{Status};
ghost use Rattle.llrp_c.specs.Status.{code_of, status_with};

/// No two statuses have the same code.
pub fn codes_apart()
    ensures { (status : Status) → status_with (code_of status) ≡ Some status }
{}
