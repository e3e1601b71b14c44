//! Laws of what is done for a client.

ghost use Rattle.std.specs.Prelude.{◌≡◌, List};
ghost use Rattle.llrp_stream.specs.declared.item.Item.{Item};
ghost use Rattle.llrp_general.specs.Calls.Serving.{IsDone, Setting, Step, steps};

/// Where no other client comes, the steps for the client's items are done, and nothing else.
pub fn alone_only_steps_are_done()
    ensures { (s : Setting) (items : List Item) (done : List Step) → IsDone s 0 items done
        → done ≡ steps s items }
{}
