//! What serves one client, apart from the loop around it.

ghost use Rattle.std.specs.Prelude.{◌≡◌, List, Ok, OnOk, false, ℕ};
ghost use Rattle.llrp_tree.specs.Tree.{MessageTree};
ghost use Rattle.llrp_session.specs.ReaderMachine.{Reader as Machine};
ghost use Rattle.llrp_endpoints.specs.Serving.{Standing};
ghost use Rattle.llrp_endpoints.specs.declared.script.Entry.{Entry};
ghost use Rattle.llrp_endpoints.specs.Private.Server.{FeedsServer, FinishesServer, StartsServer};

use llrp_listing::ToolErr;

/// Serves one client: it is given the client's bytes as they come, and appends what is said to them.
pub(crate) trait Server {
    /// It was made with this reader and this script.
    ghost fresh: { Machine → List Entry → Self → Type 0 };

    /// With this reader and this script it was given these bytes, and said these messages.
    ghost opened: { Machine → List Entry → List ℕ → List MessageTree → Self → Type 0 };

    /// What is said to bytes.
    ghost says: { Machine → List Entry → List ℕ → List MessageTree → Standing → Type 0 };

    /// The first of it.
    ghost begins: { Machine → List Entry → List ℕ → List MessageTree → Type 0 };

    ghost may_start: { Self → Type 0 };

    ghost may_feed: { Self → Type 0 };

    /// Starts serving, and appends what is said before any bytes.
    fn start(&mut self, out: &mut Vec<u8>) -> Result<(), ToolErr>
        requires { may_start self.old }
        ensures starts { StartsServer fresh opened says begins self.old self.new
            out.old.items out.new.items result }
        ensures may { OnOk result (may_feed self.new) };

    /// Takes a piece of the client's bytes, and appends what is said to it. Returns whether the client
    /// closed the connection.
    fn feed(&mut self, piece: &[u8], out: &mut Vec<u8>) -> Result<bool, ToolErr>
        requires { may_feed self.old }
        ensures feeds { FeedsServer opened says begins piece.now self.old self.new
            out.old.items out.new.items result }
        ensures may { result ≡ Ok false → may_feed self.new };

    /// How the input ends if no more bytes follow.
    fn finish(&self) -> Result<(), ToolErr>
        ensures { FinishesServer opened says self.now result };
}
