//! Laws of the requests of a connection. Each is the contract of a function that only cites the
//! laws below it.
ghost use Rattle.std.specs.Prelude.{◌≡◌, ℕ, List, Some};
ghost use Rattle.outside.specs.Stream.{Stream};
ghost use Rattle.explorer_model.specs.declared.wire.Asked.{Asked};
ghost use Rattle.explorer_model.specs.Wire.{IsAsked};
ghost use Rattle.http_wire.specs.Asking.{Buffer, fresh};
ghost use Rattle.http_wire.specs.Runs.{AreCalls, ComesToEnd};

use explorer_model::wire_laws::{requests_are_bounded, what_stands_first_stays};

/// Calls of `next` one after another answer what all the bytes of the connection ask, in whatever
/// pieces these come, and whatever is written between the calls.
pub fn calls_answer_what_bytes_ask()
    ensures { (bytes : List ℕ) (asked : List Asked) (new : Buffer) (before after : Stream)
        → before.left ≡ Some bytes → AreCalls asked fresh new before after → ComesToEnd asked
        → IsAsked bytes asked }
{
    what_stands_first_stays();
    requests_are_bounded();
}
