//! Laws of connections. Each is the contract of a function that has nothing to do.
ghost use Rattle.std.specs.Prelude.{◌≡◌, ◌≤◌, ℕ, true, List, ◌++◌, length};
ghost use Rattle.explorer_model.specs.declared.wire.Asked.{Asked};
ghost use Rattle.explorer_model.specs.declared.wire.Asked.TheVariants.{Wanted, Refused};
ghost use Rattle.explorer_model.specs.declared.wire.Request.{Request};
ghost use Rattle.explorer_model.specs.declared.wire.RequestFault.{RequestFault};
ghost use Rattle.explorer_model.specs.Wire.{IsAsked, First, body_limit};

/// The bytes of a connection ask one list of requests and refusals.
pub fn asked_is_determined()
    ensures { (bytes : List ℕ) (asked others : List Asked)
        → IsAsked bytes asked → IsAsked bytes others → asked ≡ others }
{}

/// A whole request stays the first one, whatever comes behind it, and a refusal stays one.
pub fn what_stands_first_stays()
    ensures whole { (more : ℕ) (bytes behind : List ℕ) (request : Request) (rest : List ℕ)
        → First more bytes (Wanted request) rest
        → First more (bytes ++ behind) (Wanted request) (rest ++ behind) }
    ensures refused { (more : ℕ) (bytes behind : List ℕ) (fault : RequestFault)
        (rest others : List ℕ) → First more bytes (Refused fault) rest
        → First more (bytes ++ behind) (Refused fault) others }
{}

/// No body is longer than the limit, and the last request that a connection may bring closes it.
pub fn requests_are_bounded()
    ensures body { (more : ℕ) (bytes : List ℕ) (request : Request) (rest : List ℕ)
        → First more bytes (Wanted request) rest → length request.body ≤ body_limit }
    ensures last { (bytes : List ℕ) (request : Request) (rest : List ℕ)
        → First 1 bytes (Wanted request) rest → request.last ≡ true }
{}
