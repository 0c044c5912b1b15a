//! What a door is: where connections come in.
ghost use Rattle.std.specs.Prelude.{◌<◌, OnErr, IfOk, MatchOption};
ghost use Rattle.outside.specs.Doors.{Connections, GivesNone, Accepts, FailsToAccept, TakesBack};

use crate::stream::{Failed, Link};

/// Where connections come in, up to a stated number. Generic code can let no link go, since it may
/// not be `Drop`: each one that was accepted goes back by `finish`.
pub trait Door {
    type Link: Link + Send;

    // What the door has come to.
    ghost door: { Self → Connections };

    /// The next connection, as it stood among those to come; none exactly where none is left. It
    /// may wait for a peer.
    fn accept(&mut self) -> Result<Option<Self::Link>, Failed>
        ensures next { IfOk result (λ next. MatchOption next
            (GivesNone (door self.old) (door self.new))
            (λ link. Accepts (Self.Link.source link) (door self.old) (door self.new))) }
        ensures fails { OnErr result (FailsToAccept (door self.old) (door self.new)) };

    /// Takes a link back that was accepted.
    fn finish(&mut self, link: Self::Link)
        requires { 0 < (door self.old).out }
        ensures { TakesBack (Self.Link.source link) (door self.old) (door self.new) };
}
