//! Requests and replies (HTTP).
use crate::archive::Bytes;
use crate::player::PlayerParameter;
use crate::query::Parameter;

/// The method of a request (RFC 9110, 9.3).
#[derive(Clone, Copy, Debug, PartialEq, Eq)]
pub enum Method {
    Get,
    Post,
    Other,
}

/// The target of a request up to its first `?` (RFC 9112, 3.2).
#[derive(Clone, Copy, Debug, PartialEq, Eq)]
pub enum Path {
    /// `/lichess`
    Lichess,
    /// `/player`
    Player,
    /// `/import`
    Import,
    Other,
}

/// A whole request.
#[derive(Debug, Drop, PartialEq, Eq)]
pub struct Request {
    pub method: Method,
    pub path: Path,
    /// What follows the first `?` of the target.
    pub query: Bytes,
    /// At most 4,194,304 bytes.
    pub body: Bytes,
    /// The connection is closed behind the reply.
    pub last: bool,
}

/// Why a request is refused before its path and method are judged. The connection is closed then.
#[derive(Clone, Copy, Debug, PartialEq, Eq)]
pub enum RequestFault {
    /// No head of HTTP/1.0 or HTTP/1.1, or one that leaves the body's length open (status 400).
    BadRequest,
    /// A body of more than 4,194,304 bytes (status 413).
    TooLarge,
    /// A head of more than 8,192 bytes or of more than 32 fields (status 431).
    HeadTooLarge,
}

/// What is asked next on a connection.
#[derive(Debug, Drop, PartialEq, Eq)]
pub enum Asked {
    Wanted(Request),
    Refused(RequestFault),
    NoMemory,
    /// No more: the input ended between requests, or the connection was to be closed.
    Done,
    /// The input ended within a request.
    Cut,
    ReadFault,
}

/// What is replied to a request. `stored` counts the games that were stored for it.
#[derive(Debug, Drop, PartialEq, Eq)]
pub enum Reply {
    /// The answer over the first `batches` batches of the journal.
    Found { batches: u32, body: Bytes },
    /// An import that was read to its end; `batches` is the journal's length as it is known then.
    Stored { batches: u32, body: Bytes },
    BadParameter { name: Parameter },
    /// The parameter of a query for a player's games that is malformed.
    BadPlayerParameter { name: PlayerParameter },
    BadRequest,
    NotFound,
    /// The path takes another method.
    NotAllowed { allow: Method },
    TooLarge,
    HeadTooLarge,
    DiskFault { stored: u32 },
    /// An earlier batch could not be stored, and nothing is stored any more.
    Closed { stored: u32 },
    /// No room in the store, which has so many games and bytes of text.
    Full { games: u64, bytes: u64, stored: u32 },
    NoMemory,
    /// The journal could not be read.
    Unread,
}
