//! What notations of moves name.
use crate::chess::{Role, Side};
use thiserror::Error;

/// What a text of SAN names of a move that is not castling (PGN 8.2.3). Files are 0 for a to 7
/// for h, ranks 0 for 1 to 7 for 8, and `target` is the index of a square.
#[derive(Clone, Copy, Debug, PartialEq, Eq)]
pub struct NamedMove {
    pub role: Role,
    pub file: Option<u8>,
    pub rank: Option<u8>,
    pub captures: bool,
    pub target: u8,
    pub promotion: Option<Role>,
}

/// A text of SAN without its check marks.
#[derive(Clone, Copy, Debug, PartialEq, Eq)]
pub enum SanForm {
    Castling(Side),
    Named(NamedMove),
}

/// What a written move names of the square that it starts from (PGN 8.2.3.4).
#[derive(Clone, Copy, Debug, PartialEq, Eq)]
pub enum Start {
    Unnamed,
    File,
    Rank,
    Square,
}

/// What a move does to the other side: nothing to be marked, check, or mate (PGN 8.2.3.5).
#[derive(Clone, Copy, Debug, PartialEq, Eq)]
pub enum CheckMark {
    Quiet,
    Check,
    Mate,
}

/// A move as UCI names it: the indices of two squares, and what a pawn becomes.
#[derive(Clone, Copy, Debug, PartialEq, Eq)]
pub struct UciForm {
    pub from: u8,
    pub to: u8,
    pub promotion: Option<Role>,
}

/// The first field of a FEN text that is faulty, from 1 to 6 (PGN 16.1.3).
#[derive(Clone, Copy, Debug, PartialEq, Eq, Error)]
#[error("field {field} of the FEN text is faulty")]
pub struct FenFault {
    pub field: u8,
}

/// Why a text names no legal move.
#[derive(Clone, Copy, Debug, PartialEq, Eq, Error)]
pub enum UciFault {
    #[error("not in the form of UCI")]
    NotUci,
    #[error("the move is not legal")]
    NotLegal,
}
