//! Which moves are legal, told by pins and check masks.
ghost use Rattle.std.specs.Prelude.{◌↔◌, IsTrue};
ghost use Rattle.explorer_model.specs.Chess.{PseudoLegal, Legal};
ghost use Rattle.legal_moves.specs.CheckMasks.{AreMasksOf, IsSteady};
ghost use Rattle.legal_moves.specs.PieceSets.{IsKept};

use crate::check_info::CheckInfo;
use crate::piece_sets::PieceSets;
use crate::pins::{evasions, pinned};
use explorer_model::chess::{Move, Position};
use step_tables::{Bitboard, contains};

/// What is asked once of a position, for the legality of all its moves.
#[derive(Clone, Copy)]
pub struct CheckMasks {
    pub info: CheckInfo,
    /// The own pieces that are pinned.
    pub pinned: Bitboard,
    /// Where a piece other than the king meets each check.
    pub evasions: Bitboard,
}

impl CheckMasks {
    /// The masks of a position, by the sets of its pieces.
    pub fn of(position: &Position, sets: &PieceSets) -> CheckMasks
        requires { IsKept position.now sets.now }
        ensures { AreMasksOf position.now result }
    {
        let info = CheckInfo::of(position, sets);
        CheckMasks {
            info,
            pinned: pinned(position, &info),
            evasions: evasions(position, &info),
        }
    }

    /// Is a pseudo-legal move legal? The masks tell it of most; the others are played.
    pub fn is_legal(&self, position: &Position, m: Move) -> bool
        requires masked { AreMasksOf position.now self.now }
        requires pseudo_legal { PseudoLegal position.now m }
        ensures { IsTrue result ↔ Legal position.now m }
    {
        if self.is_steady(position, m) {
            return contains(self.evasions, m.to.index);
        }
        self.info.is_legal(position, m)
    }

    /// Is it a move of a piece that is neither the king nor pinned, and no capture en passant?
    fn is_steady(&self, position: &Position, m: Move) -> bool
        requires { AreMasksOf position.now self.now }
        ensures { IsTrue result → IsSteady position.now self.now m }
    {
        if m.from.index == self.info.king {
            return false;
        }
        if contains(self.pinned, m.from.index) {
            return false;
        }
        !position.takes_en_passant(m)
    }
}
