//! The squares of the file or rank that a text names.
ghost use Rattle.std.specs.Prelude.{◌≡◌, ◌↔◌, ◌<◌, ℕ};
ghost use Rattle.step_tables.specs.Bitboard.{Holds};
ghost use Rattle.explorer_model.specs.Board.{file_of, rank_of};
ghost use Rattle.explorer_model.specs.San.{IsAsNamed};

use step_tables::Bitboard;

/// The squares of each file.
static FILES: [Bitboard; 8] = [
    0x0101_0101_0101_0101,
    0x0202_0202_0202_0202,
    0x0404_0404_0404_0404,
    0x0808_0808_0808_0808,
    0x1010_1010_1010_1010,
    0x2020_2020_2020_2020,
    0x4040_4040_4040_4040,
    0x8080_8080_8080_8080,
];

/// The squares of each rank.
static RANKS: [Bitboard; 8] = [
    0xFF,
    0xFF00,
    0xFF_0000,
    0xFF00_0000,
    0xFF_0000_0000,
    0xFF00_0000_0000,
    0xFF_0000_0000_0000,
    0xFF00_0000_0000_0000,
];

/// The squares of the file that is named, or all.
pub fn on_file(file: Option<u8>) -> Bitboard
    ensures { (s : ℕ) → s < 64 → Holds result s ↔ IsAsNamed file (file_of s) }
{
    match file {
        None => u64::MAX,
        Some(file) => {
            if file >= 8 {
                return 0;
            }
            FILES[file as usize]
        }
    }
}

/// The squares of the rank that is named, or all.
pub fn on_rank(rank: Option<u8>) -> Bitboard
    ensures { (s : ℕ) → s < 64 → Holds result s ↔ IsAsNamed rank (rank_of s) }
{
    match rank {
        None => u64::MAX,
        Some(rank) => {
            if rank >= 8 {
                return 0;
            }
            RANKS[rank as usize]
        }
    }
}
