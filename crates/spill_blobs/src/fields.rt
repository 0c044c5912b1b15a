//! The fields of a row at the front of bytes, and what stands behind them.
ghost use Rattle.std.specs.Prelude.{◌≡◌, ◌≢◌, ◌≤◌, ◌+◌, ℕ, List, [], ◌∷◌, ◌++◌, Option, IfSome, IfNone, length};
ghost use Rattle.std.specs.Int.{w16, w32, w64, from_le_bytes, to_le_bytes};
ghost use Rattle.explorer_model.specs.declared.archive.Speed.{Speed as Pace};
ghost use Rattle.explorer_model.specs.declared.chess.Move.{Move as Step};
ghost use Rattle.explorer_model.specs.declared.chess.Role.{Role as Kind};
ghost use Rattle.explorer_model.specs.Order.{speed_index};
ghost use Rattle.spill_blobs.specs.RowBlocks.{move_bytes, promotion_code, CanBeWritten};

use explorer_model::archive::Speed;
use explorer_model::chess::{Move, Role};
use explorer_model::square::Square;

/// A number of two bytes.
pub fn take_u16(bytes: &[u8]) -> (u16, &[u8])
    requires { 2 ≤ length bytes.now }
    ensures is { bytes.now ≡ to_le_bytes w16 result.0 ++ result.1.now }
    ensures left { length result.1.now + 2 ≡ length bytes.now }
{
    let (front, rest) = bytes.split_at(2);
    let mut number = [0; 2];
    number.copy_from_slice(front);
    (u16_of(number), rest)
}

/// A number of four bytes.
pub fn take_u32(bytes: &[u8]) -> (u32, &[u8])
    requires { 4 ≤ length bytes.now }
    ensures is { bytes.now ≡ to_le_bytes w32 result.0 ++ result.1.now }
    ensures left { length result.1.now + 4 ≡ length bytes.now }
{
    let (front, rest) = bytes.split_at(4);
    let mut number = [0; 4];
    number.copy_from_slice(front);
    (u32_of(number), rest)
}

/// A number of eight bytes.
pub fn take_u64(bytes: &[u8]) -> (u64, &[u8])
    requires { 8 ≤ length bytes.now }
    ensures is { bytes.now ≡ to_le_bytes w64 result.0 ++ result.1.now }
    ensures left { length result.1.now + 8 ≡ length bytes.now }
{
    let (front, rest) = bytes.split_at(8);
    let mut number = [0; 8];
    number.copy_from_slice(front);
    (u64_of(number), rest)
}

/// One byte.
pub fn take_byte(bytes: &[u8]) -> (u8, &[u8])
    requires { 1 ≤ length bytes.now }
    ensures is { bytes.now ≡ result.0 ∷ result.1.now }
    ensures left { length result.1.now + 1 ≡ length bytes.now }
{
    let (front, rest) = bytes.split_at(1);
    (front[0], rest)
}

/// None where no speed has the place.
pub fn speed_of(place: u8) -> Option<Speed>
    ensures some { IfSome result (λ speed. speed_index speed ≡ place) }
    ensures none { IfNone result ((speed : Pace) → speed_index speed ≢ place) }
{
    match place {
        0 => Some(Speed::UltraBullet),
        1 => Some(Speed::Bullet),
        2 => Some(Speed::Blitz),
        3 => Some(Speed::Rapid),
        4 => Some(Speed::Classical),
        5 => Some(Speed::Correspondence),
        _ => None,
    }
}

/// The move of three bytes, which may be none. None where they are no move's.
pub fn move_of(from: u8, to: u8, promotion: u8) -> Option<Option<Move>>
    ensures some { IfSome result (λ next. CanBeWritten next
        × (move_bytes next ≡ from ∷ to ∷ promotion ∷ [])) }
    ensures none { IfNone result ((next : Option Step) → CanBeWritten next
        → move_bytes next ≢ from ∷ to ∷ promotion ∷ []) }
{
    if from == 255 && to == 255 && promotion == 255 {
        return Some(None);
    }
    if from >= 64 || to >= 64 {
        return None;
    }
    let promotion = promotion_of(promotion)?;
    Some(Some(Move {
        from: Square { index: from },
        to: Square { index: to },
        promotion,
    }))
}

/// What a pawn becomes by the code, which may be nothing. None where the code is none's.
fn promotion_of(code: u8) -> Option<Option<Role>>
    ensures some { IfSome result (λ promotion. (promotion_code promotion ≡ code)
        × (code ≤ 4)) }
    ensures none { IfNone result ((promotion : Option Kind) → promotion_code promotion ≤ 4
        → promotion_code promotion ≢ code) }
{
    match code {
        0 => Some(None),
        1 => Some(Some(Role::Knight)),
        2 => Some(Some(Role::Bishop)),
        3 => Some(Some(Role::Rook)),
        4 => Some(Some(Role::Queen)),
        _ => None,
    }
}

fn u16_of(bytes: [u8; 2]) -> u16
    ensures is { result ≡ from_le_bytes w16 bytes }
    ensures back { to_le_bytes w16 result ≡ bytes }
{
    u16::from_le_bytes(bytes)
}

fn u32_of(bytes: [u8; 4]) -> u32
    ensures is { result ≡ from_le_bytes w32 bytes }
    ensures back { to_le_bytes w32 result ≡ bytes }
{
    u32::from_le_bytes(bytes)
}

fn u64_of(bytes: [u8; 8]) -> u64
    ensures is { result ≡ from_le_bytes w64 bytes }
    ensures back { to_le_bytes w64 result ≡ bytes }
{
    u64::from_le_bytes(bytes)
}
