//! A line of a file of openings.
ghost use Rattle.std.specs.Prelude.{◌≡◌, Some, option_map, IfOk};
ghost use Rattle.std.specs.List.{slice_split};
ghost use Rattle.std.specs.Result.{result_map_both};
ghost use Rattle.explorer_model.specs.Classes.{name_of};
ghost use Rattle.explorer_model.specs.Openings.{BookLineReads, ColumnsRead, is_passed, is_tab, three_columns};
ghost use Rattle.explorer_model.specs.Stop.{Answers};
ghost use Rattle.opening_names.specs.Held.{IsKeyed, named_line};
ghost use Rattle.opening_names.specs.Reading.{columns_as};

use crate::pieces::split_piece;
use crate::tidy_key::TidyKey;
use crate::words::{count_words, play_words};
use explorer_model::bytes::utf8_of;
use explorer_model::chess::Position;
use explorer_model::fault::Stop;
use explorer_model::opening::{BookCause, Opening};
use explorer_model::text::Name;
use legal_moves::board::Board;
use std::alloc::{AllocError, Global};
use std::snapshot::Snapshot;

/// The most moves of a line.
const MOVE_LIMIT: usize = 64;

/// An opening, with the key of the position that its line leads to. The position itself is there for
/// contracts alone.
#[derive(Drop)]
pub struct NamedLine {
    pub position: Snapshot<Position>,
    pub key: TidyKey,
    pub opening: Opening,
}

/// What stands between the tabs of a line.
#[derive(Clone, Copy)]
pub struct Cut<'a> {
    pub eco: &'a [u8],
    pub name: &'a [u8],
    pub moves: &'a [u8],
}

/// Whether a line is passed over: an empty one, and a header as the first.
#[tactic(auto, unfolding(explorer_model::specs::Openings::is_passed))]
pub fn is_passed(number: u32, line: &[u8]) -> bool
    ensures { result ≡ is_passed number line.now }
{
    line.is_empty() || (number == 1 && line == b"eco\tname\tpgn".as_slice())
}

/// The position that a line names, or what is wrong with it.
pub fn read_line(alloc: Global, line: &[u8]) -> Result<NamedLine, Stop<BookCause>>
    ensures reads { Answers (result_map_both named_line (λ stop. stop) result)
        (BookLineReads line.now) }
    ensures keyed { IfOk result IsKeyed }
{
    match columns_of(line) {
        None => Err(Stop::Fault(BookCause::NotThree)),
        Some(cut) => read_columns(alloc, cut),
    }
}

fn read_columns(alloc: Global, cut: Cut<'_>) -> Result<NamedLine, Stop<BookCause>>
    ensures reads { Answers (result_map_both named_line (λ stop. stop) result)
        (ColumnsRead (Some (columns_as cut.entry))) }
    ensures keyed { IfOk result IsKeyed }
{
    let Some(eco) = utf8_of(cut.eco) else {
        return Err(Stop::Fault(BookCause::NotUtf8));
    };
    let Some(name) = utf8_of(cut.name) else {
        return Err(Stop::Fault(BookCause::NotUtf8));
    };
    if count_words(cut.moves) > MOVE_LIMIT {
        return Err(Stop::Fault(BookCause::TooLong));
    }
    let Some(board) = play_words(cut.moves) else {
        return Err(Stop::Fault(BookCause::BadMove));
    };
    let opening = new_opening(alloc, eco, name)?;
    Ok(line_to(&board, opening))
}

/// The columns between two tabs, or None where a line has not just two.
fn columns_of(line: &[u8]) -> Option<Cut<'_>>
    ensures { option_map columns_as result ≡ three_columns (slice_split is_tab line.now) }
{
    let (eco, rest) = split_piece(line, b'\t');
    let (name, rest) = split_piece(rest?, b'\t');
    let (moves, rest) = split_piece(rest?, b'\t');
    if rest.is_some() {
        return None;
    }
    Some(Cut { eco, name, moves })
}

/// The opening of these names.
pub fn new_opening(alloc: Global, eco: &str, name: &str) -> Result<Opening, AllocError>
    ensures { IfOk result (λ opening. opening ≡ record { eco = eco.now; name = name.now }) }
{
    let eco = Name::from_string(String::from_str(alloc, eco)?);
    let name = Name::from_string(String::from_str(alloc, name)?);
    Ok(Opening { eco, name })
}

/// The line of an opening that leads to the board.
fn line_to(board: &Board, opening: Opening) -> NamedLine
    ensures line { named_line result ≡ record { position = board.now; opening = opening } }
    ensures keyed { IsKeyed result }
{
    NamedLine {
        position: Snapshot::of(board.as_position()),
        key: TidyKey::of(board),
        opening,
    }
}
