//! What an answer names, by openings that the book lends.
ghost use Rattle.std.specs.Prelude.{◌≡◌, Some, None, map, option_map, IfOk};
ghost use Rattle.std.specs.List.{AllByRecursion, AllZip, last_or};
ghost use Rattle.std.specs.Option.{option_copied};
ghost use Rattle.explorer_model.specs.Chess.{IsValid, Legal, after};
ghost use Rattle.explorer_model.specs.Openings.{IsNaming, LastOpening, OpeningOf, positions_on};
ghost use Rattle.explorer_model.specs.Visits.{AreLegalFrom};
ghost use Rattle.opening_names.specs.Lent.{naming_lent};

use crate::book::Book;
use crate::tidy_key::board_of;
use explorer_model::answer::{Found, MoveLine};
use explorer_model::chess::Move;
use explorer_model::opening::Opening;
use explorer_model::player::{PlayerFound, PlayerLine, PlayerQuery};
use explorer_model::query::Query;
use legal_moves::board::Board;
use std::alloc::{AllocError, Global};

/// A naming whose openings are those of a book.
#[derive(Drop)]
pub struct LentNaming<'a> {
    pub whole: Option<&'a Opening>,
    pub moves: Vec<Option<&'a Opening>>,
}

/// What the answer to a query names: the way that the query goes, by the last position on it that has
/// an opening, and each move that is found, by the position behind it.
pub fn lend_naming<'a>(
    alloc: Global,
    book: &'a Book,
    query: &Query,
    found: &Found,
) -> Result<LentNaming<'a>, AllocError>
    requires root { IsValid query.now.root }
    requires plays { AreLegalFrom query.now.root query.now.plays }
    requires at { last_or None (positions_on query.now.root query.now.plays) ≡ Some query.now.at }
    requires moves { AllByRecursion (λ line. Legal query.now.at line.next) found.now.moves }
    ensures { IfOk result (λ lent. IsNaming book.now query.now
        (map (λ line. line.next) found.now.moves) (naming_lent lent)) }
{
    let played = moves_of(alloc, found.moves.as_slice())?;
    lend_names(alloc, book, query, played.as_slice())
}

/// The same of the answer to a query for a player's games.
pub fn lend_player_naming<'a>(
    alloc: Global,
    book: &'a Book,
    asked: &PlayerQuery,
    found: &PlayerFound,
) -> Result<LentNaming<'a>, AllocError>
    requires root { IsValid asked.now.query.root }
    requires plays { AreLegalFrom asked.now.query.root asked.now.query.plays }
    requires at { last_or None (positions_on asked.now.query.root asked.now.query.plays)
        ≡ Some asked.now.query.at }
    requires moves { AllByRecursion (λ line. Legal asked.now.query.at line.next) found.now.moves }
    ensures { IfOk result (λ lent. IsNaming book.now asked.now.query
        (map (λ line. line.next) found.now.moves) (naming_lent lent)) }
{
    let played = player_moves_of(alloc, found.moves.as_slice())?;
    lend_names(alloc, book, &asked.query, played.as_slice())
}

/// The same of moves that are given by themselves.
pub fn lend_names<'a>(
    alloc: Global,
    book: &'a Book,
    query: &Query,
    played: &[Move],
) -> Result<LentNaming<'a>, AllocError>
    requires root { IsValid query.now.root }
    requires plays { AreLegalFrom query.now.root query.now.plays }
    requires at { last_or None (positions_on query.now.root query.now.plays) ≡ Some query.now.at }
    requires moves { AllByRecursion (λ m. Legal query.now.at m) played.now }
    ensures { IfOk result (λ lent. IsNaming book.now query.now played.now (naming_lent lent)) }
{
    let way = walk(book, board_of(&query.root), query.plays.as_slice());
    let moves = openings_behind(alloc, book, &way.board, played)?;
    Ok(LentNaming {
        whole: way.opening,
        moves,
    })
}

/// Where moves lead, and the opening of the last position on the way that has one.
#[derive(Clone, Copy)]
struct Way<'a> {
    board: Board,
    opening: Option<&'a Opening>,
}

fn walk<'a>(book: &'a Book, root: Board, plays: &[Move]) -> Way<'a>
    requires { AreLegalFrom root plays.now }
    ensures opening { LastOpening book.now (positions_on root plays.now)
        (option_map (λ opening. opening.now) result.opening) }
    ensures board { last_or None (positions_on root plays.now) ≡ Some result.board }
{
    let mut board = root;
    let mut opening = book.at(&board);
    for step in plays {
        board.play_on(*step);
        opening = book.at(&board).or(opening);
    }
    Way { board, opening }
}

/// The openings of the positions behind these moves.
fn openings_behind<'a>(
    alloc: Global,
    book: &'a Book,
    board: &Board,
    played: &[Move],
) -> Result<Vec<Option<&'a Opening>>, AllocError>
    requires { AllByRecursion (λ m. Legal board.now m) played.now }
    ensures { IfOk result (λ openings. AllZip
        (λ m opening. OpeningOf book.now (after board.now m) opening)
        played.now (map option_copied openings.items)) }
{
    let mut openings = Vec::with_capacity(alloc, played.len())?;
    let squares = book.squares_for(board);
    for step in played {
        openings.push(book.behind(board, squares, *step))?;
    }
    Ok(openings)
}

/// The moves of the lines.
fn moves_of(alloc: Global, lines: &[MoveLine]) -> Result<Vec<Move>, AllocError>
    ensures { IfOk result (λ moves. moves.items ≡ map (λ line. line.next) lines.now) }
{
    let mut moves = Vec::with_capacity(alloc, lines.len())?;
    for line in lines {
        moves.push(line.next)?;
    }
    Ok(moves)
}

/// The moves of the lines of a player.
fn player_moves_of(alloc: Global, lines: &[PlayerLine]) -> Result<Vec<Move>, AllocError>
    ensures { IfOk result (λ moves. moves.items ≡ map (λ line. line.next) lines.now) }
{
    let mut moves = Vec::with_capacity(alloc, lines.len())?;
    for line in lines {
        moves.push(line.next)?;
    }
    Ok(moves)
}
