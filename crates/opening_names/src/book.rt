//! Books of openings.
ghost use Rattle.std.specs.Prelude.{◌≡◌, ◌≤◌, ◌==◌, [], length, map, option_map, IfOk, IfSome};
ghost use Rattle.explorer_model.specs.declared.chess.Position.{Position};
ghost use Rattle.explorer_model.specs.Chess.{Legal, after};
ghost use Rattle.explorer_model.specs.Openings.{BookReads, OpeningOf};
ghost use Rattle.explorer_model.specs.Stop.{Answers};
ghost use Rattle.explorer_model.specs.Tidy.{IsTidyKey};
ghost use Rattle.std.specs.Result.{result_map_both};
ghost use Rattle.opening_names.specs.Hashed.{ArePacked};
ghost use Rattle.opening_names.specs.Held.{AreKeyed, named_line};

use crate::line::{NamedLine, is_passed, read_line};
use crate::pieces::split_line;
use crate::places::{Places, places_of};
use crate::tidy_key::TidyKey;
use explorer_model::chess::Move;
use explorer_model::fault::Stop;
use explorer_model::opening::{BookFault, Opening};
use legal_moves::board::Board;
use legal_moves::laws::tidy_forms_decide_same;
use packed_keys::laws::equal_keys_mean_equal_positions;
use packed_keys::pack_squares;
use std::alloc::Global;
use std::collections::HashMap;
use std::marker::Model;

/// The positions that a file of openings names, in the order of its lines.
#[derive(Drop)]
pub struct Book {
    lines: Vec<NamedLine>,
    /// The place of the first line of each position, by its key.
    places: Places,
}

impl Model for Book {
    ghost use Rattle.std.specs.Prelude.{List, map};
    ghost use Rattle.explorer_model.specs.Openings.{NamedPosition};
    ghost use Rattle.opening_names.specs.Held.{AreKeyed, TellsPlaces, named_line};

    ghost Value = { List NamedPosition };

    ghost view = { λ book. map named_line book.lines.items };

    ghost invariant = { λ book. AreKeyed book.lines.items
        × TellsPlaces book.places book.lines.items };
}

impl Book {
    /// A book without a line. It takes no memory.
    pub fn empty(alloc: Global) -> Book
        ensures { result ≡ [] }
    {
        Book {
            lines: Vec::new(alloc),
            places: HashMap::new(alloc),
        }
    }

    /// The book of a file, or its first faulty line.
    pub fn read(alloc: Global, text: &[u8]) -> Result<Book, Stop<BookFault>>
        requires { length text.now ≤ 4194304 }
        ensures { Answers result (BookReads text.now) }
    {
        let lines = read_lines(alloc, text)?;
        let places = places_of(alloc, lines.as_slice())?;
        Ok(Book { lines, places })
    }

    /// Whether it has no line.
    pub fn is_empty(&self) -> bool
        ensures { result ≡ (length self.now == 0) }
    {
        self.lines.is_empty()
    }

    /// The opening of the first line that ends in the same position (FIDE 9.2.3), or None exactly
    /// where no line does. An empty book makes neither tidy form nor key.
    pub fn at(&self, board: &Board) -> Option<&Opening>
        ensures { OpeningOf self.now board.now (option_map (λ opening. opening.now) result) }
    {
        if self.lines.is_empty() {
            return None;
        }
        self.at_key(TidyKey::of(board))
    }

    /// The squares of the board as `behind` takes them. There are none for an empty book.
    pub fn squares_for(&self, board: &Board) -> Option<[u8; 32]>
        ensures { IfSome result (ArePacked board.now) }
    {
        if self.lines.is_empty() {
            return None;
        }
        Some(pack_squares(&board.as_position().squares))
    }

    /// The opening behind a legal move on the board, whose squares are packed, if they are.
    pub fn behind(&self, board: &Board, squares: Option<[u8; 32]>, step: Move) -> Option<&Opening>
        requires legal { Legal board.now step }
        requires packed { IfSome squares (ArePacked board.now) }
        ensures { OpeningOf self.now (after board.now step)
            (option_map (λ opening. opening.now) result) }
    {
        let mut next = *board;
        next.play_on(step);
        let Some(squares) = squares else {
            return self.at(&next);
        };
        self.at_key(TidyKey::behind(board, &squares, step, &next))
    }

    /// The opening of the first line that has the key.
    fn at_key(&self, key: TidyKey) -> Option<&Opening>
        ensures { (at : Position) → length at.squares ≡ 64 → IsTidyKey at key
            → OpeningOf self.now at (option_map (λ opening. opening.now) result) }
    {
        // laws: positions are the same exactly where their tidy forms have equal keys
        tidy_forms_decide_same();
        equal_keys_mean_equal_positions();
        match self.places.get(&key) {
            None => None,
            Some(place) => Some(&self.lines[*place].opening),
        }
    }
}

/// The lines of a file that name positions.
fn read_lines(alloc: Global, text: &[u8]) -> Result<Vec<NamedLine>, Stop<BookFault>>
    requires { length text.now ≤ 4194304 }
    ensures reads { Answers (result_map_both (λ lines. map named_line lines.items) (λ stop. stop) result)
        (BookReads text.now) }
    ensures keyed { IfOk result (λ lines. AreKeyed lines.items) }
{
    let mut lines = Vec::new(alloc);
    let mut number = 1;
    let mut rest = Some(text);
    while let Some(text) = rest {
        let (line, more) = split_line(text);
        if !is_passed(number, line) {
            match read_line(alloc, line) {
                Ok(named) => {
                    if lines.push(named).is_err() {
                        return Err(Stop::OutOfMemory);
                    }
                }
                Err(Stop::Fault(cause)) => {
                    return Err(Stop::Fault(BookFault {
                        line: number,
                        cause,
                    }));
                }
                Err(Stop::OutOfMemory) => return Err(Stop::OutOfMemory),
            }
        }
        number += 1;
        rest = more;
    }
    Ok(lines)
}
