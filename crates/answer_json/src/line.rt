//! The lines of an answer: one for a move, of all games or of a player's, and one for a month.
ghost use Rattle.std.specs.Prelude.{◌≡◌, ◌++◌, List, Option, IfOk, OnOk, codes, decimal, map};
ghost use Rattle.std.specs.List.{All};
ghost use Rattle.std.specs.Option.{option_copied};
ghost use Rattle.std.specs.Str.{IsAscii};
ghost use Rattle.serde_json.specs.Data.{Data, Items, array, string};
ghost use Rattle.serde_json.specs.View.{view};
ghost use Rattle.serde_json.specs.Written.{compact_text};
ghost use Rattle.explorer_model.specs.Answer.{array_by, move_items, move_value, month_value};
ghost use Rattle.explorer_model.specs.Players.{player_move_items, player_move_value};
ghost use Rattle.explorer_model.specs.Uci.{uci_text};
ghost use Rattle.explorer_model.specs.declared.opening.Opening.{Opening};
ghost use Rattle.answer_json.specs.Items.{items_with, move_items-are, player_move_items-are};
ghost use Rattle.answer_json.specs.Plain.{IsPlainLine, IsPlainPlayerLine};

use crate::game::push_game;
use crate::opening::{opening_at, push_opening};
use crate::pieces::{push_count, push_text, push_value};
use crate::texts::{month_text, text_of};
use explorer_model::answer::{MonthLine, MoveLine, Totals};
use explorer_model::chess::Move;
use explorer_model::opening::Opening;
use explorer_model::player::PlayerLine;
use fen_uci::write_uci;
use serde_json::{Value, json};
use std::alloc::{AllocError, Global};

/// A line of an answer that is about a move, and is written with the opening of that move.
pub trait LineOfMove {
    ghost is_plain: { Self → Type 0 };

    ghost value: { Self → Option Opening → Data };

    ghost items: { List Self → List (Option Opening) → Items };

    /// Writes what stands before the line, and the line, with null where there is no opening.
    fn push_with(
        &self,
        alloc: Global,
        body: &mut Vec<u8>,
        before: &[u8],
        opening: Option<&Opening>,
    ) -> Result<(), AllocError>
        requires { is_plain self.now }
        ensures { OnOk result (body.new.items ≡ body.old.items
            ++ (before.now ++ compact_text (value self.now (option_copied opening.entry)))) };

    ghost items_are: { (lines : List Self) (openings : List (Option Opening))
        → items lines openings ≡ items_with value lines openings };
}

impl LineOfMove for MoveLine {
    ghost is_plain = { IsPlainLine };

    ghost value = { move_value };

    ghost items = { move_items };

    ghost items_are = { move_items-are };

    fn push_with(
        &self,
        alloc: Global,
        body: &mut Vec<u8>,
        before: &[u8],
        opening: Option<&Opening>,
    ) -> Result<(), AllocError> {
        body.extend_from_slice(before)?;
        push_counts(body, b"{\"averageRating\":", self.average, &self.totals)?;
        push_game(alloc, body, self.game.as_ref())?;
        push_opening(alloc, body, opening)?;
        push_play(alloc, body, self.san.as_slice(), self.next)?;
        push_count(body, b",\"white\":", self.totals.white)?;
        body.push(b'}')?;
        Ok(())
    }
}

impl LineOfMove for PlayerLine {
    ghost is_plain = { IsPlainPlayerLine };

    ghost value = { player_move_value };

    ghost items = { player_move_items };

    ghost items_are = { player_move_items-are };

    fn push_with(
        &self,
        alloc: Global,
        body: &mut Vec<u8>,
        before: &[u8],
        opening: Option<&Opening>,
    ) -> Result<(), AllocError> {
        body.extend_from_slice(before)?;
        push_counts(
            body,
            b"{\"averageOpponentRating\":",
            self.average,
            &self.totals,
        )?;
        push_game(alloc, body, self.game.as_ref())?;
        push_opening(alloc, body, opening)?;
        push_play(alloc, body, self.san.as_slice(), self.next)?;
        push_count(body, b",\"white\":", self.totals.white)?;
        body.push(b'}')?;
        Ok(())
    }
}

/// Writes the average behind its name, and the first of the counts.
fn push_counts(
    body: &mut Vec<u8>,
    before: &[u8],
    average: u32,
    totals: &Totals,
) -> Result<(), AllocError>
    ensures { OnOk result (body.new.items ≡ body.old.items ++ (before.now ++ decimal average
        ++ codes ",\"black\":" ++ decimal totals.now.black
        ++ codes ",\"draws\":" ++ decimal totals.now.draws)) }
{
    push_count(body, before, u64::from(average))?;
    push_count(body, b",\"black\":", totals.black)?;
    push_count(body, b",\"draws\":", totals.draws)
}

/// Writes the move in both notations.
fn push_play(alloc: Global, body: &mut Vec<u8>, san: &[u8], next: Move) -> Result<(), AllocError>
    requires { IsAscii san.now }
    ensures { OnOk result (body.new.items ≡ body.old.items
        ++ (codes ",\"san\":" ++ compact_text (string san.now)
        ++ codes ",\"uci\":" ++ compact_text (string (uci_text next)))) }
{
    let uci = write_uci(next);
    push_text(alloc, body, b",\"san\":", text_of(san))?;
    push_text(alloc, body, b",\"uci\":", text_of(uci.as_slice()))
}

/// Writes the lines as an array, each with its opening; a line that the openings do not reach has
/// none.
pub fn push_moves<L: LineOfMove>(
    alloc: Global,
    body: &mut Vec<u8>,
    lines: &[L],
    openings: &[Option<&Opening>],
) -> Result<(), AllocError>
    requires { All L.is_plain lines.now }
    ensures { OnOk result (body.new.items ≡ body.old.items
        ++ compact_text (array (L.items lines.now (map option_copied openings.now)))) }
{
    body.push(b'[')?;
    let mut comma: &[u8] = b"";
    for (place, line) in lines.iter().enumerate() {
        line.push_with(alloc, body, comma, opening_at(openings, place))?;
        comma = b",";
    }
    body.push(b']')?;
    Ok(())
}

fn month_value(alloc: Global, line: &MonthLine) -> Result<Value, AllocError>
    ensures { IfOk result (λ value. view value ≡ month_value line.now) }
{
    let month = month_text(line.month);
    json!(in alloc; {
        "black": line.totals.black,
        "draws": line.totals.draws,
        "month": text_of(&month),
        "white": line.totals.white
    })
}

/// Writes the months as an array, one after another, since there may be many.
pub fn push_months(alloc: Global, body: &mut Vec<u8>, lines: &[MonthLine]) -> Result<(), AllocError>
    ensures { OnOk result (body.new.items
        ≡ body.old.items ++ compact_text (array_by month_value lines.now)) }
{
    body.push(b'[')?;
    let mut comma: &[u8] = b"";
    for line in lines {
        let value = month_value(alloc, line)?;
        push_value(alloc, body, comma, &value)?;
        comma = b",";
    }
    body.push(b']')?;
    Ok(())
}
