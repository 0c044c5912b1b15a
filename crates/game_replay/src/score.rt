//! A game before its moves are played.
ghost use Rattle.std.specs.Prelude.{◌≡◌, ◌≤◌, ℕ, List, length, IfOk};
ghost use Rattle.std.specs.List.{All};
ghost use Rattle.explorer_model.specs.Classes.{start_text};
ghost use Rattle.explorer_model.specs.Games.{RootReads, ends_with, score};
ghost use Rattle.explorer_model.specs.Stop.{Answers, GivesBy};
ghost use Rattle.pgn_lex.specs.Span.{IsWithin};
ghost use Rattle.game_replay.specs.Replay.{GivesScore, score_as, tagged_as};

use crate::tagged::{TaggedText, tagged_text};
use explorer_model::archive::{Classes, Ending, Outcome, Tags};
use explorer_model::fault::{GameFault, Stop};
use fen_uci::read_fen;
use game_classes::start_text;
use legal_moves::board::Board;
use pgn_lex::Span;
use std::alloc::Global;

/// The most moves of a game.
const PLY_LIMIT: usize = 1024;

/// What is known of a game before its moves are played: its move tokens are spans of the text.
#[derive(Debug, Drop)]
pub struct Scored {
    pub classes: Classes,
    pub root: Board,
    pub spans: Vec<Span>,
}

/// The classes of a text, the position that it begins in and its move tokens, or the first fault that does not ask
/// what the moves are.
pub fn score(alloc: Global, text: &[u8]) -> Result<Scored, Stop<GameFault>>
    requires { length text.now ≤ 65536 }
    ensures score { GivesScore text.now result }
    ensures few { IfOk result (λ scored. length scored.spans.items ≤ 1024) }
    ensures within { IfOk result
        (λ scored. All (IsWithin (length text.now)) scored.spans.items) }
{
    let tagged = tagged_text(alloc, text)?;
    let root = root_of(&tagged.spanned.tags)?;
    score_of(tagged, root)
}

/// The position that the tag FEN sets up, or the fault of its first faulty field; without such a tag the starting
/// position.
fn root_of(tags: &Tags) -> Result<Board, Stop<GameFault>>
    ensures { Answers result (RootReads (start_text tags.now)) }
{
    let Some(text) = start_text(tags) else {
        return Ok(Board::start());
    };
    match read_fen(text) {
        Ok(board) => Ok(board),
        Err(fault) => Err(Stop::Fault(GameFault::BadSetUp { field: fault.field })),
    }
}

/// The score of a text that says this and begins there, or the first fault that is left to be told.
#[tactic(auto, unfolding(explorer_model::specs::Games::score))]
fn score_of(tagged: TaggedText, root: Board) -> Result<Scored, Stop<GameFault>>
    ensures score { (text : List ℕ)
        → GivesBy (score_as text) result (score (tagged_as text tagged) root) }
    ensures few { IfOk result (λ scored. length scored.spans.items ≤ 1024) }
    ensures spans { IfOk result (λ scored. scored.spans ≡ tagged.spanned.spans) }
{
    let TaggedText { spanned, classes } = tagged;
    let Some(ending) = spanned.termination else {
        return Err(Stop::Fault(GameFault::NoTermination));
    };
    if !ends_with(classes.outcome, ending) {
        return Err(Stop::Fault(GameFault::ResultDiffers));
    }
    if PLY_LIMIT < spanned.spans.len() {
        return Err(Stop::Fault(GameFault::TooManyPlies));
    }
    Ok(Scored {
        classes,
        root,
        spans: spanned.spans,
    })
}

/// The termination says what the tag Result says.
fn ends_with(outcome: Outcome, ending: Ending) -> bool
    ensures { result ≡ ends_with outcome ending }
{
    match (outcome, ending) {
        (Outcome::White, Ending::WhiteWins) => true,
        (Outcome::Black, Ending::BlackWins) => true,
        (Outcome::Draw, Ending::Drawn) => true,
        _ => false,
    }
}
