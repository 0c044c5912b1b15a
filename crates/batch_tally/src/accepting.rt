//! Which texts of a group are accepted, and why the others are refused.
ghost use Rattle.std.specs.Prelude.{◌≡◌, ◌<◌, [], map, find, option_map, IfOk};
ghost use Rattle.std.specs.List.{All};
ghost use Rattle.explorer_model.specs.Imports.{has_id_of, verdicts, verdict_of, candidates, refusals};
ghost use Rattle.batch_tally.specs.Accepting.{candidate_as, verdict_as, HasCountIfAccepted, IsCounted, id_word_of};
ghost use Rattle.batch_tally.specs.Marks.{id_mark_of, AreIdsMarked};
ghost use Rattle.tally_rows.specs.SortEntry.{spelled};
ghost use Rattle.batch_tally.specs.Reading.{HasCount, examination_as};

use crate::kept_game::KeptGame;
use crate::reading::Reading;
use crate::singles::Count;
use explorer_model::archive::{Bytes, GameId};
use explorer_model::fault::{Refusal, Why};
use std::alloc::{AllocError, Global};
use tally_rows::word_at;

/// A text with its game, whose id no text before it in its group has.
#[derive(Drop)]
pub struct Accepted {
    /// The offset of the text in its stream.
    pub place: u64,
    pub text: Bytes,
    pub game: KeptGame,
    pub count: Count,
}

/// What becomes of one text.
#[derive(Drop)]
pub enum Verdict {
    Accepted(Accepted),
    Refused(Refusal),
}

/// What becomes of the texts of a group, in their order.
#[derive(Drop)]
pub struct Accepting {
    pub accepted: Vec<Accepted>,
    pub refused: Vec<Refusal>,
}

/// Accepts each text that has a game, but for those whose id an accepted text before it has.
pub fn accept(alloc: Global, readings: Vec<Reading>) -> Result<Accepting, AllocError>
    requires { All HasCount readings.items }
    ensures counted { IfOk result (λ group. All IsCounted group.accepted.items) }
    ensures accepted { IfOk result (λ group. map candidate_as group.accepted.items
        ≡ candidates (verdicts (map examination_as readings.items))) }
    ensures refused { IfOk result (λ group. group.refused.items
        ≡ refusals (verdicts (map examination_as readings.items))) }
{
    let mut accepted = Vec::with_capacity(alloc, readings.len())?;
    let mut words = Vec::with_capacity(alloc, readings.len())?;
    let mut marks = [false; 4096];
    let mut refused = Vec::new(alloc);
    for reading in readings {
        match judge(accepted.as_slice(), words.as_slice(), &marks, reading) {
            Verdict::Accepted(candidate) => {
                let word = id_word(&candidate.game);
                marks[id_mark_of(word)] = true;
                words.push(word)?;
                accepted.push(candidate)?;
            }
            Verdict::Refused(refusal) => refused.push(refusal)?,
        }
    }
    Ok(Accepting { accepted, refused })
}

/// What becomes of a text behind those that are accepted, whose ids these words are, and whose marks are set.
fn judge(accepted: &[Accepted], words: &[u64], marks: &[bool; 4096], reading: Reading) -> Verdict
    requires counted { HasCount reading }
    requires words { words.now ≡ map id_word_of accepted.now }
    requires marks { AreIdsMarked marks.now words.now }
    ensures verdict { verdict_as result
        ≡ verdict_of (map candidate_as accepted.now) (examination_as reading) }
    ensures counted { HasCountIfAccepted result }
{
    let Reading {
        place,
        text,
        game,
        count,
    } = reading;
    let game = match game {
        Ok(game) => game,
        Err(fault) => {
            return Verdict::Refused(Refusal {
                place,
                why: Why::Game(fault),
            });
        }
    };
    match place_of_id(accepted, words, marks, &game) {
        Some(first) => Verdict::Refused(Refusal {
            place,
            why: Why::Twice { first },
        }),
        None => Verdict::Accepted(Accepted {
            place,
            text,
            game,
            count,
        }),
    }
}

/// The place of the first accepted text that has the id of the game. Of most there is none, as the
/// mark of the id tells.
fn place_of_id(
    accepted: &[Accepted],
    words: &[u64],
    marks: &[bool; 4096],
    game: &KeptGame,
) -> Option<u64>
    requires words { words.now ≡ map id_word_of accepted.now }
    requires marks { AreIdsMarked marks.now words.now }
    ensures { result
        ≡ option_map (λ candidate. candidate.place)
        (find (has_id_of game.now) (map candidate_as accepted.now)) }
{
    let word = id_word(game);
    if !marks[id_mark_of(word)] {
        return None;
    }
    place_among(accepted, words, game, word)
}

/// The place of the first accepted text that has the id of the game, which this word is of.
fn place_among(accepted: &[Accepted], words: &[u64], game: &KeptGame, word: u64) -> Option<u64>
    requires words { words.now ≡ map id_word_of accepted.now }
    requires word { word ≡ spelled game.now.classes.id.bytes 0 8 }
    ensures { result
        ≡ option_map (λ candidate. candidate.place)
        (find (has_id_of game.now) (map candidate_as accepted.now)) }
{
    for place in 0..accepted.len() {
        let text = &accepted[place];
        if has_id(text, words[place], game, word) {
            return Some(text.place);
        }
    }
    None
}

/// Have the text and the game one id? These words are those of their ids.
fn has_id(text: &Accepted, of: u64, game: &KeptGame, word: u64) -> bool
    requires of { of ≡ id_word_of text.now }
    requires word { word ≡ spelled game.now.classes.id.bytes 0 8 }
    ensures { result ≡ has_id_of game.now (candidate_as text.now) }
{
    if of != word {
        return false;
    }
    text.game.classes().id == game.classes().id
}

/// The number that the bytes of a game's id spell.
fn id_word(game: &KeptGame) -> u64
    ensures { result ≡ spelled game.now.classes.id.bytes 0 8 }
{
    word_at(&game.classes().id.bytes, 0)
}

/// The mark of an id by its word. The multiplier, 2 to the 64 by the golden ratio, spreads words.
fn id_mark_of(word: u64) -> usize
    ensures value { result ≡ id_mark_of word }
    ensures small { result < 4096 }
{
    (word.wrapping_mul(0x9E37_79B9_7F4A_7C15) / 0x0010_0000_0000_0000) as usize
}
