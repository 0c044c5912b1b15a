//! The words of a move text.
ghost use Rattle.std.specs.Prelude.{◌≡◌, ◌≤◌, length};
ghost use Rattle.std.specs.Char.{is_ascii_digit};
ghost use Rattle.std.specs.List.{prefix_len};
ghost use Rattle.explorer_model.specs.Chess.{start};
ghost use Rattle.explorer_model.specs.Openings.{Leads, is_period, without_number, words_of};

use crate::pieces::split_piece;
use legal_moves::board::Board;
use san_codec::read_on;

/// How many words the text has.
pub fn count_words(text: &[u8]) -> usize
    ensures { result ≡ length (words_of text.now) }
{
    let mut count = 0;
    let mut rest = Some(text);
    while let Some(text) = rest {
        let (piece, more) = split_piece(text, b' ');
        if !without_number(piece).is_empty() {
            count += 1;
        }
        rest = more;
    }
    count
}

/// The board that the words lead to from the start, or None where one is no move in its turn.
pub fn play_words(text: &[u8]) -> Option<Board>
    ensures { Leads start (words_of text.now) result }
{
    let mut board = Board::start();
    let mut rest = Some(text);
    while let Some(text) = rest {
        let (piece, more) = split_piece(text, b' ');
        let word = without_number(piece);
        if !word.is_empty() {
            let Ok(step) = read_on(word, &board) else {
                return None;
            };
            board.play_on(step);
        }
        rest = more;
    }
    Some(board)
}

/// The word without the digits and periods that it begins with, where it has both.
#[tactic(auto, unfolding(explorer_model::specs::Openings::without_number))]
fn without_number(word: &[u8]) -> &[u8]
    ensures { result.now ≡ without_number word.now }
{
    let digits = count_digits(word);
    let rest = &word[digits..];
    let periods = count_periods(rest);
    if digits == 0 || periods == 0 {
        return word;
    }
    &rest[periods..]
}

/// How many digits the word begins with.
fn count_digits(word: &[u8]) -> usize
    ensures count { result ≡ prefix_len is_ascii_digit word.now }
    ensures within { result ≤ length word.now }
{
    for (at, byte) in word.iter().enumerate() {
        if !is_digit(*byte) {
            return at;
        }
    }
    word.len()
}

fn is_digit(byte: u8) -> bool
    ensures { result ≡ is_ascii_digit byte }
{
    byte.is_ascii_digit()
}

/// How many periods the word begins with.
fn count_periods(word: &[u8]) -> usize
    ensures count { result ≡ prefix_len is_period word.now }
    ensures within { result ≤ length word.now }
{
    for (at, byte) in word.iter().enumerate() {
        if !is_period(*byte) {
            return at;
        }
    }
    word.len()
}

fn is_period(byte: u8) -> bool
    ensures { result ≡ is_period byte }
{
    byte == b'.'
}
