//! Rows of one game.
ghost use Rattle.std.specs.Prelude.{◌≡◌, ◌<◌, ◌^◌, ◌∷◌, ◌↔◌, List, IfSome, IsSome, Some, IsTrue, cond};
ghost use Rattle.best_lists.specs.declared.entry.Entry.{Entry};
ghost use Rattle.explorer_model.specs.declared.archive.Outcome.{Outcome};
ghost use Rattle.tally_rows.specs.declared.single.Single.{Single};
ghost use Rattle.tally_rows.specs.Row.{row_of, is_white, is_draw, is_black};

use best_lists::Entry;
use explorer_model::archive::Outcome;
use tally_rows::{Row, Single};

/// The game of a row that counts one game, as its lists and sums say it, or None where the row is
/// of no one game.
pub fn single_in(row: &Row) -> Option<Single>
    ensures game { IfSome result (λ single. row.now ≡ row_of single) }
    ensures some { (single : Single) → single.rating < 2 ^ 16 → row.now ≡ row_of single
        → IsSome result }
{
    let outcome = outcome_in(row.white, row.draws, row.black)?;
    let (sum, number) = listed_in(row.top.entries());
    let rating = u16::try_from(row.ratings).ok()?;
    let single = Single {
        row_key: row.row_key(),
        number,
        outcome,
        rating,
        sum,
    };
    if has_counts_of(&Row::of(&single), row) {
        Some(single)
    } else {
        None
    }
}

/// How one game ended, by the three counts.
fn outcome_in(white: u32, draws: u32, black: u32) -> Option<Outcome>
    ensures { (outcome : Outcome) → white ≡ cond (is_white outcome) 1 0
        → draws ≡ cond (is_draw outcome) 1 0 → black ≡ cond (is_black outcome) 1 0
        → result ≡ Some outcome }
{
    match (white, draws, black) {
        (1, 0, 0) => Some(Outcome::White),
        (0, 1, 0) => Some(Outcome::Draw),
        (0, 0, 1) => Some(Outcome::Black),
        _ => None,
    }
}

/// The rank and the number of the first entry.
fn listed_in(entries: &[Entry]) -> (u32, u32)
    ensures { (entry : Entry) (more : List Entry) → entries.now ≡ entry ∷ more
        → result ≡ (entry.rank, entry.number) }
{
    match entries.first() {
        Some(entry) => (entry.rank, entry.number),
        None => (0, 0),
    }
}

/// Whether both rows have the same counts and lists.
fn has_counts_of(a: &Row, b: &Row) -> bool
    ensures white { IsTrue result → a.now.white ≡ b.now.white }
    ensures draws { IsTrue result → a.now.draws ≡ b.now.draws }
    ensures black { IsTrue result → a.now.black ≡ b.now.black }
    ensures ratings { IsTrue result → a.now.ratings ≡ b.now.ratings }
    ensures top { IsTrue result → a.now.top ≡ b.now.top }
    ensures recent { IsTrue result → a.now.recent ≡ b.now.recent }
    ensures all { a.now ≡ b.now → IsTrue result }
{
    a.white == b.white
        && a.draws == b.draws
        && a.black == b.black
        && a.ratings == b.ratings
        && have_same_entries(a.top.entries(), b.top.entries())
        && have_same_entries(a.recent.entries(), b.recent.entries())
}

/// Whether both lists have the same entries.
fn have_same_entries(a: &[Entry], b: &[Entry]) -> bool
    ensures { IsTrue result ↔ a.now ≡ b.now }
{
    a == b
}
