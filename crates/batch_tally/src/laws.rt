//! Laws of tallying and of accounting. Each is the contract of a function that only cites the laws below it.
ghost use Rattle.std.specs.Prelude.{◌≡◌, ℕ, List};
ghost use Rattle.explorer_model.specs.declared.archive.Batch.{Batch};
ghost use Rattle.explorer_model.specs.declared.archive.Classes.{Classes};
ghost use Rattle.explorer_model.specs.declared.archive.Game.{Game};
ghost use Rattle.explorer_model.specs.declared.archive.Placed.{Placed};
ghost use Rattle.explorer_model.specs.declared.fault.Refusal.{Refusal};
ghost use Rattle.explorer_model.specs.Cuts.{Cut};
ghost use Rattle.explorer_model.specs.Labels.{no_label};
ghost use Rattle.explorer_model.specs.Imports.{Accounted, AccountedApart};
ghost use Rattle.batch_tally.specs.declared.tallying.Tallying.{Tallying};
ghost use Rattle.batch_tally.specs.Tallying.{IsTallying};
ghost use Rattle.tally_rows.specs.declared.row.Row.{Row};
ghost use Rattle.tally_rows.specs.Tally.{IsTallyOf};

use game_replay::laws::game_is_determined;
use legal_moves::laws::tidy_forms_decide_same;
use tally_rows::laws::tallied_rows_are_determined;

/// Texts have one tallying, however many workers there are: any two answers for the same texts are equal.
pub fn tallying_is_determined()
    ensures places { (texts : List Placed) (tallying other : Tallying) → IsTallying texts tallying
        → IsTallying texts other
        → tallying.places.items ≡ other.places.items }
    ensures refused { (texts : List Placed) (tallying other : Tallying) → IsTallying texts tallying
        → IsTallying texts other
        → tallying.refused.items ≡ other.refused.items }
    ensures tally { (texts : List Placed) (tallying other : Tallying) → IsTallying texts tallying
        → IsTallying texts other
        → tallying.tally ≡ other.tally }
{
    game_is_determined();
    tidy_forms_decide_same();
    explorer_model::laws::same_is_an_equivalence();
    tallied_rows_are_determined();
}

/// Texts have one tally: what their tags say, and the rows that count their games.
pub fn tallies_are_determined()
    ensures classes { (texts : List (List ℕ)) (classes others : List Classes)
        (rows other_rows : List Row) → IsTallyOf texts classes rows
        → IsTallyOf texts others other_rows → classes ≡ others }
    ensures rows { (texts : List (List ℕ)) (classes others : List Classes)
        (rows other_rows : List Row) → IsTallyOf texts classes rows
        → IsTallyOf texts others other_rows → rows ≡ other_rows }
{
    game_is_determined();
    tidy_forms_decide_same();
    explorer_model::laws::same_is_an_equivalence();
    tallied_rows_are_determined();
}

/// Groups behind stored games have one accounting: what is stored of them, and what is refused.
pub fn accounting_is_determined()
    ensures batches { (stored : List Game) (groups : List (List Cut)) (batches others : List Batch)
        (refused other : List Refusal) → Accounted no_label stored groups batches refused
        → Accounted no_label stored groups others other → batches ≡ others }
    ensures refused { (stored : List Game) (groups : List (List Cut)) (batches others : List Batch)
        (refused other : List Refusal) → Accounted no_label stored groups batches refused
        → Accounted no_label stored groups others other → refused ≡ other }
{
    game_is_determined();
}

/// So have groups that are accounted each by itself.
pub fn accounting_apart_is_determined()
    ensures batches { (groups : List (List Cut)) (batches others : List Batch)
        (refused other : List Refusal)
        → AccountedApart no_label groups batches refused
        → AccountedApart no_label groups others other → batches ≡ others }
    ensures refused { (groups : List (List Cut)) (batches others : List Batch)
        (refused other : List Refusal)
        → AccountedApart no_label groups batches refused
        → AccountedApart no_label groups others other → refused ≡ other }
{
    game_is_determined();
}
