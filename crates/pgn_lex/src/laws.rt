//! What the definitions of items and parts keep, of every text.

ghost use Rattle.std.specs.Prelude.{◌≡◌, ◌<◌, ℕ, List, Option, Ok, length, flat_map, IfOk, IfErr};
ghost use Rattle.std.specs.List.{All, AllByRecursion};
ghost use Rattle.explorer_model.specs.declared.archive.Ending.{Ending as AnEnding};
ghost use Rattle.explorer_model.specs.declared.archive.Tag.{Tag as ATag};
ghost use Rattle.explorer_model.specs.Items.{items};
ghost use Rattle.explorer_model.specs.Parts.{parts};
ghost use Rattle.pgn_lex.specs.Export.{IsPlainTag, IsPlainWord, export_parts, export_text};
ghost use Rattle.pgn_lex.specs.Laws.{StandInARow, StandApart, IsWordAt, words_outside};

/// The items' texts, joined, are the text: no byte is left out, and none belongs to two items.
pub fn items_join_to_the_text()
    ensures { (text : List ℕ) → flat_map (λ item. item.text) (items text) ≡ text }
{}

/// Each item has a byte or more, and stands where the items before it end.
pub fn items_stand_in_a_row()
    ensures { (text : List ℕ) → StandInARow text 0 (items text) }
{}

/// Each token's text stands in the text at its place, behind the tokens before it.
pub fn tokens_stand_apart()
    ensures { (text : List ℕ) → IfOk (parts text) (λ found. StandApart text 0 found.tokens) }
{}

/// Each token is the longest symbol that begins at its place, and neither a number nor a
/// termination. To the left it need not be longest: behind the digits of a NAG a token may begin.
pub fn tokens_are_longest_symbols()
    ensures { (text : List ℕ) → IfOk (parts text) (λ found. All (IsWordAt text) found.tokens) }
{}

/// The tokens are the words that stand in no variation, in their order: none is lost.
pub fn tokens_are_the_words_outside_variations()
    ensures { (text : List ℕ)
        → IfOk (parts text) (λ found. found.tokens ≡ words_outside 0 (items text)) }
{}

/// A fault's place is that of a byte of the text.
pub fn faults_stand_in_the_text()
    ensures { (text : List ℕ) → IfErr (parts text) (λ fault. fault.place < length text) }
{}

/// What is written out plainly is read back: the tags, the words of the movetext, each at its place,
/// and the termination.
pub fn exported_is_read()
    ensures { (tags : List ATag) (words : List (List ℕ)) (ending : Option AnEnding)
        → AllByRecursion IsPlainTag tags → AllByRecursion IsPlainWord words
        → parts (export_text tags words ending) ≡ Ok (export_parts tags words ending) }
{}
