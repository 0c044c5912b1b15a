//! A text with what its tags say.
ghost use Rattle.std.specs.Prelude.{◌≡◌, ◌≤◌, length, IfOk};
ghost use Rattle.std.specs.List.{All};
ghost use Rattle.std.specs.Result.{result_map_both};
ghost use Rattle.explorer_model.specs.declared.fault.GameFault.TheVariants.{Lex, Tag};
ghost use Rattle.explorer_model.specs.Classes.{classes};
ghost use Rattle.explorer_model.specs.Games.{tagged};
ghost use Rattle.explorer_model.specs.Parts.{parts};
ghost use Rattle.explorer_model.specs.Stop.{Gives, GivesBy};
ghost use Rattle.pgn_lex.specs.Spanned.{spanned_as};
ghost use Rattle.pgn_lex.specs.Span.{IsWithin};
ghost use Rattle.game_replay.specs.Replay.{tagged_as};

use explorer_model::archive::{Classes, Tags};
use explorer_model::fault::{GameFault, Stop};
use game_classes::classes;
use pgn_lex::{SpannedParts, spanned_parts};
use std::alloc::Global;

/// The parts of a text, and the classes that its tags tell.
#[derive(Debug, Drop)]
pub struct TaggedText {
    pub spanned: SpannedParts,
    pub classes: Classes,
}

/// The parts and the classes of a text, or the first fault of its layout or its tags.
#[tactic(auto, unfolding(explorer_model::specs::Games::tagged))]
pub fn tagged_text(alloc: Global, text: &[u8]) -> Result<TaggedText, Stop<GameFault>>
    requires { length text.now ≤ 65536 }
    ensures tagged { GivesBy (tagged_as text.now) result (tagged text.now) }
    ensures within { IfOk result
        (λ tagged. All (IsWithin (length text.now)) tagged.spanned.spans.items) }
{
    let spanned = spanned_parts_of(alloc, text)?;
    let classes = classes_of(alloc, &spanned.tags)?;
    Ok(TaggedText { spanned, classes })
}

fn spanned_parts_of(alloc: Global, text: &[u8]) -> Result<SpannedParts, Stop<GameFault>>
    requires { length text.now ≤ 65536 }
    ensures parts { GivesBy (spanned_as text.now) result
        (result_map_both (λ parts. parts) (λ fault. Lex fault.place) (parts text.now)) }
    ensures within { IfOk result
        (λ spanned. All (IsWithin (length text.now)) spanned.spans.items) }
{
    match spanned_parts(alloc, text) {
        Ok(spanned) => Ok(spanned),
        Err(Stop::Fault(fault)) => Err(Stop::Fault(GameFault::Lex { place: fault.place })),
        Err(Stop::OutOfMemory) => Err(Stop::OutOfMemory),
    }
}

fn classes_of(alloc: Global, tags: &Tags) -> Result<Classes, Stop<GameFault>>
    ensures { Gives result (result_map_both (λ classes. classes) Tag (classes tags.now)) }
{
    match classes(alloc, tags) {
        Ok(classes) => Ok(classes),
        Err(Stop::Fault(fault)) => Err(Stop::Fault(GameFault::Tag(fault))),
        Err(Stop::OutOfMemory) => Err(Stop::OutOfMemory),
    }
}
