//! Laws of what a run promises. Each is the contract of a function that only cites the laws below
//! it.
ghost use Rattle.std.specs.Prelude.{◌≡◌, ◌≢◌, ◌⊎◌, ◌<◌, ◌≤◌, ℕ, List, Option, None, Some, IsSome, length, take};
ghost use Rattle.std.specs.List.{AllByRecursion};
ghost use Rattle.outside.specs.Doors.{Connections};
ghost use Rattle.host.specs.Hosts.{HostState};
ghost use Rattle.explorer_model.specs.Cuts.{Cut};
ghost use Rattle.explorer_model.specs.Imports.{Accounted, AccountedApart};
ghost use Rattle.explorer_model.specs.Journal.{IsSound};
ghost use Rattle.explorer_model.specs.Openings.{NamedPosition};
ghost use Rattle.explorer_model.specs.Replies.{IsNamedFoundIn};
ghost use Rattle.explorer_model.specs.declared.archive.Batch.{Batch};
ghost use Rattle.explorer_model.specs.declared.archive.Game.{Game};
ghost use Rattle.explorer_model.specs.declared.fault.Refusal.{Refusal};
ghost use Rattle.explorer_model.specs.declared.query.Query.{Query};
ghost use Rattle.explorer_model.specs.Players.{IsPlayerFoundIn};
ghost use Rattle.host.specs.Hosts.{HostState};
ghost use Rattle.manifest.specs.Manifest.{HasJournal};
ghost use Rattle.import_run.specs.Ending.{IsCutOff, IsTooMuch};
ghost use Rattle.import_run.specs.SoFar.{AreInGroups};
ghost use Rattle.session.specs.Replies.{Answer, PlayerAnswer};
ghost use Rattle.explorer.specs.Book.{HasBook, StopsAtBook};
ghost use Rattle.explorer.specs.Count.{Answers};
ghost use Rattle.explorer.specs.Create.{CreatesBy};
ghost use Rattle.explorer.specs.Imported.{new_store};
ghost use Rattle.explorer.specs.ImportStore.{ImportsBy};
ghost use Rattle.command_line.specs.Task.{Batches, Create, Import, Migrate, Query as Ask, Trial, task_of};
ghost use Rattle.explorer.specs.Laws.{CountsAtMost, CountsSpills, GoesWell, HasMemory, ImportAlike, IsAnswered, IsDrawnAtDoor, IsDrawnForFile, IsFullIn, IsNoRepeat, IsTold, IsToldErrors, IsToldFile, IsToldOpenings, IsToldOutput, IsToldStore, LacksOpenings, MigratedAlike, OpensWell, ReadsWell, RefusedAlike, ReportsWell, ServedAlike, ServedAlikeBehind, SpilledAlike, SpillsWell, WritesWell, WroteAlike, WroteAlikeButReport, openings_of, serving, with_book, with_workers};
ghost use Rattle.explorer.specs.Lines.{Ending, status_of};
ghost use Rattle.explorer.specs.ListBatches.{ListsBy};
ghost use Rattle.explorer.specs.Migrate.{MigratesBy};
ghost use Rattle.explorer.specs.Query.Spilled.{SpillsBy};
ghost use Rattle.explorer.specs.Query.Store.{AsksBy, QueriesBy};
ghost use Rattle.explorer.specs.Run.{Runs};
ghost use Rattle.explorer.specs.Serve.{GoesOn, Serves};
ghost use Rattle.explorer.specs.Serve.Served.{DoorRun, IsWorked, Service};
ghost use Rattle.explorer.specs.Trial.{TriesBy};
ghost use Rattle.explorer.specs.World.{World, IsFaultless};

use batch_tally::laws::accounting_is_determined;
use game_replay::laws::game_is_determined;
use ingest_desk::laws::opening_is_determined;
use lookup::laws::answers_are_determined;
use opening_names::laws::{book_is_determined, naming_is_determined};
use query_params::laws::query_is_determined;
use sample_games::laws::samples_are_determined;
use session::laws::replies_are_determined;

/// Cuts stand in one way in whole groups and a group in hand.
pub fn groups_are_determined()
    ensures { (ended : List Cut) (whole others : List (List Cut)) (hand other : List Cut)
        → AreInGroups ended whole hand → AreInGroups ended others other
        → (whole ≡ others) × (hand ≡ other) }
{}

/// What an import under a label into a new store has stored and refused that ends early is determined
/// by the bytes that were read, and by the groups of them where one finds no room.
pub fn early_ends_are_determined()
    ensures cut_off { (label stream : List ℕ) (batches others : List Batch)
        (refused other : List Refusal)
        → IsCutOff label new_store stream batches refused
        → IsCutOff label new_store stream others other
        → (batches ≡ others) × (refused ≡ other) }
    ensures too_much { (label stream : List ℕ) (batches others : List Batch)
        (refused other : List Refusal)
        → IsTooMuch label new_store stream batches refused
        → IsTooMuch label new_store stream others other
        → (batches ≡ others) × (refused ≡ other) }
    ensures full { (label : List ℕ) (games bytes games' bytes' : ℕ) (so_far : List (List Cut))
        (batches others : List Batch) (refused other : List Refusal)
        → IsFullIn label games bytes so_far batches refused
        → IsFullIn label games' bytes' so_far others other
        → IsSound batches → IsSound others
        → (games ≡ games') × (bytes ≡ bytes') × (batches ≡ others) × (refused ≡ other) }
{
    game_is_determined();
    accounting_is_determined();
}

/// Where no cut is refused as Repeated, groups behind stored games are accounted as each by itself.
pub fn groups_without_repeats_stand_apart()
    ensures { (label : List ℕ) (stored : List Game) (groups : List (List Cut))
        (batches : List Batch) (refused : List Refusal)
        → Accounted label stored groups batches refused
        → AllByRecursion IsNoRepeat refused → AccountedApart label groups batches refused }
{}

/// A told input has one answer to a query by a book, and one report.
pub fn a_told_input_has_one_answer()
    ensures { (book : List NamedPosition) (query : Query) (before after other : World)
        → IsSome before.input.left
        → (first : Answers book query before after) → (second : Answers book query before other)
        → (first.found ≡ second.found) × (first.naming ≡ second.naming)
        × (first.refused ≡ second.refused) }
{
    accounting_is_determined();
    answers_are_determined();
    naming_is_determined();
}

/// Where the file of openings is told, runs have one book and come to one host by it, or end by one
/// fault of the file and come to the same, where no call fails and memory is there.
pub fn a_book_is_determined()
    ensures book { (openings : Option (List ℕ)) (book other : List NamedPosition)
        (world : World) (read later : HostState) → IsToldOpenings openings world
        → HasBook openings book world.host read → HasBook openings other world.host later
        → (book ≡ other) × (read ≡ later) }
    ensures fault { (openings : Option (List ℕ)) (before after other : World)
        (ending ending' : Ending)
        → IsToldOpenings openings before
        → OpensWell openings before after → OpensWell openings before other
        → status_of ending ≢ 9 → status_of ending' ≢ 9
        → StopsAtBook openings before after ending → StopsAtBook openings before other ending'
        → (ending ≡ ending') × (after ≡ other) }
    ensures either { (openings : Option (List ℕ)) (book : List NamedPosition)
        (before after : World) (read : HostState) (ending : Ending)
        → IsToldOpenings openings before → OpensWell openings before after
        → status_of ending ≢ 9
        → HasBook openings book before.host read
        → StopsAtBook openings before after ending → ⊥ }
{
    book_is_determined();
}

/// Runs of words that ask for a count, or for nothing, over one told input below the bound, and one
/// told file of openings where one is given, have one status, and write the same but for the text
/// that tells of refused words, where memory is there and no call fails. Where a group finds no room,
/// one may go without the report, for which memory was wanting.
pub fn a_run_is_determined()
    ensures { (words : List (List ℕ)) (stream : List ℕ) (before after other : World)
        (status status' : ℕ)
        → CountsAtMost (task_of words) → IsToldOpenings (openings_of (task_of words)) before
        → IsTold stream before → IsFaultless before after → IsFaultless before other
        → OpensWell (openings_of (task_of words)) before after
        → OpensWell (openings_of (task_of words)) before other
        → status ≢ 9 → status' ≢ 9
        → Runs words before after status → Runs words before other status'
        → (status ≡ status')
        × (status ≢ 2 → status ≢ 8 → WroteAlike after other)
        × (status ≡ 8 → WroteAlikeButReport before after other) }
{
    game_is_determined();
    accounting_is_determined();
    answers_are_determined();
    query_is_determined();
    naming_is_determined();
    book_is_determined();
}

/// Runs of `create` over one told disk have one ending, and come to the same, where no call fails and
/// the disk is told still.
pub fn a_creation_is_determined()
    ensures { (store file : List ℕ) (before after other : World) (ending ending' : Ending)
        → IsToldStore store file before → GoesWell before after → GoesWell before other
        → IsSome (after.host.disks store) → IsSome (other.host.disks store)
        → CreatesBy store before after ending → CreatesBy store before other ending'
        → (ending ≡ ending') × (after ≡ other) }
{}

/// Runs of `query` over one told store, and one told file of openings where one is given, have one
/// ending, and come to the same, where no call fails and memory is there.
pub fn a_question_is_determined()
    ensures { (store file text : List ℕ) (openings : Option (List ℕ))
        (before after other : World) (ending ending' : Ending)
        → IsToldStore store file before → IsToldOpenings openings before
        → GoesWell before after → OpensWell openings before after
        → GoesWell before other → OpensWell openings before other
        → status_of ending ≢ 9 → status_of ending' ≢ 9
        → QueriesBy (AsksBy store) text openings before after ending
        → QueriesBy (AsksBy store) text openings before other ending'
        → (ending ≡ ending') × (after ≡ other) }
{
    answers_are_determined();
    opening_is_determined();
    query_is_determined();
    naming_is_determined();
    book_is_determined();
}

/// Runs of `query` through a scratch file over one told store, and one told file of openings where one
/// is given, have one ending, and come to the same but for the scratch file's bytes, where these are
/// told, no call fails and memory is there.
pub fn a_spilled_question_is_determined()
    ensures { (store name file text : List ℕ) (openings : Option (List ℕ))
        (before after other : World) (ending ending' : Ending)
        → IsToldStore store file before → IsToldOpenings openings before
        → CountsSpills before
        → GoesWell before after → OpensWell openings before after → SpillsWell name before after
        → GoesWell before other → OpensWell openings before other → SpillsWell name before other
        → status_of ending ≢ 9 → status_of ending' ≢ 9
        → QueriesBy (SpillsBy store name) text openings before after ending
        → QueriesBy (SpillsBy store name) text openings before other ending'
        → (ending ≡ ending') × SpilledAlike name after other }
{
    answers_are_determined();
    opening_is_determined();
    query_is_determined();
    naming_is_determined();
    book_is_determined();
}

/// Runs of `batches` over one told store have one ending, and come to the same, where no call fails
/// and memory is there.
pub fn a_listing_is_determined()
    ensures { (store file : List ℕ) (before after other : World) (ending ending' : Ending)
        → IsToldStore store file before → GoesWell before after → GoesWell before other
        → status_of ending ≢ 9 → status_of ending' ≢ 9
        → ListsBy store before after ending → ListsBy store before other ending'
        → (ending ≡ ending') × (after ≡ other) }
{
    opening_is_determined();
}

/// Runs of `import` with one text for a label over one told store and one told file below the bound
/// have one ending, and come to the same but for how one journal is held, where no call fails and
/// memory is there.
pub fn an_import_is_determined()
    ensures { (store image file stream label : List ℕ) (before after other : World)
        (ending ending' : Ending)
        → IsToldStore store image before → IsToldFile file stream before
        → IsToldErrors before
        → GoesWell before after → ReadsWell before after → ReportsWell before after
        → GoesWell before other → ReadsWell before other → ReportsWell before other
        → HasMemory (status_of ending) before after
        → HasMemory (status_of ending') before other
        → ImportsBy store file label before after ending
        → ImportsBy store file label before other ending'
        → (ending ≡ ending') × ImportAlike store (status_of ending) after other }
{
    game_is_determined();
    accounting_is_determined();
    opening_is_determined();
}

/// Runs of `migrate` over two told stores, which may be one, have one ending, and come to the same but
/// for how one journal is held, where no call fails and memory is there.
pub fn a_migration_is_determined()
    ensures { (old image new there : List ℕ) (before after other : World)
        (ending ending' : Ending)
        → IsToldStore old image before → before.host.disks new ≡ Some there
        → GoesWell before after → GoesWell before other
        → status_of ending ≢ 9 → status_of ending' ≢ 9
        → MigratesBy old new before after ending → MigratesBy old new before other ending'
        → (ending ≡ ending') × MigratedAlike new after other }
{}

/// A run of `migrate` leaves the bytes of the old store as they were, at every ending, also where both
/// names are one.
pub fn a_migration_keeps_the_old_store()
    ensures { (old new image : List ℕ) (before after : World) (ending : Ending)
        → before.host.disks old ≡ Some image → MigratesBy old new before after ending
        → after.host.disks old ≡ Some image }
{}

/// Runs of `trial` of as many games from one seed have one ending, and come to the same, where no
/// write fails and memory is there.
pub fn a_trial_is_determined()
    ensures { (games seed : ℕ) (before after other : World) (ending ending' : Ending)
        → IsToldOutput before → WritesWell before after → WritesWell before other
        → status_of ending ≢ 9 → status_of ending' ≢ 9
        → TriesBy games seed before after ending → TriesBy games seed before other ending'
        → (ending ≡ ending') × (after ≡ other) }
{
    game_is_determined();
    accounting_is_determined();
    answers_are_determined();
    query_is_determined();
    samples_are_determined();
}

/// Runs of `serve` over one told store, with whatever numbers of workers: those that refuse it end by
/// one fault and come to the same. Where no call fails and memory is there, one refuses it just where
/// the other does, and else both serve the same doors.
pub fn a_serving_is_determined()
    ensures refused { (service : Service) (workers : ℕ) (image : List ℕ)
        (before after other : World) (ending ending' : Ending)
        → IsToldStore service.store image before
        → status_of ending ≡ 7 → status_of ending' ≡ 7
        → Serves service before after ending
        → Serves (with_workers workers service) before other ending'
        → (ending ≡ ending') × RefusedAlike service.store after other }
    ensures either { (service : Service) (workers : ℕ) (image : List ℕ)
        (before after other : World) (ending ending' : Ending)
        → IsToldStore service.store image before
        → GoesWell before other → status_of ending' ≢ 9
        → status_of ending ≡ 7
        → Serves service before after ending
        → Serves (with_workers workers service) before other ending'
        → status_of ending' ≡ 7 }
    ensures served { (service : Service) (workers : ℕ) (image : List ℕ)
        (before after other : World) (ending ending' : Ending)
        → IsToldStore service.store image before
        → GoesWell before after → GoesWell before other
        → status_of ending ≢ 9 → status_of ending' ≢ 9 → status_of ending ≢ 7
        → Serves service before after ending
        → Serves (with_workers workers service) before other ending'
        → (opening : List Batch) × HasJournal opening image
        × ServedAlike service (with_workers workers service) opening before after other }
{
    opening_is_determined();
}

/// What is answered at a door of `serve` to a query string, also to one for a player's games, is over
/// the first batches of the journal of the disk given back, as many as the answer names. Over as many
/// batches that stand in the journals of two runs, or of one, and by one book, it is one thing at
/// whatever door, connection and moment.
pub fn answers_at_doors_agree()
    ensures fronts { (book : List NamedPosition) (text : List ℕ) (batches : ℕ) (body : List ℕ)
        (opening journal : List Batch) (door : Connections) (run : DoorRun)
        → IsAnswered book (Answer text) batches body opening journal door run
        → (batches ≤ length journal)
        × IsNamedFoundIn book text (take batches journal) batches body }
    ensures player_fronts { (book : List NamedPosition) (text : List ℕ) (batches : ℕ)
        (body : List ℕ) (opening journal : List Batch) (door : Connections) (run : DoorRun)
        → IsAnswered book (PlayerAnswer text) batches body opening journal door run
        → (batches ≤ length journal)
        × IsPlayerFoundIn book text (take batches journal) batches body }
    ensures agree { (book : List NamedPosition) (text : List ℕ) (batches : ℕ)
        (body body' : List ℕ) (opening journal opening' journal' : List Batch)
        (door door' : Connections) (run run' : DoorRun)
        → take batches journal ≡ take batches journal'
        → IsAnswered book (Answer text) batches body opening journal door run
        → IsAnswered book (Answer text) batches body' opening' journal' door' run'
        → body ≡ body' }
    ensures player_agree { (book : List NamedPosition) (text : List ℕ) (batches : ℕ)
        (body body' : List ℕ) (opening journal opening' journal' : List Batch)
        (door door' : Connections) (run run' : DoorRun)
        → take batches journal ≡ take batches journal'
        → IsAnswered book (PlayerAnswer text) batches body opening journal door run
        → IsAnswered book (PlayerAnswer text) batches body' opening' journal' door' run'
        → body ≡ body' }
{
    replies_are_determined();
}

/// Nothing is stored over a desk but what was sent: each batch that `serve` stored behind those of the
/// opening stands where the drawer of one file drew, or where one did at a door, for a request that is
/// an import.
pub fn nothing_else_is_stored()
    ensures { (service : Service) (before after : HostState) (worked : IsWorked service before after)
        (goes_on : GoesOn service before after worked) (place : ℕ)
        → length worked.opening ≤ place → place < length goes_on.shared.stored
        → IsDrawnForFile place worked.files
        ⊎ IsDrawnAtDoor service.book place worked.opening goes_on.journal worked.doors }
{}

/// Runs of words that ask for the same, with whatever numbers of workers, have one status and come
/// to the same, as the laws above say of each command, where memory is there and no call fails. Of
/// `serve` that is so where the store is refused; else both serve the same doors, by one book, where
/// the file of openings gives one.
pub fn a_run_of_a_command_is_determined()
    ensures creates { (words words' : List (List ℕ)) (store image : List ℕ)
        (before after other : World) (status status' : ℕ)
        → task_of words ≡ Some (Create store) → task_of words' ≡ Some (Create store)
        → IsToldStore store image before → IsToldErrors before
        → GoesWell before after → ReportsWell before after
        → GoesWell before other → ReportsWell before other
        → IsSome (after.host.disks store) → IsSome (other.host.disks store)
        → status ≢ 9 → status' ≢ 9
        → Runs words before after status → Runs words' before other status'
        → (status ≡ status') × (after ≡ other) }
    ensures asks { (words words' : List (List ℕ)) (store text image : List ℕ)
        (openings : Option (List ℕ))
        (workers workers' : ℕ) (before after other : World) (status status' : ℕ)
        → task_of words ≡ Some (Ask store text workers openings None)
        → task_of words' ≡ Some (Ask store text workers' openings None)
        → IsToldStore store image before → IsToldOpenings openings before
        → IsToldErrors before
        → GoesWell before after → OpensWell openings before after → ReportsWell before after
        → GoesWell before other → OpensWell openings before other → ReportsWell before other
        → status ≢ 9 → status' ≢ 9
        → Runs words before after status → Runs words' before other status'
        → (status ≡ status') × (after ≡ other) }
    ensures spills { (words words' : List (List ℕ)) (store name text image : List ℕ)
        (openings : Option (List ℕ))
        (workers workers' : ℕ) (before after other : World) (status status' : ℕ)
        → task_of words ≡ Some (Ask store text workers openings (Some name))
        → task_of words' ≡ Some (Ask store text workers' openings (Some name))
        → IsToldStore store image before → IsToldOpenings openings before
        → CountsSpills before → IsToldErrors before
        → GoesWell before after → OpensWell openings before after → SpillsWell name before after
        → ReportsWell before after
        → GoesWell before other → OpensWell openings before other → SpillsWell name before other
        → ReportsWell before other
        → status ≢ 9 → status' ≢ 9
        → Runs words before after status → Runs words' before other status'
        → (status ≡ status') × SpilledAlike name after other }
    ensures lists { (words words' : List (List ℕ)) (store image : List ℕ)
        (workers workers' : ℕ) (before after other : World) (status status' : ℕ)
        → task_of words ≡ Some (Batches store workers)
        → task_of words' ≡ Some (Batches store workers')
        → IsToldStore store image before → IsToldErrors before
        → GoesWell before after → ReportsWell before after
        → GoesWell before other → ReportsWell before other
        → status ≢ 9 → status' ≢ 9
        → Runs words before after status → Runs words' before other status'
        → (status ≡ status') × (after ≡ other) }
    ensures imports { (words words' : List (List ℕ)) (store file image stream label : List ℕ)
        (workers workers' : ℕ) (before after other : World) (status status' : ℕ)
        → task_of words ≡ Some (Import store file workers label)
        → task_of words' ≡ Some (Import store file workers' label)
        → IsToldStore store image before → IsToldFile file stream before
        → IsToldErrors before
        → GoesWell before after → ReadsWell before after → ReportsWell before after
        → GoesWell before other → ReadsWell before other → ReportsWell before other
        → HasMemory status before after → HasMemory status' before other
        → Runs words before after status → Runs words' before other status'
        → (status ≡ status') × ImportAlike store status after other }
    ensures migrates { (words words' : List (List ℕ)) (old image new there : List ℕ)
        (before after other : World) (status status' : ℕ)
        → task_of words ≡ Some (Migrate old new) → task_of words' ≡ Some (Migrate old new)
        → IsToldStore old image before → before.host.disks new ≡ Some there
        → IsToldErrors before
        → GoesWell before after → ReportsWell before after
        → GoesWell before other → ReportsWell before other
        → status ≢ 9 → status' ≢ 9
        → Runs words before after status → Runs words' before other status'
        → (status ≡ status') × MigratedAlike new after other }
    ensures tries { (words words' : List (List ℕ)) (games seed workers workers' : ℕ)
        (before after other : World) (status status' : ℕ)
        → task_of words ≡ Some (Trial games seed workers)
        → task_of words' ≡ Some (Trial games seed workers')
        → IsToldOutput before → IsToldErrors before
        → WritesWell before after → ReportsWell before after
        → WritesWell before other → ReportsWell before other
        → status ≢ 9 → status' ≢ 9
        → Runs words before after status → Runs words' before other status'
        → (status ≡ status') × (after ≡ other) }
    ensures refuses { (words words' : List (List ℕ)) (service : Service) (workers : ℕ)
        (openings : Option (List ℕ)) (image : List ℕ)
        (before after other : World) (status status' : ℕ)
        → task_of words ≡ Some (serving openings service)
        → task_of words' ≡ Some (serving openings (with_workers workers service))
        → IsToldStore service.store image before → IsToldOpenings openings before
        → IsToldErrors before → ReportsWell before after
        → GoesWell before other → ReportsWell before other
        → status ≡ 7 → status' ≢ 9
        → Runs words before after status → Runs words' before other status'
        → LacksOpenings openings before other
        ⊎ ((status ≡ status') × RefusedAlike service.store after other) }
    ensures serves { (words words' : List (List ℕ)) (service : Service) (workers : ℕ)
        (openings : Option (List ℕ)) (image : List ℕ)
        (before after other : World) (status status' : ℕ)
        → task_of words ≡ Some (serving openings service)
        → task_of words' ≡ Some (serving openings (with_workers workers service))
        → IsToldStore service.store image before → IsToldOpenings openings before
        → GoesWell before after → GoesWell before other
        → status ≢ 7 → status ≢ 9 → status' ≢ 9
        → Runs words before after status → Runs words' before other status'
        → LacksOpenings openings before after ⊎ (LacksOpenings openings before other
        ⊎ ((book : List NamedPosition) × (read : HostState)
        × HasBook openings book before.host read
        × ServedAlikeBehind (with_book book service) workers image
        (record before { host = read }) after other)) }
{
    game_is_determined();
    accounting_is_determined();
    answers_are_determined();
    opening_is_determined();
    query_is_determined();
    samples_are_determined();
    naming_is_determined();
    book_is_determined();
}
