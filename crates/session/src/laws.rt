//! Laws of what a connection comes to. Each is the contract of a function that has nothing to do or
//! only cites the laws below it.
ghost use Rattle.std.specs.Prelude.{◌≡◌, ◌⊎◌, ◌≤◌, ◌+◌, ℕ, List, [], Ok, Option};
ghost use Rattle.std.specs.List.{AllByRecursion, Contains};
ghost use Rattle.explorer_model.specs.declared.archive.Batch.{Batch};
ghost use Rattle.explorer_model.specs.declared.player.PlayerQuery.{PlayerQuery};
ghost use Rattle.explorer_model.specs.declared.query.Query.{Query};
ghost use Rattle.explorer_model.specs.declared.wire.Reply.{Reply};
ghost use Rattle.explorer_model.specs.Openings.{NamedPosition};
ghost use Rattle.explorer_model.specs.Players.{PlayerQueryReads};
ghost use Rattle.explorer_model.specs.Query.{QueryReads};
ghost use Rattle.explorer_model.specs.Replies.{IsFoundIn, IsNamedFoundIn};
ghost use Rattle.ingest_desk.specs.declared.report.ImportCall.{ImportCall};
ghost use Rattle.outside.specs.Stream.{Stream};
ghost use Rattle.session.specs.declared.serving.Ended.{Ended};
ghost use Rattle.session.specs.Exchanges.{Backend, Exchange, GrantsImport, Moment, AreExchanges};
ghost use Rattle.session.specs.Laws.{AscendFrom, IsAllAnswered, IsAnswered, IsDrawnAmong, IsOverFront, IsPlayerAnswered, IsStored};
ghost use Rattle.session.specs.Laws.{IsTold, NoneRose, numbers, unread_in};
ghost use Rattle.session.specs.Replies.{AnswersPlayerQuery, AnswersQuery, Offer, Readings, route_of};
ghost use Rattle.session.specs.Serving.{Served};

use answer_json::laws::an_empty_book_names_nothing;
use lookup::laws::answers_are_determined;
use opening_names::laws::naming_is_determined;
use player_lookup::laws::answers_are_determined as player_answers_are_determined;
use query_params::laws::{player_query_is_determined, query_is_determined};

/// Each answer is over the first batches of what the pass has seen in the end, as many as its
/// number says. The numbers of replies do not fall, and the first is no less than what the pass had
/// seen before. No more replies say that the journal could not be read than readings were not
/// given.
pub fn answers_are_over_fronts()
    ensures fronts { (offer : Offer) (journal : List Batch) (before after : Moment)
        (exchanges : List Exchange)
        → AreExchanges offer journal before exchanges after
        → AllByRecursion
        (λ x. IsOverFront offer.book journal (route_of offer x.asked) x.reply) exchanges }
    ensures numbers { (offer : Offer) (journal : List Batch) (before after : Moment)
        (exchanges : List Exchange)
        → AreExchanges offer journal before exchanges after
        → AscendFrom before.seen (numbers exchanges) }
    ensures unread { (offer : Offer) (journal : List Batch) (before after : Moment)
        (exchanges : List Exchange)
        → AreExchanges offer journal before exchanges after
        → before.readings.unread + unread_in exchanges ≤ after.readings.unread }
{}

/// Each place that the drawer of an importer has drawn once some exchanges are over, it had drawn
/// before, or it was drawn for one of them, which is an import.
pub fn what_is_drawn_is_imported()
    ensures { (offer : Offer) (journal : List Batch) (before after : Moment)
        (exchanges : List Exchange) (place : ℕ)
        → AreExchanges offer journal before exchanges after
        → Contains after.drawing.drawn place
        → Contains before.drawing.drawn place ⊎ IsDrawnAmong offer place journal exchanges }
{}

/// Each request and refusal in the bytes that were taken is answered, unless there was no memory
/// for the last of them, or the replies could not be written.
pub fn all_that_is_asked_is_answered()
    ensures { (offer : Offer) (link link' : Stream) (before after : Backend) (ended : Ended)
        (served : Served offer link before ended link' after)
        → IsAllAnswered ended served.taken served.exchanges }
{}

/// A query string has one answer over a journal by a book, where the journal could be read and
/// memory was there, and so has one for a player's games.
pub fn replies_are_determined()
    ensures queries { (book : List NamedPosition) (text : List ℕ) (journal : List Batch)
        (before after later : Readings) (reply other : Reply) → IsTold reply → IsTold other
        → AnswersQuery book text journal before after reply
        → AnswersQuery book text journal before later other → reply ≡ other }
    ensures players { (book : List NamedPosition) (text : List ℕ) (journal : List Batch)
        (before after later : Readings) (reply other : Reply) → IsTold reply → IsTold other
        → AnswersPlayerQuery book text journal before after reply
        → AnswersPlayerQuery book text journal before later other → reply ≡ other }
{
    query_is_determined();
    answers_are_determined();
    naming_is_determined();
    player_query_is_determined();
    player_answers_are_determined();
}

/// By a book without a line an answer is what it is where no opening is known.
pub fn an_empty_book_changes_no_answer()
    ensures plain { (text : List ℕ) (journal : List Batch) (batches : ℕ) (body : List ℕ)
        → IsNamedFoundIn [] text journal batches body → IsFoundIn text journal batches body }
    ensures named { (text : List ℕ) (journal : List Batch) (batches : ℕ) (body : List ℕ)
        → IsFoundIn text journal batches body → IsNamedFoundIn [] text journal batches body }
{
    an_empty_book_names_nothing();
}

/// A query that is accepted is answered with what is found, unless memory was wanting or a reading
/// was not given, which the pass counts. So is one for a player's games.
pub fn accepted_queries_are_answered()
    ensures queries { (book : List NamedPosition) (text : List ℕ) (query : Query) (journal : List Batch)
        (before after : Readings) (reply : Reply) → QueryReads text (Ok query)
        → AnswersQuery book text journal before after reply
        → IsAnswered book text journal before after reply }
    ensures players { (book : List NamedPosition) (text : List ℕ) (query : PlayerQuery)
        (journal : List Batch) (before after : Readings) (reply : Reply)
        → PlayerQueryReads text (Ok query)
        → AnswersPlayerQuery book text journal before after reply
        → IsPlayerAnswered book text journal before after reply }
{
    query_is_determined();
    player_query_is_determined();
}

/// A body during whose import no count of the importer rose is stored, unless memory was wanting.
pub fn imports_without_faults_are_stored()
    ensures { (body : List ℕ) (journal : List Batch) (before after : Moment)
        (call : Option ImportCall) (reply : Reply)
        → GrantsImport body journal before after call reply
        → NoneRose before.counts after.counts → IsStored body journal reply }
{}
