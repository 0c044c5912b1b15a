//! Answers that were given, kept for whoever asks the same again.
ghost use Rattle.std.specs.Prelude.{◌≡◌, IfOk, IfSome};
ghost use Rattle.session.specs.KeptAnswers.{IsBodyFor};

use lru::LruCache;
use opening_names::Book;
use published_index::{Index, Note, Pass};
use std::alloc::{AllocError, Global};
use std::hash::{DefaultHasher, Hash, Hasher};
use std::marker::Model;
use std::num::NonZeroUsize;
use std::snapshot::Snapshot;

/// How many answers a reader keeps.
const COUNT_LIMIT: usize = 128;

/// The most bytes of a query string that is kept, and of a body. A request's head has no query
/// string above 8,192, so a reader that serves connections keeps at most 3 MiB.
const SIZE_LIMIT: usize = 16_384;

/// Of which games an answer is: each has a path of its own.
#[derive(Clone, Copy, Debug, PartialEq, Eq, Hash)]
pub enum Asking {
    /// All games.
    Games,
    /// The games of a player.
    Player,
}

/// An answer that was given: what was asked by which query string, what the pass had seen then, and
/// the body. That the one is the other's stands in the value itself, whatever becomes of the map that
/// holds it. By which book it is named is there for contracts alone.
#[derive(Drop)]
pub struct KeptAnswer<J: Index> {
    asking: Asking,
    text: Vec<u8>,
    note: Note<J>,
    book: Snapshot<Book>,
    body: Vec<u8>,
}

impl<J: Index> Model for KeptAnswer<J> {
    ghost use Rattle.session.specs.KeptAnswers as answers;

    ghost Value = { answers.KeptAnswer };

    ghost view = { λ kept. record {
      asking = kept.asking;
      text = kept.text.items;
      journal = kept.note;
      book = kept.book.value;
      body = kept.body.items;
    } };

    // The body answers the query string over the journal, by the book.
    ghost invariant = { λ kept. answers.IsBodyFor kept.asking kept.book.value kept.text.items
        kept.note kept.body.items };
}

impl<J: Index> KeptAnswer<J> {
    /// The body, where just this was asked and the pass has seen just what it is over. A merge leaves
    /// what is seen as it is.
    fn body_for(&self, pass: &Pass<J>, asking: Asking, text: &[u8]) -> Option<&[u8]>
        ensures { IfSome result (λ body.
            IsBodyFor asking self.now.book text.now pass.now.seen body.now) }
    {
        if self.asking == asking && self.text.as_slice() == text && pass.is_at(&self.note) {
            Some(self.body.as_slice())
        } else {
            None
        }
    }
}

/// A book, and the answers named by it that were given last, up to 128 of them: those that were asked
/// for longest ago go first. Each says by itself over which journal it is, so they may go with any
/// pass of the index. Where there is no memory for an answer it is not kept.
#[derive(Drop)]
pub struct Answers<'a, J: Index> {
    book: &'a Book,
    /// By a hash of what is asked. Nothing rests on the hash, since that is compared.
    kept: Option<LruCache<u64, KeptAnswer<J>>>,
}

impl<'a, J: Index> Model for Answers<'a, J> {
    ghost use Rattle.std.specs.Prelude.{List};
    ghost use Rattle.explorer_model.specs.Openings.{NamedPosition};
    ghost use Rattle.session.specs.KeptAnswers.{AreNamedBy};

    ghost Value = { List NamedPosition };

    // Which answers are kept is nobody's business: each is what a new one would be.
    ghost view = { λ answers. answers.book.now };

    ghost invariant = { λ answers. AreNamedBy answers.book.now answers.kept };
}

impl<'a, J: Index> Answers<'a, J> {
    /// No answer, and none is ever kept.
    pub fn none(book: &'a Book) -> Self
        ensures { result ≡ book.now }
    {
        Answers { book, kept: None }
    }

    /// No answer yet. Where there is no memory none is ever kept.
    pub fn new(alloc: Global, book: &'a Book) -> Self
        ensures { result ≡ book.now }
    {
        let Some(most) = NonZeroUsize::new(COUNT_LIMIT) else {
            return Answers::none(book);
        };
        match LruCache::new(alloc, most) {
            Ok(kept) => Answers {
                book,
                kept: Some(kept),
            },
            Err(AllocError) => Answers::none(book),
        }
    }

    /// The book by which answers are named.
    pub fn book(&self) -> &'a Book
        ensures { result.now ≡ self.now }
    {
        self.book
    }

    /// A copy of the body that answers the query string over all that the pass has seen, where one is
    /// kept and there is memory for the copy.
    pub fn find(
        &mut self,
        alloc: Global,
        pass: &Pass<J>,
        asking: Asking,
        text: &[u8],
    ) -> Option<Vec<u8>>
        ensures found { IfSome result (λ body.
            IsBodyFor asking self.old text.now pass.now.seen body.items) }
        ensures book { self.new ≡ self.old }
    {
        let key = hash_of(asking, text);
        self.touch(key);
        let kept = self.kept_at(key)?;
        let body = kept.body_for(pass, asking, text)?;
        body.to_vec(alloc).ok()
    }

    /// Keeps an answer over all that the pass has seen, where neither the query string nor the body
    /// has more than 16,384 bytes and there is memory.
    pub fn keep(&mut self, alloc: Global, pass: &Pass<J>, asking: Asking, text: &[u8], body: &[u8])
        requires { IsBodyFor asking self.old text.now pass.now.seen body.now }
        ensures { self.new ≡ self.old }
    {
        if self.kept.is_none() || text.len() > SIZE_LIMIT || body.len() > SIZE_LIMIT {
            return;
        }
        if let Ok(kept) = kept_answer(alloc, self.book, pass, asking, text, body) {
            self.put(hash_of(asking, text), kept);
        }
    }

    /// The answer that is kept at the key, if one is, was asked for last.
    fn touch(&mut self, key: u64)
        ensures { self.new ≡ self.old }
    {
        if let Some(kept) = &mut self.kept {
            kept.promote(&key);
        }
    }

    /// The answer that is kept at the key.
    fn kept_at(&self, key: u64) -> Option<&KeptAnswer<J>>
        ensures { IfSome result (λ kept. kept.now.book ≡ self.now) }
    {
        self.kept.as_ref()?.peek(&key)
    }

    /// Keeps an answer at the key, where there is memory.
    fn put(&mut self, key: u64, answer: KeptAnswer<J>)
        requires { answer.book ≡ self.old }
        ensures { self.new ≡ self.old }
    {
        if let Some(kept) = &mut self.kept {
            let _ = kept.put(key, answer);
        }
    }
}

/// An answer with copies of the query string and the body.
fn kept_answer<J: Index>(
    alloc: Global,
    book: &Book,
    pass: &Pass<J>,
    asking: Asking,
    text: &[u8],
    body: &[u8],
) -> Result<KeptAnswer<J>, AllocError>
    requires { IsBodyFor asking book.now text.now pass.now.seen body.now }
    ensures { IfOk result (λ kept. kept.book ≡ book.now) }
{
    Ok(KeptAnswer {
        asking,
        text: text.to_vec(alloc)?,
        note: pass.tell(),
        book: Snapshot::of(book),
        body: body.to_vec(alloc)?,
    })
}

/// A number that tells apart most of what is asked.
fn hash_of(asking: Asking, text: &[u8]) -> u64 {
    let mut state = DefaultHasher::new();
    asking.hash(&mut state);
    text.hash(&mut state);
    state.finish()
}
