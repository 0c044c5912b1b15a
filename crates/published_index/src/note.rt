//! Notes of what was published.
use crate::front::Front;
use crate::index::Index;
use std::marker::{Model, PhantomData};

/// That so many batches were published, for a pass of the same index to learn. Contracts see it as
/// these batches.
#[derive(Drop)]
pub struct Note<J: Index> {
    pub(crate) front: Front,
    pub(crate) of: PhantomData<J>,
}

impl<J: Index> Model for Note<J> {
    ghost use Rattle.std.specs.Prelude.{◌≡◌, List};
    ghost use Rattle.explorer_model.specs.declared.archive.Batch.{Batch};

    ghost Value = { List Batch };

    ghost view = { λ note. note.front.log };

    ghost invariant = { λ note. note.front.book ≡ J.name.book };
}
