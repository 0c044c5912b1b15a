//! What connections are served from.
use ingest_desk::Importer;
use published_index::{Index, Pass};

/// What connections are served from, one after another: a pass and an importer, both lent.
#[derive(Drop)]
pub struct Backend<'a, J: Index, I: Importer<J>> {
    pub pass: &'a mut Pass<J>,
    pub importer: &'a mut I,
}
