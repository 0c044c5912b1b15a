//! What some commands are asked for.
ghost use Rattle.std.specs.Prelude.{◌≤◌};

use opening_names::Book;
use side_by_side::Workers;

/// What is asked of the command `import`.
#[derive(Debug, Drop)]
pub struct ImportOrder {
    pub store: String,
    pub file: String,
    /// The text that is to be the label of the batches that are stored, and may be none.
    pub label: String,
    /// How many threads work at once.
    pub workers: Workers,
}

/// What is asked of the command `query` where rows are to stand in a scratch file.
#[derive(Debug, Drop)]
pub struct SpillOrder {
    pub store: String,
    /// The name of the scratch file, which is emptied.
    pub spill: String,
    /// How many threads work at once.
    pub workers: Workers,
}

/// What is asked of the command `serve`, and the book by which answers are named.
#[derive(Drop)]
pub struct Order {
    pub store: String,
    pub address: String,
    /// Files that are imported meanwhile.
    pub files: Vec<String>,
    /// How many threads work at once in one import.
    pub workers: Workers,
    /// How many doors there are, 1 to 64.
    pub readers: usize,
    /// How many connections each door takes.
    pub connections: u32,
    pub book: Book,
    ghost some_readers: { 1 ≤ readers },
    ghost few_readers: { readers ≤ 64 },
}
