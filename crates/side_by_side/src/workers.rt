//! How many workers there are.
ghost use Rattle.std.specs.Prelude.{◌≤◌};

/// How many workers count or merge side by side, the calling thread among them.
#[derive(Clone, Copy, Debug, PartialEq, Eq)]
pub struct Workers {
    pub count: usize,
    pub ghost some: { 1 ≤ count },
    pub ghost few: { count ≤ 16 },
}
