//! A step between squares.
/// A step from square to square: so many files toward file h, and so many ranks toward rank 8.
#[derive(Clone, Copy, PartialEq, Eq, Debug)]
pub struct Step {
    pub files: i8,
    pub ranks: i8,
}
