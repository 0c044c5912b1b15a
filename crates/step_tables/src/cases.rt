//! The macros that make the tables. An entry is an expression of literals, and all of them are computed when the
//! program is checked.

/// The squares that are not on file a.
pub(crate) const OFF_FILE_A: u64 = 0xFEFE_FEFE_FEFE_FEFE;

/// The squares that are not on file h.
pub(crate) const OFF_FILE_H: u64 = 0x7F7F_7F7F_7F7F_7F7F;

/// An array with an entry for each square, from a1 to h8: `entry` is called with the words that are given, and with
/// the square, its file and its rank.
macro_rules! each_square {
    ($entry:ident! $($head:tt)*) => {
        [
            $entry!($($head)* 0, 0, 0), $entry!($($head)* 1, 1, 0),
            $entry!($($head)* 2, 2, 0), $entry!($($head)* 3, 3, 0),
            $entry!($($head)* 4, 4, 0), $entry!($($head)* 5, 5, 0),
            $entry!($($head)* 6, 6, 0), $entry!($($head)* 7, 7, 0),
            $entry!($($head)* 8, 0, 1), $entry!($($head)* 9, 1, 1),
            $entry!($($head)* 10, 2, 1), $entry!($($head)* 11, 3, 1),
            $entry!($($head)* 12, 4, 1), $entry!($($head)* 13, 5, 1),
            $entry!($($head)* 14, 6, 1), $entry!($($head)* 15, 7, 1),
            $entry!($($head)* 16, 0, 2), $entry!($($head)* 17, 1, 2),
            $entry!($($head)* 18, 2, 2), $entry!($($head)* 19, 3, 2),
            $entry!($($head)* 20, 4, 2), $entry!($($head)* 21, 5, 2),
            $entry!($($head)* 22, 6, 2), $entry!($($head)* 23, 7, 2),
            $entry!($($head)* 24, 0, 3), $entry!($($head)* 25, 1, 3),
            $entry!($($head)* 26, 2, 3), $entry!($($head)* 27, 3, 3),
            $entry!($($head)* 28, 4, 3), $entry!($($head)* 29, 5, 3),
            $entry!($($head)* 30, 6, 3), $entry!($($head)* 31, 7, 3),
            $entry!($($head)* 32, 0, 4), $entry!($($head)* 33, 1, 4),
            $entry!($($head)* 34, 2, 4), $entry!($($head)* 35, 3, 4),
            $entry!($($head)* 36, 4, 4), $entry!($($head)* 37, 5, 4),
            $entry!($($head)* 38, 6, 4), $entry!($($head)* 39, 7, 4),
            $entry!($($head)* 40, 0, 5), $entry!($($head)* 41, 1, 5),
            $entry!($($head)* 42, 2, 5), $entry!($($head)* 43, 3, 5),
            $entry!($($head)* 44, 4, 5), $entry!($($head)* 45, 5, 5),
            $entry!($($head)* 46, 6, 5), $entry!($($head)* 47, 7, 5),
            $entry!($($head)* 48, 0, 6), $entry!($($head)* 49, 1, 6),
            $entry!($($head)* 50, 2, 6), $entry!($($head)* 51, 3, 6),
            $entry!($($head)* 52, 4, 6), $entry!($($head)* 53, 5, 6),
            $entry!($($head)* 54, 6, 6), $entry!($($head)* 55, 7, 6),
            $entry!($($head)* 56, 0, 7), $entry!($($head)* 57, 1, 7),
            $entry!($($head)* 58, 2, 7), $entry!($($head)* 59, 3, 7),
            $entry!($($head)* 60, 4, 7), $entry!($($head)* 61, 5, 7),
            $entry!($($head)* 62, 6, 7), $entry!($($head)* 63, 7, 7),
        ]
    };
}

/// A step in words, as `[north north east]`: its differences, or the bit to which it leads.
macro_rules! step {
    (files north) => { 0 };
    (files east) => { 1 };
    (files south) => { 0 };
    (files west) => { -1 };
    (ranks north) => { 1 };
    (ranks east) => { 0 };
    (ranks south) => { -1 };
    (ranks west) => { 0 };
    ([$($word:ident)*]) => {
        Step {
            files: 0 $(+ step!(files $word))*,
            ranks: 0 $(+ step!(ranks $word))*,
        }
    };
    ([] from $bit:expr) => { $bit };
    ([north $($rest:ident)*] from $bit:expr) => { step!([$($rest)*] from ($bit << 8)) };
    ([east $($rest:ident)*] from $bit:expr) => { step!([$($rest)*] from (($bit & OFF_FILE_H) << 1)) };
    ([south $($rest:ident)*] from $bit:expr) => { step!([$($rest)*] from ($bit >> 8)) };
    ([west $($rest:ident)*] from $bit:expr) => { step!([$($rest)*] from (($bit & OFF_FILE_A) >> 1)) };
}

/// The squares that the steps reach.
macro_rules! reached {
    ([$($step:tt)*] $square:literal, $file:literal, $rank:literal) => { 0 $(| step!($step from (1u64 << $square)))* };
}

/// A leaper, from its steps in words.
macro_rules! leaper {
    ($($step:tt)*) => {
        Leaper {
            steps: [$(step!($step)),*],
            bitboards: &each_square!(reached! [$($step)*]),
        }
    };
}

/// The files nearer to file h, or nearer to file a.
macro_rules! files {
    (east of $file:literal) => { 0x0101_0101_0101_0101 * ((0xFE << $file) & 0xFF) };
    (west of $file:literal) => { 0x0101_0101_0101_0101 * ((1 << $file) - 1) };
}

/// The line that leaves a square in one direction: the longest such line, which leaves a corner, moved to the square
/// and cut at the edge of the board.
macro_rules! line {
    ([north] $square:literal, $file:literal, $rank:literal) => { 0x0101_0101_0101_0100u64 << $square };
    ([east] $square:literal, $file:literal, $rank:literal) => { ((0xFEu64 << $file) & 0xFF) << (8 * $rank) };
    ([south] $square:literal, $file:literal, $rank:literal) => { 0x0080_8080_8080_8080u64 >> (63 - $square) };
    ([west] $square:literal, $file:literal, $rank:literal) => { (0x7Fu64 >> (7 - $file)) << (8 * $rank) };
    ([north east] $square:literal, $file:literal, $rank:literal) => {
        (0x8040_2010_0804_0200u64 << $square) & files!(east of $file)
    };
    ([south east] $square:literal, $file:literal, $rank:literal) => {
        ((0x0002_0408_1020_4080u64 >> (8 * (7 - $rank))) << $file) & files!(east of $file)
    };
    ([south west] $square:literal, $file:literal, $rank:literal) => {
        (0x0040_2010_0804_0201u64 >> (63 - $square)) & files!(west of $file)
    };
    ([north west] $square:literal, $file:literal, $rank:literal) => {
        ((0x0102_0408_1020_4000u64 << (8 * $rank)) >> (7 - $file)) & files!(west of $file)
    };
}

/// The lines that leave a square in several directions.
macro_rules! lines {
    ([$($direction:tt)*] $square:literal, $file:literal, $rank:literal) => {
        [$(line!($direction $square, $file, $rank)),*]
    };
}

/// All lines of a piece: the whole file and rank, or the two whole diagonals, without the square where they cross.
macro_rules! crossed {
    ([rook] $square:literal, $file:literal, $rank:literal) => {
        (0x0101_0101_0101_0101u64 << $file) ^ (0xFF << (8 * $rank))
    };
    ([bishop] $square:literal, $file:literal, $rank:literal) => {
        // Seven more ranks below rank 1 hold what is moved off the board.
        ((((0x8040_2010_0804_0201u128 << (8 * (7 + $rank - $file)))
            ^ (0x0102_0408_1020_4080u128 << (8 * ($rank + $file))))
            >> 56)
            & 0xFFFF_FFFF_FFFF_FFFF) as u64
    };
    ([queen] $square:literal, $file:literal, $rank:literal) => {
        crossed!([rook] $square, $file, $rank) | crossed!([bishop] $square, $file, $rank)
    };
}

/// A slider, from the piece and its directions in words.
macro_rules! slider {
    ($piece:ident: $($direction:tt)*) => {
        Slider {
            directions: [$(step!($direction)),*],
            lines: &each_square!(lines! [$($direction)*]),
            bitboards: &each_square!(crossed! [$piece]),
        }
    };
}

/// The squares passed on the way up from a1 to squares so many ranks above, which are drawn from seven files to the
/// left to seven to the right: `w` stands where the way goes up to the left, `n` where it goes straight up, `e` where
/// it goes up to the right, and `.` where there is none.
macro_rules! passed {
    (. in $ranks:literal) => { 0 };
    (w in $ranks:literal) => { 0x0002_0408_1020_4080 & ((1 << (7 * $ranks)) - 1) };
    (n in $ranks:literal) => { 0x0101_0101_0101_0100 & ((1 << (8 * $ranks)) - 1) };
    (e in $ranks:literal) => { 0x8040_2010_0804_0200 & ((1 << (9 * $ranks)) - 1) };
    ($ranks:literal: $($square:tt)*) => { [$(passed!($square in $ranks)),*] };
}

pub(crate) use crossed;
pub(crate) use each_square;
pub(crate) use files;
pub(crate) use leaper;
pub(crate) use line;
pub(crate) use lines;
pub(crate) use passed;
pub(crate) use reached;
pub(crate) use slider;
pub(crate) use step;
