//! Books of openings, and the games of players.
mod books;
mod found;
mod lists;
mod players;
