//! Tables of texts whose meaning is known from outside.
mod chess;
mod classes;
mod cuts;
mod games;
mod parts;
mod positions;
mod queries;
mod samples;
mod san;
mod set_ups;
