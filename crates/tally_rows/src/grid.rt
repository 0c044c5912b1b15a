//! Sums of rows by speed and group.
ghost use Rattle.std.specs.Prelude.{◌≡◌, ◌<◌, List};
ghost use Rattle.tally_rows.specs.declared.grid.Cell.{Cell};
ghost use Rattle.tally_rows.specs.Grid.{IsShaped, Fit, zeros, plus, cell_of, cell_at, added, chosen, total, HasRoom};
ghost use Rattle.std.specs.List.{items_where_true};

use crate::Row;
use explorer_model::answer::Totals;
use std::marker::Model;

/// How many games of each outcome, and the sum of the ratings of those who moved.
#[derive(Clone, Copy, Debug, Default, PartialEq, Eq)]
pub struct Cell {
    pub totals: Totals,
    pub ratings: u64,
}

impl Cell {
    /// The sums of both.
    #[tactic(auto, unfolding(crate::specs::Grid::plus))]
    fn plus(&self, other: &Cell) -> Cell
        requires { Fit self.now other.now }
        ensures { result ≡ plus self.now other.now }
    {
        Cell {
            totals: Totals {
                white: self.totals.white + other.totals.white,
                draws: self.totals.draws + other.totals.draws,
                black: self.totals.black + other.totals.black,
            },
            ratings: self.ratings + other.ratings,
        }
    }
}

/// A cell for each of `S` speeds and `R` groups.
#[derive(Drop)]
pub struct Grid<const S: usize, const R: usize> {
    cells: [[Cell; R]; S],
}

impl<const S: usize, const R: usize> Model for Grid<S, R> {
    ghost Value = { List (List Cell) };

    ghost view = { λ grid. grid.cells };

    ghost invariant = { λ grid. IsShaped S R grid.cells };
}

impl<const S: usize, const R: usize> Grid<S, R> {
    /// Zeros.
    pub fn new() -> Self
        ensures { result ≡ zeros S R }
    {
        Grid {
            cells: [[Cell::default(); R]; S],
        }
    }

    /// Adds a row to the cell of its speed and group, by their places among those of the grid.
    #[tactic(auto, unfolding(crate::specs::Grid::added))]
    pub fn add(&mut self, speed: usize, group: usize, row: &Row)
        requires speed { speed < S }
        requires group { group < R }
        requires fit { Fit (cell_at self.old speed group) (cell_of row.now) }
        ensures { self.new ≡ added self.old speed group row.now }
    {
        let counted = Cell {
            totals: Totals {
                white: u64::from(row.white),
                draws: u64::from(row.draws),
                black: u64::from(row.black),
            },
            ratings: row.ratings,
        };
        let line = &mut self.cells[speed];
        line[group] = line[group].plus(&counted);
    }

    /// The sum of the cells whose speed and group are chosen.
    pub fn sum_of(&self, speeds: &[bool; S], groups: &[bool; R]) -> Cell
        requires { HasRoom (chosen speeds.now groups.now self.now) }
        ensures { result ≡ total (chosen speeds.now groups.now self.now) }
    {
        let lines = &self.cells[..];
        let mut sum = Cell::default();
        for speed in 0..S {
            if speeds[speed] {
                sum = sum.plus(&line_sum(&lines[speed], groups));
            }
        }
        sum
    }
}

/// The sum of the cells of one speed whose group is chosen.
fn line_sum(line: &[Cell], groups: &[bool]) -> Cell
    requires { HasRoom (items_where_true groups.now line.now) }
    ensures { result ≡ total (items_where_true groups.now line.now) }
{
    let mut sum = Cell::default();
    for (cell, is_chosen) in line.iter().zip(groups) {
        if *is_chosen {
            sum = sum.plus(cell);
        }
    }
    sum
}
