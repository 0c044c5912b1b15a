//! Places of a journal that are given in their order, and the drawers that draw them.
ghost use Rattle.std.specs.Prelude.{◌≡◌, ◌+◌, ◌<◌, IfOk};
ghost use Rattle.crossbeam_utils.specs.Seq.{cell_view};
ghost use Rattle.published_index.specs.Places.{
  DrewEach,
  HasAllParts,
  HasDrawn,
  new_drawing,
  with_drawing,
  with_place,
};

use crate::index::Index;
use crate::tokens::{cut_one, draw_for, draw_next, hand_out, new_cell, put, settle_for};
use crate::views::{Cell, Token};
use std::alloc::{AllocError, Global};
use std::marker::{Model, PhantomData};
use std::sync::Wait;

/// Places of an index that no type names yet. Whoever has them has drawn all that are given.
#[derive(Drop)]
pub struct UnnamedPlaces {
    cell: Cell,
    token: Token,
}

impl Model for UnnamedPlaces {
    ghost use Rattle.std.specs.Prelude.{◌≡◌, ℕ, true};
    ghost use Rattle.crossbeam_utils.specs.Seq.{cell_view};
    ghost use Rattle.published_index.specs.Places.{all_parts, once_below, times};
    ghost use Rattle.published_index.specs.Seated.{NamelessPlaces};

    ghost Value = { NamelessPlaces };

    ghost view = { λ places. record {
      table = places.cell.table.shared.table_id;
      count = (cell_view places.token).count;
    } };

    ghost invariant = { λ places. (places.token.table_id ≡ places.cell.table.shared.table_id)
        × ((cell_view places.token).keeps ≡ true)
        × ((cell_view places.token).parts ≡ all_parts)
        × ((x : ℕ) → times x (cell_view places.token).drawn
        ≡ once_below x (cell_view places.token).count) };
}

impl UnnamedPlaces {
    /// So many places, all of which are given.
    pub fn of<R: Wait>(rt: &R, alloc: Global, count: u32) -> Result<UnnamedPlaces, AllocError>
        ensures { IfOk result (λ places. places.count ≡ count) }
    {
        let mut places = UnnamedPlaces::new(alloc)?;
        for _ in 0..count {
            places.draw(rt);
        }
        Ok(places)
    }

    /// Places of which none is given.
    fn new(alloc: Global) -> Result<UnnamedPlaces, AllocError>
        ensures { IfOk result (λ places. places.count ≡ 0) }
    {
        let (cell, token) = new_cell(alloc)?;
        Ok(UnnamedPlaces { cell, token })
    }

    /// Gives the next place.
    fn draw<R: Wait>(&mut self, rt: &R)
        ensures { self.new ≡ record self.old { count = self.old.count + 1 } }
    {
        draw_next(rt, &self.cell, &mut self.token);
    }

    /// The places of the index whose name this one has, and the drawer that has all other parts. It
    /// drew the places that are given.
    pub fn named<J: Index>(self) -> (Places<J>, Drawer<J>)
        requires { self.table ≡ J.name.places }
        ensures count { result.0 ≡ self.count }
        ensures drawn { HasDrawn self.count result.1 }
    {
        let UnnamedPlaces { cell, mut token } = self;
        let rest = hand_out(&cell, &mut token);
        let places = Places {
            cell,
            token,
            of: PhantomData,
        };
        let drawer = Drawer {
            token: rest,
            of: PhantomData,
        };
        (places, drawer)
    }
}

/// The places of an index, by which they are given. Contracts see how many are given.
#[derive(Drop)]
pub struct Places<J: Index> {
    cell: Cell,
    token: Token,
    of: PhantomData<J>,
}

impl<J: Index> Model for Places<J> {
    ghost use Rattle.std.specs.Prelude.{◌≡◌, ℕ, [], true};
    ghost use Rattle.crossbeam_utils.specs.Seq.{cell_view};

    ghost Value = { ℕ };

    ghost view = { λ places. (cell_view places.token).count };

    ghost invariant = { λ places. (places.cell.table.shared.table_id ≡ J.name.places)
        × (places.token.table_id ≡ J.name.places)
        × ((cell_view places.token).keeps ≡ true)
        × ((cell_view places.token).parts ≡ 1)
        × ((cell_view places.token).drawn ≡ []) };
}

/// Draws places of an index's journal: whoever stores there has one, and it draws the place of each
/// batch. Contracts see its parts, and the places that it drew.
#[derive(Drop)]
pub struct Drawer<J: Index> {
    token: Token,
    of: PhantomData<J>,
}

impl<J: Index> Model for Drawer<J> {
    ghost use Rattle.std.specs.Prelude.{◌≡◌, ◌<◌, false};
    ghost use Rattle.crossbeam_utils.specs.Seq.{cell_view};
    ghost use Rattle.published_index.specs.Places.{Drawing};

    ghost Value = { Drawing };

    ghost view = { λ drawer. record {
      parts = (cell_view drawer.token).parts;
      drawn = (cell_view drawer.token).drawn;
    } };

    ghost invariant = { λ drawer. (drawer.token.table_id ≡ J.name.places)
        × ((cell_view drawer.token).keeps ≡ false)
        × (0 < (cell_view drawer.token).parts) };
}

impl<J: Index> Places<J> {
    /// Gives the next place to a drawer.
    pub fn draw<R: Wait>(&mut self, rt: &R, mine: &mut Drawer<J>)
        ensures count { self.new ≡ self.old + 1 }
        ensures drawn { mine.new ≡ with_place self.old mine.old }
    {
        draw_for(rt, &self.cell, &mut self.token, &mut mine.token);
    }

    /// A new drawer, with one part of another's.
    pub fn another(&self, rest: &mut Drawer<J>) -> Drawer<J>
        requires { 1 < rest.old.parts }
        ensures drawer { result ≡ new_drawing }
        ensures left { rest.new.parts + 1 ≡ rest.old.parts }
        ensures drawn { rest.new.drawn ≡ rest.old.drawn }
    {
        Drawer {
            token: cut_one(&self.cell, &mut rest.token),
            of: PhantomData,
        }
    }

    /// Puts all that another drawer has to a drawer.
    pub fn take(&self, rest: &mut Drawer<J>, other: Drawer<J>)
        ensures { rest.new ≡ with_drawing other rest.old }
    {
        let Drawer { mut token, of: _ } = other;
        put(&self.cell, &mut rest.token, &mut token);
    }

    /// The drawer that has all other parts has drawn each place that is given, once, and no other.
    pub fn settle<R: Wait>(&mut self, rt: &R, all: &mut Drawer<J>)
        requires { HasAllParts all.old }
        ensures same { self.new ≡ self.old }
        ensures drawer { all.new ≡ all.old }
        ensures each { DrewEach self.old all.old }
    {
        settle_for(rt, &self.cell, &mut self.token, &mut all.token);
    }
}
