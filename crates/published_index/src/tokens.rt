//! The steps of the passes of a cell.
ghost use Rattle.std.specs.Prelude.{◌≡◌, ℕ, suc, ◌+◌, ◌<◌, [], ◌∷◌, ◌++◌, true, false, IfOk};
ghost use Rattle.crossbeam_utils.specs.Seq.{cell_view};
ghost use Rattle.published_index.specs.Views.{all_of, first_keeper, handed_of, rest_of, with_all, with_draw};
ghost use Rattle.published_index.specs.Places.{all_parts, once_below, times};

use crate::views::{Back, Both, Cell, Draw, Learn, One, Token, Whole};
use std::alloc::{AllocError, Global};
use std::sync::Wait;

/// A cell, and the pass that has all parts.
pub(crate) fn new_cell(alloc: Global) -> Result<(Cell, Token), AllocError>
    ensures own { IfOk result (λ made. made.1.table_id ≡ made.0.table.shared.table_id) }
    ensures first { IfOk result (λ made. cell_view made.1 ≡ first_keeper) }
{
    Cell::ruled(alloc, [0])
}

/// Puts all that a drawer's pass has to what another pass has.
pub(crate) fn put(cell: &Cell, token: &mut Token, drawer: &mut Token)
    requires own { token.old.table_id ≡ cell.now.table.shared.table_id }
    requires drawer_own { drawer.old.table_id ≡ cell.now.table.shared.table_id }
    requires some { 0 < (cell_view token.old).parts }
    requires drawer_some { 0 < (cell_view drawer.old).parts }
    requires drawer { (cell_view drawer.old).keeps ≡ false }
    ensures own { token.new.table_id ≡ token.old.table_id }
    ensures view { cell_view token.new
        ≡ with_all (cell_view token.old) (all_of (cell_view drawer.old)) }
{
    let whole = cell.split_pass::<Whole>(drawer);
    cell.join_pass::<Both>(token, whole);
}

/// The next place is drawn.
pub(crate) fn draw_next<R: Wait>(rt: &R, cell: &Cell, token: &mut Token)
    requires own { token.old.table_id ≡ cell.now.table.shared.table_id }
    requires keeps { (cell_view token.old).keeps ≡ true }
    requires some { 0 < (cell_view token.old).parts }
    ensures own { token.new.table_id ≡ token.old.table_id }
    ensures view { cell_view token.new ≡ with_draw (cell_view token.old) }
{
    cell.load_as::<Draw, R>(rt, token);
}

/// The holder of each part learns that each place was drawn once.
pub(crate) fn learn<R: Wait>(rt: &R, cell: &Cell, token: &mut Token)
    requires own { token.old.table_id ≡ cell.now.table.shared.table_id }
    requires keeps { (cell_view token.old).keeps ≡ true }
    requires whole { (cell_view token.old).parts ≡ all_parts }
    ensures own { token.new.table_id ≡ token.old.table_id }
    ensures view { cell_view token.new ≡ cell_view token.old }
    ensures each_once { (x : ℕ) →
        times x (cell_view token.old).drawn ≡ once_below x (cell_view token.old).count }
{
    cell.load_as::<Learn, R>(rt, token);
}

/// Hands out all but one part, with what was drawn.
pub(crate) fn hand_out(cell: &Cell, token: &mut Token) -> Token
    requires own { token.old.table_id ≡ cell.now.table.shared.table_id }
    requires some { 1 < (cell_view token.old).parts }
    ensures own { token.new.table_id ≡ token.old.table_id }
    ensures view { cell_view token.new ≡ rest_of (cell_view token.old) }
    ensures drawer_own { result.table_id ≡ token.old.table_id }
    ensures drawer_view { cell_view result ≡ handed_of (cell_view token.old) }
{
    let handed = cell.split_pass::<Back>(token);
    handed
}

/// A drawer's pass with one part of another's.
pub(crate) fn cut_one(cell: &Cell, token: &mut Token) -> Token
    requires own { token.old.table_id ≡ cell.now.table.shared.table_id }
    requires drawer { (cell_view token.old).keeps ≡ false }
    requires some { 1 < (cell_view token.old).parts }
    ensures own { token.new.table_id ≡ token.old.table_id }
    ensures keeps { (cell_view token.new).keeps ≡ false }
    ensures parts { (cell_view token.new).parts + 1 ≡ (cell_view token.old).parts }
    ensures drawn { (cell_view token.new).drawn ≡ (cell_view token.old).drawn }
    ensures drawer_own { result.table_id ≡ token.old.table_id }
    ensures drawer_keeps { (cell_view result).keeps ≡ false }
    ensures drawer_parts { (cell_view result).parts ≡ 1 }
    ensures drawer_drawn { (cell_view result).drawn ≡ [] }
{
    let cut = cell.split_pass::<One>(token);
    cut
}

/// Gives the next place to a drawer's pass, whose parts and places the keeper has meanwhile.
pub(crate) fn draw_for<R: Wait>(rt: &R, cell: &Cell, token: &mut Token, drawer: &mut Token)
    requires own { token.old.table_id ≡ cell.now.table.shared.table_id }
    requires drawer_own { drawer.old.table_id ≡ cell.now.table.shared.table_id }
    requires keeps { (cell_view token.old).keeps ≡ true }
    requires one { (cell_view token.old).parts ≡ 1 }
    requires none { (cell_view token.old).drawn ≡ [] }
    requires drawer { (cell_view drawer.old).keeps ≡ false }
    requires drawer_some { 0 < (cell_view drawer.old).parts }
    ensures own { token.new.table_id ≡ token.old.table_id }
    ensures keeps { (cell_view token.new).keeps ≡ true }
    ensures count { (cell_view token.new).count ≡ (cell_view token.old).count + 1 }
    ensures one { (cell_view token.new).parts ≡ 1 }
    ensures none { (cell_view token.new).drawn ≡ [] }
    ensures drawer_own { drawer.new.table_id ≡ drawer.old.table_id }
    ensures drawer { (cell_view drawer.new).keeps ≡ false }
    ensures drawer_parts { (cell_view drawer.new).parts ≡ (cell_view drawer.old).parts }
    ensures drawer_drawn { (cell_view drawer.new).drawn
        ≡ (cell_view drawer.old).drawn ++ (cell_view token.old).count ∷ [] }
{
    put(cell, token, drawer);
    draw_next(rt, cell, token);
    let handed = hand_out(cell, token);
    *drawer = handed;
}

/// The keeper and the pass that has all other parts know that each place was drawn once.
pub(crate) fn settle_for<R: Wait>(rt: &R, cell: &Cell, token: &mut Token, drawer: &mut Token)
    requires own { token.old.table_id ≡ cell.now.table.shared.table_id }
    requires drawer_own { drawer.old.table_id ≡ cell.now.table.shared.table_id }
    requires keeps { (cell_view token.old).keeps ≡ true }
    requires one { (cell_view token.old).parts ≡ 1 }
    requires none { (cell_view token.old).drawn ≡ [] }
    requires drawer { (cell_view drawer.old).keeps ≡ false }
    requires whole { (cell_view drawer.old).parts + 1 ≡ all_parts }
    ensures own { token.new.table_id ≡ token.old.table_id }
    ensures keeps { (cell_view token.new).keeps ≡ true }
    ensures count { (cell_view token.new).count ≡ (cell_view token.old).count }
    ensures one { (cell_view token.new).parts ≡ 1 }
    ensures none { (cell_view token.new).drawn ≡ [] }
    ensures drawer_own { drawer.new.table_id ≡ drawer.old.table_id }
    ensures drawer { (cell_view drawer.new).keeps ≡ false }
    ensures drawer_parts { (cell_view drawer.new).parts ≡ (cell_view drawer.old).parts }
    ensures drawer_drawn { (cell_view drawer.new).drawn ≡ (cell_view drawer.old).drawn }
    ensures each_once { (x : ℕ) →
        times x (cell_view drawer.old).drawn ≡ once_below x (cell_view token.old).count }
{
    put(cell, token, drawer);
    learn(rt, cell, token);
    let handed = hand_out(cell, token);
    *drawer = handed;
}
