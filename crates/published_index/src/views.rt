//! The rule over the places of a journal, and its steps.
use atomic_table::{Join, Split};
use crossbeam_utils::atomic::seq_cell::{Pass, RuledSeqCell};
use crossbeam_utils::rule::{Outcome, Protocol};
use std::collections::LinkedList;

/// What a pass knows. No value of it is made.
pub struct View {
    pub keeps: bool,
    pub count: u64,
    pub parts: u64,
    pub drawn: LinkedList<u64>,
}

/// Each place is drawn once. The word of the cell stays: all is in the views.
pub struct InOrder;

impl Protocol<[u64; 1], View> for InOrder {
    ghost use Rattle.published_index.specs.Views.{first_keeper, Given};

    ghost holds = { λ words views. Given words views };

    ghost first = { first_keeper };
}

/// The next place is drawn.
pub struct Draw;

impl Outcome<[u64; 1], View> for Draw {
    ghost use Rattle.published_index.specs.Views.{Draws};

    ghost then = { Draws };
}

/// Whoever has all parts learns that each place was drawn once.
pub struct Learn;

impl Outcome<[u64; 1], View> for Learn {
    ghost use Rattle.published_index.specs.Views.{Learns};

    ghost then = { Learns };
}

/// All that a drawer has.
pub struct Whole;

impl Split<View> for Whole {
    ghost use Rattle.published_index.specs.Views.{all_of, nobody};

    ghost left = { λ v. nobody };

    ghost right = { all_of };
}

/// Two views together.
pub struct Both;

impl Join<View> for Both {
    ghost use Rattle.published_index.specs.Views.{nobody, with_all};

    ghost both = { with_all };

    ghost spent = { nobody };
}

/// All but one part of the keeper's.
pub struct Back;

impl Split<View> for Back {
    ghost use Rattle.published_index.specs.Views.{handed_of, rest_of};

    ghost left = { rest_of };

    ghost right = { handed_of };
}

/// One part of a drawer's.
pub struct One;

impl Split<View> for One {
    ghost use Rattle.std.specs.Prelude.{[]};
    ghost use Rattle.published_index.specs.Views.{holder, less_one};

    ghost left = { less_one };

    ghost right = { λ v. holder 1 [] };
}

/// The cell over which places are drawn.
pub type Cell = RuledSeqCell<[u64; 1], View, InOrder, 1>;

/// A pass to the cell: what its holder knows of the places.
pub type Token = Pass<[u64; 1], View>;
