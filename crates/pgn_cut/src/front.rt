//! What comes before the first text.
ghost use Rattle.std.specs.Prelude.{◌≡◌, ℕ, ◌+◌, ◌-◌, ◌<◌, ◌≤◌, ◌^◌, ◌++◌, List, length, take};
ghost use Rattle.explorer_model.specs.Cuts.{is_white_space as is_blank};
ghost use Rattle.pgn_cut.specs.Line.{GoesOn, open_bytes};
ghost use Rattle.pgn_cut.specs.Solid.{solid, first_of};

use crate::scan::{LINE_START, Scan, find_start};

/// What came before the first text.
#[derive(Clone, Copy, Debug)]
pub struct Front {
    /// How many bytes of the stream came.
    pub came: u64,

    /// The place of the first byte that is no white space, the bytes of a start that is open left out.
    pub first: Option<u64>,

    /// How many bytes of `LINE_START` came last.
    pub matched: usize,

    ghost short: { matched < 8 },
    ghost begun: { matched ≤ came + 1 },
}

/// Where the stream stands after a piece.
pub enum Onward {
    /// Still before the first text.
    Before(Front),
    /// The last of `taken` bytes ends the first start; `preamble` is the first byte before it that is no white space.
    Start { taken: usize, preamble: Option<u64> },
}

impl Front {
    ghost use Rattle.std.specs.Prelude.{[]};
    ghost use Rattle.pgn_cut.specs.Front.{cuts_of_front, refusal_of, GoesOnward};

    /// Goes on up to the end of the first start or of the piece.
    pub fn feed(self, piece: &[u8]) -> Onward
        requires room { self.came + length piece.now < 2 ^ 63 }
        ensures { GoesOnward self piece.now result }
    {
        let scan = find_start(self.matched, piece);
        let first = self.first_with(piece, scan);
        if scan.matched == LINE_START.len() {
            return Onward::Start {
                taken: scan.taken,
                preamble: first,
            };
        }
        Onward::Before(Front {
            came: self.came + piece.len() as u64,
            first,
            matched: scan.matched,
        })
    }

    /// The place of the first byte that is no white space, where the stream ends.
    pub fn end(self) -> Option<u64>
        ensures { refusal_of result ≡ cuts_of_front self [] }
    {
        if let Some(first) = self.first {
            return Some(first);
        }
        if self.matched > 1 {
            return Some(self.came - (self.matched as u64 - 1));
        }
        None
    }

    /// As `first`, after the bytes of the piece that were searched.
    fn first_with(self, piece: &[u8], scan: Scan) -> Option<u64>
        requires taken { scan.taken ≤ length piece.now }
        requires short { scan.matched ≤ 8 }
        requires open { scan.matched - 1 ≤ self.matched - 1 + scan.taken }
        requires goes_on { GoesOn self.matched (take scan.taken piece.now) scan.matched }
        requires room { self.came + length piece.now < 2 ^ 63 }
        ensures { (g : GoesOn self.matched (take scan.taken piece.now) scan.matched) →
            result ≡ first_of self.first (self.came - (self.matched - 1)) g.head }
    {
        if let Some(first) = self.first {
            return Some(first);
        }
        let open = self.matched.saturating_sub(1);
        let settled = open + scan.taken - scan.matched.saturating_sub(1);
        if settled == 0 {
            return None;
        }
        if open > 0 {
            return Some(self.came - open as u64);
        }
        first_solid(self.came, &piece[..settled])
    }
}

/// The place of the first byte that is no white space; the bytes stand at `place`.
fn first_solid(place: u64, bytes: &[u8]) -> Option<u64>
    requires { place + length bytes.now < 2 ^ 63 }
    ensures { result ≡ solid place bytes.now }
{
    let mut at = 0;
    while at < bytes.len() {
        if !is_white_space(bytes[at]) {
            return Some(place + at as u64);
        }
        at += 1;
    }
    None
}

/// White space as PGN has it: tab, line feed, vertical tab, form feed, carriage return and space.
#[tactic(auto, unfolding(explorer_model::specs::Cuts::is_white_space), using(std::proofs::lemmas::Bool::Decides::nat_tests))]
fn is_white_space(byte: u8) -> bool
    ensures { result ≡ is_blank byte }
{
    matches!(byte, 9..=13 | b' ')
}
