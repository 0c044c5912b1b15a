//! Where a text begins.
ghost use Rattle.std.specs.Prelude.{◌≡◌, ℕ, ◌+◌, ◌-◌, ◌<◌, ◌≤◌, [], ◌∷◌, length, take};
ghost use Rattle.pgn_cut.specs.Line.{GoesOn};

use memchr::memchr;

/// A line end and the seven bytes that begin a text behind it.
pub const LINE_START: [u8; 8] = *b"\n[Event ";

/// How far a search for the next start came.
#[derive(Clone, Copy, Debug)]
pub struct Scan {
    pub taken: usize,

    /// How many bytes of `LINE_START` came last; all of them where a start ends here.
    pub matched: usize,
}

/// Takes bytes up to the end of the next start, or all of them.
pub fn find_start(matched: usize, piece: &[u8]) -> Scan
    requires { matched < 8 }
    ensures taken { result.taken ≤ length piece.now }
    ensures matched { result.matched ≤ 8 }
    ensures whole { result.matched < 8 → result.taken ≡ length piece.now }
    ensures goes_on { GoesOn matched (take result.taken piece.now) result.matched }
    ensures open { result.matched - 1 ≤ matched - 1 + result.taken }
{
    let mut scan = Scan { taken: 0, matched };
    while scan.taken < piece.len() && scan.matched < LINE_START.len() {
        let step = advance(scan.matched, &piece[scan.taken..]);
        scan = Scan {
            taken: scan.taken + step.taken,
            matched: step.matched,
        };
    }
    scan
}

/// Takes one byte, or within a line all up to the line's end.
fn advance(matched: usize, bytes: &[u8]) -> Scan
    requires matched { matched < 8 }
    requires some { 0 < length bytes.now }
    ensures some { 0 < result.taken }
    ensures taken { result.taken ≤ length bytes.now }
    ensures matched { result.matched ≤ 8 }
    ensures goes_on { GoesOn matched (take result.taken bytes.now) result.matched }
{
    if matched == 0 {
        return match memchr(b'\n', bytes) {
            Some(end) => Scan {
                taken: end + 1,
                matched: 1,
            },
            None => Scan {
                taken: bytes.len(),
                matched: 0,
            },
        };
    }
    Scan {
        taken: 1,
        matched: matched_with(matched, bytes[0]),
    }
}

/// How many bytes of `LINE_START` came last with one more byte; `matched` of them came before it.
fn matched_with(matched: usize, byte: u8) -> usize
    requires begun { 0 < matched }
    requires short { matched < 8 }
    ensures bound { result ≤ 8 }
    ensures goes_on { GoesOn matched (byte ∷ []) result }
{
    if byte == LINE_START[matched] {
        matched + 1
    } else if byte == b'\n' {
        1
    } else {
        0
    }
}
