//! Where the head of a request begins and ends (RFC 9112, 2.2).
ghost use Rattle.std.specs.Prelude.{◌≡◌, ◌+◌, ◌<◌, ◌≤◌, ◌⊎◌, ℕ, List, true, length, take, IfOk, IfErr};
ghost use Rattle.std.specs.List.{prefix_len};
ghost use Rattle.explorer_model.specs.Items.{ends_line};
ghost use Rattle.explorer_model.specs.Wire.{head_limit, opening};
ghost use Rattle.http_wire.specs.Scanning.{stage_after, is_whole, IsScanned, IsSight, opening_behind};
ghost use Rattle.http_wire.specs.Steps.{Skips, Finds, Misses};

use crate::ahead::ReadAhead;
use explorer_model::wire::{Asked, RequestFault};
use outside::{Failed, Link};

/// The most bytes of a head, with the line ends before it.
const HEAD_LIMIT: usize = 8192;

/// The most lines of a head, with the empty one.
const LINE_LIMIT: usize = 34;

/// Reads on to the end of a head, and takes off the line ends before it. Says how many bytes it
/// has.
pub(crate) fn find_head<L: Link>(ahead: &mut ReadAhead, link: &mut L) -> Result<usize, Asked>
    ensures found { IfOk result (λ count.
        Finds opening count ahead.old ahead.new (L.source link.old) (L.source link.new)) }
    ensures missed { IfErr result (λ asked.
        Misses opening asked ahead.old (L.source link.old) (L.source link.new)) }
{
    let skipped = skip_line_ends(ahead, link)?;
    find_end(ahead, link, skipped)
}

/// Takes off the line ends before a request, and says how many there were.
fn skip_line_ends<L: Link>(ahead: &mut ReadAhead, link: &mut L) -> Result<usize, Asked>
    ensures skipped { IfOk result (λ skipped.
        Skips skipped ahead.old ahead.new (L.source link.old) (L.source link.new)) }
    ensures missed { IfErr result (λ asked.
        Misses opening asked ahead.old (L.source link.old) (L.source link.new)) }
{
    let mut skipped = 0;
    'blank: loop {
        let count = line_ends(ahead.as_slice());
        ahead.skip(count);
        skipped += count;
        if HEAD_LIMIT <= skipped {
            return Err(Asked::Refused(RequestFault::HeadTooLarge));
        }
        if !ahead.as_slice().is_empty() {
            return Ok(skipped);
        }
        match ahead.fill(link) {
            Ok(0) => return Err(Asked::Done),
            Ok(_) => {}
            Err(Failed) => return Err(Asked::ReadFault),
        }
    }
}

/// How many line ends stand first.
fn line_ends(bytes: &[u8]) -> usize
    ensures count { result ≡ prefix_len ends_line bytes.now }
    ensures within { result ≤ length bytes.now }
{
    let mut count = 0;
    while count < bytes.len() && ends_line(bytes[count]) {
        count += 1;
    }
    count
}

fn ends_line(byte: u8) -> bool
    ensures { result ≡ ends_line byte }
{
    byte == b'\r' || byte == b'\n'
}

/// Reads on to the end of a head that stands behind so many line ends.
fn find_end<L: Link>(ahead: &mut ReadAhead, link: &mut L, skipped: usize) -> Result<usize, Asked>
    requires begun { 0 < length ahead.old }
    requires few { skipped < head_limit }
    ensures found { IfOk result (λ count. Finds (opening_behind skipped) count
        ahead.old ahead.new (L.source link.old) (L.source link.new)) }
    ensures missed { IfErr result (λ asked. Misses (opening_behind skipped) asked
        ahead.old (L.source link.old) (L.source link.new)) }
{
    let mut scan = Scan::new();
    'ends: loop {
        match scan.look(ahead.as_slice(), skipped) {
            Sight::Whole(count) => return Ok(count),
            Sight::TooLong => return Err(Asked::Refused(RequestFault::HeadTooLarge)),
            Sight::Begun => {}
        }
        match ahead.fill(link) {
            Ok(0) => return Err(Asked::Cut),
            Ok(_) => {}
            Err(Failed) => return Err(Asked::ReadFault),
        }
    }
}

/// What the bytes before a place end in.
#[derive(Clone, Copy)]
enum Stage {
    Inside,
    LineEnd,
    /// A line end and a 13.
    Return,
    /// The empty line.
    Whole,
}

impl Stage {
    fn after(self, byte: u8) -> Stage
        ensures { result ≡ stage_after self byte }
    {
        match (self, byte) {
            (Stage::Whole, _) | (Stage::LineEnd | Stage::Return, b'\n') => Stage::Whole,
            (Stage::Inside, b'\n') => Stage::LineEnd,
            (Stage::LineEnd, b'\r') => Stage::Return,
            _ => Stage::Inside,
        }
    }

    fn is_whole(self) -> bool
        ensures { result ≡ is_whole self }
    {
        matches!(self, Stage::Whole)
    }
}

/// What stands in the bytes so far: a head of so many bytes, too many, or the beginning of one.
#[derive(Clone, Copy)]
enum Sight {
    Whole(usize),
    TooLong,
    Begun,
}

/// How far a head has been scanned. No byte is scanned twice.
#[derive(Drop)]
struct Scan {
    at: usize,
    lines: usize,
    stage: Stage,
}

impl Scan {
    fn new() -> Self
        ensures at { result.at ≡ 0 }
        ensures scanned { (text : List ℕ) → IsScanned (take 0 text) result.lines result.stage }
    {
        Scan {
            at: 0,
            lines: 0,
            stage: Stage::Inside,
        }
    }

    /// Scans on, and judges the text behind so many line ends.
    fn look(&mut self, text: &[u8], skipped: usize) -> Sight
        requires within { self.old.at ≤ length text.now }
        requires begun { 0 < length text.now }
        requires few { skipped < head_limit }
        requires scanned { IsScanned (take self.old.at text.now) self.old.lines self.old.stage }
        ensures within { self.new.at ≤ length text.now }
        ensures scanned { IsScanned (take self.new.at text.now) self.new.lines self.new.stage }
        ensures sight { IsSight result skipped text.now }
    {
        self.advance(text);
        if self.stage.is_whole() {
            if skipped + self.at <= HEAD_LIMIT && self.lines <= LINE_LIMIT {
                return Sight::Whole(self.at);
            }
            return Sight::TooLong;
        }
        if HEAD_LIMIT - skipped <= text.len() || LINE_LIMIT <= self.lines {
            return Sight::TooLong;
        }
        Sight::Begun
    }

    /// Scans to the end of the head, or of the text.
    fn advance(&mut self, text: &[u8])
        requires within { self.old.at ≤ length text.now }
        requires scanned { IsScanned (take self.old.at text.now) self.old.lines self.old.stage }
        ensures within { self.new.at ≤ length text.now }
        ensures scanned { IsScanned (take self.new.at text.now) self.new.lines self.new.stage }
        ensures done { (is_whole self.new.stage ≡ true) ⊎ (self.new.at ≡ length text.now) }
    {
        while !self.stage.is_whole() && self.at < text.len() {
            let byte = text[self.at];
            if byte == b'\n' {
                self.lines += 1;
            }
            self.stage = self.stage.after(byte);
            self.at += 1;
        }
    }
}
