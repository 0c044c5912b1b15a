//! A disk in memory.
ghost use Rattle.std.specs.Prelude.{◌≡◌, ◌≤◌, ◌+◌, ◌<◌, ◌^◌, ◌↔◌, true, false, if◌then◌else◌, ℕ, nat_eq, List, [], ◌∷◌, max, length, reverse, vec_len, vec_capacity, IsTrue, IsErr, IfOk, OnOk, OnErr};
ghost use Rattle.std.specs.List.{All};
ghost use Rattle.outside.specs.Memory.{fails_next, after_call};
ghost use Rattle.disk_model.specs.Disk.{Stays, Fails, Reads, Writes, FailsToWrite, Torn, Same, Elapses, IsDurable, written};
ghost use Rattle.disk_model.specs.Memory.{after_write, content_of, left_by, torn_bytes, torn_piece, kept_by, is_synced, with_sync, state_of, left_since, FitsIn, HasWriteFault, IsLeft};
ghost use Rattle.disk_model.specs.declared.call.DiskCall.{DiskCall as Call};
ghost use Rattle.disk_model.specs.declared.call.DiskCall.TheVariants.{Wrote, Synced};

use crate::call::DiskCall;
use crate::disk::Disk;
use outside::{Failed, FailurePlan, raise};
use std::alloc::{AllocError, Global};
use std::marker::Model;

/// A disk in memory, some of whose calls fail. It remembers its writes and syncs, and with them
/// what a crash may leave. A sync that follows a sync is not remembered apart.
#[derive(Drop)]
pub struct MemDisk {
    alloc: Global,
    bytes: Vec<u8>,
    calls: Vec<DiskCall>,
    room: usize,
    plan: FailurePlan,
    faults: u64,
    short_of_memory: bool,
}

impl Model for MemDisk {
    ghost use Rattle.std.specs.Prelude.{◌≡◌, ◌≤◌, ◌<◌, false, reverse, vec_len, vec_capacity};
    ghost use Rattle.std.specs.List.{All};
    ghost use Rattle.disk_model.specs.Memory.{MemoryDisk, content_of, is_synced, FitsIn};

    ghost Value = { MemoryDisk };

    ghost view = { λ d. record {
      calls = reverse d.calls.items;
      room = d.room;
      plan = d.plan;
      faults = d.faults;
      short_of_memory = d.short_of_memory;
    } };

    ghost invariant = { λ d. (content_of (reverse d.calls.items) ≡ d.bytes.items)
        × (vec_len d.bytes ≤ d.room) × (d.room ≤ vec_capacity d.bytes)
        × All (FitsIn d.room) d.calls.items
        × (is_synced (reverse d.calls.items) ≡ false → vec_len d.calls < vec_capacity d.calls) };
}

impl MemDisk {
    /// An empty disk with room for `room` bytes. A write past it fails and writes nothing. The
    /// calls whose numbers are in `failing` fail too, counted from 0; a write of them is cut short
    /// where a crash follows.
    pub fn new(alloc: Global, room: usize, failing: Vec<u64>) -> Result<Self, AllocError>
        ensures { IfOk result (λ disk. disk ≡ record {
          calls = [];
          room = room;
          plan = record { failing = failing.items; calls = 0 };
          faults = 0;
          short_of_memory = false;
        }) }
    {
        Ok(MemDisk {
            alloc,
            bytes: Vec::with_capacity(alloc, room)?,
            calls: Vec::with_capacity(alloc, 1)?,
            room,
            plan: FailurePlan::new(failing),
            faults: 0,
            short_of_memory: false,
        })
    }

    /// The disk as a crash at this moment may leave it, with no calls that are to fail. The number
    /// tears the newest write where no sync followed it: bit `index % 3` says which of its bytes are
    /// others, and bits 1 to 8 what they are; bits 9 and 10 whether what it added past the end is
    /// kept whole (0), by half (1) or not at all. The bits above tear the write before it in the
    /// same way, and so on. The number 0 tears nothing.
    pub fn crashed(self, number: u64) -> MemDisk
        ensures left { IsLeft self result }
        ensures chosen { content_of result.calls ≡ left_by number self.calls }
    {
        let MemDisk {
            alloc,
            mut bytes,
            mut calls,
            room,
            mut plan,
            ..
        } = self;
        plan.clear();
        leave(&mut calls, &mut bytes, room, number);
        calls.push_reserved(DiskCall::Synced);
        MemDisk {
            alloc,
            bytes,
            calls,
            room,
            plan,
            faults: 0,
            short_of_memory: false,
        }
    }

    /// Whether the newest call failed for want of memory for its record. Only a write can.
    pub fn short_of_memory(&self) -> bool
        ensures { result ≡ self.now.short_of_memory }
    {
        self.short_of_memory
    }
}

impl Disk for MemDisk {
    ghost use Rattle.disk_model.specs.Memory as memory;
    ghost use Rattle.disk_model.specs.Images as images;

    ghost disk = { memory.state_of };

    ghost left_since = { memory.left_since };

    /// Fails exactly as it is planned.
    fn size(&mut self) -> Result<u64, Failed>
        ensures told { IfOk result (λ size. size ≡ (state_of self.old).size) }
        ensures done { OnOk result (Stays (state_of self.old) (state_of self.new)) }
        ensures fails { OnErr result (Fails (state_of self.old) (state_of self.new)) }
        ensures crash { Elapses state_of left_since Same self.old self.new }

        ensures planned { IsErr result ↔ IsTrue (fails_next self.old.plan) }
        ensures rest { self.new ≡ record self.old {
          plan = after_call self.old.plan;
          faults = self.new.faults;
          short_of_memory = false;
        } }
    {
        self.short_of_memory = false;
        if self.plan.next_fails() {
            return Err(raise(&mut self.faults));
        }
        Ok(self.bytes.len() as u64)
    }

    /// Fails exactly as it is planned.
    fn read_at(&mut self, at: u64, into: &mut [u8]) -> Result<(), Failed>
        requires inside { at + length into.old ≤ (state_of self.old).size }
        ensures done { OnOk result (Reads at into.new (state_of self.old) (state_of self.new)) }
        ensures fails { OnErr result (Fails (state_of self.old) (state_of self.new)) }
        ensures crash { Elapses state_of left_since Same self.old self.new }

        ensures planned { IsErr result ↔ IsTrue (fails_next self.old.plan) }
        ensures rest { self.new ≡ record self.old {
          plan = after_call self.old.plan;
          faults = self.new.faults;
          short_of_memory = false;
        } }
    {
        self.short_of_memory = false;
        if self.plan.next_fails() {
            return Err(raise(&mut self.faults));
        }
        let at = at as usize;
        into.copy_from_slice(&self.bytes[at..at + into.len()]);
        Ok(())
    }

    /// Fails as it is planned, past the room, and where its record finds no memory. Such a write
    /// does nothing, but a crash may tear one that was planned to fail.
    fn write_at(&mut self, at: u64, piece: &[u8]) -> Result<(), Failed>
        requires no_gap { at ≤ (state_of self.old).size }
        requires low { at + length piece.now ≤ 2 ^ 40 }
        ensures done { OnOk result (Writes at piece.now (state_of self.old) (state_of self.new)) }
        ensures fails { OnErr result
            (FailsToWrite at (length piece.now) (state_of self.old) (state_of self.new)) }
        ensures crash { Elapses state_of left_since (Torn at (length piece.now)) self.old self.new }

        ensures planned { IsErr result ↔ HasWriteFault at (length piece.now) self.old self.new }
        ensures undone { OnErr result (content_of self.new.calls ≡ content_of self.old.calls) }
        ensures rest { self.new ≡ record self.old {
          calls = self.new.calls;
          plan = after_call self.old.plan;
          faults = self.new.faults;
          short_of_memory = self.new.short_of_memory;
        } }
    {
        self.short_of_memory = false;
        let fails = self.plan.next_fails();
        if piece.len() > self.room - at as usize {
            return Err(raise(&mut self.faults));
        }
        let Ok(()) = note_write(&mut self.calls, self.alloc, at, piece, !fails) else {
            self.short_of_memory = true;
            return Err(raise(&mut self.faults));
        };
        if fails {
            return Err(raise(&mut self.faults));
        }
        overwrite(&mut self.bytes, at as usize, piece);
        Ok(())
    }

    /// Fails exactly as it is planned.
    fn sync(&mut self) -> Result<(), Failed>
        ensures done { OnOk result (Stays (state_of self.old) (state_of self.new)) }
        ensures durable { OnOk result (IsDurable state_of left_since self.new) }
        ensures fails { OnErr result (Fails (state_of self.old) (state_of self.new)) }
        ensures crash { Elapses state_of left_since Same self.old self.new }

        ensures planned { IsErr result ↔ IsTrue (fails_next self.old.plan) }
        ensures recorded { OnOk result (self.new.calls ≡ with_sync self.old.calls) }
        ensures undone { OnErr result (self.new.calls ≡ self.old.calls) }
        ensures rest { self.new ≡ record self.old {
          calls = self.new.calls;
          plan = after_call self.old.plan;
          faults = self.new.faults;
          short_of_memory = false;
        } }
    {
        self.short_of_memory = false;
        if self.plan.next_fails() {
            return Err(raise(&mut self.faults));
        }
        if !ends_in_sync(&self.calls) {
            self.calls.push_reserved(DiskCall::Synced);
        }
        Ok(())
    }

    fn faults(&self) -> u64 {
        self.faults
    }

    ghost told_size = { images.told_size };

    ghost told_left = { images.told_left };

    ghost counts_now = { images.counts_now };
}

/// Whether the newest call is a sync.
fn ends_in_sync(calls: &[DiskCall]) -> bool
    ensures { result ≡ is_synced (reverse calls.now) }
{
    matches!(calls.last(), Some(DiskCall::Synced))
}

/// Notes a write. Without memory for it nothing changes.
fn note_write(
    calls: &mut Vec<DiskCall>,
    alloc: Global,
    at: u64,
    piece: &[u8],
    done: bool,
) -> Result<(), AllocError>
    ensures noted { OnOk result ((copy : _) × (copy.items ≡ piece.now)
        × (reverse calls.new.items ≡ Wrote at copy done ∷ reverse calls.old.items)) }
    ensures unchanged { OnErr result (calls.new.items ≡ calls.old.items) }
    ensures fit { OnOk result ((room : ℕ) → at + length piece.now ≤ room
        → All (FitsIn room) calls.old.items → All (FitsIn room) calls.new.items) }
    ensures spare { OnOk result (vec_len calls.new < vec_capacity calls.new) }
    ensures capacity { vec_capacity calls.old ≤ vec_capacity calls.new }
{
    let copy = piece.to_vec(alloc)?;
    // One place more than this call needs, so that a crash can note its sync.
    calls.reserve(2)?;
    calls.push_reserved(DiskCall::Wrote {
        at,
        piece: copy,
        done,
    });
    Ok(())
}

/// Writes a piece over bytes, and past their end.
fn overwrite(bytes: &mut Vec<u8>, at: usize, piece: &[u8])
    requires no_gap { at ≤ vec_len bytes.old }
    requires room { max (vec_len bytes.old) (at + length piece.now) ≤ vec_capacity bytes.old }
    ensures written { bytes.new.items ≡ written at piece.now bytes.old.items }
    ensures size { vec_len bytes.new ≡ max (vec_len bytes.old) (at + length piece.now) }
    ensures capacity { vec_capacity bytes.old ≤ vec_capacity bytes.new }
{
    let inside = piece.len().min(bytes.len() - at);
    bytes[at..at + inside].copy_from_slice(&piece[..inside]);
    let _ = bytes.extend_from_slice(&piece[inside..]);
}

/// Writes a piece over bytes where it leaves no gap.
fn overwrite_if_no_gap(bytes: &mut Vec<u8>, at: u64, piece: &[u8], room: usize)
    requires inside { at + length piece.now ≤ room }
    requires room { (vec_len bytes.old ≤ room) × (room ≤ vec_capacity bytes.old) }
    ensures written { bytes.new.items ≡ after_write at piece.now true bytes.old.items }
    ensures room { (vec_len bytes.new ≤ room) × (room ≤ vec_capacity bytes.new) }
{
    if at <= bytes.len() as u64 {
        overwrite(bytes, at as usize, piece);
    }
}

/// Makes of bytes what reads give after these calls.
fn replay(calls: &[DiskCall], bytes: &mut Vec<u8>, room: usize)
    requires fit { All (FitsIn room) calls.now }
    requires room { room ≤ vec_capacity bytes.old }
    ensures content { bytes.new.items ≡ content_of (reverse calls.now) }
    ensures room { (vec_len bytes.new ≤ room) × (room ≤ vec_capacity bytes.new) }
{
    bytes.clear();
    for call in calls {
        redo(call, bytes, room);
    }
}

/// Does a call again.
#[tactic(auto, unfolding(crate::specs::Memory::content_of))]
fn redo(call: &DiskCall, bytes: &mut Vec<u8>, room: usize)
    requires fits { FitsIn room call.now }
    requires room { (vec_len bytes.old ≤ room) × (room ≤ vec_capacity bytes.old) }
    ensures content { (calls : List Call) → bytes.old.items ≡ content_of calls
        → bytes.new.items ≡ content_of (call.now ∷ calls) }
    ensures room { (vec_len bytes.new ≤ room) × (room ≤ vec_capacity bytes.new) }
{
    let DiskCall::Wrote {
        at,
        piece,
        done: true,
    } = call
    else {
        return;
    };
    overwrite_if_no_gap(bytes, *at, piece, room);
}

/// Makes of calls and of bytes what a crash with this number leaves. A sync that is the newest call
/// is taken from them.
#[cycle(leaving)]
fn leave(calls: &mut Vec<DiskCall>, bytes: &mut Vec<u8>, room: usize, number: u64)
    requires fit { All (FitsIn room) calls.old.items }
    requires room { room ≤ vec_capacity bytes.old }
    ensures content { content_of (reverse calls.new.items) ≡ bytes.new.items }
    ensures left { bytes.new.items ≡ left_by number (reverse calls.old.items) }
    ensures fit { All (FitsIn room) calls.new.items }
    ensures room { (vec_len bytes.new ≤ room) × (room ≤ vec_capacity bytes.new) }
    ensures no_more { (vec_capacity calls.new ≡ vec_capacity calls.old)
        × (vec_len calls.new ≤ vec_len calls.old) }
    ensures fewer { is_synced (reverse calls.old.items) ≡ true
        → vec_len calls.new < vec_len calls.old }
{
    match calls.pop() {
        Some(DiskCall::Wrote { at, piece, .. }) => {
            leave_earlier(calls, bytes, room, number / 2048);
            let torn = tear(piece, bytes.len().saturating_sub(at as usize), number);
            overwrite_if_no_gap(bytes, at, &torn, room);
            calls.push_reserved(DiskCall::Wrote {
                at,
                piece: torn,
                done: true,
            });
        }
        Some(DiskCall::Synced) => replay(calls, bytes, room),
        None => replay(calls, bytes, room),
    }
}

/// The same of the calls before a write that is torn, which the number 0 leaves as they are.
#[cycle(leaving)]
fn leave_earlier(calls: &mut Vec<DiskCall>, bytes: &mut Vec<u8>, room: usize, number: u64)
    requires fit { All (FitsIn room) calls.old.items }
    requires room { room ≤ vec_capacity bytes.old }
    ensures content { content_of (reverse calls.new.items) ≡ bytes.new.items }
    ensures left { bytes.new.items ≡ (if nat_eq number 0
        then content_of (reverse calls.old.items) else left_by number (reverse calls.old.items)) }
    ensures fit { All (FitsIn room) calls.new.items }
    ensures room { (vec_len bytes.new ≤ room) × (room ≤ vec_capacity bytes.new) }
    ensures no_more { (vec_capacity calls.new ≡ vec_capacity calls.old)
        × (vec_len calls.new ≤ vec_len calls.old) }
{
    if number == 0 {
        replay(calls, bytes, room);
    } else {
        leave(calls, bytes, room, number);
    }
}

/// Tears a piece of which so many bytes stand before the old end.
fn tear(mut piece: Vec<u8>, inside: usize, number: u64) -> Vec<u8>
    ensures { result.items ≡ torn_piece number inside piece.items }
{
    tear_bytes(&mut piece, number);
    let grown = piece.len().saturating_sub(inside);
    piece.truncate(inside.saturating_add(kept_length(number / 512 % 4, grown)));
    piece
}

fn tear_bytes(piece: &mut [u8], number: u64)
    ensures { piece.new ≡ torn_bytes number piece.old }
{
    for (index, byte) in piece.iter_mut().enumerate() {
        if (number >> (index % 3)) % 2 == 1 {
            *byte = (number / 2 % 256) as u8;
        }
    }
}

fn kept_length(cut: u64, grown: usize) -> usize
    ensures { result ≡ kept_by cut grown }
{
    match cut {
        0 => grown,
        1 => grown / 2,
        _ => 0,
    }
}
