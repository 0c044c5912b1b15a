//! Reads of a log's file. None of them writes.
ghost use Rattle.std.specs.Prelude.{◌≡◌, ◌≤◌, ◌<◌, ◌+◌, ◌∷◌, [], ◌++◌, length, take, drop, Err, IfSome, IfOk, IfErr, OnOk, OnErr, bytes_eq};
ghost use Rattle.std.specs.Int.{w32, to_le_bytes, from_le_bytes, IsInRange};
ghost use Rattle.outside.specs.Stream.{Rises};
ghost use Rattle.disk_model.specs.Disk.{IsQuiet};
ghost use Rattle.explorer_model.specs.StoreFile.{magic, header, gate_limit};
ghost use Rattle.record_log.specs.Log.{reading_of};
ghost use Rattle.record_log.specs.Reading.{IsStop, IsNumberAt, IsBadCount, IsDamaged, StandsAt, Fits};

use crate::format::Format;
use crate::stop::ReadStop;
use disk_model::Disk;
use explorer_model::archive::Bytes;
use explorer_model::store::LogFault;
use outside::Failed;
use std::alloc::Global;

/// No gate stands further.
const GATE_LIMIT: u64 = 1 << 39;

/// Reads the twelve bytes before the first gate.
pub(crate) fn read_header<D: Disk>(disk: &mut D, size: u64, format: Format) -> Result<(), ReadStop>
    requires size { size ≡ (D.disk disk.old).size }
    ensures quiet { IsQuiet D.disk D.left_since disk.old disk.new }
    ensures no_fault { OnOk result ((D.disk disk.new).faults ≡ (D.disk disk.old).faults) }
    ensures long { OnOk result (12 < size) }
    ensures header { OnOk result (IfSome (D.disk disk.old).content
        (λ file. file ≡ header format.number ++ drop 12 file)) }
    ensures stops { IfErr result (λ stop. IsStop
        (λ fault file. reading_of format file ≡ Err fault)
        stop (D.disk disk.old) (D.disk disk.new)) }
{
    if size < 13 {
        return Err(ReadStop::Log(LogFault::NotALog));
    }
    let mut first = [0; 8];
    disk.read_at(0, &mut first)?;
    if !is_magic(&first) {
        return Err(ReadStop::Log(LogFault::NotALog));
    }
    let number = read_number(disk, 8)?;
    if number != format.number {
        return Err(ReadStop::Log(LogFault::OtherFormat { number }));
    }
    Ok(())
}

/// Reads the record at a gate, where it is open.
pub(crate) fn read_record<D: Disk>(
    alloc: Global,
    disk: &mut D,
    size: u64,
    gate: u64,
    most: u32,
) -> Result<Option<Bytes>, ReadStop>
    requires size { size ≡ (D.disk disk.old).size }
    requires inside { gate < size }
    requires low { gate ≤ gate_limit }
    ensures quiet { IsQuiet D.disk D.left_since disk.old disk.new }
    ensures no_fault { OnOk result ((D.disk disk.new).faults ≡ (D.disk disk.old).faults) }
    ensures found { IfOk result (λ next. IfSome (D.disk disk.old).content (StandsAt gate next)) }
    ensures fits { IfOk result (λ next. IfSome next (Fits most gate size)) }
    ensures stops { IfErr result (λ stop.
        IsStop (IsDamaged most gate) stop (D.disk disk.old) (D.disk disk.new)) }
{
    if read_gate(disk, gate)? != 1 {
        return Ok(None);
    }
    let count = read_count(disk, size, gate, most)?;
    let payload = read_bytes(alloc, disk, gate + 5, count)?;
    Ok(Some(Bytes::from_vec(payload)))
}

fn is_magic(bytes: &[u8; 8]) -> bool
    ensures { result ≡ bytes_eq bytes.now magic }
{
    *bytes == *b"OPENEXP1"
}

fn read_gate<D: Disk>(disk: &mut D, gate: u64) -> Result<u8, Failed>
    requires { gate < (D.disk disk.old).size }
    ensures quiet { IsQuiet D.disk D.left_since disk.old disk.new }
    ensures no_fault { OnOk result ((D.disk disk.new).faults ≡ (D.disk disk.old).faults) }
    ensures byte { IfOk result (λ byte. IfSome (D.disk disk.old).content
        (λ file. take 1 (drop gate file) ≡ byte ∷ [])) }
    ensures fails { OnErr result (Rises (D.disk disk.old).faults (D.disk disk.new).faults) }
{
    let mut byte = [0];
    disk.read_at(gate, &mut byte)?;
    Ok(byte[0])
}

/// Reads the number in the four bytes at a place.
fn read_number<D: Disk>(disk: &mut D, at: u64) -> Result<u32, Failed>
    requires { at + 4 ≤ (D.disk disk.old).size }
    ensures quiet { IsQuiet D.disk D.left_since disk.old disk.new }
    ensures no_fault { OnOk result ((D.disk disk.new).faults ≡ (D.disk disk.old).faults) }
    ensures number { IfOk result (λ number.
        IfSome (D.disk disk.old).content (IsNumberAt at number)) }
    ensures fails { OnErr result (Rises (D.disk disk.old).faults (D.disk disk.new).faults) }
{
    let mut bytes = [0; 4];
    disk.read_at(at, &mut bytes)?;
    Ok(number_of(bytes))
}

fn number_of(bytes: [u8; 4]) -> u32
    ensures is { result ≡ from_le_bytes w32 bytes }
    ensures back { to_le_bytes w32 result ≡ bytes }
{
    u32::from_le_bytes(bytes)
}

/// Reads the length behind an open gate, which is allowed where the whole record and the next gate
/// are in the file.
fn read_count<D: Disk>(disk: &mut D, size: u64, gate: u64, most: u32) -> Result<u32, ReadStop>
    requires size { size ≡ (D.disk disk.old).size }
    requires inside { gate < size }
    requires low { gate ≤ gate_limit }
    ensures quiet { IsQuiet D.disk D.left_since disk.old disk.new }
    ensures no_fault { OnOk result ((D.disk disk.new).faults ≡ (D.disk disk.old).faults) }
    ensures number { IfOk result (λ count.
        IfSome (D.disk disk.old).content (IsNumberAt (gate + 1) count)) }
    ensures fits { IfOk result (λ count. IsInRange 1 most count
        × (gate + 5 + count < size) × (gate + 5 + count ≤ gate_limit)) }
    ensures stops { IfErr result (λ stop.
        IsStop (IsBadCount most gate) stop (D.disk disk.old) (D.disk disk.new)) }
{
    let damaged = ReadStop::Log(LogFault::Damaged { at: gate });
    if size - gate < 5 {
        return Err(damaged);
    }
    let count = read_number(disk, gate + 1)?;
    let next = gate + 5 + u64::from(count);
    if count == 0 || count > most || next >= size || next > GATE_LIMIT {
        return Err(damaged);
    }
    Ok(count)
}

/// Reads so many bytes at a place.
fn read_bytes<D: Disk>(
    alloc: Global,
    disk: &mut D,
    at: u64,
    count: u32,
) -> Result<Vec<u8>, ReadStop>
    requires { at + count ≤ (D.disk disk.old).size }
    ensures quiet { IsQuiet D.disk D.left_since disk.old disk.new }
    ensures no_fault { OnOk result ((D.disk disk.new).faults ≡ (D.disk disk.old).faults) }
    ensures size { IfOk result (λ bytes. length bytes.items ≡ count) }
    ensures bytes { IfOk result (λ bytes. IfSome (D.disk disk.old).content
        (λ file. bytes.items ≡ take count (drop at file))) }
    ensures stops { IfErr result (λ stop.
        IsStop (λ _ _. ⊥) stop (D.disk disk.old) (D.disk disk.new)) }
{
    let mut bytes = vec![in alloc; 0; count as usize]?;
    disk.read_at(at, &mut bytes)?;
    Ok(bytes)
}
