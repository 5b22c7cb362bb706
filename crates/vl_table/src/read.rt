//! How bytes of a table are read, and some of them ahead.

ghost use Rattle.std.specs.Prelude.{◌≡◌, ◌+◌, ◌≤◌, ℕ, List, length, IsFalse, IsTrue};
ghost use Rattle.vl_disk.specs.DiskState.{bytes_at};
ghost use Rattle.vl_table.specs.Answers.{Answers, NeedsNoMemory};
ghost use Rattle.vl_table.specs.ReadAhead.{AheadOf, IsAhead};

use std::alloc::Global;
use vl_disk::{HeldFile, Name, ReadFault, Reader};

/// Bytes of a table from a place on, which were read before each of them is asked for.
#[derive(Drop)]
pub struct Ahead {
    pub place: u64,
    pub bytes: Vec<u8>,
}

impl Ahead {
    /// No bytes.
    pub fn none(alloc: Global) -> Self
        ensures { (bytes : List ℕ) → AheadOf bytes result }
    {
        Ahead {
            place: 0,
            bytes: Vec::new(alloc),
        }
    }

    // Fills a slice with the bytes from a place on, and says whether it has them.
    fn fill(&self, place: u64, out: &mut [u8]) -> bool
        ensures filled { IsTrue result → (bytes : List ℕ) → AheadOf bytes self.now → out.new ≡ bytes_at place (length out.old) bytes }
        ensures left { IsFalse result → out.new ≡ out.old }
    {
        if place < self.place {
            return false;
        }
        let past = place - self.place;
        let len = self.bytes.len() as u64;
        if past > len || out.len() as u64 > len - past {
            return false;
        }
        let first = past as usize;
        out.copy_from_slice(&self.bytes[first..first + out.len()]);
        true
    }
}

/// Reads so many bytes of the table with this number, from a place on, ahead.
pub fn read_ahead<H: HeldFile, R: Reader<Held = H>>(
    alloc: Global,
    reader: &mut R,
    held: &H,
    number: u32,
    place: u64,
    count: u64,
) -> Result<Ahead, ReadFault>
    requires { place + count ≤ H.size held.now }
    ensures { Answers (R.faults reader.old) (R.faults reader.new) number (H.bytes held.now) AheadOf (λ bytes damage. ⊥) result }
{
    let bytes = read_bytes(
        alloc,
        reader,
        held,
        &Ahead::none(alloc),
        number,
        place,
        count,
    )?;
    Ok(Ahead { place, bytes })
}

/// So many bytes of the table with this number, from a place on.
pub fn read_bytes<H: HeldFile, R: Reader<Held = H>>(
    alloc: Global,
    reader: &mut R,
    held: &H,
    ahead: &Ahead,
    number: u32,
    place: u64,
    count: u64,
) -> Result<Vec<u8>, ReadFault>
    requires inside { place + count ≤ H.size held.now }
    requires ahead { IsAhead (H.bytes held.now) ahead.now }
    ensures { Answers (R.faults reader.old) (R.faults reader.new) number (H.bytes held.now)
        (λ bytes read. read.items ≡ bytes_at place count bytes) (λ bytes damage. ⊥) result }
{
    let mut bytes = Vec::new(alloc);
    bytes.resize(count as usize, 0)?;
    fill_from(reader, held, ahead, number, place, &mut bytes)?;
    Ok(bytes)
}

/// Fills a slice with the bytes of the table with this number, from a place on. They aren't read again where they were read
/// ahead.
pub fn fill_from<H: HeldFile, R: Reader<Held = H>>(
    reader: &mut R,
    held: &H,
    ahead: &Ahead,
    number: u32,
    place: u64,
    out: &mut [u8],
) -> Result<(), ReadFault>
    requires inside { place + length out.old ≤ H.size held.now }
    requires ahead { IsAhead (H.bytes held.now) ahead.now }
    ensures answers { Answers (R.faults reader.old) (R.faults reader.new) number (H.bytes held.now)
        (λ bytes done. out.new ≡ bytes_at place (length out.old) bytes) (λ bytes damage. ⊥) result }
{
    if ahead.fill(place, out) {
        return Ok(());
    }
    fill(reader, held, number, place, out)
}

/// Fills a slice with the bytes of the table with this number, from a place on. It wants no memory.
pub fn fill<H: HeldFile, R: Reader<Held = H>>(
    reader: &mut R,
    held: &H,
    number: u32,
    place: u64,
    out: &mut [u8],
) -> Result<(), ReadFault>
    requires { place + length out.old ≤ H.size held.now }
    ensures answers { Answers (R.faults reader.old) (R.faults reader.new) number (H.bytes held.now)
        (λ bytes done. out.new ≡ bytes_at place (length out.old) bytes) (λ bytes damage. ⊥) result }
    ensures no_memory { NeedsNoMemory result }
{
    match reader.read(held, place, out) {
        Ok(()) => Ok(()),
        Err(_) => Err(ReadFault::Disk {
            name: Name::Table(number),
        }),
    }
}
