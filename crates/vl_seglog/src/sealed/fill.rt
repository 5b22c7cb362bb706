ghost use Rattle.std.specs.Prelude.{◌≡◌, ◌+◌, ◌<◌, ◌≤◌, ◌^◌, ◌↔◌, length, IsErrOf, IsTrue};
ghost use Rattle.vl_disk.specs.DiskState.{bytes_at};
ghost use Rattle.vl_seglog.specs.Answers.{Answers};
ghost use Rattle.vl_disk.specs.declared.read_fault.ReadFault.TheVariants as why;

use vl_disk::{HeldFile, Name, ReadFault, Reader};

/// Whether so many bytes from a place on are all in the file.
pub fn is_inside<H: HeldFile>(held: &H, place: u64, count: u64) -> bool
    ensures is { IsTrue result ↔ (place + count ≤ H.size held.now) }
    ensures fits { IsTrue result → place + count < 2 ^ 64 }
{
    let length = held.len();
    place <= length && count <= length - place
}

/// Fills a slice with the bytes of the log with this number, from a place on.
pub fn fill<H: HeldFile, R: Reader<Held = H>>(
    reader: &mut R,
    held: &H,
    number: u32,
    place: u64,
    out: &mut [u8],
) -> Result<(), ReadFault>
    requires { place + length out.old ≤ H.size held.now }
    ensures answers { Answers (R.faults reader.old) (R.faults reader.new) number (H.bytes held.now)
        (λ bytes done. out.new ≡ bytes_at place (length out.old) bytes) (λ bytes damage. ⊥) result }
    ensures no_memory { IsErrOf result why.NoMemory → ⊥ }
{
    match reader.read(held, place, out) {
        Ok(()) => Ok(()),
        Err(_) => Err(ReadFault::Disk {
            name: Name::Log(number),
        }),
    }
}
