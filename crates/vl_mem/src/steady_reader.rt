ghost use Rattle.std.specs.Prelude.{◌≡◌, ◌+◌, ◌≤◌, length, OnOk, IsErr};
ghost use Rattle.vl_disk.specs.DiskState.{bytes_at};
ghost use Rattle.vl_disk.specs.Faults.{HasCause};
ghost use Rattle.vl_mem.specs.Held.{held_bytes};

use crate::held::MemHeld;
use crate::read::read_bytes;
use vl_disk::{Failed, HeldFile, Reader};

/// What reads the files that a disk in memory shares, and never fails.
#[derive(Drop)]
pub struct SteadyReader {}

impl Reader for SteadyReader {
    ghost use Rattle.vl_disk.specs.Faults.{never};

    type Held = MemHeld;

    ghost faults = { λ _. never };

    fn read(&mut self, held: &MemHeld, place: u64, out: &mut [u8]) -> Result<(), Failed> {
        read_bytes(held.bytes(), place as usize, out);
        Ok(())
    }
}
