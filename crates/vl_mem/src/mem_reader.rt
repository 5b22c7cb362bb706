ghost use Rattle.std.specs.Prelude.{◌≡◌, ◌+◌, ◌≤◌, length, OnOk, OnErr, IsErr};
ghost use Rattle.vl_disk.specs.DiskState.{bytes_at};
ghost use Rattle.vl_disk.specs.FaultPlan.{Follows};
ghost use Rattle.vl_disk.specs.Faults.{HasCause};
ghost use Rattle.vl_mem.specs.Held.{held_bytes};

use crate::held::MemHeld;
use crate::read::read_bytes;
use vl_disk::{Failed, FaultPlan, HeldFile, Reader};

/// What reads the files that a disk in memory shares.
#[derive(Drop)]
pub struct MemReader {
    plan: FaultPlan,
}

impl MemReader {
    ghost use Rattle.vl_mem.specs.MemDisk.{reads_by};

    /// A reader whose reads fail that are listed.
    pub fn new(plan: FaultPlan) -> Self
        ensures { reads_by result ≡ plan }
    {
        MemReader { plan }
    }
}

impl Reader for MemReader {
    ghost use Rattle.std.specs.Option.{ForSome};
    ghost use Rattle.vl_mem.specs.MemDisk.{reads_by};
    ghost use Rattle.vl_mem.specs.Steady.{count_of};

    type Held = MemHeld;

    ghost faults = { λ reader. count_of (reads_by reader) };

    #[tactic(auto, using(crate::specs::Steady::count_cause))]
    fn read(&mut self, held: &MemHeld, place: u64, out: &mut [u8]) -> Result<(), Failed>
        requires { place + length out.old ≤ length (held_bytes held.now) }
        ensures bytes { OnOk result (ForSome (⟦<MemHeld as HeldFile>⟧.bytes held.now)
            (λ bytes. out.new ≡ bytes_at place (length out.old) bytes)) }
        ensures cause { HasCause (count_of (reads_by self.old)) (count_of (reads_by self.new)) (IsErr result) }

        // It fails exactly if it is due, and then reads nothing.
        ensures plan { Follows (reads_by self.old) (reads_by self.new) (IsErr result) }
        ensures nothing { OnErr result (out.new ≡ out.old) }
    {
        if self.plan.fails() {
            return Err(Failed);
        }
        read_bytes(held.bytes(), place as usize, out);
        Ok(())
    }
}
