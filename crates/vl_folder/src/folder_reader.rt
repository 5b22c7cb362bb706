ghost use Rattle.std.specs.Prelude.{◌+◌, ◌≤◌};
ghost use Rattle.vl_disk.specs.Faults.{IsNewCount};

use crate::held::FolderHeld;
use std::alloc::Global;
use std::fs::File;
use std::rt::Files;
use vl_disk::{Failed, Reader};

/// What reads the files that a folder shares.
#[derive(Drop)]
pub struct FolderReader<R> {
    rt: R,
    alloc: Global,
    faults: u64,
}

impl<R: Files<File = File>> FolderReader<R> {
    #[tactic(auto, using(vl_disk::specs::laws::Counting::counts_from_zero))]
    pub fn new(rt: R, alloc: Global) -> Self
        ensures { IsNewCount ⊥ (⟦<FolderReader<R> as Reader>⟧.faults result) }
    {
        FolderReader {
            rt,
            alloc,
            faults: 0,
        }
    }
}

impl<R: Files<File = File>> Reader for FolderReader<R> {
    type Held = FolderHeld;

    ghost faults = { λ reader. reader.faults };

    fn read(&mut self, held: &FolderHeld, place: u64, out: &mut [u8]) -> Result<(), Failed> {
        if let Err(trouble) = held.read(&self.rt, self.alloc, place, out) {
            self.faults = self.faults.saturating_add(1);
            held.note(trouble);
            return Err(Failed);
        }
        Ok(())
    }
}
