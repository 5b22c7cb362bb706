ghost use Rattle.std.specs.Prelude.{◌≡◌, None, Some};
ghost use Rattle.vl_disk.specs.Faults.{HasCause};
ghost use Rattle.vl_space.specs.Sweeping.{PinsStay, SweepFailed, Sweeps, SweepsAs, at, up_to};

use crate::{Engine, SweepFail};
use vl_disk::Disk;
use vl_space::remove_file;

impl<D: Disk> Engine<D> {
    /// Removes the retired files that nothing holds any more, the earliest retired first, and answers how many went. A transaction, a
    /// view, a merge and a pass hold each file that was retired behind their beginning; nothing holds those of a merge that was given
    /// up. It wants no memory. Only behind a fault some of these files may be left, and then the engine is halted.
    pub fn sweep(&mut self) -> Result<u64, SweepFail>
        ensures { Sweeps D.Watched D.Writer.Writer D.Held.bytes None
            (at self.old.disk self.old.core self.old.merging self.old.removing self.old.collecting)
            (at self.new.disk self.new.core self.new.merging self.new.removing self.new.collecting) result }
    {
        self.sweep_up_to(None)
    }

    /// The same, where others may still look at each version from this number on: a file that was retired by a later one stays. It is
    /// a number of versions, of which each rotation, flush, install, and move of something makes one, and not of commits: the one at
    /// which a transaction, a view or a merge that others have began.
    pub fn sweep_to(&mut self, least: u64) -> Result<u64, SweepFail>
        ensures { Sweeps D.Watched D.Writer.Writer D.Held.bytes (Some least)
            (at self.old.disk self.old.core self.old.merging self.old.removing self.old.collecting)
            (at self.new.disk self.new.core self.new.merging self.new.removing self.new.collecting) result }
    {
        self.sweep_up_to(Some(least))
    }

    // The same, where there may be such a number.
    fn sweep_up_to(&mut self, least: Option<u64>) -> Result<u64, SweepFail>
        ensures as_swept { SweepsAs D.Watched D.Writer.Writer
            (up_to least self.old.core.back.epoch self.old.removing.pins) self.old.disk self.new.disk self.old.core
            self.new.core self.old.removing self.new.removing result }
        ensures cause { HasCause (D.faults self.old.disk) (D.faults self.new.disk) (SweepFailed result) }
        ensures merging { self.new.merging ≡ self.old.merging }
        ensures collecting { self.new.collecting ≡ self.old.collecting }
    {
        if let Some(name) = self.core.front.halted {
            return Err(SweepFail::Halted { name });
        }
        let bound = self.bound(least);
        let mut count = 0;
        while let Some(file) = self.removing.stock.take_up_to(bound) {
            match remove_file(&mut self.disk, file) {
                Ok(()) => count += 1,
                Err(name) => {
                    self.core.front.halted = Some(name);
                    return Err(SweepFail::Disk { name });
                }
            }
        }
        Ok(count)
    }

    // What was retired up to this number is held by nothing.
    fn bound(&mut self, least: Option<u64>) -> u64
        ensures bound { result ≡ up_to least self.old.core.back.epoch self.old.removing.pins }
        ensures pins { self.new.removing ≡ record self.old.removing { pins = self.new.removing.pins } }
        ensures raised { PinsStay self.old.core.back.epoch self.old.removing.pins self.new.removing.pins }
        ensures core { self.new.core ≡ self.old.core }
        ensures disk { self.new.disk ≡ self.old.disk }
        ensures merging { self.new.merging ≡ self.old.merging }
        ensures collecting { self.new.collecting ≡ self.old.collecting }
    {
        let bound = self.removing.pins.bound(self.core.back.epoch);
        match least {
            None => bound,
            Some(least) => least.min(bound),
        }
    }
}
