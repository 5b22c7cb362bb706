ghost use Rattle.std.specs.Prelude.{◌≡◌, ℕ, is_some, true};
ghost use Rattle.vl_space.specs.Sweeping.{SweepFailed, sweep_outcome};
ghost use Rattle.vl_engine_model.specs.Rulings.Sweep.{sweep_ruling};
ghost use Rattle.vl_engine_model.specs.declared.layout.Layout.{Layout};
ghost use Rattle.vl_engine_model.specs.declared.lock_history.LockStep.{LockStep};
ghost use Rattle.vlstore.specs.Counting.{WasCounted};
ghost use Rattle.vlstore.specs.Entries.{done_by, sweep_done, sweep_entry};
ghost use Rattle.vlstore.specs.Knowing.{GoesOn, KeepsOwnMerge, Stepped};
ghost use Rattle.vlstore.specs.Standing.{NeverFails};

use super::Session;
use super::finish::finish;
use std::marker::Brand;
use std::snapshot::Snapshot;
use std::sync::Wait;
use vl_disk::Disk;
use vl_engine::{Engine, SweepFail};

impl<D: Disk> Session<D> {
    /// Removes the retired files that nothing holds any more, the earliest retired first, and answers how many
    /// went. What any session has begun, and has not given back, holds each file that was retired since. It
    /// wants no memory. `Disk { name }` halts the store: some of the files may have gone. `Halted { name }`: it
    /// is halted, and none was tried.
    pub fn sweep<R: Wait>(&mut self, rt: &R) -> Result<u64, SweepFail>
        ensures on { GoesOn self.old self.new }
        ensures merge { KeepsOwnMerge self.old self.new }
        // Where the disk fails, so many of the files have gone.
        ensures steps { self.old.tells ≡ true → (gone : ℕ)
            × Stepped (NeverFails D.faults D.Reader.faults D.Writer.faults) self.old self.new
            sweep_ruling (sweep_entry gone) (sweep_outcome result) }
        // Over any disk, it fails only where the disk counted that.
        ensures cause { SweepFailed result → WasCounted D.faults }
    {
        let lock = &*self.lock;
        let mut turn = lock.take(rt, &mut self.token);
        let locked = turn.value();
        let asked = Snapshot::of(&locked.engine);
        let answer = locked.engine.sweep();
        let enters = has_swept(&answer);
        finish::<_, Brand, _, _, _>(lock, rt, turn, &asked, &answer, enters);
        answer
    }
}

// Whether the layout was changed.
fn has_swept(answer: &Result<u64, SweepFail>) -> bool
    ensures { (next : Layout) (failed : LockStep × Layout)
        → result ≡ is_some (done_by (sweep_done next) failed (sweep_outcome answer.now)) }
{
    match answer {
        Ok(count) => *count > 0,
        Err(fail) => matches!(fail, SweepFail::Disk { .. }),
    }
}
