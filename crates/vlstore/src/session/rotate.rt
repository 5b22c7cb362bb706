ghost use Rattle.std.specs.Prelude.{◌≡◌, is_some, true};
ghost use Rattle.vl_steps.specs.Stepping.{StepFailed, step_outcome};
ghost use Rattle.vl_engine_model.specs.Rulings.Rotate.{rotate_ruling};
ghost use Rattle.vl_engine_model.specs.declared.layout.Layout.{Layout};
ghost use Rattle.vl_engine_model.specs.declared.lock_history.LockStep.{LockStep};
ghost use Rattle.vlstore.specs.Counting.{WasCounted};
ghost use Rattle.vlstore.specs.Entries.{done_by, rotate_entry, step_done};
ghost use Rattle.vlstore.specs.Knowing.{GoesOn, KeepsOwnMerge, Stepped};
ghost use Rattle.vlstore.specs.Standing.{NeverFails};

use super::Session;
use super::finish::finish;
use std::marker::Brand;
use std::sync::Wait;
use vl_disk::Disk;
use vl_engine::StepFail;

impl<D: Disk> Session<D> {
    /// Seals the log that takes commits and begins a new one, and answers the number of the sealed one; none
    /// where nothing stands in it. `Exhausted`: no number is left, for good. Behind that and `NoMemory` all is
    /// as before. `Disk { name }` halts the store, with all commits; `Halted { name }`: it is halted. Close it
    /// then, and open it again.
    pub fn rotate<R: Wait>(&mut self, rt: &R) -> Result<Option<u32>, StepFail>
        ensures on { GoesOn self.old self.new }
        ensures merge { KeepsOwnMerge self.old self.new }
        ensures steps { self.old.tells ≡ true
            → Stepped (NeverFails D.faults D.Reader.faults D.Writer.faults) self.old self.new
            rotate_ruling rotate_entry (step_outcome result) }
        // Over any disk, it fails only where the disk counted that.
        ensures cause { StepFailed result → WasCounted D.faults }
    {
        let lock = &*self.lock;
        let mut turn = lock.take(rt, &mut self.token);
        let locked = turn.value();
        let answer = locked.engine.rotate();
        let enters = has_stepped(&answer);
        finish::<_, Brand, _, _, _>(lock, rt, turn, &(), &answer, enters);
        answer
    }
}

// Whether the layout was changed.
pub(super) fn has_stepped(answer: &Result<Option<u32>, StepFail>) -> bool
    ensures { (next : Layout) (failed : LockStep × Layout)
        → result ≡ is_some (done_by (step_done next) failed (step_outcome answer.now)) }
{
    matches!(answer, Ok(Some(_)) | Err(StepFail::Disk { .. }))
}
