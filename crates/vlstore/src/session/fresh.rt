ghost use Rattle.std.specs.Prelude.{◌≡◌, true, IfOk, OnOk, Some, is_some};
ghost use Rattle.vl_compact.specs.Progress.{HasRoom};
ghost use Rattle.vl_disk.specs.DiskState.{new_file};
ghost use Rattle.vl_steps.specs.Drawing.{IsSameJob};
ghost use Rattle.vl_steps.specs.Stepping.{StepFailed};
ghost use Rattle.vl_steps.specs.Merging.{fresh_outcome};
ghost use Rattle.vl_engine_model.specs.Rulings.Fresh.{fresh_ruling};
ghost use Rattle.vl_engine_model.specs.declared.layout.Layout.{Layout};
ghost use Rattle.vl_engine_model.specs.declared.lock_history.LockStep.{LockStep};
ghost use Rattle.vlstore.specs.Counting.{WasCounted};
ghost use Rattle.vlstore.specs.Entries.{done_by, fresh_done, fresh_entry};
ghost use Rattle.vlstore.specs.Handing.{IsLentTo, IsUnderWayIn};
ghost use Rattle.vlstore.specs.Knowing.{GoesOn, Stepped};
ghost use Rattle.vlstore.specs.Standing.{NeverFails};

use super::Session;
use super::finish::finish;
use std::marker::Brand;
use std::sync::Wait;
use vl_compact::{Job, Lent};
use vl_disk::{Disk, Writer};
use vl_engine::StepFail;
use vl_version::Base;

impl<D: Disk> Session<D> {
    /// Makes the file of the next table of this session's merge, for what `ready` gave, and lends it to the
    /// merge: `fill` takes it, beside the lock. Behind `Exhausted` (no table number is left) and `NoMemory` all
    /// is as before. `Disk { name }` halts the store, with all commits; `Halted { name }`: it is halted. The
    /// merge is to be abandoned then.
    pub fn fresh<R: Wait>(
        &mut self,
        rt: &R,
        job: &mut Job<Base<D::Held, D::Reader>, D::Held, D::Writer>,
    ) -> Result<Lent<D::Writer>, StepFail>
        requires { IsUnderWayIn self.old D.Writer.Writer D.Held.bytes job.old }
        ensures on { GoesOn self.old self.new }
        ensures steps { self.old.tells ≡ true
            → Stepped (NeverFails D.faults D.Reader.faults D.Writer.faults) self.old self.new
            fresh_ruling fresh_entry (fresh_outcome result) }
        // The merge is as before, with room for one table more, and the file is lent to it, which is empty.
        ensures job { IsSameJob job.old job.new }
        ensures room { OnOk result (HasRoom job.new) }
        ensures under_way { IsUnderWayIn self.new D.Writer.Writer D.Held.bytes job.new }
        ensures lent { IfOk result (IsLentTo self.new D.Writer.Writer D.Held.bytes job.new) }
        ensures empty { self.old.tells ≡ true → IfOk result (λ file. D.Writer.Writer.file file.writer ≡ Some new_file) }
        // Over any disk, it fails only where the disk counted that.
        ensures cause { StepFailed result → WasCounted D.faults }
    {
        let lock = &*self.lock;
        let mut turn = lock.take(rt, &mut self.token);
        let locked = turn.value();
        let answer = locked.engine.fresh(job);
        let enters = has_drawn(&answer);
        finish::<_, Brand, _, _, _>(lock, rt, turn, &(), &answer, enters);
        answer
    }
}

// Whether the layout was changed.
fn has_drawn<W: Writer>(answer: &Result<Lent<W>, StepFail>) -> bool
    ensures { (l : Layout) (failed : LockStep × Layout)
        → result ≡ is_some (done_by (fresh_done l) failed (fresh_outcome answer.now)) }
{
    matches!(answer, Ok(_) | Err(StepFail::Disk { .. }))
}
