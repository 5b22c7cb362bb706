ghost use Rattle.std.specs.Prelude.{◌≡◌, true, IfOk, Option, is_some};
ghost use Rattle.std.specs.Option.{ForSome};
ghost use Rattle.vl_compact.specs.Laid.{AreBoth};
ghost use Rattle.vl_compact.specs.Progress.{IsNew, made_of};
ghost use Rattle.vl_steps.specs.Merging.{FitsReaders, HasMerge, plan_outcome};
ghost use Rattle.vl_engine_model.specs.Decides.{Answered};
ghost use Rattle.vl_engine_model.specs.Rulings.Abandon.{abandon_ruling};
ghost use Rattle.vl_engine_model.specs.Rulings.Drain.{drain_ruling};
ghost use Rattle.vl_engine_model.specs.Rulings.Plan.{plan_ruling};
ghost use Rattle.vl_engine_model.specs.declared.job.Job as laid_job;
ghost use Rattle.vlstore.specs.Entries.{abandon_entry, plan_entry, planned_in};
ghost use Rattle.vlstore.specs.Handing.{IsUnderWayIn};
ghost use Rattle.vlstore.specs.Knowing.{GoesOn, IsOwnJob, KeepsOwnMerge, Looked, Stepped};
ghost use Rattle.vlstore.specs.Standing.{NeverFails};
ghost use Rattle.vl_table.specs.Kept.{Files};
ghost use Rattle.vl_table.specs.KeptBlocks.{AreKept};

use super::Session;
use super::finish::finish;
use std::marker::Brand;
use std::snapshot::Snapshot;
use std::sync::Wait;
use vl_compact::{Job, JobReader};
use vl_disk::{Disk, NoMemory};
use vl_table::BlockReader;
use vl_version::Base;

impl<D: Disk> Session<D> {
    /// Plans a merge of tables, which is this session's, and open until this session's `install` or `abandon`;
    /// none where a merge is open, of this session or another, or where no level is due. What the merge itself
    /// does, `ready` and `fill`, goes on beside the lock. `NoMemory`: all is as before. `merge` does all of it.
    pub fn plan<R: Wait>(
        &mut self,
        rt: &R,
    ) -> Result<Option<Job<Base<D::Held, D::Reader>, D::Held, D::Writer>>, NoMemory>
        ensures on { GoesOn self.old self.new }
        ensures merge { KeepsOwnMerge self.old self.new }
        ensures steps { self.old.tells ≡ true → (planned : Option laid_job.Job)
            × Stepped (NeverFails D.faults D.Reader.faults D.Writer.faults) self.old self.new
            (λ l h. plan_ruling l h) plan_entry (plan_outcome planned result)
            × IfOk result (λ job. AreBoth (HasMerge D.Writer.Writer D.Held.bytes) job planned) }
        // It is the session's own, has made nothing yet, and look-ups by a reader that keeps no block yet are told.
        ensures under_way { IfOk result (λ job. ForSome job (IsUnderWayIn self.new D.Writer.Writer D.Held.bytes)) }
        ensures new { IfOk result (λ job. ForSome job IsNew) }
        ensures looks { self.old.tells ≡ true → IfOk result (λ job. ForSome job (FitsReaders D.Held.bytes)) }
    {
        let lock = &*self.lock;
        let mut turn = lock.take(rt, &mut self.token);
        let locked = turn.value();
        let answer = locked.engine.plan();
        let enters = is_planned(&answer);
        finish::<_, Brand, _, _, _>(lock, rt, turn, &(), &answer, enters);
        answer
    }

    /// Plans a merge of one table alone, the first from the newest source on that leads into this log; none
    /// where a merge is open or no table leads there. Else it is as with `plan`.
    pub fn drain<R: Wait>(
        &mut self,
        rt: &R,
        segment: u32,
    ) -> Result<Option<Job<Base<D::Held, D::Reader>, D::Held, D::Writer>>, NoMemory>
        ensures on { GoesOn self.old self.new }
        ensures merge { KeepsOwnMerge self.old self.new }
        ensures steps { self.old.tells ≡ true → (planned : Option laid_job.Job)
            × Stepped (NeverFails D.faults D.Reader.faults D.Writer.faults) self.old self.new
            (λ l h. drain_ruling l h segment) plan_entry (plan_outcome planned result)
            × IfOk result (λ job. AreBoth (HasMerge D.Writer.Writer D.Held.bytes) job planned) }
        ensures under_way { IfOk result (λ job. ForSome job (IsUnderWayIn self.new D.Writer.Writer D.Held.bytes)) }
        ensures new { IfOk result (λ job. ForSome job IsNew) }
        ensures looks { self.old.tells ≡ true → IfOk result (λ job. ForSome job (FitsReaders D.Held.bytes)) }
    {
        let lock = &*self.lock;
        let mut turn = lock.take(rt, &mut self.token);
        let locked = turn.value();
        let answer = locked.engine.drain(segment);
        let enters = is_planned(&answer);
        finish::<_, Brand, _, _, _>(lock, rt, turn, &segment, &answer, enters);
        answer
    }

    /// What a merge and a pass read with. It keeps no block yet. One reader serves a whole merge or pass.
    /// `NoMemory`: try again.
    pub fn reader<R: Wait>(
        &mut self,
        rt: &R,
    ) -> Result<JobReader<D::Reader, BlockReader<D::Reader>>, NoMemory>
        ensures on { GoesOn self.old self.new }
        ensures own { self.new.own ≡ self.old.own }
        ensures looks { self.old.tells ≡ true → Looked self.old self.new (λ l h. Unit {0}) }
        ensures blocks { (files : Files) → IfOk result (λ reader. AreKept files reader.looks) }
    {
        let lock = &*self.lock;
        let mut turn = lock.take(rt, &mut self.token);
        let locked = turn.value();
        let answer = locked.engine.reader();
        finish::<_, Brand, _, _, _>(lock, rt, turn, &(), &answer, false);
        answer
    }

    /// Abandons a merge of this session, at any point of it. Its files wait for a sweep. It wants no memory.
    pub fn abandon<R: Wait>(
        &mut self,
        rt: &R,
        job: Job<Base<D::Held, D::Reader>, D::Held, D::Writer>,
    )
        requires { IsUnderWayIn self.old D.Writer.Writer D.Held.bytes job }
        ensures on { GoesOn self.old self.new }
        ensures steps { self.old.tells ≡ true → (planned : laid_job.Job) → IsOwnJob self.old planned
            → Stepped (NeverFails D.faults D.Reader.faults D.Writer.faults) self.old self.new
            (λ l h. abandon_ruling l h planned (made_of job planned)) (abandon_entry (made_of job planned))
            (Answered tt) }
    {
        let asked = Snapshot::of(&job);
        let lock = &*self.lock;
        let mut turn = lock.take(rt, &mut self.token);
        let locked = turn.value();
        locked.engine.abandon(job);
        finish::<_, Brand, _, _, _>(lock, rt, turn, &asked, &(), true);
    }
}

// Whether a merge was planned.
fn is_planned<J>(answer: &Result<Option<J>, NoMemory>) -> bool
    ensures { result ≡ is_some (planned_in answer.now) }
{
    matches!(answer, Ok(Some(_)))
}
