ghost use Rattle.std.specs.Prelude.{◌≡◌, IfErr, IfOk, IfSome, OnOk, true};
ghost use Rattle.vl_compact.specs.Progress.{HasRead};
ghost use Rattle.vl_compact.specs.Stops.{AreReadWhole};
ghost use Rattle.vl_engine.specs.Refusals.{of_install};
ghost use Rattle.vl_steps.specs.Merging.{FitsReaders};
ghost use Rattle.vl_engine_model.specs.declared.job.Job as laid_job;
ghost use Rattle.vlstore.specs.Handing.{IfHandedBack, IsHandedBack, IsHandedInto, IsUnderWayIn};
ghost use Rattle.vlstore.specs.Knowing.{GoesOn, IsOwnJob};
ghost use Rattle.vlstore.specs.Refused.{HasReadAll, IsRefused, StopsMaking};
ghost use Rattle.vlstore.specs.Standing.{NeverFails};
ghost use Rattle.vlstore.specs.Merging.{Did, IsChange, IsWork, MergedAt};

use super::Session;
use std::alloc::Global;
use std::sync::Wait;
use vl_compact::Job;
use vl_disk::Disk;
use vl_engine::{InstallFail, MergeFail};
use vl_model::{Counter, MAX_FILE_NUMBER};
use vl_version::Base;

impl<D: Disk> Session<D> {
    /// Does a whole merge of tables: `plan`, then `ready`, `fresh` and `fill` beside the lock until all of its
    /// tables are made, then `install`. It answers how many entries the new tables have; none where a merge is
    /// open, of this session or another, or where no level is due. Refusals are those of these calls; the merge
    /// is abandoned then, all contents stand, and a later call begins another one. A failed read, or write of a
    /// merge's file, doesn't halt the store.
    pub fn merge<R: Wait>(&mut self, rt: &R, alloc: Global) -> Result<Option<u64>, MergeFail>
        ensures on { GoesOn self.old self.new }
        // Its own steps commit nothing and leave what it began. The merge is the one that the ruling on plans has.
        ensures works { self.old.tells ≡ true → Did IsWork self.old self.new }
        ensures merged { self.old.tells ≡ true → IfOk result (MergedAt self.old self.new) }
        // Where it was done, its inputs were read whole.
        ensures read { self.old.tells ≡ true → IfOk result (λ kept. IfSome kept
            (λ _. HasReadAll self.old self.new D.Writer.Writer D.Held.bytes (λ r. D.Reader.faults r))) }
        // Each refusal has its cause.
        ensures refused { self.old.tells ≡ true → IfErr result (IsRefused self.old self.new
            (NeverFails D.faults D.Reader.faults D.Writer.faults) D.Writer.Writer D.Held.bytes (λ r. D.Reader.faults r)) }
        // No merge of its own is left open that wasn't before.
        ensures over { self.old.tells ≡ true → (job : laid_job.Job) → IsOwnJob self.new job → IsOwnJob self.old job }
    {
        let Some(mut job) = self.plan(rt)? else {
            return Ok(None);
        };
        if let Err(fail) = self.carry_out(rt, alloc, &mut job) {
            self.abandon(rt, job);
            return Err(fail);
        }
        let kept = job.kept_count();
        match self.install(rt, job) {
            Ok(()) => Ok(Some(kept)),
            Err(fail) => Err(self.abandoned(rt, fail)),
        }
    }

    /// Makes all tables of a merge of this session, which is ready for `install` then. Where it is refused the
    /// merge is this session's yet: try again, or abandon it.
    pub fn carry_out<R: Wait>(
        &mut self,
        rt: &R,
        alloc: Global,
        job: &mut Job<Base<D::Held, D::Reader>, D::Held, D::Writer>,
    ) -> Result<(), MergeFail>
        requires under_way { IsUnderWayIn self.old D.Writer.Writer D.Held.bytes job.old }
        requires looks { self.old.tells ≡ true → FitsReaders D.Held.bytes job.old }
        ensures on { GoesOn self.old self.new }
        ensures changes { self.old.tells ≡ true → Did IsChange self.old self.new }
        ensures under_way { IsUnderWayIn self.new D.Writer.Writer D.Held.bytes job.new }
        ensures handed { OnOk result (IsHandedInto self.new D.Writer.Writer D.Held.bytes job.new) }
        // Whatever is told: of its inputs all was read up to the last key that it made, and to their end where it has all tables.
        ensures inputs { job.new.inputs ≡ job.old.inputs }
        ensures read { HasRead D.Held.bytes job.old → HasRead D.Held.bytes job.new }
        ensures whole { OnOk result (HasRead D.Held.bytes job.old → AreReadWhole D.Held.bytes job.new.inputs.tables.items) }
        // Each refusal has its cause.
        ensures refused { self.old.tells ≡ true → IfErr result (StopsMaking self.old self.new
            (NeverFails D.faults D.Reader.faults D.Writer.faults) D.Writer.Writer D.Held.bytes (λ r. D.Reader.faults r) job.old
            job.new.after) }
    {
        let mut reader = self.reader(rt)?;
        'making: for _ in 0..MAX_FILE_NUMBER {
            let Some(next) = job.ready(alloc, &mut reader)? else {
                return Ok(());
            };
            let file = self.fresh(rt, job)?;
            job.fill(alloc, &mut reader, next, file)?;
        }
        // Each table took a number of its own.
        Err(MergeFail::Exhausted(Counter::Table))
    }

    // The tables weren't put in: the merge is over, also where it was handed back.
    fn abandoned<R: Wait>(
        &mut self,
        rt: &R,
        fail: InstallFail<Base<D::Held, D::Reader>, D::Held, D::Writer>,
    ) -> MergeFail
        requires { IfHandedBack self.old D.Writer.Writer D.Held.bytes fail }
        ensures on { GoesOn self.old self.new }
        ensures works { self.old.tells ≡ true → Did IsWork self.old self.new }
        ensures over { self.old.tells ≡ true → (job : laid_job.Job) → IsOwnJob self.new job
            → IsOwnJob self.old job × (IsHandedBack fail → ⊥) }
        ensures refusal { result ≡ of_install fail }
    {
        match fail {
            InstallFail::Halted { name } => MergeFail::Halted { name },
            InstallFail::Raced { .. } => MergeFail::Raced,
            InstallFail::Exhausted(counter) => MergeFail::Exhausted(counter),
            InstallFail::NoMemory(job) => {
                self.abandon(rt, job);
                MergeFail::NoMemory
            }
            InstallFail::Disk { name } => MergeFail::Disk { name },
        }
    }
}
