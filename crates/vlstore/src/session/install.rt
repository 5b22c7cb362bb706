ghost use Rattle.std.specs.Prelude.{◌≡◌, true, Some, is_some};
ghost use Rattle.std.specs.Option.{ForSome};
ghost use Rattle.vl_compact.specs.Progress.{made_of};
ghost use Rattle.vl_steps.specs.Installing.{InstallFailed};
ghost use Rattle.vl_steps.specs.Merging.{install_outcome};
ghost use Rattle.vl_engine_model.specs.Rulings.Install.{install_ruling};
ghost use Rattle.vl_engine_model.specs.Jobs.{Made, job_ended};
ghost use Rattle.vl_engine_model.specs.declared.job.Job as laid_job;
ghost use Rattle.vl_engine_model.specs.declared.layout.Layout.{Layout};
ghost use Rattle.vl_engine_model.specs.declared.lock_history.LockStep.TheVariants.{JobEnded};
ghost use Rattle.vl_model.specs.History.{History};
ghost use Rattle.vlstore.specs.Counting.{WasCounted};
ghost use Rattle.vlstore.specs.Entries.{done_by, install_entry};
ghost use Rattle.vlstore.specs.Handing.{IsHandedInto, job_back};
ghost use Rattle.vlstore.specs.Knowing.{GoesOn, IsOwnJob, Stepped};
ghost use Rattle.vlstore.specs.Standing.{NeverFails};

use super::Session;
use super::finish::finish;
use std::marker::Brand;
use std::snapshot::Snapshot;
use std::sync::Wait;
use vl_compact::Job;
use vl_disk::{Disk, HeldFile, Writer};
use vl_engine::InstallFail;
use vl_version::Base;

impl<D: Disk> Session<D> {
    /// Puts the tables of a merge of this session, which has made all of them, into the place of its inputs,
    /// and ends it. `NoMemory` hands it back, to be installed later or abandoned; all other answers end it.
    /// `Raced`: a record was relocated meanwhile whose deletion the merge drops; plan again. `Exhausted`: no
    /// epoch is left. `Disk { name }` halts the store, with all commits; `Halted { name }`: it is
    /// halted.
    pub fn install<R: Wait>(
        &mut self,
        rt: &R,
        job: Job<Base<D::Held, D::Reader>, D::Held, D::Writer>,
    ) -> Result<(), InstallFail<Base<D::Held, D::Reader>, D::Held, D::Writer>>
        requires { IsHandedInto self.old D.Writer.Writer D.Held.bytes job }
        ensures on { GoesOn self.old self.new }
        ensures steps { self.old.tells ≡ true → (planned : laid_job.Job) → IsOwnJob self.old planned
            → Stepped (NeverFails D.faults D.Reader.faults D.Writer.faults) self.old self.new
            (λ l h. install_ruling l h planned (made_of job planned))
            (install_entry planned (made_of job planned)) (install_outcome result) }
        // It may be handed in again, or abandoned.
        ensures back { ForSome (job_back result) (λ back. back ≡ job) }
        ensures again { ForSome (job_back result) (IsHandedInto self.new D.Writer.Writer D.Held.bytes) }
        // Over any disk, it fails only where the disk counted that.
        ensures cause { InstallFailed result → WasCounted D.faults }
    {
        let asked = Snapshot::of(&job);
        let lock = &*self.lock;
        let mut turn = lock.take(rt, &mut self.token);
        let locked = turn.value();
        let answer = locked.engine.install(job);
        let enters = has_come(&answer);
        finish::<_, Brand, _, _, _>(lock, rt, turn, &asked, &answer, enters);
        answer
    }
}

// Whether the merge has ended.
fn has_come<V, H: HeldFile, W: Writer>(answer: &Result<(), InstallFail<V, H, W>>) -> bool
    ensures { (job : laid_job.Job) (made : Made) (l : Layout) (h : History) → result ≡ is_some (done_by
        (λ a. Some (JobEnded, (install_ruling l h job made).layout)) (JobEnded, job_ended made l) (install_outcome answer.now)) }
{
    !matches!(answer, Err(InstallFail::NoMemory(_)))
}
