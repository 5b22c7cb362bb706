ghost use Rattle.std.specs.Prelude.{◌≡◌, ◌<◌, ◌≤◌, ℕ, Err, List, None, Some, IfOk, IsSome, OnOk, length, map};
ghost use Rattle.std.specs.List.{filter};
ghost use Rattle.std.specs.Option.{ForSome};
ghost use Rattle.vl_compact.specs.Progress.{made_of};
ghost use Rattle.vl_compact.specs.Racing.{IsMoved};
ghost use Rattle.vl_disk.specs.Calls.{ChangesNothing};
ghost use Rattle.vl_disk.specs.DiskState.{DiskState};
ghost use Rattle.vl_disk.specs.Faults.{HasCause, after_calls};
ghost use Rattle.vl_disk.specs.declared.name.Name.{Name};
ghost use Rattle.vl_engine_laws.specs.Carries.{Carries, StaysUntold};
ghost use Rattle.vl_space.specs.Collecting.{Collects, LeadsFrom, idle_in, points_in, points_made};
ghost use Rattle.vl_engine.specs.Refusals.{moved_in};
ghost use Rattle.vl_engine.specs.Space.{InstallsFor, RetiresInstalled};
ghost use Rattle.vl_steps.specs.Installing.{HandsBack, InstallFailed, InstallLeavesDisk, InstallsAs, InstallsCore};
ghost use Rattle.vl_steps.specs.Installing.{InstallsUnraced, IsHandedIn, IsInstallWritten, KeepsAllBut, MayInstall};
ghost use Rattle.vl_steps.specs.Installing.{StopsInstall, WritesInstall, install_otherwise};
ghost use Rattle.vl_space.specs.Removing.{Removes};
ghost use Rattle.vl_engine_laws.specs.Lent.{lent_in};
ghost use Rattle.vl_engine.specs.Space.{InstallsStock};
ghost use Rattle.vl_space.specs.Retiring.{LeavesFiles, files_in};
ghost use Rattle.vl_engine.specs.UnderWay.{IsUnderWay};
ghost use Rattle.vl_steps.specs.Merging.{HasAllMerge, install_effects, install_outcome, made_numbers};
ghost use Rattle.vl_engine_laws.specs.Lent.{StandsOpen};
ghost use Rattle.vl_engine_laws.specs.Represents.{Represents};
ghost use Rattle.vl_engine_laws.specs.MayStep.{AreLogFiles, Fits, LeavesNumbers};
ghost use Rattle.vl_steps.specs.declared.fails.InstallFail.TheVariants as fails;
ghost use Rattle.vl_engine_model.specs.Decides.{Decides};
ghost use Rattle.vl_engine_model.specs.Jobs.{AreLent};
ghost use Rattle.vl_engine_model.specs.Rulings.Install.{install_ruling, race};
ghost use Rattle.vl_engine_model.specs.declared.job.Job as laid_job;
ghost use Rattle.vl_engine_model.specs.declared.job.OpenJob.{OpenJob};
ghost use Rattle.vl_engine_model.specs.declared.layout.Layout.{Layout};
ghost use Rattle.vl_model.specs.History.{History};
ghost use Rattle.vl_model.specs.Limits.{max_epoch};
ghost use Rattle.vl_table.specs.Tables.{number_of};
ghost use Rattle.vl_version.specs.Bases.{is_input};
ghost use Rattle.vl_version.specs.levels.LevelsLooked.{tables_of};

use crate::{Engine, InstallFail};
use std::alloc::{AllocError, Global};
use vl_compact::{Job, Parts, numbers_of};
use vl_disk::{Disk, HeldFile, Writer};
use vl_engine_laws::Core;
use vl_model::{Counter, Key};
use vl_space::{abandon, abandon_files, head_of, idle_logs};
use vl_stats::LiveBytes;
use vl_steps::{input_numbers, lent_count, made_numbers, ready_install, write_install};
use vl_version::Base;

// The numbers of the tables that an install adds and drops, and of the logs of which nothing is live behind it.
#[derive(Drop)]
struct Changes {
    added: Vec<u32>,
    dropped: Vec<u32>,
    idle: Vec<u32>,
}

impl<D: Disk> Engine<D> {
    /// Puts the tables of a merge, which has made all of them, into the place of its inputs, and ends it. All memory is taken
    /// first; then the disk takes its files back, and the manifest says it, by an append and a sync. Where it is refused for want
    /// of memory the merge is handed back as it was, and else it has ended: where its tables weren't put in, no call reads its
    /// files any more, and a sweep or the next opening removes them. Only behind a fault of the disk the store may be opened with
    /// the merge's tables all the same, with the same contents.
    pub fn install(
        &mut self,
        job: Job<Base<D::Held, D::Reader>, D::Held, D::Writer>,
    ) -> Result<(), InstallFail<Base<D::Held, D::Reader>, D::Held, D::Writer>>
        requires { IsHandedIn D.Watched D.Writer.Writer self.old.disk self.old.core.front.halted self.old.merging job }

        // It is answered as the ruling has it.
        ensures stands { (state : DiskState) (h : History) (l : Layout) (o : OpenJob) → D.told self.old.disk ≡ Some state
            → StandsOpen D.Held.bytes self.old.core self.old.merging h l → l.job ≡ Some o → (l.halted ≡ None → AreLogFiles l)
            → HasAllMerge D.Writer.Writer D.Held.bytes job o.job → AreLent o.lent (made_of job o.job)
            → Decides (StandsOpen D.Held.bytes self.new.core self.new.merging) h l (install_ruling l h o.job (made_of job o.job))
            (install_otherwise l (made_of job o.job)) (install_outcome result) (install_effects result) }

        // Over a disk that holds the layout: what a crash meanwhile leaves shows the history, and however it ends, a store may be
        // opened on the disk again.
        ensures carries { (h : History) (l : Layout) (o : OpenJob)
            → Represents D.Held.bytes self.old.core (D.told self.old.disk) h l
            → StandsOpen D.Held.bytes self.old.core self.old.merging h l → l.job ≡ Some o
            → HasAllMerge D.Writer.Writer D.Held.bytes job o.job → AreLent o.lent (made_of job o.job)
            → Carries D.Watched D.Held.bytes self.old.disk self.new.disk self.new.core h l
            (install_ruling l h o.job (made_of job o.job)) (install_otherwise l (made_of job o.job)) (install_outcome result)
            (install_effects result) }

        // What steps on files ask is so behind it.
        ensures fits { (h : History) (l : Layout) (o : OpenJob) → StandsOpen D.Held.bytes self.old.core self.old.merging h l
            → l.job ≡ Some o → HasAllMerge D.Writer.Writer D.Held.bytes job o.job → AreLent o.lent (made_of job o.job)
            → Fits (D.told self.old.disk) self.old.core h l
            → Decides (Fits (D.told self.new.disk) self.new.core) h l (install_ruling l h o.job (made_of job o.job))
            (install_otherwise l (made_of job o.job)) (install_outcome result) (install_effects result) }

        // Where it was refused, the disk was left alone, at each moment; and where memory was wanting, the job is handed back as
        // it was, and the merge stays open.
        ensures untouched { InstallLeavesDisk result → ChangesNothing D.Watched self.old.disk self.new.disk ⊥ }
        ensures handed { HandsBack job self.old.merging self.new.merging result }

        // However it ends, no file but the job's tables comes or goes.
        ensures files { KeepsAllBut (made_numbers job) (D.told self.old.disk) (D.told self.new.disk) }
        ensures calls { OnOk result (D.calls self.new.disk ≡ after_calls 2 (D.calls self.old.disk)) }

        // A disk that told nothing tells nothing then. One of which nothing that it gives ever fails stays so.
        ensures untold { OnOk result (StaysUntold (D.told self.old.disk) (D.told self.new.disk)) }
        ensures steady { D.gives_steady self.old.disk → D.gives_steady self.new.disk }

        // Where the tables were put in, all were taken back, and behind them the manifest has the frame that names them.
        ensures written { OnOk result (IsInstallWritten D.Watched D.Held.bytes D.Writer.Writer job self.old.core self.old.disk
            self.new.disk) }

        // A fault of the disk is counted, and nothing else raises the count. It is at one of the job's tables, or at the manifest.
        ensures cause { HasCause (D.faults self.old.disk) (D.faults self.new.disk) (InstallFailed result) }
        ensures stopped { (name : Name) → result ≡ Err (fails.Disk name)
            → StopsInstall job self.old.core.back.manifest.number (D.calls self.old.disk) (D.calls self.new.disk) name }

        // It fails only where nothing failed before, an epoch is left, and no deletion that the merge dropped stands
        // against it. By then some of the tables were taken back, or all, and named in part; and whatever a crash leaves gives no
        // number above the next ones.
        ensures failed { InstallFailed result → MayInstall self.old.core }
        ensures unraced { (j : laid_job.Job) → HasAllMerge D.Writer.Writer D.Held.bytes job j → InstallFailed result
            → ForSome self.old.merging (λ merge. race j merge.moved.items ≡ None) }
        ensures meanwhile { InstallFailed result
            → WritesInstall D.Watched D.Held.bytes D.Writer.Writer job self.old.core self.old.disk self.new.disk }
        ensures leaves { (h : History) (l : Layout) (now : DiskState)
            → Represents D.Held.bytes self.old.core (D.told self.old.disk) h l
            → self.old.core.back.state.next_log ≤ self.old.core.back.next_log → InstallFailed result
            → D.told self.new.disk ≡ Some now → LeavesNumbers l.next_log l.next_table now }

        // The manifest gives the next log no number above that which it gets.
        ensures within { (InstallFailed result → ⊥) → self.old.core.back.state.next_log ≤ self.old.core.back.next_log
            → self.new.core.back.state.next_log ≤ self.new.core.back.next_log }

        // Which pass is open stays, and what is kept of live bytes is that of the tables then.
        ensures passing { self.new.collecting.passing ≡ self.old.collecting.passing }
        ensures collects { (state : DiskState) (h : History) (l : Layout) (o : OpenJob) → D.told self.old.disk ≡ Some state
            → StandsOpen D.Held.bytes self.old.core self.old.merging h l → l.job ≡ Some o → (l.halted ≡ None → AreLogFiles l)
            → HasAllMerge D.Writer.Writer D.Held.bytes job o.job → AreLent o.lent (made_of job o.job)
            → Collects self.old.core self.old.collecting l
            → Decides (λ _ l. Collects self.new.core self.new.collecting l) h l (install_ruling l h o.job (made_of job o.job))
            (install_otherwise l (made_of job o.job)) (install_outcome result) (install_effects result) }

        // What is kept of which files can go is what the layout has: the inputs and the logs that it retires wait, and so do the
        // merge's files that aren't put in. It pins nothing then.
        ensures removes { (state : DiskState) (h : History) (l : Layout) (o : OpenJob) → D.told self.old.disk ≡ Some state
            → StandsOpen D.Held.bytes self.old.core self.old.merging h l → l.job ≡ Some o → (l.halted ≡ None → AreLogFiles l)
            → HasAllMerge D.Writer.Writer D.Held.bytes job o.job → AreLent o.lent (made_of job o.job)
            → Collects self.old.core self.old.collecting l → Removes self.old.core self.old.removing l
            → Decides (λ _ l. Removes self.new.core self.new.removing l) h l (install_ruling l h o.job (made_of job o.job))
            (install_otherwise l (made_of job o.job)) (install_outcome result) (install_effects result) }

        // In memory a version is made, or nothing changes beside the open merge, unless a fault halts. A halted engine does nothing.
        ensures core { InstallsCore self.old.core self.new.core result }
        ensures halted { (name : Name) → self.old.core.front.halted ≡ Some name → result ≡ Err (fails.Halted name) }
        ensures idle { (name : Name) → self.old.core.front.halted ≡ Some name → self.new.collecting ≡ self.old.collecting }
        ensures unpinned { (name : Name) → self.old.core.front.halted ≡ Some name
            → self.new.removing.pins ≡ record self.old.removing.pins { merge = None } }

        // Whatever is told: it is raced only by a key that was moved since the merge began and of which it dropped a deletion.
        ensures raced { (key : List ℕ) (epoch : ℕ) → result ≡ Err (fails.Raced key epoch)
            → IsMoved (moved_in self.old.merging) job.needless.items (key, epoch) }

        // Whatever is told: the tables are in use then, and the inputs, and each log below head into which no table leads, were
        // retired. Where they weren't put in, the merge's files wait, unless it was handed back.
        ensures retires { RetiresInstalled job self.old.core self.new.core self.old.removing self.new.removing
            self.new.collecting.tally (length (lent_in self.old.merging)) result }
    {
        if let Some(name) = self.core.front.halted {
            self.merging = None;
            abandon(&mut self.removing, job);
            return Err(InstallFail::Halted { name });
        }
        match self.raced(&job) {
            Ok(None) => self.install_unraced(job),
            Ok(Some((key, epoch))) => {
                self.merging = None;
                abandon(&mut self.removing, job);
                Err(InstallFail::Raced { key, epoch })
            }
            Err(_) => Err(InstallFail::NoMemory(job)),
        }
    }

    // The least key of which the merge dropped a deletion and a record was relocated meanwhile, with the epoch that this
    // made.
    fn raced(
        &self,
        job: &Job<Base<D::Held, D::Reader>, D::Held, D::Writer>,
    ) -> Result<Option<(Key, u64)>, AllocError>
        ensures raced { IfOk result (λ named. ForSome self.now.merging (λ merge. (j : laid_job.Job)
            → HasAllMerge D.Writer.Writer D.Held.bytes job.now j → named ≡ race j merge.moved.items)) }
        ensures cause { IfOk result (λ named. ForSome named (IsMoved (moved_in self.now.merging) job.now.needless.items)) }
    {
        let Some(merge) = &self.merging else {
            return Ok(None);
        };
        match job.race(&merge.moved) {
            Some((key, number)) => Ok(Some((key.share()?, number))),
            None => Ok(None),
        }
    }

    // No deletion that it dropped stands against it.
    fn install_unraced(
        &mut self,
        job: Job<Base<D::Held, D::Reader>, D::Held, D::Writer>,
    ) -> Result<(), InstallFail<Base<D::Held, D::Reader>, D::Held, D::Writer>>
        requires handed { IsHandedIn D.Watched D.Writer.Writer self.old.disk self.old.core.front.halted self.old.merging job }
        requires running { self.old.core.front.halted ≡ None }
        ensures as_unraced { InstallsUnraced D.Watched D.Held.bytes D.Writer.Writer job self.old.disk self.new.disk
            self.old.core self.new.core result }
        ensures handed { HandsBack job self.old.merging self.new.merging result }
        ensures cause { HasCause (D.faults self.old.disk) (D.faults self.new.disk) (InstallFailed result) }
        ensures collected { InstallsFor D.Held.bytes self.old.core self.old.collecting self.new.collecting D.Writer.Writer job
            self.new.core result }
        ensures retires { InstallsStock job self.old.core self.new.core self.old.removing self.new.removing self.new.collecting.tally
            (length (lent_in self.old.merging)) result }
    {
        if self.core.back.has_no_epoch() {
            self.abandon_open(job);
            return Err(InstallFail::Exhausted(Counter::Version));
        }
        let Ok(live) = self.collecting.live_installed(self.alloc, &self.core, &job) else {
            return Err(InstallFail::NoMemory(job));
        };
        self.put_in(job, live)
    }

    // Nothing stands against it, and these are the live bytes behind it.
    fn put_in(
        &mut self,
        job: Job<Base<D::Held, D::Reader>, D::Held, D::Writer>,
        live: LiveBytes,
    ) -> Result<(), InstallFail<Base<D::Held, D::Reader>, D::Held, D::Writer>>
        requires handed { IsHandedIn D.Watched D.Writer.Writer self.old.disk self.old.core.front.halted self.old.merging job }
        requires running { self.old.core.front.halted ≡ None }
        requires version { self.old.core.back.epoch < max_epoch }
        requires tallied { IsSome self.old.collecting.tally }
        requires live { LeadsFrom self.old.collecting.tally live (points_made job.made.items) (points_in
            (filter (is_input (map number_of job.inputs.tables.items)) (tables_of self.old.core.version.behind.levels))) }
        ensures as_installed { InstallsAs D.Watched D.Held.bytes D.Writer.Writer job self.old.disk self.new.disk
            self.old.core self.new.core result }
        ensures handed { HandsBack job self.old.merging self.new.merging result }
        ensures cause { HasCause (D.faults self.old.disk) (D.faults self.new.disk) (InstallFailed result) }
        ensures collected { InstallsFor D.Held.bytes self.old.core self.old.collecting self.new.collecting D.Writer.Writer job
            self.new.core result }
        ensures retires { InstallsStock job self.old.core self.new.core self.old.removing self.new.removing self.new.collecting.tally
            (length (lent_in self.old.merging)) result }
    {
        let Ok(changes) = changes_of(self.alloc, &self.core, &job, &live) else {
            return Err(InstallFail::NoMemory(job));
        };
        let lent = lent_count(&self.merging);
        let count = changes.added.len();
        let Ok(()) = self.removing.make_room(self.alloc, &self.core, count, lent) else {
            return Err(InstallFail::NoMemory(job));
        };
        let Ok(mut ready) = ready_install(self.alloc, &mut self.disk, &self.core, &job) else {
            return Err(InstallFail::NoMemory(job));
        };
        self.merging = None;
        self.removing.pins.merge = None;
        let Parts { made, leavings, .. } = job.into_parts();
        match write_install(
            &mut self.disk,
            &mut self.core.back.manifest,
            made,
            &mut ready.levels,
            &ready.staged.edits,
        ) {
            Ok(()) => {
                let active = self.core.front.log.number;
                let levels = ready.levels.into_levels();
                self.core.version = ready.version.with_levels(levels, active, &changes.idle);
                self.core.back.apply_install(ready.staged.state);
                let head = head_of(&self.core);
                let version = self.core.back.epoch;
                abandon_files(&mut self.removing.stock, Vec::new(self.alloc), leavings);
                self.removing
                    .switch(&changes.added, &changes.dropped, &live, head, version);
                self.collecting.switch(live, head);
                Ok(())
            }
            Err(name) => {
                self.core.front.halted = Some(name);
                Err(InstallFail::Disk { name })
            }
        }
    }

    // The merge that is open has ended. Its files, which no version needs, wait for their removal.
    pub(super) fn abandon_open(&mut self, job: Job<Base<D::Held, D::Reader>, D::Held, D::Writer>)
        requires { IsUnderWay D.Watched D.Writer.Writer self.old.disk self.old.core.front.halted self.old.merging job }
        ensures left { LeavesFiles (files_in job) self.old.removing.stock self.new.removing.stock }
        ensures pins { self.new.removing.pins ≡ record self.old.removing.pins { merge = None } }
        ensures merging { self.new.merging ≡ None }
        ensures core { self.new.core ≡ self.old.core }
        ensures disk { self.new.disk ≡ self.old.disk }
        ensures collecting { self.new.collecting ≡ self.old.collecting }
    {
        self.merging = None;
        self.removing.pins.merge = None;
        let Parts { made, leavings, .. } = job.into_parts();
        abandon_files(&mut self.removing.stock, made, leavings);
    }
}

// Takes the memory for these numbers, where the job's tables are put in, and these are the live bytes behind that.
fn changes_of<V, H: HeldFile, W: Writer>(
    alloc: Global,
    core: &Core<H>,
    job: &Job<V, H, W>,
    live: &LiveBytes,
) -> Result<Changes, AllocError>
    ensures added { IfOk result (λ changes. changes.added.items ≡ map (λ t. t.number) job.now.made.items) }
    ensures dropped { IfOk result (λ changes. changes.dropped.items
        ≡ map number_of (filter (is_input (map number_of job.now.inputs.tables.items)) (tables_of core.now.version.behind.levels))) }
    ensures idle { IfOk result (λ changes. changes.idle.items ≡ idle_in live.now core.now.version.behind.logs.items) }
{
    let inputs = numbers_of(alloc, &job.inputs().tables)?;
    let dropped = input_numbers(alloc, core.version.levels(), &inputs)?;
    let added = made_numbers(alloc, job.made())?;
    let idle = idle_logs(alloc, core.version.logs(), live)?;
    Ok(Changes {
        added,
        dropped,
        idle,
    })
}
