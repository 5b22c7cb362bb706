ghost use Rattle.std.specs.Prelude.{◌≡◌, ◌&&◌, Err, false, not, IfOk, None, Ok, OnOk, Some};
ghost use Rattle.vl_compact.specs.Progress.{HasRead};
ghost use Rattle.vl_compact.specs.Stops.{AreReadWhole};
ghost use Rattle.vl_space.specs.Collecting.{Collects};
ghost use Rattle.vl_steps.specs.Installing.{IsHandedIn};
ghost use Rattle.vl_steps.specs.Merging.{FitsReaders, HasMerge};
ghost use Rattle.vl_steps.specs.Planning.{is_due};
ghost use Rattle.vl_engine_laws.specs.Lent.{StandsOpen};
ghost use Rattle.vl_space.specs.Removing.{Removes};
ghost use Rattle.vl_engine_laws.specs.Represents.{Represents};
ghost use Rattle.vl_engine_laws.specs.MayStep.{Fits};
ghost use Rattle.vl_disk.specs.Faults.{Rose};
ghost use Rattle.vl_disk.specs.declared.name.Name.{Name};
ghost use Rattle.vl_engine.specs.declared.fails.MergeFail.TheVariants as fails;
ghost use Rattle.std.specs.Option.{ForSome, is_some};
ghost use Rattle.vl_disk.specs.Performs.{GoesOnTelling};
ghost use Rattle.vl_engine.specs.Merged.{MergesAs, PutsIn};
ghost use Rattle.vl_engine.specs.Refusals.{CarriesOutAs, KeepsAllBelow, LeavesStore, LendsFrom, moment, of_install};
ghost use Rattle.vl_engine.specs.UnderWay.{GivesUp, IfHandedBack, IsUnderWay};
ghost use Rattle.vl_engine.specs.Whole.{MakesRemoving, MakesTables, StaysCollecting, StaysFor, StaysRemoving, kept_of};
ghost use Rattle.vl_engine_model.specs.Rulings.Plan.{plan_ruling};
ghost use Rattle.vl_engine_model.specs.declared.job.OpenJob.{OpenJob};
ghost use Rattle.vl_engine_model.specs.declared.layout.Layout.{Layout};
ghost use Rattle.vl_model.specs.History.{History};

use crate::{Engine, InstallFail, MergeFail};
use vl_compact::Job;
use vl_disk::Disk;
use vl_model::{Counter, MAX_FILE_NUMBER};
use vl_version::Base;

impl<D: Disk> Engine<D> {
    /// Does a whole merge of tables here and now: `plan`, then `ready`, `fresh` and `fill` until all of its tables are made, then
    /// `install`. It answers with the number of entries that the new tables have; none where a merge is open, or no level is due.
    /// Where it fails the merge is abandoned, and a later call begins another one.
    pub fn merge(&mut self) -> Result<Option<u64>, MergeFail>
        // Whatever it answers, the engine stands for the same history, with a layout in which tables may have been merged; while it
        // isn't halted the disk holds it. What a crash meanwhile leaves shows the history, and a store may be opened on the disk again.
        ensures stays { (h : History) (l : Layout) → Represents D.Held.bytes self.old.core (D.told self.old.disk) h l
            → StandsOpen D.Held.bytes self.old.core self.old.merging h l → Fits (D.told self.old.disk) self.old.core h l
            → StaysFor D.Watched D.Held.bytes self.old.disk self.new.disk self.new.core self.new.merging h l }

        // What it keeps of where space comes back from is that layout's.
        ensures collects { (h : History) (l : Layout) → Represents D.Held.bytes self.old.core (D.told self.old.disk) h l
            → StandsOpen D.Held.bytes self.old.core self.old.merging h l → Fits (D.told self.old.disk) self.old.core h l
            → Collects self.old.core self.old.collecting l
            → StaysCollecting D.Watched D.Held.bytes self.old.disk self.new.disk self.new.core self.new.merging
            self.new.collecting h l }

        // And so is what it keeps of which files can go, which a sweep behind it asks.
        ensures removes { (h : History) (l : Layout) → Represents D.Held.bytes self.old.core (D.told self.old.disk) h l
            → StandsOpen D.Held.bytes self.old.core self.old.merging h l → Fits (D.told self.old.disk) self.old.core h l
            → Collects self.old.core self.old.collecting l → Removes self.old.core self.old.removing l
            → StaysRemoving D.Watched D.Held.bytes self.old.disk self.new.disk self.new.core self.new.merging
            self.new.collecting self.new.removing h l }

        // The merge is the one that the ruling on plans has: it answers how many entries that merge keeps, and none where none is due.
        ensures counts { (h : History) (l : Layout) → Represents D.Held.bytes self.old.core (D.told self.old.disk) h l
            → StandsOpen D.Held.bytes self.old.core self.old.merging h l → Fits (D.told self.old.disk) self.old.core h l
            → IfOk result (λ kept. kept ≡ kept_of (plan_ruling l h).answer) }

        // Where it was done, its tables took the place of its inputs; and none was due where it did nothing.
        ensures put_in { (h : History) (l : Layout) → Represents D.Held.bytes self.old.core (D.told self.old.disk) h l
            → StandsOpen D.Held.bytes self.old.core self.old.merging h l → Fits (D.told self.old.disk) self.old.core h l
            → OnOk result (ForSome (plan_ruling l h).answer (PutsIn D.Held.bytes (D.told self.new.disk) self.new.core h l)) }

        // Whatever is told: what it answers has its cause, and what it leaves in memory is said of each answer. Nothing is moved
        // while it is done, so it is never raced.
        ensures as_merged { MergesAs D.Watched D.Writer.Writer D.Held.bytes (λ r. D.Reader.faults r)
            (moment self.old.core self.old.merging self.old.disk) (moment self.new.core self.new.merging self.new.disk) result }
        // Over a disk that gives only what never fails, a fault is the disk's, which counted it.
        ensures sure { (name : Name) → D.gives_steady self.old.disk → result ≡ Err (fails.Disk name)
            → Rose (D.faults self.old.disk) (D.faults self.new.disk) }
        // A halted engine does nothing.
        ensures untouched { (name : Name) → self.old.core.front.halted ≡ Some name → LeavesStore D.Watched
            (moment self.old.core self.old.merging self.old.disk) (moment self.new.core self.new.merging self.new.disk) }
        // No file but tables with the next numbers comes or goes.
        ensures files { KeepsAllBelow self.old.core.back.state.next_table (D.told self.old.disk) (D.told self.new.disk) }

        // Which pass is open stays.
        ensures passing { self.new.collecting.passing ≡ self.old.collecting.passing }

        // No merge is left open.
        ensures ended { self.old.merging ≡ None → self.new.merging ≡ None }

        // Where none was due nothing was done; whatever stands in the tables, so it is only where a merge is open or no level is due.
        ensures idle { result ≡ Ok None → (self.new.core ≡ self.old.core) × (self.new.disk ≡ self.old.disk) }
        ensures due { result ≡ Ok None → (not (is_some self.old.merging) && is_due D.Held.size self.old.core.version) ≡ false }
    {
        let Some(mut job) = self.plan()? else {
            return Ok(None);
        };
        if let Err(fail) = self.carry_out(&mut job) {
            self.abandon(job);
            return Err(fail);
        }
        let kept = job.kept_count();
        match self.install(job) {
            Ok(()) => Ok(Some(kept)),
            Err(fail) => Err(self.abandoned(fail)),
        }
    }

    /// Makes all tables of a merge that was planned, which is ready for `install` then.
    pub fn carry_out(
        &mut self,
        job: &mut Job<Base<D::Held, D::Reader>, D::Held, D::Writer>,
    ) -> Result<(), MergeFail>
        requires { IsUnderWay D.Watched D.Writer.Writer self.old.disk self.old.core.front.halted self.old.merging job.old }
        ensures handed { OnOk result (IsHandedIn D.Watched D.Writer.Writer self.new.disk self.new.core.front.halted
            self.new.merging job.new) }
        ensures under_way { IsUnderWay D.Watched D.Writer.Writer self.new.disk self.new.core.front.halted self.new.merging job.new }
        ensures pins { self.new.removing.pins ≡ self.old.removing.pins }
        ensures collecting { self.new.collecting ≡ self.old.collecting }
        ensures logs { self.new.core.version.behind.logs ≡ self.old.core.version.behind.logs }

        // Of a job that does what the layout's open one says, as `plan` gives it: whatever it answers, the engine stands for the same
        // history, as where a whole merge is done, with that job open yet. Where it is done, the job has all of its merge, which is
        // what `install` asks of it.
        ensures makes { (h : History) (l : Layout) (o : OpenJob) → Represents D.Held.bytes self.old.core (D.told self.old.disk) h l
            → StandsOpen D.Held.bytes self.old.core self.old.merging h l → Fits (D.told self.old.disk) self.old.core h l
            → l.job ≡ Some o → HasMerge D.Writer.Writer D.Held.bytes job.old o.job → FitsReaders D.Held.bytes job.old
            → MakesTables D.Watched D.Writer.Writer D.Held.bytes self.old.disk self.new.disk self.new.core self.new.merging job.new
            h l o.job result }

        // What is kept of which files can go is that layout's.
        ensures removes { (h : History) (l : Layout) (o : OpenJob) → Represents D.Held.bytes self.old.core (D.told self.old.disk) h l
            → StandsOpen D.Held.bytes self.old.core self.old.merging h l → Fits (D.told self.old.disk) self.old.core h l
            → l.job ≡ Some o → HasMerge D.Writer.Writer D.Held.bytes job.old o.job → FitsReaders D.Held.bytes job.old
            → Removes self.old.core self.old.removing l
            → MakesRemoving D.Watched D.Writer.Writer D.Held.bytes self.old.disk self.new.disk self.new.core self.new.merging
            self.new.removing job.new h l o.job result }

        // Whatever is told: what it answers has its cause, and what it leaves in memory is said of each answer.
        ensures as_made { CarriesOutAs D.Writer.Writer D.Held.bytes (λ r. D.Reader.faults r) D.Watched job.old job.new.after
            (moment self.old.core self.old.merging self.old.disk) (moment self.new.core self.new.merging self.new.disk) result }
        ensures sure { (name : Name) → D.gives_steady self.old.disk → result ≡ Err (fails.Disk name)
            → Rose (D.faults self.old.disk) (D.faults self.new.disk) }
        // Of its inputs all was read up to the last key that it made, and to their end where it has all of its tables.
        ensures inputs { job.new.inputs ≡ job.old.inputs }
        ensures read { HasRead D.Held.bytes job.old → HasRead D.Held.bytes job.new }
        ensures whole { OnOk result (HasRead D.Held.bytes job.old → AreReadWhole D.Held.bytes job.new.inputs.tables.items) }
        // A halted engine does nothing.
        ensures idle { (name : Name) → self.old.core.front.halted ≡ Some name → LeavesStore D.Watched
            (moment self.old.core self.old.merging self.old.disk) (moment self.new.core self.new.merging self.new.disk) }
        // No file but tables with the next numbers comes or goes, and these are lent to the merge.
        ensures files { KeepsAllBelow self.old.core.back.state.next_table (D.told self.old.disk) (D.told self.new.disk) }
        ensures tells { GoesOnTelling (D.told self.old.disk) (D.told self.new.disk) }
        ensures lends { LendsFrom self.old.core.back.state.next_table self.old.merging self.new.merging }
    {
        let mut reader = self.reader()?;
        'making: for _ in 0..MAX_FILE_NUMBER {
            let Some(next) = job.ready(self.alloc, &mut reader)? else {
                return Ok(());
            };
            let file = self.fresh(job)?;
            job.fill(self.alloc, &mut reader, next, file)?;
        }
        // Each table took a number of its own.
        Err(MergeFail::Exhausted(Counter::Table))
    }

    // The tables weren't put in: the merge is over, also where it was handed back.
    fn abandoned(
        &mut self,
        fail: InstallFail<Base<D::Held, D::Reader>, D::Held, D::Writer>,
    ) -> MergeFail
        requires { IfHandedBack D.Watched D.Writer.Writer self.old.disk self.old.core.front.halted self.old.merging fail }
        ensures merging { self.old.merging ≡ None → self.new.merging ≡ None }
        ensures ended { GivesUp fail self.old.removing self.new.removing self.old.merging self.new.merging }
        ensures collecting { self.new.collecting ≡ self.old.collecting }
        ensures core { self.new.core ≡ self.old.core }
        ensures disk { self.new.disk ≡ self.old.disk }
        ensures refusal { result ≡ of_install fail }
    {
        match fail {
            InstallFail::Halted { name } => MergeFail::Halted { name },
            InstallFail::Raced { .. } => MergeFail::Raced,
            InstallFail::Exhausted(counter) => MergeFail::Exhausted(counter),
            InstallFail::NoMemory(job) => {
                self.abandon_open(job);
                MergeFail::NoMemory
            }
            InstallFail::Disk { name } => MergeFail::Disk { name },
        }
    }
}
