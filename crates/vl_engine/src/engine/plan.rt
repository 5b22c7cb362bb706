ghost use Rattle.std.specs.Prelude.{◌≡◌, None, Option, Some, IfOk, OnErr, OnOk};
ghost use Rattle.std.specs.Option.{ForSome, is_some};
ghost use Rattle.vl_compact.specs.Laid.{AreBoth};
ghost use Rattle.vl_compact.specs.Progress.{IsNew, made_of};
ghost use Rattle.vl_steps.specs.Merging.{FitsReaders, HasMerge, IsJustOpen, IsMergeFor, IsMergeOf, OpensMerge, plan_outcome};
ghost use Rattle.vl_disk.specs.Faults.{IsNewCount};
ghost use Rattle.vl_engine_laws.specs.Lent.{StandsOpen};
ghost use Rattle.vl_steps.specs.Planning.{IsChosen, PlansWhere, is_due, is_led_into};
ghost use Rattle.vl_engine_laws.specs.Represents.{Fronts, Represents, StandsFor};
ghost use Rattle.vl_engine_laws.specs.MayStep.{Fits};
ghost use Rattle.vl_engine_model.specs.Decides.{Decides, as_before, no_effects};
ghost use Rattle.vl_engine_model.specs.Rulings.Drain.{drain_ruling};
ghost use Rattle.vl_engine_model.specs.Rulings.Plan.{plan_ruling};
ghost use Rattle.vl_engine_model.specs.Ruling.{Ruling};
ghost use Rattle.vl_engine_model.specs.Jobs.{AreLent, Made};
ghost use Rattle.vl_engine_model.specs.Rulings.Abandon.{abandon_ruling};
ghost use Rattle.vl_engine_model.specs.declared.job.Job as laid_job;
ghost use Rattle.vl_engine_model.specs.declared.job.OpenJob.{OpenJob};
ghost use Rattle.vl_engine_model.specs.declared.layout.Layout.{Layout};
ghost use Rattle.vl_model.specs.History.{History};
ghost use Rattle.vl_table.specs.Kept.{Files};
ghost use Rattle.vl_table.specs.KeptBlocks.{AreKept};
ghost use Rattle.vl_version.specs.Bases as bases;
ghost use Rattle.vl_space.specs.Pinning.{PinsMerge, merge_pinned};
ghost use Rattle.vl_space.specs.Removing.{Removes};
ghost use Rattle.vl_space.specs.Retiring.{LeavesFiles, files_in};
ghost use Rattle.vl_engine.specs.UnderWay.{IsUnderWay};

use crate::Engine;
use std::alloc::AllocError;
use vl_compact::{Inputs, Job, JobReader, drained, planned};
use vl_disk::{Disk, NoMemory};
use vl_engine_laws::OpenMerge;
use vl_table::{BlockReader, KEPT_BLOCKS};
use vl_version::Base;

impl<D: Disk> Engine<D> {
    /// Plans a merge of tables, which is open from then on until it is given back to `install` or `abandon`: of all tables of
    /// level 0, where these are four or more; else of the table with the least number of the first deeper level that has too
    /// many bytes; and of those of the next level whose ranges of keys meet theirs. None where a merge is open, or no level is
    /// due. What the merge itself does, `ready` and `fill`, goes on beside the engine's other calls. The disk isn't asked.
    pub fn plan(
        &mut self,
    ) -> Result<Option<Job<Base<D::Held, D::Reader>, D::Held, D::Writer>>, NoMemory>
        // It is planned as the ruling has it.
        ensures stands { (h : History) (l : Layout) → StandsOpen D.Held.bytes self.old.core self.old.merging h l
            → Decides (StandsOpen D.Held.bytes self.new.core self.new.merging) h l (plan_ruling l h) (as_before l l)
            (plan_outcome (plan_ruling l h).answer result) no_effects }
        ensures represents { (h : History) (l : Layout) → Represents D.Held.bytes self.old.core (D.told self.old.disk) h l
            → StandsOpen D.Held.bytes self.old.core self.old.merging h l
            → Decides (Represents D.Held.bytes self.new.core (D.told self.new.disk)) h l (plan_ruling l h) (as_before l l)
            (plan_outcome (plan_ruling l h).answer result) no_effects }

        // What steps on files ask stays.
        ensures fits { (h : History) (l : Layout) → StandsOpen D.Held.bytes self.old.core self.old.merging h l
            → Fits (D.told self.old.disk) self.old.core h l
            → Decides (Fits (D.told self.new.disk) self.new.core) h l (plan_ruling l h) (as_before l l)
            (plan_outcome (plan_ruling l h).answer result) no_effects }

        // What is kept of which files can go is what the layout has: its epoch is pinned.
        ensures removes { (h : History) (l : Layout) → StandsOpen D.Held.bytes self.old.core self.old.merging h l
            → Removes self.old.core self.old.removing l
            → Decides (λ _ l. Removes self.new.core self.new.removing l) h l (plan_ruling l h) (as_before l l)
            (plan_outcome (plan_ruling l h).answer result) no_effects }
        ensures stock { self.new.removing.stock ≡ self.old.removing.stock }
        ensures removing { PinsMerge self.old.core.back.epoch self.old.removing self.new.removing result }

        // The merge does what the ruling's job says, and has made nothing yet.
        ensures job { (h : History) (l : Layout) → StandsOpen D.Held.bytes self.old.core self.old.merging h l
            → IfOk result (λ job. AreBoth (HasMerge D.Writer.Writer D.Held.bytes) job (plan_ruling l h).answer) }
        ensures new { IfOk result (λ job. ForSome job IsNew) }
        // It is a merge of what the engine has.
        ensures base { IfOk result (λ job. ForSome job (λ job. job.base.version ≡ self.old.core.version)) }
        // One begins only where none is open.
        ensures open { IfOk result (λ job. ForSome job (λ _. self.old.merging ≡ None)) }
        // Whatever stands in the tables, one is planned exactly where none is open and a level is due.
        ensures due { PlansWhere (is_due D.Held.size self.old.core.version) self.old.merging result }
        // It may be carried out, and abandoned.
        ensures under_way { IfOk result (λ job. ForSome job (IsUnderWay D.Watched D.Writer.Writer self.new.disk
            self.new.core.front.halted self.new.merging)) }

        // A reader that keeps no block that doesn't stand, as `reader` gives, fits its sources: look-ups by it are told.
        ensures looks { (h : History) (l : Layout) → StandsOpen D.Held.bytes self.old.core self.old.merging h l
            → IfOk result (λ job. ForSome job (FitsReaders D.Held.bytes)) }

        // It is open then, and nothing was lent to it. In memory nothing else changes, and the disk isn't asked.
        ensures merging { OpensMerge self.old.merging self.new.merging result }
        ensures core { self.new.core ≡ self.old.core }
        ensures disk { self.new.disk ≡ self.old.disk }
        ensures collecting { self.new.collecting ≡ self.old.collecting }
    {
        if self.merging.is_some() {
            return Ok(None);
        }
        match planned(self.alloc, self.core.version.levels()) {
            Ok(inputs) => self.begin_chosen(inputs),
            Err(_) => Err(NoMemory),
        }
    }

    /// Plans a merge of one table alone, whose outputs take its place: of the first one, in the order of the sources, that leads
    /// into a segment. Where a pass has moved the records of a log, this drops the entries that led to them, so that the log can
    /// go. None where a merge is open, or no table leads there. Each of its blocks is read and written, however few entries lead
    /// there; and what is read from the log yet is kept, so that a loop of drains may not end. Else it is as with `plan`.
    pub fn drain(
        &mut self,
        segment: u32,
    ) -> Result<Option<Job<Base<D::Held, D::Reader>, D::Held, D::Writer>>, NoMemory>
        // It is planned as the ruling has it.
        ensures stands { (h : History) (l : Layout) → StandsOpen D.Held.bytes self.old.core self.old.merging h l
            → Decides (StandsOpen D.Held.bytes self.new.core self.new.merging) h l (drain_ruling l h segment) (as_before l l)
            (plan_outcome (drain_ruling l h segment).answer result) no_effects }
        ensures represents { (h : History) (l : Layout) → Represents D.Held.bytes self.old.core (D.told self.old.disk) h l
            → StandsOpen D.Held.bytes self.old.core self.old.merging h l
            → Decides (Represents D.Held.bytes self.new.core (D.told self.new.disk)) h l (drain_ruling l h segment) (as_before l l)
            (plan_outcome (drain_ruling l h segment).answer result) no_effects }

        // What steps on files ask stays.
        ensures fits { (h : History) (l : Layout) → StandsOpen D.Held.bytes self.old.core self.old.merging h l
            → Fits (D.told self.old.disk) self.old.core h l
            → Decides (Fits (D.told self.new.disk) self.new.core) h l (drain_ruling l h segment) (as_before l l)
            (plan_outcome (drain_ruling l h segment).answer result) no_effects }

        // What is kept of which files can go is what the layout has: its epoch is pinned.
        ensures removes { (h : History) (l : Layout) → StandsOpen D.Held.bytes self.old.core self.old.merging h l
            → Removes self.old.core self.old.removing l
            → Decides (λ _ l. Removes self.new.core self.new.removing l) h l (drain_ruling l h segment) (as_before l l)
            (plan_outcome (drain_ruling l h segment).answer result) no_effects }
        ensures stock { self.new.removing.stock ≡ self.old.removing.stock }
        ensures removing { PinsMerge self.old.core.back.epoch self.old.removing self.new.removing result }

        // The merge does what the ruling's job says, and has made nothing yet.
        ensures job { (h : History) (l : Layout) → StandsOpen D.Held.bytes self.old.core self.old.merging h l
            → IfOk result (λ job. AreBoth (HasMerge D.Writer.Writer D.Held.bytes) job (drain_ruling l h segment).answer) }
        ensures new { IfOk result (λ job. ForSome job IsNew) }
        // It is a merge of what the engine has.
        ensures base { IfOk result (λ job. ForSome job (λ job. job.base.version ≡ self.old.core.version)) }
        // One begins only where none is open.
        ensures open { IfOk result (λ job. ForSome job (λ _. self.old.merging ≡ None)) }
        // Whatever stands in the tables, one is planned exactly where none is open and a table leads there.
        ensures leads { PlansWhere (is_led_into segment self.old.core.version) self.old.merging result }
        // It may be carried out, and abandoned.
        ensures under_way { IfOk result (λ job. ForSome job (IsUnderWay D.Watched D.Writer.Writer self.new.disk
            self.new.core.front.halted self.new.merging)) }

        // A reader that keeps no block that doesn't stand, as `reader` gives, fits its sources: look-ups by it are told.
        ensures looks { (h : History) (l : Layout) → StandsOpen D.Held.bytes self.old.core self.old.merging h l
            → IfOk result (λ job. ForSome job (FitsReaders D.Held.bytes)) }

        // It is open then, and nothing was lent to it. In memory nothing else changes, and the disk isn't asked.
        ensures merging { OpensMerge self.old.merging self.new.merging result }
        ensures core { self.new.core ≡ self.old.core }
        ensures disk { self.new.disk ≡ self.old.disk }
        ensures collecting { self.new.collecting ≡ self.old.collecting }
    {
        if self.merging.is_some() {
            return Ok(None);
        }
        match drained(self.alloc, self.core.version.levels(), segment) {
            Ok(inputs) => self.begin_chosen(inputs),
            Err(_) => Err(NoMemory),
        }
    }

    // Begins a merge of the inputs that were chosen, where some were. It is said for whatever ruling begins that merge, as the one
    // on plans and the one on drains do.
    fn begin_chosen(
        &mut self,
        inputs: Option<Inputs<D::Held>>,
    ) -> Result<Option<Job<Base<D::Held, D::Reader>, D::Held, D::Writer>>, NoMemory>
        ensures stands { (h : History) (l : Layout) (ruling : Ruling (Option laid_job.Job))
            → StandsOpen D.Held.bytes self.old.core self.old.merging h l → IsChosen D.Held.bytes inputs h l ruling
            → Decides (StandsOpen D.Held.bytes self.new.core self.new.merging) h l ruling (as_before l l)
            (plan_outcome ruling.answer result) no_effects }
        ensures represents { (h : History) (l : Layout) (ruling : Ruling (Option laid_job.Job))
            → Represents D.Held.bytes self.old.core (D.told self.old.disk) h l → IsChosen D.Held.bytes inputs h l ruling
            → Decides (Represents D.Held.bytes self.new.core (D.told self.new.disk)) h l ruling (as_before l l)
            (plan_outcome ruling.answer result) no_effects }
        ensures fits { (h : History) (l : Layout) (ruling : Ruling (Option laid_job.Job))
            → Fits (D.told self.old.disk) self.old.core h l → IsChosen D.Held.bytes inputs h l ruling
            → Decides (Fits (D.told self.new.disk) self.new.core) h l ruling (as_before l l)
            (plan_outcome ruling.answer result) no_effects }
        ensures removes { (h : History) (l : Layout) (ruling : Ruling (Option laid_job.Job))
            → Fronts self.old.core h l → Removes self.old.core self.old.removing l → IsChosen D.Held.bytes inputs h l ruling
            → Decides (λ _ l. Removes self.new.core self.new.removing l) h l ruling (as_before l l)
            (plan_outcome ruling.answer result) no_effects }
        ensures job { (h : History) (l : Layout) (ruling : Ruling (Option laid_job.Job))
            → StandsFor D.Held.bytes self.old.core h l → IsChosen D.Held.bytes inputs h l ruling
            → IfOk result (λ job. AreBoth (HasMerge D.Writer.Writer D.Held.bytes) job ruling.answer) }
        ensures new { IfOk result (λ job. ForSome job IsNew) }
        ensures begins { IfOk result (λ job. is_some job ≡ is_some inputs) }
        ensures base { IfOk result (λ job. ForSome job (λ job. job.base.version ≡ self.old.core.version)) }
        ensures under_way { IfOk result (λ job. ForSome job (IsUnderWay D.Watched D.Writer.Writer self.new.disk
            self.new.core.front.halted self.new.merging)) }
        ensures looks { (h : History) (l : Layout) → StandsFor D.Held.bytes self.old.core h l
            → IfOk result (λ job. ForSome job (FitsReaders D.Held.bytes)) }
        ensures removing { PinsMerge self.old.core.back.epoch self.old.removing self.new.removing result }
        ensures merging { OpensMerge self.old.merging self.new.merging result }
        ensures core { self.new.core ≡ self.old.core }
        ensures disk { self.new.disk ≡ self.old.disk }
        ensures collecting { self.new.collecting ≡ self.old.collecting }
    {
        match inputs {
            None => Ok(None),
            Some(inputs) => Ok(Some(self.begin_merge(inputs)?)),
        }
    }

    // Begins a merge of these inputs.
    fn begin_merge(
        &mut self,
        inputs: Inputs<D::Held>,
    ) -> Result<Job<Base<D::Held, D::Reader>, D::Held, D::Writer>, AllocError>
        ensures merge { IfOk result (IsMergeOf self.old.core inputs) }
        ensures has { (j : laid_job.Job) → IfOk result (λ job. IsMergeFor D.Writer.Writer D.Held.bytes job j
            → HasMerge D.Writer.Writer D.Held.bytes job j) }
        ensures new { IfOk result (λ job. IsNew job) }
        ensures under_way { IfOk result (λ job. IsUnderWay D.Watched D.Writer.Writer self.new.disk self.new.core.front.halted
            self.new.merging job) }
        ensures begun { OnOk result (IsJustOpen self.new.merging) }
        ensures pinned { OnOk result (self.new.removing ≡ merge_pinned (Some self.old.core.back.epoch) self.old.removing) }
        ensures unpinned { OnErr result (self.new.removing ≡ self.old.removing) }
        ensures core { self.new.core ≡ self.old.core }
        ensures disk { self.new.disk ≡ self.old.disk }
        ensures refused { OnErr result (self.new.merging ≡ self.old.merging) }
        ensures collecting { self.new.collecting ≡ self.old.collecting }
    {
        let version = self.core.version.share()?;
        let floor = self.core.front.oracle.floor();
        let keep = self.core.back.state.keep;
        self.merging = Some(OpenMerge::new(self.alloc));
        self.removing.pins.merge = Some(self.core.back.epoch);
        Ok(Job::new(self.alloc, Base::new(version), inputs, floor, keep))
    }

    /// What a merge is read with. It keeps no block yet. A reader is good for what the engine has at this moment: behind a rotation,
    /// a flush or an install take another.
    pub fn reader(&self) -> Result<JobReader<D::Reader, BlockReader<D::Reader>>, NoMemory>
        ensures blocks { (files : Files) → IfOk result (λ reader. AreKept files reader.looks) }
        // So look-ups by it in what the engine has now are told.
        ensures fits { (h : History) (l : Layout) → StandsFor D.Held.bytes self.now.core h l
            → IfOk result (λ reader. bases.Fits D.Held.bytes self.now.core.version reader.looks) }
        ensures files { IfOk result (λ reader. IsNewCount (D.gives_steady self.now.disk) (D.Reader.faults reader.files)) }
        ensures looks { IfOk result (λ reader. IsNewCount (D.gives_steady self.now.disk) (D.Reader.faults reader.looks.reader)) }
    {
        let files = self.disk.reader(self.alloc)?;
        let inner = self.disk.reader(self.alloc)?;
        match BlockReader::new(self.alloc, inner, KEPT_BLOCKS) {
            Ok(looks) => Ok(JobReader { files, looks }),
            Err(_) => Err(NoMemory),
        }
    }

    /// Abandons a merge. No call reads its files any more, and a sweep or the next opening removes what is left of them. It wants
    /// no memory, and the disk isn't asked.
    pub fn abandon(&mut self, job: Job<Base<D::Held, D::Reader>, D::Held, D::Writer>)
        requires { IsUnderWay D.Watched D.Writer.Writer self.old.disk self.old.core.front.halted self.old.merging job }

        // So it is with whatever files of those that were lent to it it made.
        ensures stands { (h : History) (l : Layout) (o : OpenJob) (made : Made)
            → StandsOpen D.Held.bytes self.old.core self.old.merging h l → l.job ≡ Some o → AreLent o.lent made
            → StandsOpen D.Held.bytes self.new.core self.new.merging h (abandon_ruling l h o.job made).layout }
        ensures represents { (h : History) (l : Layout) (o : OpenJob) (made : Made)
            → Represents D.Held.bytes self.old.core (D.told self.old.disk) h l → l.job ≡ Some o → AreLent o.lent made
            → Represents D.Held.bytes self.new.core (D.told self.new.disk) h (abandon_ruling l h o.job made).layout }
        ensures fits { (h : History) (l : Layout) (o : OpenJob) (made : Made)
            → Fits (D.told self.old.disk) self.old.core h l
            → Fits (D.told self.new.disk) self.new.core h (abandon_ruling l h o.job made).layout }

        // Its files wait for their removal, and it pins nothing.
        ensures removes { (h : History) (l : Layout) (o : OpenJob)
            → StandsOpen D.Held.bytes self.old.core self.old.merging h l → l.job ≡ Some o
            → HasMerge D.Writer.Writer D.Held.bytes job o.job → Removes self.old.core self.old.removing l
            → Removes self.new.core self.new.removing (abandon_ruling l h o.job (made_of job o.job)).layout }
        ensures left { LeavesFiles (files_in job) self.old.removing.stock self.new.removing.stock }
        ensures pins { self.new.removing.pins ≡ record self.old.removing.pins { merge = None } }

        ensures core { self.new.core ≡ self.old.core }
        ensures disk { self.new.disk ≡ self.old.disk }
        ensures merging { self.new.merging ≡ None }
        ensures collecting { self.new.collecting ≡ self.old.collecting }
    {
        self.abandon_open(job);
    }
}
