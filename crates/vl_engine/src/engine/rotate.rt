ghost use Rattle.std.specs.Prelude.{◌≡◌, ◌≤◌, ◌+◌, ℕ, length, Err, IfOk, IsSome, None, OnOk, Some};
ghost use Rattle.vl_back.specs.Writing.{KeepsOthers};
ghost use Rattle.vl_disk.specs.Calls.{ChangesNothing};
ghost use Rattle.vl_disk.specs.DiskState.{DiskState};
ghost use Rattle.vl_disk.specs.Faults.{HasCause, after_calls};
ghost use Rattle.vl_disk.specs.declared.name.Name.{Name};
ghost use Rattle.vl_disk.specs.declared.name.Name.TheVariants as names;
ghost use Rattle.vl_engine_laws.specs.Carries.{Carries, StaysUntold};
ghost use Rattle.vl_engine_laws.specs.Represents.{Fronts, Represents, StandsFor};
ghost use Rattle.vl_space.specs.Collecting.{Collects};
ghost use Rattle.vl_engine.specs.Space.{SealsFor};
ghost use Rattle.vl_steps.specs.Rotating.{RotatesAs, rotate_calls, rotate_effects};
ghost use Rattle.vl_engine_laws.specs.RotateFacts.{BeginsLog, HasActive, MayBegin, StopsRotating};
ghost use Rattle.vl_steps.specs.Stepping.{StepFailed, StepLeavesDisk, step_outcome};
ghost use Rattle.vl_engine_laws.specs.MayStep.{Fits, HasNumbers, LeavesNumbers};
ghost use Rattle.vl_steps.specs.declared.fails.StepFail.TheVariants as fails;
ghost use Rattle.vl_engine_model.specs.Decides.{Decides, as_before};
ghost use Rattle.vl_engine_model.specs.Rulings.Rotate.{rotate_ruling};
ghost use Rattle.vl_engine_model.specs.Tidy.{IsTrueLog};
ghost use Rattle.vl_engine_model.specs.declared.layout.Layout.{Layout};
ghost use Rattle.vl_model.specs.History.{History};
ghost use Rattle.vl_engine_laws.specs.Lent.{Opens};
ghost use Rattle.vl_space.specs.Removing.{Removes};
ghost use Rattle.vl_engine_laws.specs.Lent.{lent_in};
ghost use Rattle.vl_engine.specs.Space.{RotatesStock, SealsStock};

use crate::{Engine, StepFail};
use vl_back::{Waiting, make_log};
use vl_disk::{Disk, DiskFail, Name};
use vl_seglog::ActiveLog;
use vl_steps::{lent_count, refusal, stage_rotation};

impl<D: Disk> Engine<D> {
    /// Seals the active log and begins a new one, and answers with the number of the sealed one; none where no commit stands
    /// in it, and then nothing is done. All memory is taken before the new log is made, by a create, an append and a sync.
    /// What lives stays.
    pub fn rotate(&mut self) -> Result<Option<u32>, StepFail>
        // It is answered as the ruling has it.
        ensures decides { (h : History) (l : Layout) → Fronts self.old.core h l → (l.halted ≡ None → HasNumbers self.old.core.back l)
            → IsTrueLog l.active
            → Decides (Fronts self.new.core) h l (rotate_ruling l h) (as_before l l) (step_outcome result) (rotate_effects result) }
        ensures stands { (state : DiskState) (h : History) (l : Layout) → D.told self.old.disk ≡ Some state
            → StandsFor D.Held.bytes self.old.core h l
            → (l.halted ≡ None → HasNumbers self.old.core.back l × HasActive l state)
            → Decides (StandsFor D.Held.bytes self.new.core) h l (rotate_ruling l h) (as_before l l) (step_outcome result)
            (rotate_effects result) }

        // Over a disk that holds the layout: what a crash meanwhile leaves shows the history, and however it ends, a store may be
        // opened on the disk again.
        ensures carries { (h : History) (l : Layout) → Represents D.Held.bytes self.old.core (D.told self.old.disk) h l
            → Carries D.Watched D.Held.bytes self.old.disk self.new.disk self.new.core h l (rotate_ruling l h) (as_before l l)
            (step_outcome result) (rotate_effects result) }

        // What steps on files ask is so behind it.
        ensures fits { (h : History) (l : Layout) → StandsFor D.Held.bytes self.old.core h l
            → Fits (D.told self.old.disk) self.old.core h l
            → Decides (Fits (D.told self.new.disk) self.new.core) h l (rotate_ruling l h) (as_before l l) (step_outcome result)
            (rotate_effects result) }

        // Where no log was begun and the disk didn't fail, it was left alone, at each moment.
        ensures untouched { StepLeavesDisk result → ChangesNothing D.Watched self.old.disk self.new.disk ⊥ }

        // A disk that told nothing tells nothing then. One of which nothing that it gives ever fails stays so.
        ensures untold { OnOk result (StaysUntold (D.told self.old.disk) (D.told self.new.disk)) }
        ensures steady { D.gives_steady self.old.disk → D.gives_steady self.new.disk }

        // However it ends, no file but the new log comes or goes. Where a log was begun, three more calls changed a file.
        ensures files { KeepsOthers (names.Log self.old.core.back.next_log) (D.told self.old.disk) (D.told self.new.disk) }
        ensures calls { IfOk result (λ sealed. D.calls self.new.disk ≡ after_calls (rotate_calls sealed) (D.calls self.old.disk)) }

        // A fault of the disk is counted, and nothing else raises the count. It came at the active log, before the disk was
        // changed, or while the new one was made.
        ensures cause { HasCause (D.faults self.old.disk) (D.faults self.new.disk) (StepFailed result) }
        ensures stopped { (name : Name) → result ≡ Err (fails.Disk name)
            → StopsRotating self.old.core.front.log.number self.old.core.back.next_log (D.calls self.old.disk) (D.calls self.new.disk)
            name }

        // The disk fails only where a log may be begun: the engine wasn't halted, a commit stood in the active log, and numbers
        // were left. So a fault of the disk never comes in place of the answer that a halted engine, an empty log or used up
        // numbers are due.
        ensures failed { StepFailed result → MayBegin self.old.core }
        // By then the new log was made in part, if at all; and whatever a crash leaves gives no number above the next ones.
        ensures meanwhile { StepFailed result → BeginsLog D.Watched self.old.core self.old.disk self.new.disk }
        ensures leaves { (h : History) (l : Layout) (now : DiskState)
            → Represents D.Held.bytes self.old.core (D.told self.old.disk) h l
            → self.old.core.back.state.next_log ≤ self.old.core.back.next_log → StepFailed result
            → D.told self.new.disk ≡ Some now → LeavesNumbers l.next_log (l.next_table + 1) now }

        // The manifest gives the next log no number above that which it gets.
        ensures within { (StepFailed result → ⊥) → self.old.core.back.state.next_log ≤ self.old.core.back.next_log
            → self.new.core.back.state.next_log ≤ self.new.core.back.next_log }

        // What is kept of the open merge stays, and which pass is open.
        ensures merging { self.new.merging ≡ self.old.merging }
        ensures passing { self.new.collecting.passing ≡ self.old.collecting.passing }

        // What is kept of live bytes has the sealed log then.
        ensures collects { (h : History) (l : Layout) → StandsFor D.Held.bytes self.old.core h l
            → (l.halted ≡ None → HasNumbers self.old.core.back l) → Collects self.old.core self.old.collecting l
            → Decides (λ _ l. Collects self.new.core self.new.collecting l) h l (rotate_ruling l h) (as_before l l)
            (step_outcome result) (rotate_effects result) }

        // What is kept of which files can go is what the layout has; what is pinned stays.
        ensures removes { (h : History) (l : Layout) → StandsFor D.Held.bytes self.old.core h l
            → Opens self.old.merging l.job → (l.halted ≡ None → HasNumbers self.old.core.back l)
            → Removes self.old.core self.old.removing l
            → Decides (λ _ l. Removes self.new.core self.new.removing l) h l (rotate_ruling l h) (as_before l l)
            (step_outcome result) (rotate_effects result) }
        ensures pins { self.new.removing.pins ≡ self.old.removing.pins }

        // Whatever is told: the log that was sealed is in use then, and no file was retired.
        ensures retires { RotatesStock self.old.core self.old.removing.stock self.new.removing.stock
            (length (lent_in self.old.merging)) result }
    {
        match refusal(&self.core) {
            Some(answer) => answer,
            None => self.seal_active(),
        }
    }

    // Begins the next log, with room in memory for what is kept of the one that is sealed by that, and gives its number.
    fn seal_active(&mut self) -> Result<Option<u32>, StepFail>
        requires { MayBegin self.old.core }
        ensures cause { HasCause (D.faults self.old.disk) (D.faults self.new.disk) (StepFailed result) }
        ensures as_rotated { RotatesAs D.Watched D.Held.bytes self.old.disk self.new.disk self.old.core self.new.core result }
        ensures files { KeepsOthers (names.Log self.old.core.back.next_log) (D.told self.old.disk) (D.told self.new.disk) }
        ensures merging { self.new.merging ≡ self.old.merging }
        ensures collected { SealsFor D.Held.bytes self.old.core self.old.collecting self.new.collecting result }
        ensures sealed { SealsStock self.old.core self.old.removing.stock self.new.removing.stock (length (lent_in self.old.merging))
            result }
        ensures pins { self.new.removing.pins ≡ self.old.removing.pins }
    {
        let Ok(()) = self.collecting.make_room(self.alloc, &self.core) else {
            return Err(StepFail::NoMemory);
        };
        let Ok(()) = self
            .removing
            .make_room(self.alloc, &self.core, 0, lent_count(&self.merging))
        else {
            return Err(StepFail::NoMemory);
        };
        let length = self.core.front.log.length;
        match self.begin_log() {
            Ok(Some(number)) => {
                self.collecting.seal((number, length));
                self.removing.stock.add_log(number);
                Ok(Some(number))
            }
            answer => answer,
        }
    }

    // Begins the next log, and gives the number of the one that is sealed by that.
    fn begin_log(&mut self) -> Result<Option<u32>, StepFail>
        requires may { MayBegin self.old.core }
        requires kept { IsSome self.old.removing.stock.in_use }
        ensures cause { HasCause (D.faults self.old.disk) (D.faults self.new.disk) (StepFailed result) }
        ensures as_rotated { RotatesAs D.Watched D.Held.bytes self.old.disk self.new.disk self.old.core self.new.core result }
        ensures files { KeepsOthers (names.Log self.old.core.back.next_log) (D.told self.old.disk) (D.told self.new.disk) }
        ensures merging { self.new.merging ≡ self.old.merging }
        ensures collecting { self.new.collecting ≡ self.old.collecting }
        ensures removing { self.new.removing ≡ self.old.removing }
    {
        let Ok(()) = self.core.back.make_room() else {
            return Err(StepFail::NoMemory);
        };
        let sealed = self.core.front.log.number;
        let version = match stage_rotation(self.alloc, &mut self.disk, &self.core) {
            Ok(version) => version,
            Err(DiskFail::NoMemory) => return Err(StepFail::NoMemory),
            Err(DiskFail::Failed) => {
                let name = Name::Log(sealed);
                self.core.front.halted = Some(name);
                return Err(StepFail::Disk { name });
            }
        };
        let next = self.core.back.next_log;
        if let Err(name) = make_log(&mut self.disk, next) {
            self.core.front.halted = Some(name);
            return Err(StepFail::Disk { name });
        }
        let covered = self.core.front.oracle.last();
        self.core.front.log = ActiveLog::new(next);
        self.core.version = version;
        self.core.back.apply_rotation(Waiting {
            number: sealed,
            covered,
        });
        Ok(Some(sealed))
    }
}
