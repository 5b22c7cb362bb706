ghost use Rattle.std.specs.Prelude.{◌≡◌, ◌≤◌, true, is_some, Err, None, Some, IfOk, OnErr, OnOk};
ghost use Rattle.std.specs.Option.{ForSome};
ghost use Rattle.vl_back.specs.Writing.{KeepsOthers};
ghost use Rattle.vl_compact.specs.Progress.{HasRoom};
ghost use Rattle.vl_disk.specs.Calls.{ChangesNothing};
ghost use Rattle.vl_disk.specs.Disk.{IsChangedBy};
ghost use Rattle.vl_disk.specs.DiskState.{DiskState, new_file};
ghost use Rattle.vl_disk.specs.Faults.{HasCause, IsNewCount, after_calls};
ghost use Rattle.vl_disk.specs.declared.name.Name.TheVariants as names;
ghost use Rattle.vl_disk.specs.declared.name.Name.{Name};
ghost use Rattle.vl_engine_laws.specs.Carries.{Carries, StaysUntold};
ghost use Rattle.vl_steps.specs.Drawing.{DrawsCore, FreshLeavesDisk, IsLentMore, IsNewTo, IsSameJob, IsSameMerge};
ghost use Rattle.vl_steps.specs.Drawing.{MayDraw, StopsDrawing, WritesFresh, lent_new};
ghost use Rattle.vl_engine_laws.specs.Lent.{StandsOpen};
ghost use Rattle.vl_steps.specs.Merging.{fresh_effects, fresh_outcome};
ghost use Rattle.vl_engine_laws.specs.Represents.{Fronts, Represents};
ghost use Rattle.vl_steps.specs.Stepping.{StepFailed};
ghost use Rattle.vl_engine_laws.specs.MayStep.{Fits, HasNumbers, LeavesNumbers};
ghost use Rattle.vl_steps.specs.declared.fails.StepFail.TheVariants as fails;
ghost use Rattle.vl_engine_model.specs.Decides.{Decides, as_before};
ghost use Rattle.vl_engine_model.specs.Rulings.Fresh.{fresh_ruling};
ghost use Rattle.vl_engine_model.specs.declared.layout.Layout.{Layout};
ghost use Rattle.vl_model.specs.History.{History};
ghost use Rattle.vl_model.specs.declared.counter.Counter.TheVariants as counters;
ghost use Rattle.vl_model.specs.declared.counter.Counter.{Counter};
ghost use Rattle.vl_space.specs.Removing.{Removes};

use crate::{Engine, StepFail};
use vl_compact::{Job, Lent};
use vl_disk::{Disk, Name};
use vl_model::{Counter, MAX_FILE_NUMBER};
use vl_steps::{lend_new, make_room_to_abandon, note_lent, ready_fresh};
use vl_version::Base;

impl<D: Disk> Engine<D> {
    /// Makes the file of the open merge's next table, and lends it to the merge, which fills it beside the engine. All memory
    /// is taken before the one changing call, a create. From then on the file counts as one that was removed before its first
    /// sync: after a crash it may stand, with any bytes, or not.
    pub fn fresh(
        &mut self,
        job: &mut Job<Base<D::Held, D::Reader>, D::Held, D::Writer>,
    ) -> Result<Lent<D::Writer>, StepFail>
        requires { is_some self.old.merging ≡ true }

        // It is answered as the ruling has it.
        ensures decides { (h : History) (l : Layout) → Fronts self.old.core h l → (l.halted ≡ None → HasNumbers self.old.core.back l)
            → Decides (Fronts self.new.core) h l (fresh_ruling l h) (as_before l l) (fresh_outcome result) (fresh_effects result) }
        ensures stands { (h : History) (l : Layout) → StandsOpen D.Held.bytes self.old.core self.old.merging h l
            → (l.halted ≡ None → HasNumbers self.old.core.back l)
            → Decides (StandsOpen D.Held.bytes self.new.core self.new.merging) h l (fresh_ruling l h) (as_before l l)
            (fresh_outcome result) (fresh_effects result) }

        // Over a disk that holds the layout: what a crash meanwhile leaves shows the history, and however it ends, a store may be
        // opened on the disk again.
        ensures carries { (h : History) (l : Layout) → Represents D.Held.bytes self.old.core (D.told self.old.disk) h l
            → Carries D.Watched D.Held.bytes self.old.disk self.new.disk self.new.core h l (fresh_ruling l h) (as_before l l)
            (fresh_outcome result) (fresh_effects result) }

        // What steps on files ask is so behind it.
        ensures fits { (h : History) (l : Layout) → Fronts self.old.core h l → Fits (D.told self.old.disk) self.old.core h l
            → Decides (Fits (D.told self.new.disk) self.new.core) h l (fresh_ruling l h) (as_before l l) (fresh_outcome result)
            (fresh_effects result) }

        // What is kept of which files can go is what the layout has, with room for the file, should its merge end without it.
        ensures removes { (h : History) (l : Layout) → StandsOpen D.Held.bytes self.old.core self.old.merging h l
            → (l.halted ≡ None → HasNumbers self.old.core.back l) → Removes self.old.core self.old.removing l
            → Decides (λ _ l. Removes self.new.core self.new.removing l) h l (fresh_ruling l h) (as_before l l)
            (fresh_outcome result) (fresh_effects result) }
        ensures pins { self.new.removing.pins ≡ self.old.removing.pins }

        // The file is the next table's, and empty. The merge has it behind those that it was lent before, of which it is none; else
        // what is kept of the open merge stays.
        ensures number { IfOk result (λ file. file.number ≡ self.old.core.back.state.next_table) }
        ensures empty { IfOk result (λ file. ForSome (D.told self.old.disk)
            (λ _. D.Writer.Writer.file file.writer ≡ Some new_file)) }
        // What writes it has counted no fault, and never will where the disk gives such; it gives such still.
        ensures writer { IfOk result (λ file. IsNewCount (D.gives_steady self.old.disk) (D.Writer.faults file.writer)) }
        ensures steady { D.gives_steady self.old.disk → D.gives_steady self.new.disk }
        ensures merging { IfOk result (λ file. IsLentMore self.old.merging self.new.merging file.number) }
        ensures fresh { IfOk result (λ file. IsNewTo self.old.merging file.number) }
        ensures refused { OnErr result (IsSameMerge self.old.merging self.new.merging) }
        ensures collecting { self.new.collecting ≡ self.old.collecting }
        ensures logs { self.new.core.version.behind.logs ≡ self.old.core.version.behind.logs }

        // What carries out the merge is as before, with room for one table more.
        ensures job { IsSameJob job.old job.new }
        ensures room { OnOk result (HasRoom job.new) }

        // Where nothing was made and the disk didn't fail, it was left alone, at each moment.
        ensures untouched { FreshLeavesDisk result → ChangesNothing D.Watched self.old.disk self.new.disk ⊥ }

        // A disk that told nothing tells nothing then.
        ensures untold { OnOk result (StaysUntold (D.told self.old.disk) (D.told self.new.disk)) }

        // However it ends, no file but that of the table comes or goes. Where the file is lent, it counts as removed, and the disk
        // is as before else, after one changing call.
        ensures files { KeepsOthers (names.Table self.old.core.back.state.next_table) (D.told self.old.disk) (D.told self.new.disk) }
        ensures written { IfOk result (λ file. IsChangedBy (lent_new (names.Table file.number)) (D.told self.old.disk)
            (D.told self.new.disk)) }
        ensures calls { OnOk result (D.calls self.new.disk ≡ after_calls 1 (D.calls self.old.disk)) }

        // A fault of the disk is counted, and nothing else raises the count. The one changing call is on the table, which is named.
        // It fails only where numbers are left.
        ensures cause { HasCause (D.faults self.old.disk) (D.faults self.new.disk) (StepFailed result) }
        ensures stopped { (name : Name) → result ≡ Err (fails.Disk name)
            → StopsDrawing self.old.core.back.state.next_table (D.calls self.old.disk) (D.calls self.new.disk) name }
        ensures failed { StepFailed result → MayDraw self.old.core }
        // By then the file was made in part, if at all; and whatever a crash leaves gives no number above the next ones.
        ensures meanwhile { StepFailed result → WritesFresh D.Watched self.old.core self.old.disk self.new.disk }
        ensures leaves { (h : History) (l : Layout) (now : DiskState)
            → Represents D.Held.bytes self.old.core (D.told self.old.disk) h l
            → self.old.core.back.state.next_log ≤ self.old.core.back.next_log → StepFailed result
            → D.told self.new.disk ≡ Some now → LeavesNumbers l.next_log l.next_table now }

        // The manifest gives the next log no number above that which it gets.
        ensures within { (StepFailed result → ⊥) → self.old.core.back.state.next_log ≤ self.old.core.back.next_log
            → self.new.core.back.state.next_log ≤ self.new.core.back.next_log }

        // In memory just the next table's number changes beside the open merge, unless a fault halts. A halted engine does nothing.
        ensures core { DrawsCore self.old.core self.new.core result }
        ensures halted { (name : Name) → self.old.core.front.halted ≡ Some name → result ≡ Err (fails.Halted name) }
        ensures counted { (counter : Counter) → result ≡ Err (fails.Exhausted counter) → counter ≡ counters.Table }
    {
        if let Some(name) = self.core.front.halted {
            return Err(StepFail::Halted { name });
        }
        let number = self.core.back.state.next_table;
        if number > MAX_FILE_NUMBER {
            return Err(StepFail::Exhausted(Counter::Table));
        }
        let Ok(()) = make_room_to_abandon(&mut self.removing.stock, &self.merging) else {
            return Err(StepFail::NoMemory);
        };
        let Ok(()) = ready_fresh(&mut self.disk, &mut self.merging, job, number) else {
            return Err(StepFail::NoMemory);
        };
        let name = Name::Table(number);
        match lend_new(&mut self.disk, name) {
            Ok(writer) => {
                self.core.back.state.next_table = number + 1;
                note_lent(&mut self.merging, number);
                Ok(Lent { number, writer })
            }
            Err(_) => {
                self.core.front.halted = Some(name);
                Err(StepFail::Disk { name })
            }
        }
    }
}
