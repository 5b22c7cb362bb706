//! Removal of the files that nothing holds any more.
ghost use Rattle.std.specs.Prelude.{◌≡◌, Err, None, OnOk, true};
ghost use Rattle.vl_engine_laws.specs.Carries.{StaysUntold};
ghost use Rattle.vl_engine_laws.specs.Represents.{file_of};
ghost use Rattle.vl_engine_laws.specs.Shown.{Shown};
ghost use Rattle.vl_disk.specs.Faults.{HasCause};
ghost use Rattle.vl_disk.specs.declared.name.Name.{Name};
ghost use Rattle.vl_space.specs.Collecting.{Collects};
ghost use Rattle.vl_engine_model.specs.Rulings.Sweep.{sweep_ruling, swept};
ghost use Rattle.vl_engine_model.specs.Stock.{is_in};
ghost use Rattle.vl_engine_model.specs.Store.Dispatch.{sweep_by};
ghost use Rattle.vl_script_model.specs.Durable.{CarriesOut};
ghost use Rattle.vl_script_model.specs.Halts.{HaltsByDisk, HaltsByRead, ReadsWell};
ghost use Rattle.vl_replay_laws.specs.Replaying.{MakesStep, state_by};
ghost use Rattle.vl_replay.specs.Served.{RemovesIn, StandsRemoving};
ghost use Rattle.vl_script_model.specs.Sequential.{State, history_of};
ghost use Rattle.vl_replay_laws.specs.Standing.{sweep_answer};
ghost use Rattle.vl_script_model.specs.Stored.{IsStopped, IsStored};
ghost use Rattle.vl_script_model.specs.declared.fails.Halt.TheVariants as halts;

use crate::replayer::Served;
use vl_disk::Disk;
use vl_engine::SweepFail;
use vl_script::Answer;
use vl_script_model::Halt;

impl<D: Disk> Served<D> {
    /// Removes the retired files that nothing holds any more, and tells how many went.
    pub(super) fn sweep(&mut self) -> Result<Answer, Halt>
        ensures makes { (s : State) → StandsRemoving D.Watched D.Held.bytes self.old s
            → MakesStep D.Held.bytes (D.told self.new.engine.disk) self.new.engine.core self.new.opens.items s
            (sweep_by s.store (sweep_ruling s.store.layout (history_of s))) result }
        ensures removes { (s : State) → StandsRemoving D.Watched D.Held.bytes self.old s
            → OnOk result (RemovesIn self.new (sweep_by s.store (sweep_ruling s.store.layout (history_of s))).state) }
        ensures collects { (s : State) → StandsRemoving D.Watched D.Held.bytes self.old s
            → Collects self.old.engine.core self.old.engine.collecting s.store.layout
            → OnOk result (Collects self.new.engine.core self.new.engine.collecting (sweep_ruling s.store.layout (history_of s)).layout) }
        ensures carries { (s : State) → StandsRemoving D.Watched D.Held.bytes self.old s
            → CarriesOut D.Watched IsStored Shown IsStopped self.old.engine.disk self.new.engine.disk s
            (state_by s (sweep_by s.store (sweep_ruling s.store.layout (history_of s)))) result }
        ensures sound { (s : State) → StandsRemoving D.Watched D.Held.bytes self.old s → HaltsByRead result → ⊥ }
        // It reads nothing.
        ensures reads_well { ReadsWell result }
        ensures things { self.new.opens ≡ self.old.opens }
        ensures cause { HasCause (D.faults self.old.engine.disk) (D.faults self.new.engine.disk) (HaltsByDisk result) }
        ensures named { (s : State) (file : Name) → StandsRemoving D.Watched D.Held.bytes self.old s
            → result ≡ Err (halts.Disk file) → is_in (file_of file) (swept None s.store.layout) ≡ true }
        ensures merging { self.new.engine.merging ≡ self.old.engine.merging }
        ensures untold { OnOk result (StaysUntold (D.told self.old.engine.disk) (D.told self.new.engine.disk)) }
        ensures steady { D.gives_steady self.old.engine.disk → D.gives_steady self.new.engine.disk }
    {
        sweep_answer(self.engine.sweep())
    }
}

// How a sweep is answered.
fn sweep_answer(swept: Result<u64, SweepFail>) -> Result<Answer, Halt>
    ensures { result ≡ sweep_answer swept }
{
    match swept {
        Ok(count) => Ok(Answer::Removed { count }),
        Err(SweepFail::Disk { name }) => Err(Halt::Disk { name }),
        Err(SweepFail::Halted { name }) => Err(Halt::Halted { name }),
    }
}
