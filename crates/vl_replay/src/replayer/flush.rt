//! Flushes.
ghost use Rattle.std.specs.Prelude.{◌≡◌, ◌⊎◌, Err, OnOk};
ghost use Rattle.vl_disk.specs.Faults.{HasCause};
ghost use Rattle.vl_disk.specs.declared.name.Name.{Name};
ghost use Rattle.vl_disk.specs.declared.name.Name.TheVariants as names;
ghost use Rattle.vl_engine_laws.specs.Carries.{StaysUntold};
ghost use Rattle.vl_engine_laws.specs.Shown.{Shown};
ghost use Rattle.vl_space.specs.Collecting.{Collects};
ghost use Rattle.vl_engine_model.specs.Rulings.Flush.{flush_ruling};
ghost use Rattle.vl_engine_model.specs.Store.Dispatch.{step_by};
ghost use Rattle.vl_script_model.specs.Durable.{CarriesOut};
ghost use Rattle.vl_script_model.specs.Halts.{HaltsByDisk, HaltsByRead, ReadsWell};
ghost use Rattle.vl_replay_laws.specs.Replaying.{MakesStep, state_by_step};
ghost use Rattle.vl_replay.specs.Served.{RemovesIn, ServesFor, StandsRemoving};
ghost use Rattle.vl_script_model.specs.Sequential.{State, history_of};
ghost use Rattle.vl_script_model.specs.Stored.{IsStopped, IsStored};
ghost use Rattle.vl_script_model.specs.declared.fails.Halt.TheVariants as halts;

use crate::replayer::Served;
use crate::replayer::step::step_answer;
use vl_disk::Disk;
use vl_script::Answer;
use vl_script_model::Halt;

impl<D: Disk> Served<D> {
    /// Makes a table of the log that was sealed first of those that wait for it, where one does.
    pub(super) fn flush(&mut self) -> Result<Answer, Halt>
        ensures makes { (s : State) → ServesFor D.Watched D.Held.bytes self.old s
            → MakesStep D.Held.bytes (D.told self.new.engine.disk) self.new.engine.core self.new.opens.items s
            (step_by s.store (flush_ruling s.store.layout (history_of s))) result }
        ensures carries { (s : State) → ServesFor D.Watched D.Held.bytes self.old s
            → CarriesOut D.Watched IsStored Shown IsStopped self.old.engine.disk self.new.engine.disk s
            (state_by_step s (step_by s.store (flush_ruling s.store.layout (history_of s)))) result }
        ensures sound { (s : State) → ServesFor D.Watched D.Held.bytes self.old s → HaltsByRead result → ⊥ }
        // It reads nothing.
        ensures reads_well { ReadsWell result }
        ensures things { self.new.opens ≡ self.old.opens }
        ensures cause { HasCause (D.faults self.old.engine.disk) (D.faults self.new.engine.disk) (HaltsByDisk result) }
        ensures named { (s : State) (file : Name) → ServesFor D.Watched D.Held.bytes self.old s
            → result ≡ Err (halts.Disk file)
            → (file ≡ names.Table s.store.layout.next_table)
            ⊎ (file ≡ names.Manifest self.old.engine.core.back.manifest.number) }
        ensures merging { self.new.engine.merging ≡ self.old.engine.merging }
        ensures collects { (s : State) → ServesFor D.Watched D.Held.bytes self.old s
            → Collects self.old.engine.core self.old.engine.collecting s.store.layout
            → OnOk result (Collects self.new.engine.core self.new.engine.collecting (flush_ruling s.store.layout (history_of s)).layout) }
        ensures removes { (s : State) → StandsRemoving D.Watched D.Held.bytes self.old s
            → Collects self.old.engine.core self.old.engine.collecting s.store.layout
            → OnOk result (RemovesIn self.new (step_by s.store (flush_ruling s.store.layout (history_of s))).state) }
        ensures untold { OnOk result (StaysUntold (D.told self.old.engine.disk) (D.told self.new.engine.disk)) }
        ensures steady { D.gives_steady self.old.engine.disk → D.gives_steady self.new.engine.disk }
    {
        step_answer(self.engine.flush())
    }
}
