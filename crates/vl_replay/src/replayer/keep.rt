//! How many versions are kept.
ghost use Rattle.std.specs.Prelude.{◌≡◌, Err, OnOk};
ghost use Rattle.vl_disk.specs.Faults.{HasCause};
ghost use Rattle.vl_disk.specs.declared.name.Name.{Name};
ghost use Rattle.vl_disk.specs.declared.name.Name.TheVariants as names;
ghost use Rattle.vl_engine_laws.specs.Carries.{StaysUntold};
ghost use Rattle.vl_engine_laws.specs.Shown.{Shown};
ghost use Rattle.vl_engine_model.specs.Rulings.Keep.{keep_ruling};
ghost use Rattle.vl_engine_model.specs.Store.Dispatch.{keep_by};
ghost use Rattle.vl_script_model.specs.Durable.{CarriesOut};
ghost use Rattle.vl_script_model.specs.Halts.{HaltsByDisk, HaltsByRead, ReadsWell};
ghost use Rattle.vl_replay_laws.specs.Replaying.{MakesStep, state_by};
ghost use Rattle.vl_replay.specs.Served.{RemovesIn, ServesFor};
ghost use Rattle.vl_script_model.specs.Sequential.{State, history_of};
ghost use Rattle.vl_replay_laws.specs.Standing.{keep_answer};
ghost use Rattle.vl_script_model.specs.Stored.{IsStopped, IsStored};
ghost use Rattle.vl_script_model.specs.declared.fails.Halt.TheVariants as halts;

use crate::replayer::Served;
use vl_disk::Disk;
use vl_engine::KeepFail;
use vl_script::Answer;
use vl_script_model::Halt;

impl<D: Disk> Served<D> {
    /// Has merges keep so many of the newest versions of a key.
    pub(super) fn keep(&mut self, versions: u8) -> Result<Answer, Halt>
        ensures makes { (s : State) → ServesFor D.Watched D.Held.bytes self.old s
            → MakesStep D.Held.bytes (D.told self.new.engine.disk) self.new.engine.core self.new.opens.items s
            (keep_by s.store (keep_ruling s.store.layout (history_of s) versions)) result }
        ensures carries { (s : State) → ServesFor D.Watched D.Held.bytes self.old s
            → CarriesOut D.Watched IsStored Shown IsStopped self.old.engine.disk self.new.engine.disk s
            (state_by s (keep_by s.store (keep_ruling s.store.layout (history_of s) versions))) result }
        ensures sound { (s : State) → ServesFor D.Watched D.Held.bytes self.old s → HaltsByRead result → ⊥ }
        // It reads nothing.
        ensures reads_well { ReadsWell result }
        ensures things { self.new.opens ≡ self.old.opens }
        ensures cause { HasCause (D.faults self.old.engine.disk) (D.faults self.new.engine.disk) (HaltsByDisk result) }
        ensures named { (file : Name) → result ≡ Err (halts.Disk file)
            → file ≡ names.Manifest self.old.engine.core.back.manifest.number }
        ensures merging { self.new.engine.merging ≡ self.old.engine.merging }
        ensures removes { (s : State) → ServesFor D.Watched D.Held.bytes self.old s → RemovesIn self.old s.store
            → OnOk result (RemovesIn self.new (keep_by s.store (keep_ruling s.store.layout (history_of s) versions)).state) }
        ensures collecting { self.new.engine.collecting ≡ self.old.engine.collecting }
        ensures logs { self.new.engine.core.version.behind.logs ≡ self.old.engine.core.version.behind.logs }
        ensures untold { OnOk result (StaysUntold (D.told self.old.engine.disk) (D.told self.new.engine.disk)) }
        ensures steady { D.gives_steady self.old.engine.disk → D.gives_steady self.new.engine.disk }
    {
        keep_answer(self.engine.keep(versions))
    }
}

// How a change of how many versions are kept is answered.
fn keep_answer(kept: Result<(), KeepFail>) -> Result<Answer, Halt>
    ensures { result ≡ keep_answer kept }
{
    match kept {
        Ok(()) => Ok(Answer::Done),
        Err(KeepFail::InvalidRequest) => Ok(Answer::Invalid),
        Err(KeepFail::NoMemory) => Err(Halt::NoMemory),
        Err(KeepFail::Disk { name }) => Err(Halt::Disk { name }),
        Err(KeepFail::Halted { name }) => Err(Halt::Halted { name }),
    }
}
