//! Commits through a name.
ghost use Rattle.std.specs.Prelude.{◌≡◌, Err, OnOk};
ghost use Rattle.vl_disk.specs.Faults.{HasCause};
ghost use Rattle.vl_disk.specs.declared.name.Name.{Name};
ghost use Rattle.vl_disk.specs.declared.name.Name.TheVariants as names;
ghost use Rattle.vl_engine_laws.specs.Carries.{StaysUntold};
ghost use Rattle.vl_engine_laws.specs.Shown.{Shown};
ghost use Rattle.vl_engine_model.specs.Store.Reading.{commit_by};
ghost use Rattle.vl_engine_model.specs.Store.Things.{thing_of};
ghost use Rattle.vl_script_model.specs.Durable.{CarriesOut};
ghost use Rattle.vl_script_model.specs.Halts.{HaltsByDisk, HaltsByRead, ReadsWell};
ghost use Rattle.vl_replay_laws.specs.Replaying.{MakesStep, state_by};
ghost use Rattle.vl_replay.specs.Served.{ReadSurely, RemovesIn, ServesFor};
ghost use Rattle.vl_script_model.specs.Sequential.{State};
ghost use Rattle.vl_script_model.specs.Stored.{IsStopped, IsStored};
ghost use Rattle.vl_script_model.specs.declared.fails.Halt.TheVariants as halts;

use crate::replayer::Served;
use vl_disk::Disk;
use vl_engine::{CommitFail, Done};
use vl_model::Counter;
use vl_replay_laws::{Thing, put, take_out};
use vl_script::{Answer, Ident};
use vl_script_model::Halt;

impl<D: Disk> Served<D> {
    /// Makes the transaction of this name the next commit. Where it lives on it keeps its name.
    pub(super) fn commit(&mut self, name: Ident) -> Result<Answer, Halt>
        ensures makes { (s : State) → ServesFor D.Watched D.Held.bytes self.old s
            → MakesStep D.Held.bytes (D.told self.new.engine.disk) self.new.engine.core self.new.opens.items s
            (commit_by s.store name (thing_of s.store name)) result }
        ensures carries { (s : State) → ServesFor D.Watched D.Held.bytes self.old s
            → CarriesOut D.Watched IsStored Shown IsStopped self.old.engine.disk self.new.engine.disk s
            (state_by s (commit_by s.store name (thing_of s.store name))) result }
        ensures sound { (s : State) → ServesFor D.Watched D.Held.bytes self.old s → HaltsByRead result → ⊥ }
        // It reads nothing.
        ensures reads_well { ReadsWell result }
        ensures cause { HasCause (D.faults self.old.engine.disk) (D.faults self.new.engine.disk) (HaltsByDisk result) }
        ensures named { (s : State) (file : Name) → ServesFor D.Watched D.Held.bytes self.old s
            → result ≡ Err (halts.Disk file) → file ≡ names.Log s.store.layout.active.number }
        ensures removes { (s : State) → ServesFor D.Watched D.Held.bytes self.old s → RemovesIn self.old s.store
            → OnOk result (RemovesIn self.new (commit_by s.store name (thing_of s.store name)).state) }
        ensures sure { (s : State) → ServesFor D.Watched D.Held.bytes self.old s
            → ReadSurely D.Reader.faults self.old → OnOk result (ReadSurely D.Reader.faults self.new) }
        ensures merging { self.new.engine.merging ≡ self.old.engine.merging }
        ensures collecting { self.new.engine.collecting ≡ self.old.engine.collecting }
        ensures logs { self.new.engine.core.version.behind.logs ≡ self.old.engine.core.version.behind.logs }
        ensures untold { OnOk result (StaysUntold (D.told self.old.engine.disk) (D.told self.new.engine.disk)) }
        ensures steady { D.gives_steady self.old.engine.disk → D.gives_steady self.new.engine.disk }
    {
        match take_out(&mut self.opens, name.as_slice()) {
            None => Ok(Answer::Unknown { name }),
            Some(Thing::View(view)) => {
                put(&mut self.opens, name, Thing::View(view))?;
                Ok(Answer::ReadOnly)
            }
            Some(Thing::Transaction(txn)) => match self.engine.commit(txn) {
                Ok(Done::At(number)) => Ok(Answer::Number { number }),
                Ok(Done::Nothing) => Ok(Answer::Nothing),
                Err(CommitFail::Conflict { key, number }) => Ok(Answer::Conflict { key, number }),
                Err(CommitFail::Exhausted(txn)) => {
                    put(&mut self.opens, name, Thing::Transaction(txn))?;
                    Ok(Answer::Exhausted {
                        counter: Counter::Commit,
                    })
                }
                Err(CommitFail::Full { txn, .. }) => {
                    put(&mut self.opens, name, Thing::Transaction(txn))?;
                    Ok(Answer::Full)
                }
                Err(CommitFail::NoMemory(_)) => Err(Halt::NoMemory),
                Err(CommitFail::Disk { name: file }) => Err(Halt::Disk { name: file }),
                Err(CommitFail::Halted { name: file }) => Err(Halt::Halted { name: file }),
            },
        }
    }
}
