//! Begins of transactions and views.
ghost use Rattle.std.specs.Prelude.{◌≡◌, None, OnOk};
ghost use Rattle.vl_engine_model.specs.Store.Reading.{a_transaction, a_view, begin_as};
ghost use Rattle.vl_engine_model.specs.Store.Things.{thing_of};
ghost use Rattle.vl_replay_laws.specs.Replaying.{MakesStep, OnlyNoMemory};
ghost use Rattle.vl_replay.specs.Served.{IsUnfailing, ReadSurely, RemovesIn, ServesFor};
ghost use Rattle.vl_script_model.specs.Sequential.{State};

use crate::replayer::Served;
use vl_disk::Disk;
use vl_engine::BeginFail;
use vl_replay_laws::{Thing, put};
use vl_script::{Answer, Ident};
use vl_script_model::Halt;

impl<D: Disk> Served<D> {
    /// Begins a transaction of this name, which is free.
    pub(super) fn begin(&mut self, name: Ident) -> Result<Answer, Halt>
        ensures makes { (s : State) → ServesFor D.Watched D.Held.bytes self.old s → thing_of s.store name ≡ None
            → MakesStep D.Held.bytes (D.told self.new.engine.disk) self.new.engine.core self.new.opens.items s
            (begin_as s.store name a_transaction (thing_of s.store name)) result }
        ensures fails { OnlyNoMemory result }
        ensures removes { (s : State) → ServesFor D.Watched D.Held.bytes self.old s → thing_of s.store name ≡ None
            → RemovesIn self.old s.store
            → OnOk result (RemovesIn self.new (begin_as s.store name a_transaction (thing_of s.store name)).state) }
        // Where nothing fails beside the disk it begins to read so.
        ensures sure { (s : State) → ServesFor D.Watched D.Held.bytes self.old s → thing_of s.store name ≡ None
            → IsUnfailing D.Watched D.Reader.faults self.old → OnOk result (ReadSurely D.Reader.faults self.new) }
        ensures disk { self.new.engine.disk ≡ self.old.engine.disk }
        ensures merging { self.new.engine.merging ≡ self.old.engine.merging }
        ensures collecting { self.new.engine.collecting ≡ self.old.engine.collecting }
        ensures logs { self.new.engine.core.version.behind.logs ≡ self.old.engine.core.version.behind.logs }
    {
        match self.engine.begin() {
            Ok(txn) => {
                let number = txn.number();
                put(&mut self.opens, name, Thing::Transaction(txn))?;
                Ok(Answer::Number { number })
            }
            Err(BeginFail::TooMany) => Ok(Answer::TooMany),
            Err(BeginFail::NoMemory) => Err(Halt::NoMemory),
        }
    }

    /// Begins a view of this name, which is free.
    pub(super) fn view(&mut self, name: Ident) -> Result<Answer, Halt>
        ensures makes { (s : State) → ServesFor D.Watched D.Held.bytes self.old s → thing_of s.store name ≡ None
            → MakesStep D.Held.bytes (D.told self.new.engine.disk) self.new.engine.core self.new.opens.items s
            (begin_as s.store name a_view (thing_of s.store name)) result }
        ensures fails { OnlyNoMemory result }
        ensures removes { (s : State) → ServesFor D.Watched D.Held.bytes self.old s → thing_of s.store name ≡ None
            → RemovesIn self.old s.store
            → OnOk result (RemovesIn self.new (begin_as s.store name a_view (thing_of s.store name)).state) }
        ensures sure { (s : State) → ServesFor D.Watched D.Held.bytes self.old s → thing_of s.store name ≡ None
            → IsUnfailing D.Watched D.Reader.faults self.old → OnOk result (ReadSurely D.Reader.faults self.new) }
        ensures disk { self.new.engine.disk ≡ self.old.engine.disk }
        ensures merging { self.new.engine.merging ≡ self.old.engine.merging }
        ensures collecting { self.new.engine.collecting ≡ self.old.engine.collecting }
        ensures logs { self.new.engine.core.version.behind.logs ≡ self.old.engine.core.version.behind.logs }
    {
        match self.engine.view() {
            Ok(view) => {
                let number = view.number();
                put(&mut self.opens, name, Thing::View(view))?;
                Ok(Answer::Number { number })
            }
            Err(BeginFail::TooMany) => Ok(Answer::TooMany),
            Err(BeginFail::NoMemory) => Err(Halt::NoMemory),
        }
    }
}
