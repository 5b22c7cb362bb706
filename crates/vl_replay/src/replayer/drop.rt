//! Ends without a commit.
ghost use Rattle.std.specs.Prelude.{◌≡◌, Ok};
ghost use Rattle.vl_engine_model.specs.Store.Dispatch.{drop_by};
ghost use Rattle.vl_engine_model.specs.Store.Things.{thing_of};
ghost use Rattle.vl_replay_laws.specs.Passing.{NamesNoPass};
ghost use Rattle.vl_replay_laws.specs.Replaying.{MakesStep, NamesNoMerge};
ghost use Rattle.vl_replay.specs.Served.{ReadSurely, RemovesIn, ServesFor};
ghost use Rattle.vl_script_model.specs.Sequential.{State};

use crate::replayer::Served;
use vl_disk::Disk;
use vl_replay_laws::{Thing, take_out};
use vl_script::{Answer, Ident};

impl<D: Disk> Served<D> {
    /// Ends the transaction or the view that the name stands for, and nothing of it stays.
    pub(super) fn end(&mut self, name: Ident) -> Answer
        ensures makes { (s : State) → ServesFor D.Watched D.Held.bytes self.old s
            → NamesNoMerge name s → NamesNoPass name s
            → MakesStep D.Held.bytes (D.told self.new.engine.disk) self.new.engine.core self.new.opens.items s
            (drop_by s.store name (thing_of s.store name)) (Ok result) }
        ensures removes { (s : State) → ServesFor D.Watched D.Held.bytes self.old s
            → NamesNoMerge name s → NamesNoPass name s → RemovesIn self.old s.store
            → RemovesIn self.new (drop_by s.store name (thing_of s.store name)).state }
        ensures sure { (s : State) → ServesFor D.Watched D.Held.bytes self.old s
            → ReadSurely D.Reader.faults self.old → ReadSurely D.Reader.faults self.new }
        ensures disk { self.new.engine.disk ≡ self.old.engine.disk }
        ensures merging { self.new.engine.merging ≡ self.old.engine.merging }
        ensures collecting { self.new.engine.collecting ≡ self.old.engine.collecting }
        ensures logs { self.new.engine.core.version.behind.logs ≡ self.old.engine.core.version.behind.logs }
    {
        match take_out(&mut self.opens, name.as_slice()) {
            None => Answer::Unknown { name },
            Some(Thing::View(view)) => {
                self.engine.release(view);
                Answer::Done
            }
            Some(Thing::Transaction(txn)) => {
                self.engine.forget(txn);
                Answer::Done
            }
        }
    }
}
