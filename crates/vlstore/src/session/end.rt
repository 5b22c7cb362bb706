ghost use Rattle.std.specs.Prelude.{◌≡◌, true, []};
ghost use Rattle.vl_reads.specs.Sees.{asked, asked_view};
ghost use Rattle.vl_engine_model.specs.Decides.{Answered};
ghost use Rattle.vl_engine_model.specs.Rulings.Forget.{forget_ruling};
ghost use Rattle.vl_engine_model.specs.Rulings.Release.{release_ruling};
ghost use Rattle.vlstore.specs.Entries.{end_entry};
ghost use Rattle.vlstore.specs.Knowing.{GoesOn, IsOwnTicket, KeepsOwnMerge, Stepped, WhereTold};
ghost use Rattle.vlstore.specs.Standing.{NeverFails};

use super::Session;
use super::finish::finish;
use std::marker::Brand;
use std::snapshot::Snapshot;
use std::sync::Wait;
use vl_cache::Cached;
use vl_disk::Disk;
use vl_engine::{Txn, View};

impl<D: Disk> Session<D> {
    /// Ends a transaction of this session, and what it has written goes with it. It wants no memory.
    pub fn forget<R: Wait>(&mut self, rt: &R, txn: Txn<D::Held, Cached<D::Reader>>)
        requires { WhereTold D.told self.old (IsOwnTicket self.old txn.ticket txn.number) }
        ensures on { GoesOn self.old self.new }
        ensures merge { KeepsOwnMerge self.old self.new }
        ensures steps { self.old.tells ≡ true
            → Stepped (NeverFails D.faults D.Reader.faults D.Writer.faults) self.old self.new
            (λ l h. forget_ruling l h (asked txn [])) (end_entry txn.ticket) (Answered tt) }
    {
        let asked = Snapshot::of(&txn);
        let lock = &*self.lock;
        let mut turn = lock.take(rt, &mut self.token);
        let locked = turn.value();
        locked.engine.forget(txn);
        finish::<_, Brand, _, _, _>(lock, rt, turn, &asked, &(), true);
    }

    /// Ends a view of this session. It wants no memory.
    pub fn release<R: Wait>(&mut self, rt: &R, view: View<D::Held, Cached<D::Reader>>)
        requires { WhereTold D.told self.old (IsOwnTicket self.old view.ticket view.number) }
        ensures on { GoesOn self.old self.new }
        ensures merge { KeepsOwnMerge self.old self.new }
        ensures steps { self.old.tells ≡ true
            → Stepped (NeverFails D.faults D.Reader.faults D.Writer.faults) self.old self.new
            (λ l h. release_ruling l h (asked_view view)) (end_entry view.ticket) (Answered tt) }
    {
        let asked = Snapshot::of(&view);
        let lock = &*self.lock;
        let mut turn = lock.take(rt, &mut self.token);
        let locked = turn.value();
        locked.engine.release(view);
        finish::<_, Brand, _, _, _>(lock, rt, turn, &asked, &(), true);
    }
}
