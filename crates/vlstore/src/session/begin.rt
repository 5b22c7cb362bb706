ghost use Rattle.std.specs.Prelude.{◌≡◌, true, [], IfOk, is_some};
ghost use Rattle.lru.specs.LruCache.{lru_cache};
ghost use Rattle.vl_steps.specs.Answers.{begin_outcome, view_outcome};
ghost use Rattle.vl_reads.specs.Sees.{IsNew, Sees, SeesAlone};
ghost use Rattle.vl_engine_model.specs.Rulings.Begin.{begin_ruling};
ghost use Rattle.vl_engine_model.specs.Rulings.View.{view_ruling};
ghost use Rattle.vl_engine_model.specs.declared.layout.Layout.{Layout};
ghost use Rattle.vl_engine_model.specs.declared.lock_history.LockStep.{LockStep};
ghost use Rattle.vl_table.specs.Kept.{Files};
ghost use Rattle.vl_table.specs.KeptBlocks.{AreKept};
ghost use Rattle.vlstore.specs.Entries.{begin_done, begin_entry, done_by};
ghost use Rattle.vlstore.specs.Knowing.{GoesOn, IsOwnTicket, KeepsOwnMerge, Stepped};
ghost use Rattle.vlstore.specs.Lists.{history_by};
ghost use Rattle.vlstore.specs.Standing.{NeverFails};

use super::Session;
use super::finish::finish;
use std::marker::Brand;
use std::sync::Wait;
use vl_cache::Cached;
use vl_disk::{Disk, HeldFile};
use vl_engine::{BeginFail, Txn, View};

impl<D: Disk> Session<D> {
    /// Begins a transaction of this session, which reads what is committed now. Its own calls wait for nobody.
    /// It ends by this session's `commit` or `forget`. `TooMany`: 1,024 transactions and views live in the
    /// store; end some. Behind that and `NoMemory` all is as before.
    pub fn begin<R: Wait>(&mut self, rt: &R) -> Result<Txn<D::Held, Cached<D::Reader>>, BeginFail>
        ensures on { GoesOn self.old self.new }
        ensures merge { KeepsOwnMerge self.old self.new }
        ensures steps { self.old.tells ≡ true
            → Stepped (NeverFails D.faults D.Reader.faults D.Writer.faults) self.old self.new
            begin_ruling begin_entry (begin_outcome result) }

        // It is the session's own, and sees the history that was seen by now at its number.
        ensures own { self.old.tells ≡ true → IfOk result (λ txn. IsOwnTicket self.new txn.ticket txn.number) }
        ensures sees { self.old.tells ≡ true
            → IfOk result (λ txn. Sees D.Held.bytes txn (history_by self.new.origin self.new.seen) []) }
        ensures fresh { IfOk result IsNew }
        // Its reader keeps no block that doesn't stand, whatever the files, and no read yet, of 64 that it may.
        ensures blocks { (files : Files) → IfOk result (λ txn. AreKept files txn.reader) }
        ensures cache { IfOk result (λ txn. txn.reader.reader.kept ≡ lru_cache [] 64) }
    {
        let lock = &*self.lock;
        let mut turn = lock.take(rt, &mut self.token);
        let locked = turn.value();
        let answer = locked.engine.begin();
        let enters = has_begun(&answer);
        finish::<_, Brand, _, _, _>(lock, rt, turn, &(), &answer, enters);
        answer
    }

    /// Begins a view of this session, which reads what is committed now, and may not write. It ends by this
    /// session's `release`. It is refused as `begin` is.
    pub fn view<R: Wait>(&mut self, rt: &R) -> Result<View<D::Held, Cached<D::Reader>>, BeginFail>
        ensures on { GoesOn self.old self.new }
        ensures merge { KeepsOwnMerge self.old self.new }
        ensures steps { self.old.tells ≡ true
            → Stepped (NeverFails D.faults D.Reader.faults D.Writer.faults) self.old self.new
            view_ruling begin_entry (view_outcome result) }
        ensures own { self.old.tells ≡ true → IfOk result (λ view. IsOwnTicket self.new view.ticket view.number) }
        ensures sees { self.old.tells ≡ true
            → IfOk result (λ view. SeesAlone D.Held.bytes view (history_by self.new.origin self.new.seen)) }
        ensures blocks { (files : Files) → IfOk result (λ view. AreKept files view.reader) }
        ensures cache { IfOk result (λ view. view.reader.reader.kept ≡ lru_cache [] 64) }
    {
        let lock = &*self.lock;
        let mut turn = lock.take(rt, &mut self.token);
        let locked = turn.value();
        let answer = locked.engine.view();
        let enters = is_begun(&answer);
        finish::<_, Brand, _, _, _>(lock, rt, turn, &(), &answer, enters);
        answer
    }
}

// Whether a transaction was begun.
fn has_begun<H: HeldFile, R>(answer: &Result<Txn<H, R>, BeginFail>) -> bool
    ensures { (l : Layout) (failed : LockStep × Layout)
        → result ≡ is_some (done_by (begin_done l) failed (begin_outcome answer.now)) }
{
    matches!(answer, Ok(_))
}

// Whether a view was begun.
fn is_begun<H: HeldFile, R>(answer: &Result<View<H, R>, BeginFail>) -> bool
    ensures { (l : Layout) (failed : LockStep × Layout)
        → result ≡ is_some (done_by (begin_done l) failed (view_outcome answer.now)) }
{
    matches!(answer, Ok(_))
}
