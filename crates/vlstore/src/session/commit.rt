ghost use Rattle.std.specs.Prelude.{◌≡◌, ℕ, is_some, true, List, Some};
ghost use Rattle.std.specs.FinMap.{entries};
ghost use Rattle.vl_steps.specs.Answers.{CommitFailed, commit_outcome, handed_back};
ghost use Rattle.vl_reads.specs.Sees.{asked};
ghost use Rattle.vl_reads.specs.declared.txn.Txn.{Txn};
ghost use Rattle.vl_engine_model.specs.Rulings.Commit.{commit_ruling};
ghost use Rattle.vl_model.specs.Notes.{AreNotesOf};
ghost use Rattle.vl_model.specs.Reads.{Read};
ghost use Rattle.vl_engine_model.specs.declared.layout.Layout.{Layout};
ghost use Rattle.vl_engine_model.specs.declared.lock_history.LockStep.{LockStep};
ghost use Rattle.vl_model.specs.History.{History};
ghost use Rattle.vl_model.specs.declared.change.Change.{Change};
ghost use Rattle.vlstore.specs.Counting.{WasCounted};
ghost use Rattle.vlstore.specs.Entries.{commit_done, commit_entry, done_by};
ghost use Rattle.vlstore.specs.Handing.{IsOwnTxn};
ghost use Rattle.vlstore.specs.Knowing.{GoesOn, KeepsOwnMerge, Stepped, WhereTold};
ghost use Rattle.vlstore.specs.Standing.{NeverFails};

use super::Session;
use super::finish::finish;
use std::marker::Brand;
use std::snapshot::Snapshot;
use std::sync::Wait;
use vl_cache::Cached;
use vl_disk::{Disk, HeldFile};
use vl_engine::{CommitFail, Done, Txn};

impl<D: Disk> Session<D> {
    /// Makes what a transaction of this session has written the next commit, and answers its number (`At`) once
    /// it is synced, or `Nothing` where nothing was written. `Conflict { key, number }`: commit `number`, since
    /// the transaction began, changed this key that it read; begin anew. `Full`, `Exhausted` and `NoMemory`
    /// hand the transaction back, which lives on as it was: behind `Full` call `rotate`, and commit it again.
    /// Behind all other answers it has ended. `Disk { name }` halts the store: whether the commit stands shows
    /// when it is opened again. `Halted { name }`: it is halted.
    pub fn commit<R: Wait>(
        &mut self,
        rt: &R,
        txn: Txn<D::Held, Cached<D::Reader>>,
    ) -> Result<Done, CommitFail<D::Held, Cached<D::Reader>>>
        requires { WhereTold D.told self.old (IsOwnTxn self.old txn) }
        ensures on { GoesOn self.old self.new }
        ensures merge { KeepsOwnMerge self.old self.new }
        // It is answered as the ruling has it on whatever reads the transaction has noted.
        ensures steps { self.old.tells ≡ true → (reads : List Read) → AreNotesOf reads txn.reads.keys txn.reads.spans
            → Stepped (NeverFails D.faults D.Reader.faults D.Writer.faults) self.old self.new
            (λ l h. commit_ruling l h (asked txn reads)) (commit_entry txn.ticket (entries txn.writes))
            (commit_outcome result) }
        ensures back { (back : Txn D.Held _) → handed_back result ≡ Some back → back ≡ txn }
        // Over any disk, it fails only where the disk counted that.
        ensures cause { CommitFailed result → WasCounted D.faults }
    {
        let asked = Snapshot::of(&txn);
        let lock = &*self.lock;
        let mut turn = lock.take(rt, &mut self.token);
        let locked = turn.value();
        let answer = locked.engine.commit(txn);
        let enters = has_ended(&answer);
        finish::<_, Brand, _, _, _>(lock, rt, turn, &asked, &answer, enters);
        answer
    }
}

// Whether the transaction has ended.
fn has_ended<H: HeldFile, R>(answer: &Result<Done, CommitFail<H, R>>) -> bool
    ensures { (ticket : ℕ) (writes : List (List ℕ × Change)) (l : Layout) (h : History) (failed : LockStep × Layout)
        → result ≡ is_some (done_by (commit_done ticket writes l h) failed (commit_outcome answer.now)) }
{
    matches!(
        answer,
        Ok(_)
            | Err(CommitFail::Halted { .. } | CommitFail::Conflict { .. } | CommitFail::Disk { .. })
    )
}
