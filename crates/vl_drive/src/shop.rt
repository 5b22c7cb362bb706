ghost use Rattle.std.specs.Prelude.{◌≡◌, ◌≤◌, ◌++◌, ◌∷◌, [], ℕ, List, None, Some, IfErr, IfOk, OnErr, OnOk, length, true};
ghost use Rattle.std.specs.FinMap.{empty, entries, get, insert};
ghost use Rattle.vl_drive.specs.Answers.{asked, begin_outcome, commit_outcome, handed_back};
ghost use Rattle.vl_drive.specs.Answers.{is_commit_fault, is_read_fault, is_step_fault};
ghost use Rattle.vl_drive.specs.Entries.{begin_entry, commit_entry, forget_entry};
ghost use Rattle.vl_drive.specs.Knowing.{GoesAside, IsCounted, IsOwnTicket, Knows, Looks, Meets, Noted, Stepped};
ghost use Rattle.vl_drive.specs.Knowing.{noted_by};
ghost use Rattle.vl_drive.specs.Refused.{WasNotMerged};
ghost use Rattle.vl_drive.specs.Small.{IsSmall};
ghost use Rattle.vl_drive.specs.Steps.{history_by};
ghost use Rattle.vl_drive.specs.declared.fails.StepFail.TheVariants as fails;
ghost use Rattle.vl_engine_model.specs.Decides.{Answered};
ghost use Rattle.vl_engine_model.specs.Rulings.Begin.{begin_ruling};
ghost use Rattle.vl_engine_model.specs.Rulings.Commit.{commit_ruling};
ghost use Rattle.vl_engine_model.specs.Rulings.Forget.{forget_ruling};
ghost use Rattle.vl_model.specs.History.{History, value_at};
ghost use Rattle.vl_model.specs.Keys.{Writes, is_key_length, untagged};
ghost use Rattle.vl_model.specs.Reads.{KeyRead, Read};
ghost use Rattle.vl_model.specs.declared.change.Change.TheVariants.{Set};

use crate::fails::{BeginFail, CommitFail, Done, ReadFail, StepFail};
use std::alloc::{AllocError, Global};
use std::sync::Wait;
use vl_model::Value;

/// One session of a store, by which a thread makes the store's calls. Only what `drive` and sequences of numbers call is
/// asked for.
///
/// `knows` is what it knows of the steps that all sessions made under the store's lock: a beginning of them, and its own.
pub trait Shop: Drop {
    type Txn: Drop + Send;

    type Note: Drop + Send;

    ghost knows: { Self → Knows };

    ghost noted: { Self.Note → Noted };

    ghost ticket: { Self.Txn → ℕ };

    ghost number: { Self.Txn → ℕ };

    ghost writes: { Self.Txn → Writes };
    // The transaction sees this history at its number, and has noted these reads.
    ghost sees: { Self.Txn → History → List Read → Type 0 };

    /// Begins a transaction.
    fn begin<R: Wait>(&mut self, rt: &R) -> Result<Self::Txn, BeginFail>
        ensures steps { Stepped (knows self.old) (knows self.new) begin_ruling begin_entry
            (begin_outcome ticket number result) }
        ensures own { IfOk result (λ txn. IsOwnTicket (knows self.new) (ticket txn) (number txn)) }
        ensures sees { IfOk result (λ txn. sees txn (history_by (knows self.new).origin (knows self.new).seen) []) }
        ensures new { IfOk result (λ txn. writes txn ≡ empty) };

    /// The value of a lawful key, which the transaction hasn't written. The read is noted.
    fn get(&mut self, txn: &mut Self::Txn, key: &[u8]) -> Result<Option<Value>, ReadFail>
        requires key { is_key_length (length key.now) ≡ true }
        requires unwritten { get (writes txn.old) key.now ≡ None }
        requires sees { (h : History) × (reads : List Read) × sees txn.old h reads }
        ensures looks { Looks (knows self.old) (knows self.new) }
        ensures value { (h : History) (reads : List Read) → sees txn.old h reads
            → IfOk result (λ value. value ≡ value_at h (number txn.old) key.now) }
        ensures sees { (h : History) (reads : List Read) → sees txn.old h reads
            → IfOk result (λ value. sees txn.new h (reads ++ KeyRead key.now value ∷ [])) }
        ensures ticket { ticket txn.new ≡ ticket txn.old }
        ensures number { number txn.new ≡ number txn.old }
        ensures writes { writes txn.new ≡ writes txn.old }
        ensures faults { IsCounted (is_read_fault result) (knows self.old) (knows self.new) };

    /// Writes a value of at most 80 bytes to a lawful key, in a transaction with less than 64 such writes.
    fn set(&mut self, txn: &mut Self::Txn, key: &[u8], value: &[u8]) -> Result<(), AllocError>
        requires key { is_key_length (length key.now) ≡ true }
        requires value { length value.now ≤ 80 }
        requires small { IsSmall (writes txn.old) }
        ensures looks { Looks (knows self.old) (knows self.new) }
        ensures sees { (h : History) (reads : List Read) → sees txn.old h reads → sees txn.new h reads }
        ensures ticket { ticket txn.new ≡ ticket txn.old }
        ensures number { number txn.new ≡ number txn.old }
        ensures writes { OnOk result (writes txn.new ≡ insert (writes txn.old) key.now (Set (untagged value.now))) };

    /// Makes a transaction of this session the next commit, or says why not.
    fn commit<R: Wait>(&mut self, rt: &R, txn: Self::Txn) -> Result<Done, CommitFail<Self::Txn>>
        requires own { IsOwnTicket (knows self.old) (ticket txn) (number txn) }
        requires sees { (h : History) × (reads : List Read) × sees txn h reads }
        ensures steps { (h : History) (reads : List Read) → sees txn h reads
            → Stepped (knows self.old) (knows self.new)
            (λ l h. commit_ruling l h (asked (ticket txn) (number txn) reads (entries (writes txn))))
            (commit_entry (ticket txn) (entries (writes txn))) (commit_outcome result) }
        ensures back { (back : Self.Txn) → handed_back result ≡ Some back → back ≡ txn }
        ensures faults { IsCounted (is_commit_fault result) (knows self.old) (knows self.new) };

    /// Ends a transaction of this session, which isn't committed.
    fn forget<R: Wait>(&mut self, rt: &R, txn: Self::Txn)
        requires own { IsOwnTicket (knows self.old) (ticket txn) (number txn) }
        ensures steps { Stepped (knows self.old) (knows self.new)
            (λ l h. forget_ruling l h (asked (ticket txn) (number txn) [] (entries (writes txn))))
            (forget_entry (ticket txn)) (Answered tt) };

    /// Seals the active log and begins a new one.
    fn rotate<R: Wait>(&mut self, rt: &R) -> Result<(), StepFail>
        ensures steps { GoesAside (knows self.old) (knows self.new) }
        ensures faults { IsCounted (is_step_fault result) (knows self.old) (knows self.new) };

    /// Makes a table of the log that was sealed first.
    fn flush<R: Wait>(&mut self, rt: &R) -> Result<(), StepFail>
        ensures steps { GoesAside (knows self.old) (knows self.new) }
        ensures faults { IsCounted (is_step_fault result) (knows self.old) (knows self.new) };

    /// Plans a merge, makes its tables beside the lock, and puts them in.
    fn merge<R: Wait>(&mut self, rt: &R, alloc: Global) -> Result<(), StepFail>
        ensures steps { GoesAside (knows self.old) (knows self.new) }
        ensures refused { IfErr result (λ fail. fail ≡ fails.Refused → WasNotMerged (knows self.old) (knows self.new)) }
        ensures faults { IsCounted (is_step_fault result) (knows self.old) (knows self.new) };

    /// Picks a log with so many per cent of garbage, and moves one batch out of it.
    fn collect<R: Wait>(&mut self, rt: &R, alloc: Global, percent: u8) -> Result<(), StepFail>
        ensures steps { GoesAside (knows self.old) (knows self.new) }
        ensures faults { IsCounted (is_step_fault result) (knows self.old) (knows self.new) };

    /// Removes the files that nothing needs.
    fn sweep<R: Wait>(&mut self, rt: &R) -> Result<(), StepFail>
        ensures steps { GoesAside (knows self.old) (knows self.new) }
        ensures faults { IsCounted (is_step_fault result) (knows self.old) (knows self.new) };

    /// What this session has seen.
    fn note(&mut self) -> Result<Self::Note, AllocError>
        ensures same { knows self.new ≡ knows self.old }
        ensures note { IfOk result (λ note. noted note ≡ noted_by (knows self.old)) };

    /// What is noted is a part of what this session has seen, from now on.
    fn meet(&mut self, note: Self::Note)
        requires { (noted note).store ≡ (knows self.old).store }
        ensures { Meets (knows self.old) (knows self.new) (noted note) };
}
