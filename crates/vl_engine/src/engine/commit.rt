ghost use Rattle.std.specs.Prelude.{◌≡◌, ◌≤◌, ℕ, List, length, IfOk, IsTrue, None, Ok, OnOk, Some};
ghost use Rattle.std.specs.FinMap.{entries};
ghost use Rattle.vl_disk.specs.DiskState.{DiskState};
ghost use Rattle.vl_disk.specs.Calls.{ChangesNothing};
ghost use Rattle.vl_disk.specs.Faults.{HasCause};
ghost use Rattle.vl_disk.specs.declared.name.Name.{Name};
ghost use Rattle.vl_disk.specs.declared.name.Name.TheVariants as names;
ghost use Rattle.vl_steps.specs.Answers.{CommitFailed, CommitsRun, IsWritable, LeavesDisk};
ghost use Rattle.vl_steps.specs.Answers.{commit_effects, commit_outcome, handed_back};
ghost use Rattle.vl_engine_laws.specs.Carries.{Carries, SameFiles, StaysUntold};
ghost use Rattle.vl_engine_laws.specs.Represents.{Fronts, IsLive, Represents, StandsFor};
ghost use Rattle.vl_reads.specs.Sees.{Sees, asked};
ghost use Rattle.vl_engine_laws.specs.MayStep.{Fits};
ghost use Rattle.vl_steps.specs.Steps.{WritesAs};
ghost use Rattle.vl_engine_laws.specs.Writing.{StopsWriting};
ghost use Rattle.vl_conflict.specs.Recent.{Remembers};
ghost use Rattle.vl_front.specs.Decisions.{MayWrite, decision_of};
ghost use Rattle.vl_front.specs.Front.{IsPruned};
ghost use Rattle.vl_front.specs.declared.decision.Decision.TheVariants.{Write};
ghost use Rattle.vl_steps.specs.declared.done.Done.TheVariants as done;
ghost use Rattle.vl_steps.specs.declared.fails.CommitFail.TheVariants as fails;
ghost use Rattle.vl_reads.specs.declared.txn.Txn.{Txn};
ghost use Rattle.vl_engine_model.specs.Decides.{Decides, as_before};
ghost use Rattle.vl_engine_model.specs.Rulings.Commit.{commit_frame, commit_lost, commit_ruling};
ghost use Rattle.vl_engine_model.specs.declared.layout.Layout.{Layout};
ghost use Rattle.vl_model.specs.Conflicts.{first_conflict};
ghost use Rattle.vl_model.specs.Formats.{log_format};
ghost use Rattle.vl_model.specs.History.{History, last_number};
ghost use Rattle.vl_model.specs.Notes.{AreNotesOf};
ghost use Rattle.vl_model.specs.Reads.{IsExplained, Read};
ghost use Rattle.vl_seglog.specs.Frames.{frame_at};
ghost use Rattle.vl_engine.specs.Space.{UnpinsAs};
ghost use Rattle.vl_space.specs.Removing.{Removes};

use crate::{CommitFail, Done, Engine, Txn};
use std::alloc::AllocError;
use vl_cache::Cached;
use vl_disk::{Disk, Name};
use vl_front::Decision;
use vl_model::reads_without_conflict_stay_explained;
use vl_seglog::ActiveLog;
use vl_steps::{StagedCommit, append_durably, stage_commit};

impl<D: Disk> Engine<D> {
    /// Makes a transaction the next commit, or says why not. It is synced before it is answered, by one append and one sync,
    /// and all memory is taken before these. A transaction that is handed back lives on as it was; otherwise it has ended.
    pub fn commit(
        &mut self,
        txn: Txn<D::Held, Cached<D::Reader>>,
    ) -> Result<Done, CommitFail<D::Held, Cached<D::Reader>>>
        // It is answered as the ruling has it on whatever reads the transaction has noted, while it is live.
        ensures decides { (h : History) (l : Layout) (reads : List Read) → Fronts self.old.core h l
            → IsLive l txn.ticket txn.number → AreNotesOf reads txn.reads.keys txn.reads.spans
            → Decides (Fronts self.new.core) h l (commit_ruling l h (asked txn reads)) (as_before l (commit_lost l (asked txn reads)))
            (commit_outcome result) (commit_effects result) }
        ensures stands { (h : History) (l : Layout) (reads : List Read) → StandsFor D.Held.bytes self.old.core h l
            → IsLive l txn.ticket txn.number → AreNotesOf reads txn.reads.keys txn.reads.spans
            → Decides (StandsFor D.Held.bytes self.new.core) h l (commit_ruling l h (asked txn reads))
            (as_before l (commit_lost l (asked txn reads))) (commit_outcome result) (commit_effects result) }

        // Over a disk that holds the layout: what a crash meanwhile leaves shows the history, or the history with the writes;
        // where the commit is answered only the latter. However it ends, a store may be opened on the disk again.
        ensures carries { (h : History) (l : Layout) (reads : List Read)
            → Represents D.Held.bytes self.old.core (D.told self.old.disk) h l
            → IsLive l txn.ticket txn.number → AreNotesOf reads txn.reads.keys txn.reads.spans
            → Carries D.Watched D.Held.bytes self.old.disk self.new.disk self.new.core h l (commit_ruling l h (asked txn reads))
            (as_before l (commit_lost l (asked txn reads))) (commit_outcome result) (commit_effects result) }

        // What steps on files ask is so behind it: the active log ends with the commit's frame.
        ensures fits { (h : History) (l : Layout) (reads : List Read) → StandsFor D.Held.bytes self.old.core h l
            → Fits (D.told self.old.disk) self.old.core h l
            → IsLive l txn.ticket txn.number → AreNotesOf reads txn.reads.keys txn.reads.spans
            → Decides (Fits (D.told self.new.disk) self.new.core) h l (commit_ruling l h (asked txn reads))
            (as_before l (commit_lost l (asked txn reads))) (commit_outcome result) (commit_effects result) }

        // What is kept of which files can go is what the layout has: a transaction that has ended pins nothing.
        ensures removes { (h : History) (l : Layout) (reads : List Read) → Fronts self.old.core h l
            → Removes self.old.core self.old.removing l
            → IsLive l txn.ticket txn.number → AreNotesOf reads txn.reads.keys txn.reads.spans
            → Decides (λ _ l. Removes self.new.core self.new.removing l) h l (commit_ruling l h (asked txn reads))
            (as_before l (commit_lost l (asked txn reads))) (commit_outcome result) (commit_effects result) }

        // What an accepted transaction read, and what it scanned, is so up to its own commit.
        ensures explained { (h : History) (l : Layout) (reads : List Read) (number : ℕ) → Fronts self.old.core h l
            → IsLive l txn.ticket txn.number → Sees D.Held.bytes txn h reads
            → result ≡ Ok (done.At number) → IsExplained h (last_number h) reads }

        // Where nothing is committed and the disk didn't fail, the disk was left alone, at each moment.
        ensures untouched { LeavesDisk result → ChangesNothing D.Watched self.old.disk self.new.disk ⊥ }

        // A disk that told nothing tells nothing then. One of which nothing that it gives ever fails stays so.
        ensures untold { OnOk result (StaysUntold (D.told self.old.disk) (D.told self.new.disk)) }
        ensures steady { D.gives_steady self.old.disk → D.gives_steady self.new.disk }

        // One that is handed back is as it was.
        ensures back { (back : Txn D.Held _) → handed_back result ≡ Some back → back ≡ txn }

        // A fault of the disk is counted, and named by the file; and nothing else raises the count.
        ensures cause { HasCause (D.faults self.old.disk) (D.faults self.new.disk) (CommitFailed result) }
        ensures named { (h : History) (l : Layout) (name : Name) → Fronts self.old.core h l
            → result ≡ Err (fails.Disk name) → name ≡ names.Log l.active.number }

        // It fails only at a commit that is accepted.
        ensures failed { (h : History) (l : Layout) (reads : List Read) → Fronts self.old.core h l
            → IsLive l txn.ticket txn.number → AreNotesOf reads txn.reads.keys txn.reads.spans
            → CommitFailed result → IsWritable l h (asked txn reads) }

        // A disk that fails cleanly was stopped within the append or the sync of the commit's frame.
        ensures stopped { (h : History) (l : Layout) → Fronts self.old.core h l → IsTrue D.fails_cleanly → CommitFailed result
            → StopsWriting D.Watched (names.Log l.active.number)
            (frame_at log_format l.active.number l.active.length (commit_frame h (entries txn.writes))) self.old.disk self.new.disk }

        // The same files stand, and what steps and the open merge need stays.
        ensures files { SameFiles (D.told self.old.disk) (D.told self.new.disk) }
        ensures steps { self.new.core.back ≡ self.old.core.back }
        ensures merging { self.new.merging ≡ self.old.merging }
        ensures collecting { self.new.collecting ≡ self.old.collecting }
        ensures stock { self.new.removing.stock ≡ self.old.removing.stock }
        // One that has ended pins nothing.
        ensures removing { UnpinsAs txn.ticket self.old.removing self.new.removing result }
        ensures logs { self.new.core.version.behind.logs ≡ self.old.core.version.behind.logs }
        // Where the transaction has ended no key of a commit at or below the floor is named any more.
        ensures pruned { handed_back result ≡ None → IsPruned self.new.core.front }
        ensures runs { CommitsRun (length (entries txn.writes)) self.old.core.version.active.lengths
            self.new.core.version.active.lengths result }
    {
        let Ok(decision) = self.decided(&txn) else {
            return Err(CommitFail::NoMemory(txn));
        };
        match decision {
            Decision::Halted(name) => {
                self.forget(txn);
                Err(CommitFail::Halted { name })
            }
            Decision::Nothing => {
                self.forget(txn);
                Ok(Done::Nothing)
            }
            Decision::Exhausted => Err(CommitFail::Exhausted(txn)),
            Decision::Conflict { key, number } => {
                self.forget(txn);
                Err(CommitFail::Conflict { key, number })
            }
            Decision::Full { length, frame } => Err(CommitFail::Full { txn, length, frame }),
            Decision::Write => {
                reads_without_conflict_stay_explained();
                self.write(txn)
            }
        }
    }

    // What a transaction's commit comes to before anything is written.
    fn decided(&self, txn: &Txn<D::Held, Cached<D::Reader>>) -> Result<Decision, AllocError>
        ensures decided { IfOk result (λ decision. (h : History) (floor : ℕ) (rs : List Read)
            → Remembers floor h self.now.core.front.recent.named → floor ≤ txn.now.number
            → AreNotesOf rs txn.now.reads.keys txn.now.reads.spans
            → decision ≡ decision_of self.now.core.front (entries txn.now.writes) (first_conflict h txn.now.number rs)) }
        ensures write { IfOk result (λ decision. decision ≡ Write → MayWrite self.now.core.front (entries txn.now.writes)) }
    {
        self.core
            .front
            .decide(txn.number(), txn.reads(), txn.writes())
    }

    // Writes the commit of a transaction, which may be written.
    fn write(
        &mut self,
        txn: Txn<D::Held, Cached<D::Reader>>,
    ) -> Result<Done, CommitFail<D::Held, Cached<D::Reader>>>
        requires { MayWrite self.old.core.front (entries txn.writes) }
        ensures back { (back : Txn D.Held _) → handed_back result ≡ Some back → back ≡ txn }
        ensures cause { HasCause (D.faults self.old.disk) (D.faults self.new.disk) (CommitFailed result) }
        ensures steps { self.new.core.back ≡ self.old.core.back }
        ensures merging { self.new.merging ≡ self.old.merging }
        ensures collecting { self.new.collecting ≡ self.old.collecting }
        ensures removing { UnpinsAs txn.ticket self.old.removing self.new.removing result }
        ensures logs { self.new.core.version.behind.logs ≡ self.old.core.version.behind.logs }
        ensures untouched { LeavesDisk result → ChangesNothing D.Watched self.old.disk self.new.disk ⊥ }
        ensures pruned { handed_back result ≡ None → IsPruned self.new.core.front }
        ensures runs { CommitsRun (length (entries txn.writes)) self.old.core.version.active.lengths
            self.new.core.version.active.lengths result }
        ensures as_written { WritesAs D.Watched self.old.disk self.new.disk self.old.core self.new.core txn.ticket txn.writes result }
    {
        let ticket = txn.ticket();
        let Ok(staged) = stage_commit(self.alloc, &mut self.disk, &mut self.core, txn.writes())
        else {
            return Err(CommitFail::NoMemory(txn));
        };
        let StagedCommit {
            frame,
            active,
            keys,
        } = staged;
        // Where the disk fails, the engine keeps the log as it was.
        let mut log = ActiveLog {
            number: self.core.front.log.number,
            length: self.core.front.log.length,
        };
        let Ok(()) = append_durably(&mut log, &mut self.disk, &frame) else {
            let name = Name::Log(self.core.front.log.number);
            self.core.front.halted = Some(name);
            self.core.front.end(ticket);
            self.removing.pins.end(ticket);
            return Err(CommitFail::Disk { name });
        };
        let number = self.core.front.oracle.last() + 1;
        self.core.front.log = log;
        self.core.version.set_active(active);
        self.core.front.committed(ticket, keys);
        self.removing.pins.end(ticket);
        Ok(Done::At(number))
    }
}
