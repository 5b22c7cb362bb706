ghost use Rattle.std.specs.Prelude.{◌≡◌, ◌≢◌, ◌≤◌, Err, OnOk};
ghost use Rattle.vl_disk.specs.Calls.{ChangesNothing};
ghost use Rattle.vl_disk.specs.DiskState.{DiskState};
ghost use Rattle.vl_disk.specs.Faults.{HasCause, after_calls};
ghost use Rattle.vl_disk.specs.declared.name.Name.{Name};
ghost use Rattle.vl_engine_laws.specs.Carries.{Carries, SameFiles, StaysUntold};
ghost use Rattle.vl_steps.specs.Keeping.{KeepFailed, KeepLeavesDisk, KeepsAs};
ghost use Rattle.vl_engine_laws.specs.KeepFacts.{IsKeepWritten, MayKeep, StopsKeeping};
ghost use Rattle.vl_steps.specs.Keeping.{keep_calls, keep_effects, keep_outcome};
ghost use Rattle.vl_engine_laws.specs.KeepFacts.{WritesKeep};
ghost use Rattle.vl_engine_laws.specs.KeepFacts as facts;
ghost use Rattle.vl_engine_laws.specs.Represents.{Fronts, Represents, StandsFor};
ghost use Rattle.vl_engine_laws.specs.MayStep.{Fits, LeavesNumbers};
ghost use Rattle.vl_steps.specs.declared.fails.KeepFail.TheVariants as fails;
ghost use Rattle.vl_engine_model.specs.Decides.{Decides, as_before};
ghost use Rattle.vl_engine_model.specs.Rulings.Keep.{keep_ruling};
ghost use Rattle.vl_engine_model.specs.declared.layout.Layout.{Layout};
ghost use Rattle.vl_manifest.specs.declared.staged.StagedEdits.{StagedEdits};
ghost use Rattle.vl_model.specs.History.{History};
ghost use Rattle.vl_space.specs.Removing.{Removes};

use crate::{Engine, KeepFail};
use vl_disk::{Disk, HeldFile, Name};
use vl_engine_laws::Core;
use vl_manifest::Edit;
use vl_model::MAX_KEEP;

impl<D: Disk> Engine<D> {
    /// Has merges keep so many of the newest versions of a key, from 1 to 16, and answers Ok where it is so already, without the
    /// disk. Else all memory is taken first, and then the manifest says it, by an append and a sync. What was dropped before
    /// stays gone: where more are kept than before, keys can be read at numbers below the last one only as commits come.
    pub fn keep(&mut self, versions: u8) -> Result<(), KeepFail>
        // It is answered as the ruling has it.
        ensures decides { (h : History) (l : Layout) → Fronts self.old.core h l
            → Decides (Fronts self.new.core) h l (keep_ruling l h versions) (as_before l l) (keep_outcome result)
            (keep_effects self.old.core.back.state.keep versions result) }
        ensures stands { (h : History) (l : Layout) → StandsFor D.Held.bytes self.old.core h l
            → Decides (StandsFor D.Held.bytes self.new.core) h l (keep_ruling l h versions) (as_before l l) (keep_outcome result)
            (keep_effects self.old.core.back.state.keep versions result) }

        // Over a disk that holds the layout: what a crash meanwhile leaves shows the history, and however it ends, a store may be
        // opened on the disk again.
        ensures carries { (h : History) (l : Layout) → Represents D.Held.bytes self.old.core (D.told self.old.disk) h l
            → Carries D.Watched D.Held.bytes self.old.disk self.new.disk self.new.core h l (keep_ruling l h versions) (as_before l l)
            (keep_outcome result) (keep_effects self.old.core.back.state.keep versions result) }

        // What steps on files ask is so behind it.
        ensures fits { (h : History) (l : Layout) → StandsFor D.Held.bytes self.old.core h l
            → Fits (D.told self.old.disk) self.old.core h l
            → Decides (Fits (D.told self.new.disk) self.new.core) h l (keep_ruling l h versions) (as_before l l) (keep_outcome result)
            (keep_effects self.old.core.back.state.keep versions result) }

        // Where nothing is changed and the disk didn't fail, it was left alone, at each moment.
        ensures untouched { KeepLeavesDisk self.old.core.back.state.keep versions result
            → ChangesNothing D.Watched self.old.disk self.new.disk ⊥ }

        // A disk that told nothing tells nothing then. One of which nothing that it gives ever fails stays so.
        ensures untold { OnOk result (StaysUntold (D.told self.old.disk) (D.told self.new.disk)) }
        ensures steady { D.gives_steady self.old.disk → D.gives_steady self.new.disk }

        // However it ends, no file comes or goes. Where another number is kept then, the manifest has the frame that says it,
        // and the disk is as before else, after two changing calls.
        ensures files { SameFiles (D.told self.old.disk) (D.told self.new.disk) }
        ensures written { versions ≢ self.old.core.back.state.keep
            → OnOk result (IsKeepWritten self.old.core versions (D.told self.old.disk) (D.told self.new.disk)) }
        ensures calls { OnOk result
            (D.calls self.new.disk ≡ after_calls (keep_calls self.old.core.back.state.keep versions) (D.calls self.old.disk)) }

        // A fault of the disk is counted, and nothing else raises the count. The last changing call that was made failed, and
        // is on the manifest. It comes only where another number was to be kept that may be.
        ensures cause { HasCause (D.faults self.old.disk) (D.faults self.new.disk) (KeepFailed result) }
        ensures stopped { (name : Name) → result ≡ Err (fails.Disk name)
            → StopsKeeping self.old.core.back.manifest.number (D.calls self.old.disk) (D.calls self.new.disk) name }
        ensures failed { KeepFailed result → MayKeep self.old.core versions }
        // By then the switch was written in part, if at all; and whatever a crash leaves gives no number above the next ones.
        ensures meanwhile { KeepFailed result
            → (staged : StagedEdits) × WritesKeep D.Watched self.old.core staged self.old.disk self.new.disk }
        ensures leaves { (h : History) (l : Layout) (now : DiskState)
            → Represents D.Held.bytes self.old.core (D.told self.old.disk) h l
            → self.old.core.back.state.next_log ≤ self.old.core.back.next_log → KeepFailed result
            → D.told self.new.disk ≡ Some now → LeavesNumbers l.next_log l.next_table now }

        // The manifest gives the next log no number above that which it gets.
        ensures within { (KeepFailed result → ⊥) → self.old.core.back.state.next_log ≤ self.old.core.back.next_log
            → self.new.core.back.state.next_log ≤ self.new.core.back.next_log }

        // What is kept of which files can go is what the layout has, as before.
        ensures removes { (h : History) (l : Layout) → Fronts self.old.core h l
            → Removes self.old.core self.old.removing l
            → Decides (λ _ l. Removes self.new.core self.new.removing l) h l (keep_ruling l h versions) (as_before l l)
            (keep_outcome result) (keep_effects self.old.core.back.state.keep versions result) }

        // What is kept of the open merge stays.
        ensures merging { self.new.merging ≡ self.old.merging }
        ensures collecting { self.new.collecting ≡ self.old.collecting }
        ensures removing { self.new.removing ≡ self.old.removing }
        ensures logs { self.new.core.version.behind.logs ≡ self.old.core.version.behind.logs }
    {
        if let Some(name) = self.core.front.halted {
            return Err(KeepFail::Halted { name });
        }
        if versions == 0 || versions > MAX_KEEP {
            return Err(KeepFail::InvalidRequest);
        }
        if versions == self.core.back.state.keep {
            return Ok(());
        }
        self.switch_kept(versions)
    }

    // Has the manifest say that so many are kept.
    fn switch_kept(&mut self, versions: u8) -> Result<(), KeepFail>
        requires { MayKeep self.old.core versions }
        ensures cause { HasCause (D.faults self.old.disk) (D.faults self.new.disk) (KeepFailed result) }
        ensures files { SameFiles (D.told self.old.disk) (D.told self.new.disk) }
        ensures as_kept { KeepsAs D.Watched self.old.disk self.new.disk self.old.core self.new.core versions result }
        ensures merging { self.new.merging ≡ self.old.merging }
        ensures collecting { self.new.collecting ≡ self.old.collecting }
        ensures removing { self.new.removing ≡ self.old.removing }
        ensures logs { self.new.core.version.behind.logs ≡ self.old.core.version.behind.logs }
    {
        let since = next_since(&self.core, versions);
        let edits = [Edit::Keep { versions, since }];
        let Ok(staged) = self
            .core
            .back
            .manifest
            .stage(self.alloc, &mut self.disk, &edits)
        else {
            return Err(KeepFail::NoMemory);
        };
        let name = Name::Manifest(self.core.back.manifest.number);
        match self.core.back.manifest.switch(&mut self.disk, &staged) {
            Ok(()) => {
                self.core.back.state.keep = versions;
                self.core.back.state.since = since;
                Ok(())
            }
            Err(_) => {
                self.core.front.halted = Some(name);
                Err(KeepFail::Disk { name })
            }
        }
    }
}

// Since when so many versions are kept: where they are more than before, older ones may be gone already.
fn next_since<H: HeldFile>(core: &Core<H>, versions: u8) -> u64
    ensures { result ≡ facts.next_since core.now versions }
{
    if versions > core.back.state.keep {
        core.front.oracle.last()
    } else {
        core.back.state.since
    }
}
