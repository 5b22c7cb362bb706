ghost use Rattle.std.specs.Prelude.{◌≡◌, ◌≤◌, [], IfOk, None};
ghost use Rattle.vl_disk.specs.Faults.{IsNewCount};
ghost use Rattle.vl_engine.specs.Beginning.{past_now};
ghost use Rattle.lru.specs.LruCache.{lru_cache};
ghost use Rattle.vl_steps.specs.Answers.{begin_outcome, view_outcome};
ghost use Rattle.vl_reads.specs.Changes.{TellsChanges};
ghost use Rattle.vl_reads.specs.Past.{beginning};
ghost use Rattle.vl_version.specs.LiesOver.{IsInMemory};
ghost use Rattle.vl_engine_laws.specs.Represents.{Fronts, Represents, StandsFor};
ghost use Rattle.vl_reads.specs.Sees.{IsNew, Sees, SeesAlone};
ghost use Rattle.vl_engine_laws.specs.MayStep.{AreLogFiles, Fits};
ghost use Rattle.vl_front.specs.Front.{IsPruned};
ghost use Rattle.vl_engine_model.specs.AtAnswer.{beginning_of};
ghost use Rattle.vl_engine_model.specs.Decides.{Decides, as_before, no_effects};
ghost use Rattle.vl_engine_model.specs.Rulings.Begin.{begin_ruling};
ghost use Rattle.vl_engine_model.specs.Rulings.View.{view_ruling};
ghost use Rattle.vl_engine_model.specs.declared.layout.Layout.{Layout};
ghost use Rattle.vl_model.specs.History.{History};
ghost use Rattle.vl_oracle.specs.LiveTickets.{free_ticket};
ghost use Rattle.vl_table.specs.Kept.{Files};
ghost use Rattle.vl_table.specs.KeptBlocks.{AreKept};
ghost use Rattle.vl_space.specs.Pinning.{PinsAs};
ghost use Rattle.vl_space.specs.Removing.{Removes};

use crate::{BeginFail, Engine, Txn, View};
use vl_cache::Cached;
use vl_disk::{Disk, HeldFile, NoMemory};
use vl_engine_laws::Core;
use vl_manifest::ManifestState;
use vl_reads::Past;
use vl_space::begin;
use vl_table::{BlockReader, KEPT_BLOCKS};

/// How many reads a transaction or a view keeps beside the blocks that it has tested.
const CACHED_READS: u32 = 64;

impl<D: Disk> Engine<D> {
    /// Begins a transaction, which reads what is committed now.
    pub fn begin(&mut self) -> Result<Txn<D::Held, Cached<D::Reader>>, BeginFail>
        // It is answered as the ruling has it: too many are live exactly at the limit.
        ensures decides { (h : History) (l : Layout) → Fronts self.old.core h l
            → Decides (Fronts self.new.core) h l (begin_ruling l h) (as_before l l) (begin_outcome result) no_effects }
        ensures stands { (h : History) (l : Layout) → StandsFor D.Held.bytes self.old.core h l
            → Decides (StandsFor D.Held.bytes self.new.core) h l (begin_ruling l h) (as_before l l) (begin_outcome result) no_effects }
        ensures represents { (h : History) (l : Layout) → Represents D.Held.bytes self.old.core (D.told self.old.disk) h l
            → Decides (Represents D.Held.bytes self.new.core (D.told self.new.disk)) h l (begin_ruling l h) (as_before l l)
            (begin_outcome result) no_effects }

        // What is kept of which files can go is what the layout has: its epoch is pinned.
        ensures removes { (h : History) (l : Layout) → Fronts self.old.core h l
            → Removes self.old.core self.old.removing l
            → Decides (λ _ l. Removes self.new.core self.new.removing l) h l (begin_ruling l h) (as_before l l)
            (begin_outcome result) no_effects }

        // What steps on files ask stays.
        ensures fits { (h : History) (l : Layout) → StandsFor D.Held.bytes self.old.core h l
            → Fits (D.told self.old.disk) self.old.core h l
            → Decides (Fits (D.told self.new.disk) self.new.core) h l (begin_ruling l h) (as_before l l) (begin_outcome result)
            no_effects }

        // It sees the history at its last number, and has read and written nothing.
        ensures sees { (h : History) (l : Layout) → StandsFor D.Held.bytes self.old.core h l
            → IfOk result (λ txn. Sees D.Held.bytes txn h []) }

        // It may read as far back as the layout has it.
        ensures began { (h : History) (l : Layout) → StandsFor D.Held.bytes self.old.core h l
            → IfOk result (λ txn. beginning txn.past ≡ beginning_of l h) }
        ensures fresh { IfOk result IsNew }
        // Where all of the engine's version is in memory, so is its own, and no read of it asks a file.
        ensures memory { IsInMemory self.old.core.version → IfOk result (λ txn. IsInMemory txn.version) }

        // Its version is the engine's, and its reader keeps no block that doesn't stand, whatever the files.
        ensures version { IfOk result (λ txn. txn.version ≡ self.old.core.version) }
        ensures blocks { (files : Files) → IfOk result (λ txn. AreKept files txn.reader) }

        // It may keep so many reads, and keeps none yet.
        ensures cache { IfOk result (λ txn. txn.reader.reader.kept ≡ lru_cache [] 64) }

        // Its reader has counted no fault, and never will where the disk gives such.
        ensures faults { IfOk result (λ txn. IsNewCount (D.gives_steady self.old.disk) (D.Reader.faults txn.reader.reader.inner)) }

        // The disk isn't asked, and what steps and the open merge need stays.
        ensures disk { self.new.disk ≡ self.old.disk }
        ensures back { self.new.core.back ≡ self.old.core.back }
        ensures merging { self.new.merging ≡ self.old.merging }
        ensures collecting { self.new.collecting ≡ self.old.collecting }
        // Whatever the disk tells: the epoch is pinned, under its ticket.
        ensures pins { PinsAs self.old.core.back.epoch self.old.removing.pins self.new.removing.pins result }
        ensures ticket { IfOk result (λ txn. txn.ticket ≡ free_ticket self.old.removing.pins.live) }
        ensures stock { self.new.removing.stock ≡ self.old.removing.stock }
        // If it named no key of a commit at or below the floor, it still doesn't.
        ensures pruned { IsPruned self.old.core.front → IsPruned self.new.core.front }
        ensures logs { self.new.core.version.behind.logs ≡ self.old.core.version.behind.logs }
    {
        let view = self.view()?;
        Ok(Txn::new(view))
    }

    /// Begins a view, which reads what is committed now, and may not write.
    pub fn view(&mut self) -> Result<View<D::Held, Cached<D::Reader>>, BeginFail>
        ensures decides { (h : History) (l : Layout) → Fronts self.old.core h l
            → Decides (Fronts self.new.core) h l (view_ruling l h) (as_before l l) (view_outcome result) no_effects }
        ensures stands { (h : History) (l : Layout) → StandsFor D.Held.bytes self.old.core h l
            → Decides (StandsFor D.Held.bytes self.new.core) h l (view_ruling l h) (as_before l l) (view_outcome result) no_effects }
        ensures represents { (h : History) (l : Layout) → Represents D.Held.bytes self.old.core (D.told self.old.disk) h l
            → Decides (Represents D.Held.bytes self.new.core (D.told self.new.disk)) h l (view_ruling l h) (as_before l l)
            (view_outcome result) no_effects }
        ensures removes { (h : History) (l : Layout) → Fronts self.old.core h l
            → Removes self.old.core self.old.removing l
            → Decides (λ _ l. Removes self.new.core self.new.removing l) h l (view_ruling l h) (as_before l l)
            (view_outcome result) no_effects }
        ensures fits { (h : History) (l : Layout) → StandsFor D.Held.bytes self.old.core h l
            → Fits (D.told self.old.disk) self.old.core h l
            → Decides (Fits (D.told self.new.disk) self.new.core) h l (view_ruling l h) (as_before l l) (view_outcome result)
            no_effects }
        ensures sees { (h : History) (l : Layout) → StandsFor D.Held.bytes self.old.core h l
            → IfOk result (λ view. SeesAlone D.Held.bytes view h) }

        // It tells what was changed since each number from `gone` on, where what is kept of dropped deletions says as much as the
        // layout, and memtables are those of logs that can be spelled. So it is unless the engine is halted.
        ensures tells { (h : History) (l : Layout) → StandsFor D.Held.bytes self.old.core h l → AreLogFiles l
            → l.gone ≤ self.old.core.back.state.gone → IfOk result (λ view. TellsChanges D.Held.bytes view h) }
        ensures tells_held { (h : History) (l : Layout) → Represents D.Held.bytes self.old.core (D.told self.old.disk) h l
            → l.halted ≡ None → IfOk result (λ view. TellsChanges D.Held.bytes view h × (view.past.gone ≡ l.gone)) }
        ensures gone { IfOk result (λ view. view.past.gone ≡ self.old.core.back.state.gone) }

        // It may read as far back as the layout has it.
        ensures began { (h : History) (l : Layout) → StandsFor D.Held.bytes self.old.core h l
            → IfOk result (λ view. beginning view.past ≡ beginning_of l h) }
        ensures memory { IsInMemory self.old.core.version → IfOk result (λ view. IsInMemory view.version) }

        // Its version is the engine's, and its reader keeps no block that doesn't stand, whatever the files.
        ensures version { IfOk result (λ view. view.version ≡ self.old.core.version) }
        ensures blocks { (files : Files) → IfOk result (λ view. AreKept files view.reader) }

        // It may keep so many reads, and keeps none yet.
        ensures cache { IfOk result (λ view. view.reader.reader.kept ≡ lru_cache [] 64) }
        ensures faults { IfOk result (λ view. IsNewCount (D.gives_steady self.old.disk) (D.Reader.faults view.reader.reader.inner)) }
        ensures disk { self.new.disk ≡ self.old.disk }
        ensures back { self.new.core.back ≡ self.old.core.back }
        ensures merging { self.new.merging ≡ self.old.merging }
        ensures collecting { self.new.collecting ≡ self.old.collecting }
        // Whatever the disk tells: the epoch is pinned, under its ticket.
        ensures pins { PinsAs self.old.core.back.epoch self.old.removing.pins self.new.removing.pins result }
        ensures ticket { IfOk result (λ view. view.ticket ≡ free_ticket self.old.removing.pins.live) }
        ensures stock { self.new.removing.stock ≡ self.old.removing.stock }
        // If it named no key of a commit at or below the floor, it still doesn't.
        ensures pruned { IsPruned self.old.core.front → IsPruned self.new.core.front }
        ensures logs { self.new.core.version.behind.logs ≡ self.old.core.version.behind.logs }
    {
        let Ok(reader) = self.looks() else {
            return Err(BeginFail::NoMemory);
        };
        let version = self.core.version.share()?;
        let past = past_of(&self.core);
        match begin(
            &mut self.core.front,
            &mut self.removing.pins,
            self.core.back.epoch,
        ) {
            Ok(ticket) => Ok(View::new(
                self.alloc,
                ticket,
                self.core.front.oracle.last(),
                past,
                version,
                reader,
            )),
            Err(why) => Err(why),
        }
    }

    // What a transaction or a view reads with. Where there are no tables there is no block to keep: the least room is enough.
    fn looks(&self) -> Result<BlockReader<Cached<D::Reader>>, NoMemory>
        ensures blocks { (files : Files) → IfOk result (AreKept files) }
        ensures cache { IfOk result (λ looks. looks.reader.kept ≡ lru_cache [] 64) }
        ensures faults { IfOk result (λ looks. IsNewCount (D.gives_steady self.now.disk) (D.Reader.faults looks.reader.inner)) }
    {
        let reader = Cached::new(self.alloc, self.disk.reader(self.alloc)?, CACHED_READS)?;
        let blocks = if has_tables(&self.core.back.state) {
            KEPT_BLOCKS
        } else {
            1
        };
        Ok(BlockReader::new(self.alloc, reader, blocks)?)
    }
}

// How far back what begins now may read.
fn past_of<H: HeldFile>(core: &Core<H>) -> Past
    ensures { result ≡ past_now core.now }
{
    Past {
        floor: core.front.oracle.floor(),
        keep: core.back.state.keep,
        since: core.back.state.since,
        gone: core.back.state.gone,
    }
}

// Whether a level has a table.
fn has_tables(state: &ManifestState) -> bool {
    for tables in state.levels.as_slice() {
        if !tables.as_slice().is_empty() {
            return true;
        }
    }
    false
}
