ghost use Rattle.std.specs.Prelude.{◌≡◌, ◌+◌, ◌≤◌, ◌∷◌, [], ℕ, length, Err, IfOk, None, Ok, OnErr, OnOk, Some};
ghost use Rattle.vl_back.specs.Deciding.{MayFlush};
ghost use Rattle.vl_back.specs.Writing.{KeepsOthers};
ghost use Rattle.vl_disk.specs.Calls.{ChangesNothing};
ghost use Rattle.vl_disk.specs.DiskState.{DiskState};
ghost use Rattle.vl_disk.specs.Faults.{HasCause, after_calls};
ghost use Rattle.vl_disk.specs.declared.name.Name.TheVariants as names;
ghost use Rattle.vl_disk.specs.declared.name.Name.{Name};
ghost use Rattle.vl_engine_laws.specs.Carries.{Carries, StaysUntold};
ghost use Rattle.vl_back.specs.declared.flush.StagedFlush.{StagedFlush};
ghost use Rattle.vl_space.specs.Collecting.{Collects, IsReadied, Keeps, LeadsFrom, idle_in};
ghost use Rattle.vl_engine.specs.Space.{FlushesFor};
ghost use Rattle.vl_steps.specs.Flushing.{FlushesAs, flush_effects};
ghost use Rattle.vl_engine_laws.specs.FlushFacts.{IsFlushWritten, StopsFlushing, WritesFlush};
ghost use Rattle.vl_engine_laws.specs.Represents.{Fronts, Represents, StandsFor};
ghost use Rattle.vl_steps.specs.Stepping.{StepFailed, StepLeavesDisk, step_outcome};
ghost use Rattle.vl_engine_laws.specs.MayStep.{AreLogFiles, Fits, HasNumbers, LeavesNumbers};
ghost use Rattle.vl_steps.specs.declared.fails.StepFail.TheVariants as fails;
ghost use Rattle.vl_engine_model.specs.Decides.{Decides, as_before};
ghost use Rattle.vl_engine_model.specs.Rulings.Flush.{flush_ruling};
ghost use Rattle.vl_engine_model.specs.declared.layout.Layout.{Layout};
ghost use Rattle.vl_model.specs.History.{History};
ghost use Rattle.vl_engine_laws.specs.Lent.{Opens};
ghost use Rattle.vl_space.specs.Removing.{Removes};
ghost use Rattle.vl_engine_laws.specs.Lent.{lent_in};
ghost use Rattle.vl_engine.specs.Space.{FlushesStock, RetiresFlushed};

use crate::{Engine, StepFail};
use std::alloc::{AllocError, Global};
use vl_back::{Decision, StagedTable, write_and_switch};
use vl_disk::{Disk, HeldFile};
use vl_engine_laws::Core;
use vl_space::{Collecting, head_of, idle_logs};
use vl_stats::LiveBytes;
use vl_steps::{ReadyFlush, lent_count, ready_flush};
use vl_table::{Footer, Table};

// The live bytes behind a flush, and the numbers of the logs of which nothing is live then.
#[derive(Drop)]
struct LiveBehind {
    live: LiveBytes,
    idle: Vec<u32>,
}

impl<D: Disk> Engine<D> {
    /// Makes a table of the memtable that has been frozen for longest, and answers with the table's number; none where none is
    /// frozen, and then nothing is done. All memory is taken before the first of the five changing calls: the table is made by a
    /// create, an append and a sync, and then named by the manifest, by an append and a sync. What lives stays.
    pub fn flush(&mut self) -> Result<Option<u32>, StepFail>
        // It is answered as the ruling has it.
        ensures decides { (h : History) (l : Layout) → Fronts self.old.core h l → (l.halted ≡ None → HasNumbers self.old.core.back l)
            → Decides (Fronts self.new.core) h l (flush_ruling l h) (as_before l l) (step_outcome result) (flush_effects result) }
        ensures stands { (state : DiskState) (h : History) (l : Layout) → D.told self.old.disk ≡ Some state
            → StandsFor D.Held.bytes self.old.core h l → (l.halted ≡ None → HasNumbers self.old.core.back l × AreLogFiles l)
            → Decides (StandsFor D.Held.bytes self.new.core) h l (flush_ruling l h) (as_before l l) (step_outcome result)
            (flush_effects result) }

        // Over a disk that holds the layout: what a crash meanwhile leaves shows the history, and however it ends, a store may be
        // opened on the disk again.
        ensures carries { (h : History) (l : Layout) → Represents D.Held.bytes self.old.core (D.told self.old.disk) h l
            → Carries D.Watched D.Held.bytes self.old.disk self.new.disk self.new.core h l (flush_ruling l h) (as_before l l)
            (step_outcome result) (flush_effects result) }

        // What steps on files ask is so behind it.
        ensures fits { (h : History) (l : Layout) → StandsFor D.Held.bytes self.old.core h l
            → Fits (D.told self.old.disk) self.old.core h l
            → Decides (Fits (D.told self.new.disk) self.new.core) h l (flush_ruling l h) (as_before l l) (step_outcome result)
            (flush_effects result) }

        // Where no table was made and the disk didn't fail, it was left alone, at each moment.
        ensures untouched { StepLeavesDisk result → ChangesNothing D.Watched self.old.disk self.new.disk ⊥ }

        // A disk that told nothing tells nothing then. One of which nothing that it gives ever fails stays so.
        ensures untold { OnOk result (StaysUntold (D.told self.old.disk) (D.told self.new.disk)) }
        ensures steady { D.gives_steady self.old.disk → D.gives_steady self.new.disk }

        // However it ends, no file but that of the table comes or goes.
        ensures files { KeepsOthers (names.Table self.old.core.back.state.next_table) (D.told self.old.disk) (D.told self.new.disk) }

        // Where a table was made, it has the entries of the memtable that was frozen for longest, the manifest has the frame that
        // names it, and the disk is as before else, after five changing calls.
        ensures written { (number : ℕ) → result ≡ Ok (Some number)
            → IsFlushWritten self.old.core number (D.told self.old.disk) (D.told self.new.disk) }
        ensures calls { OnOk result (D.calls self.new.disk ≡ after_calls (flush_effects result).calls (D.calls self.old.disk)) }

        // A fault of the disk is counted, and nothing else raises the count. The last changing call that was made failed, and
        // is on the file that is named: the table, or behind it the manifest.
        ensures cause { HasCause (D.faults self.old.disk) (D.faults self.new.disk) (StepFailed result) }
        ensures stopped { (name : Name) → result ≡ Err (fails.Disk name)
            → StopsFlushing self.old.core.back.state.next_table self.old.core.back.manifest.number
            (D.calls self.old.disk) (D.calls self.new.disk) name }

        // It fails only where a log waits and numbers are left. By then the table was made and named in part, if at all; and
        // whatever a crash leaves gives no number above the next ones.
        ensures failed { StepFailed result → MayFlush self.old.core.back }
        ensures meanwhile { StepFailed result
            → (staged : StagedFlush) × WritesFlush D.Watched self.old.core staged self.old.disk self.new.disk }
        ensures leaves { (h : History) (l : Layout) (now : DiskState)
            → Represents D.Held.bytes self.old.core (D.told self.old.disk) h l
            → self.old.core.back.state.next_log ≤ self.old.core.back.next_log → StepFailed result
            → D.told self.new.disk ≡ Some now → LeavesNumbers l.next_log (l.next_table + 1) now }

        // The manifest gives the next log no number above that which it gets.
        ensures within { (StepFailed result → ⊥) → self.old.core.back.state.next_log ≤ self.old.core.back.next_log
            → self.new.core.back.state.next_log ≤ self.new.core.back.next_log }

        // What is kept of the open merge stays, and which pass is open.
        ensures merging { self.new.merging ≡ self.old.merging }
        ensures passing { self.new.collecting.passing ≡ self.old.collecting.passing }

        // What is kept of live bytes is that of the tables then.
        ensures collects { (state : DiskState) (h : History) (l : Layout) → D.told self.old.disk ≡ Some state
            → StandsFor D.Held.bytes self.old.core h l → (l.halted ≡ None → HasNumbers self.old.core.back l × AreLogFiles l)
            → Collects self.old.core self.old.collecting l
            → Decides (λ _ l. Collects self.new.core self.new.collecting l) h l (flush_ruling l h) (as_before l l)
            (step_outcome result) (flush_effects result) }

        // What is kept of which files can go is what the layout has: the logs that it retires wait. What is pinned stays.
        ensures removes { (state : DiskState) (h : History) (l : Layout) → D.told self.old.disk ≡ Some state
            → StandsFor D.Held.bytes self.old.core h l → Opens self.old.merging l.job
            → (l.halted ≡ None → HasNumbers self.old.core.back l × AreLogFiles l)
            → Collects self.old.core self.old.collecting l → Removes self.old.core self.old.removing l
            → Decides (λ _ l. Removes self.new.core self.new.removing l) h l (flush_ruling l h) (as_before l l)
            (step_outcome result) (flush_effects result) }
        ensures pins { self.new.removing.pins ≡ self.old.removing.pins }

        // Whatever is told: the table is in use then, and each log below head into which no table leads was retired.
        ensures retires { RetiresFlushed self.old.core self.new.core self.old.removing.stock self.new.removing.stock
            self.new.collecting.tally (length (lent_in self.old.merging)) result }
    {
        if let Some(name) = self.core.front.halted {
            return Err(StepFail::Halted { name });
        }
        match self.core.back.decide_flush() {
            Decision::Idle => Ok(None),
            Decision::Exhausted(counter) => Err(StepFail::Exhausted(counter)),
            Decision::Go => self.make_table(),
        }
    }

    // Makes the table of the memtable that has been frozen for longest, and gives its number. Where the table or the manifest
    // would have more bytes than a file may, memory is what is wanting.
    fn make_table(&mut self) -> Result<Option<u32>, StepFail>
        requires may { MayFlush self.old.core.back }
        requires running { self.old.core.front.halted ≡ None }
        ensures cause { HasCause (D.faults self.old.disk) (D.faults self.new.disk) (StepFailed result) }
        ensures files { KeepsOthers (names.Table self.old.core.back.state.next_table) (D.told self.old.disk) (D.told self.new.disk) }
        ensures as_flushed { FlushesAs D.Watched D.Held.bytes self.old.disk self.new.disk self.old.core self.new.core result }
        ensures merging { self.new.merging ≡ self.old.merging }
        ensures collected { FlushesFor D.Held.bytes self.old.core self.old.collecting self.new.collecting self.new.core result }
        ensures retires { FlushesStock self.old.core self.new.core self.old.removing.stock self.new.removing.stock
            self.new.collecting.tally (length (lent_in self.old.merging)) result }
        ensures pins { self.new.removing.pins ≡ self.old.removing.pins }
    {
        let Ok(ready) = ready_flush(self.alloc, &mut self.disk, &self.core) else {
            return Err(StepFail::NoMemory);
        };
        let ReadyFlush { staged, version } = ready;
        let StagedTable { bytes, shape } = staged.table;
        let Ok(behind) = live_behind(self.alloc, &mut self.collecting, &self.core, &shape.footer)
        else {
            return Err(StepFail::NoMemory);
        };
        let LiveBehind { live, idle } = behind;
        let lent = lent_count(&self.merging);
        let Ok(()) = self.removing.make_room(self.alloc, &self.core, 1, lent) else {
            return Err(StepFail::NoMemory);
        };
        let number = self.core.back.state.next_table;
        match write_and_switch(
            &mut self.disk,
            &mut self.core.back.manifest,
            number,
            &bytes,
            &staged.edits,
        ) {
            Ok(held) => {
                let active = self.core.front.log.number;
                self.core.version = version.with_table(Table::of(held, shape), active, &idle);
                self.core.back.apply_flush(staged.state);
                let head = head_of(&self.core);
                let version = self.core.back.epoch;
                self.removing.switch(&[number], &[], &live, head, version);
                self.collecting.switch(live, head);
                Ok(Some(number))
            }
            Err(name) => {
                self.core.front.halted = Some(name);
                Err(StepFail::Disk { name })
            }
        }
    }
}

// Takes the memory for these, where the flush's table has this footer.
fn live_behind<H: HeldFile>(
    alloc: Global,
    collecting: &mut Collecting,
    core: &Core<H>,
    footer: &Footer,
) -> Result<LiveBehind, AllocError>
    ensures readied { OnOk result (IsReadied H.bytes core.now collecting.old collecting.new) }
    ensures live { IfOk result (λ behind. LeadsFrom collecting.new.tally behind.live (footer.now.points.items ∷ []) []) }
    ensures idle { IfOk result (λ behind. behind.idle.items ≡ idle_in behind.live core.now.version.behind.logs.items) }
    ensures refused { OnErr result (Keeps H.bytes core.now collecting.old collecting.new) }
{
    let live = collecting.live_with(alloc, core, &[footer], &[])?;
    let idle = idle_logs(alloc, core.version.logs(), &live)?;
    Ok(LiveBehind { live, idle })
}
