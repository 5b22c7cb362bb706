ghost use Rattle.std.specs.Prelude.{◌≡◌, ◌<◌, List, Some, IsErrOf, IsTrue, Err, OnOk};
ghost use Rattle.std.specs.List.{AllByRecursion};
ghost use Rattle.vl_engine_laws.specs.Carries.{Carries, SameFiles, StaysUntold};
ghost use Rattle.vl_engine_laws.specs.MayStep.{Fits};
ghost use Rattle.vl_engine_laws.specs.Represents.{Represents};
ghost use Rattle.vl_engine_laws.specs.Writing.{StopsWriting};
ghost use Rattle.vl_disk.specs.Calls.{ChangesNothing};
ghost use Rattle.vl_disk.specs.Faults.{HasCause, after_calls};
ghost use Rattle.vl_disk.specs.declared.errors.DiskFail.TheVariants as why;
ghost use Rattle.vl_disk.specs.declared.name.Name.{Name};
ghost use Rattle.vl_disk.specs.declared.name.Name.TheVariants as names;
ghost use Rattle.vl_engine_laws.specs.Lent.{StandsOpen};
ghost use Rattle.vl_steps.specs.Relocating.{IsDamaged, IsMovable, IsOfPass, IsTableAmong, MayMove, MoveCounts, MoveLeavesDisk, MoveNotes, MovesRun};
ghost use Rattle.vl_steps.specs.Relocating.{RelocatesAs, WritesMove, at, batch_back, move_effects, move_outcome, moved_version};
ghost use Rattle.vl_steps.specs.declared.fails.MoveFail.TheVariants as fails;
ghost use Rattle.vl_engine_model.specs.Decides.{Decides, as_before};
ghost use Rattle.vl_engine_model.specs.Relocation as layout;
ghost use Rattle.vl_engine_model.specs.Relocation.{Candidate, moved_of};
ghost use Rattle.vl_engine_model.specs.Rulings.Relocate.{relocate_ruling};
ghost use Rattle.vl_engine_model.specs.Sources.{sources};
ghost use Rattle.vl_engine_model.specs.declared.layout.Layout.{Layout};
ghost use Rattle.vl_engine_model_laws.specs.Passes.{IsSettled};
ghost use Rattle.vl_model.specs.Formats.{log_format};
ghost use Rattle.vl_model.specs.History.{History, last_number};
ghost use Rattle.vl_model.specs.Limits.{max_epoch};
ghost use Rattle.vl_model.specs.declared.log_frame.LogFrame.TheVariants.{Relocated};
ghost use Rattle.vl_seglog.specs.Frames.{frame_at};
ghost use Rattle.vl_version.specs.Bases as bases;
ghost use Rattle.vl_version.specs.Sources.{tables_in};
ghost use Rattle.vl_space.specs.Removing.{Removes};

use crate::{Engine, MoveFail};
use vl_collect::{Batch, Pass};
use vl_disk::{Disk, DiskFail, Name, ReadFault};
use vl_model::{Counter, MAX_EPOCH, Moved};
use vl_seglog::ActiveLog;
use vl_steps::{
    StagedMove, append_durably, has_room, move_length, note_moves, records_to_move, stage_move,
};
use vl_table::BlockReader;
use vl_version::Base;

impl<D: Disk> Engine<D> {
    /// Writes again, at the end of the active log, the records of a batch that still win exactly from inside the pass's log, and
    /// answers with how many these are. Each keeps its key, its version and its value. They are synced before that, by one append
    /// and one sync, and all memory is taken before these. Where nothing is left to move, nothing is written.
    ///
    /// Whether a record still wins is looked up with the reader that is handed in: one that `reader` gave since the last rotation,
    /// flush or install, and that read for no other call than this one.
    pub fn relocate(
        &mut self,
        pass: &Pass<Base<D::Held, D::Reader>, D::Held>,
        batch: Batch,
        looks: &mut BlockReader<D::Reader>,
    ) -> Result<u32, MoveFail>
        // Of a batch that a pass of this engine gave it is answered as the ruling has it, and the keys that were moved are noted for
        // the open merge.
        ensures stands { (h : History) (l : Layout) (p : layout.Pass)
            → IsOfPass D.Held.bytes self.old.core pass.now.log batch looks.old h l p
            → StandsOpen D.Held.bytes self.old.core self.old.merging h l
            → Decides (StandsOpen D.Held.bytes self.new.core self.new.merging) h l (relocate_ruling l h p batch) (as_before l l)
            (move_outcome result) (move_effects result) }

        // Over a disk that holds the layout: what a crash meanwhile leaves shows the history, and however it ends, a store may be
        // opened on the disk again.
        ensures carries { (h : History) (l : Layout) (p : layout.Pass)
            → IsOfPass D.Held.bytes self.old.core pass.now.log batch looks.old h l p
            → Represents D.Held.bytes self.old.core (D.told self.old.disk) h l
            → Carries D.Watched D.Held.bytes self.old.disk self.new.disk self.new.core h l (relocate_ruling l h p batch)
            (as_before l l) (move_outcome result) (move_effects result) }

        // What steps on files ask is so behind it: the active log ends with the frame of what was moved.
        ensures fits { (h : History) (l : Layout) (p : layout.Pass)
            → IsOfPass D.Held.bytes self.old.core pass.now.log batch looks.old h l p
            → Fits (D.told self.old.disk) self.old.core h l
            → Decides (Fits (D.told self.new.disk) self.new.core) h l (relocate_ruling l h p batch) (as_before l l)
            (move_outcome result) (move_effects result) }

        // What is kept of which files can go is what the layout has, as before.
        ensures removes { (h : History) (l : Layout) (p : layout.Pass)
            → IsOfPass D.Held.bytes self.old.core pass.now.log batch looks.old h l p
            → StandsOpen D.Held.bytes self.old.core self.old.merging h l → Removes self.old.core self.old.removing l
            → Decides (λ _ l. Removes self.new.core self.new.removing l) h l (relocate_ruling l h p batch) (as_before l l)
            (move_outcome result) (move_effects result) }

        // Right behind it no record of the batch wins exactly from inside the pass's log, and none of its files is damaged.
        ensures settled { (h : History) (l : Layout) (p : layout.Pass)
            → IsOfPass D.Held.bytes self.old.core pass.now.log batch looks.old h l p
            → OnOk result (AllByRecursion (IsSettled p.segment (sources (relocate_ruling l h p batch).layout)) batch) }
        ensures undamaged { (h : History) (l : Layout) (p : layout.Pass)
            → IsOfPass D.Held.bytes self.old.core pass.now.log batch looks.old h l p → IsDamaged result → ⊥ }

        // Whatever is told: what it answers has its cause, and what it leaves is said of each answer. Halted comes of a halted engine
        // alone. A fault halts it, and what was acknowledged stays in memory.
        ensures as_moved { RelocatesAs D.Watched D.Held.bytes (λ r. D.Reader.faults r)
            (at self.old.disk self.old.core self.old.merging looks.old)
            (at self.new.disk self.new.core self.new.merging looks.new) pass.now.log.number batch result }

        // Where nothing was moved and writing didn't fail, the disk was left alone, at each moment. Else two calls changed it.
        ensures untouched { MoveLeavesDisk result → ChangesNothing D.Watched self.old.disk self.new.disk ⊥ }
        ensures calls { OnOk result (D.calls self.new.disk ≡ after_calls (move_effects result).calls (D.calls self.old.disk)) }

        // A disk that told nothing tells nothing then. One of which nothing that it gives ever fails stays so.
        ensures untold { OnOk result (StaysUntold (D.told self.old.disk) (D.told self.new.disk)) }
        ensures steady { D.gives_steady self.old.disk → D.gives_steady self.new.disk }

        // A batch that is handed back is the one that was given.
        ensures back { (back : List Candidate) → batch_back result ≡ Some back → back ≡ batch }

        // A fault is counted, by the disk or by what is read with, and nothing else raises these counts. One of the disk is named by
        // the active log, and one of a look-up by a table.
        ensures cause { MoveCounts self.old.core.front.log.number (D.faults self.old.disk) (D.faults self.new.disk)
            (D.Reader.faults looks.old.reader) (D.Reader.faults looks.new.reader) result }
        ensures named { (name : Name) → bases.Fits D.Held.bytes self.old.core.version looks.old → result ≡ Err (fails.Read name)
            → IsTableAmong (tables_in self.old.core.version) name }

        // The disk fails only at a relocation that is accepted. One that fails cleanly was stopped within the append or the sync of
        // the frame of what was to be moved.
        ensures failed { (h : History) (l : Layout) (p : layout.Pass) (name : Name)
            → IsOfPass D.Held.bytes self.old.core pass.now.log batch looks.old h l p → result ≡ Err (fails.Disk name)
            → IsMovable h l p batch }
        ensures stopped { (h : History) (l : Layout) (p : layout.Pass) (name : Name)
            → IsOfPass D.Held.bytes self.old.core pass.now.log batch looks.old h l p → IsTrue D.fails_cleanly
            → result ≡ Err (fails.Disk name)
            → StopsWriting D.Watched (names.Log l.active.number) (frame_at log_format l.active.number l.active.length
            (Relocated (moved_of (sources l) p.segment (last_number h) batch))) self.old.disk self.new.disk }

        // The same files stand. What steps need stays but for the epoch, which is one more where something was moved, and
        // what the sealed logs are and what is kept of passes stays.
        ensures files { SameFiles (D.told self.old.disk) (D.told self.new.disk) }
        ensures steps { self.new.core.back ≡ record self.old.core.back
            { epoch = moved_version result self.old.core.back.epoch } }
        ensures logs { self.new.core.version.behind ≡ self.old.core.version.behind }
        ensures runs { MovesRun self.old.core.version.active.lengths self.new.core.version.active.lengths result }
        ensures collecting { self.new.collecting ≡ self.old.collecting }
        ensures removing { self.new.removing ≡ self.old.removing }

        // What was moved is noted for the open merge, and the reader fits the sources as before.
        ensures merging { MoveNotes self.old.core.back.epoch self.old.merging self.new.merging result }
        ensures fits_looks { bases.Fits D.Held.bytes self.old.core.version looks.old
            → bases.Fits D.Held.bytes self.new.core.version looks.new }
    {
        self.move_again(pass.segment(), batch, looks)
    }

    // Moves what of a batch still wins exactly from inside a segment.
    fn move_again(
        &mut self,
        segment: u32,
        batch: Batch,
        looks: &mut BlockReader<D::Reader>,
    ) -> Result<u32, MoveFail>
        ensures as_moved { RelocatesAs D.Watched D.Held.bytes (λ r. D.Reader.faults r)
            (at self.old.disk self.old.core self.old.merging looks.old)
            (at self.new.disk self.new.core self.new.merging looks.new) segment batch result }
        ensures cause { MoveCounts self.old.core.front.log.number (D.faults self.old.disk) (D.faults self.new.disk)
            (D.Reader.faults looks.old.reader) (D.Reader.faults looks.new.reader) result }
        ensures runs { MovesRun self.old.core.version.active.lengths self.new.core.version.active.lengths result }
        ensures collecting { self.new.collecting ≡ self.old.collecting }
        ensures removing { self.new.removing ≡ self.old.removing }
        ensures fits { bases.Fits D.Held.bytes self.old.core.version looks.old
            → bases.Fits D.Held.bytes self.old.core.version looks.new }
    {
        if let Some(name) = self.core.front.halted {
            return Err(MoveFail::Halted { name });
        }
        let moved = match records_to_move(self.alloc, &mut self.core, segment, &batch, looks) {
            Ok(moved) => moved,
            Err(ReadFault::NoMemory) => return Err(MoveFail::NoMemory(batch)),
            Err(ReadFault::Disk { name }) => {
                self.core.front.halted = Some(name);
                return Err(MoveFail::Read { name });
            }
            Err(ReadFault::Damaged { name, place }) => {
                return Err(MoveFail::Damaged { batch, name, place });
            }
        };
        if moved.is_empty() {
            return Ok(0);
        }
        if self.core.back.epoch >= MAX_EPOCH {
            let counter = Counter::Version;
            return Err(MoveFail::Exhausted { batch, counter });
        }
        let length = self.core.front.log.length;
        let Some(frame) = move_length(&moved) else {
            return Err(MoveFail::NoMemory(batch));
        };
        if !has_room(length, frame, self.core.front.room) {
            return Err(MoveFail::Full {
                batch,
                length,
                frame,
            });
        }
        match self.write_moves(&moved) {
            Ok(count) => Ok(count),
            Err(DiskFail::NoMemory) => Err(MoveFail::NoMemory(batch)),
            Err(DiskFail::Failed) => Err(MoveFail::Disk {
                name: Name::Log(self.core.front.log.number),
            }),
        }
    }

    // Writes records again, which may be moved.
    fn write_moves(&mut self, moved: &[Moved]) -> Result<u32, DiskFail>
        requires may { MayMove self.old.core moved.now }
        requires left { self.old.core.back.epoch < max_epoch }
        ensures as_written { WritesMove D.Watched self.old.disk self.new.disk self.old.core self.new.core self.old.merging
            self.new.merging moved.now result }
        ensures cause { HasCause (D.faults self.old.disk) (D.faults self.new.disk) (IsErrOf result why.Failed) }
        ensures runs { MovesRun self.old.core.version.active.lengths self.new.core.version.active.lengths result }
        ensures collecting { self.new.collecting ≡ self.old.collecting }
        ensures removing { self.new.removing ≡ self.old.removing }
    {
        let number = self.core.back.epoch + 1;
        let Ok(staged) = stage_move(
            self.alloc,
            &mut self.disk,
            &self.core,
            &self.merging,
            number,
            moved,
        ) else {
            return Err(DiskFail::NoMemory);
        };
        let StagedMove {
            frame,
            active,
            notes,
            count,
        } = staged;
        // Where the disk fails, the engine keeps the log as it was.
        let mut log = ActiveLog {
            number: self.core.front.log.number,
            length: self.core.front.log.length,
        };
        let Ok(()) = append_durably(&mut log, &mut self.disk, &frame) else {
            self.core.front.halted = Some(Name::Log(self.core.front.log.number));
            return Err(DiskFail::Failed);
        };
        self.core.front.log = log;
        self.core.version.set_active(active);
        self.core.back.epoch = number;
        note_moves(&mut self.merging, notes);
        Ok(count)
    }
}
