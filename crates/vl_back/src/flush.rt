//! What a flush spells, and the room that it makes, before anything is written.

ghost use Rattle.std.specs.Prelude.{◌≡◌, List, Some, length, map, IfOk, IsErrOf, IsTrue};
ghost use Rattle.vl_back.specs.Deciding.{MayFlush};
ghost use Rattle.vl_back.specs.FlushEdits.{flush_switch};
ghost use Rattle.vl_back.specs.Room.{SameSpareBeside};
ghost use Rattle.vl_back.specs.Staging.{IsStagedFlush};
ghost use Rattle.vl_back.specs.Tables.{AreSpellable, IsTableOf};
ghost use Rattle.vl_disk.specs.Calls.{ChangesNothing};
ghost use Rattle.vl_disk.specs.Name.{IsNumbered};
ghost use Rattle.vl_disk.specs.Spare.{CanAppend, IsReady};
ghost use Rattle.vl_disk.specs.declared.name.Name.TheVariants as names;
ghost use Rattle.vl_manifest.specs.States.{next_state};
ghost use Rattle.vl_manifest.specs.declared.state.ManifestState.{ManifestState};
ghost use Rattle.vl_model.specs.Placement as model;
ghost use Rattle.vl_model.specs.declared.entry.Entry.{Entry};

use crate::table::StagedTable;
use crate::{Back, StageFail};
use std::alloc::{AllocError, Global};
use vl_disk::{Disk, Name};
use vl_manifest::{Edit, ManifestState, StagedEdits};
use vl_model::Cursor;

/// What a flush is made of, before anything of it is written.
#[derive(Drop)]
pub struct StagedFlush {
    pub table: StagedTable,
    /// The frame of the switch that names the table.
    pub edits: StagedEdits,
    /// What the manifest says behind the switch.
    pub state: ManifestState,
}

/// What a flush says, before there is room for it on the disk.
#[derive(Drop)]
pub struct SpelledFlush {
    pub table: StagedTable,
    pub edits: [Edit; 3],
    pub state: ManifestState,
}

impl Back {
    /// Takes all the memory that the flush of the log that waits for longest wants, the disk's too:
    /// spells its table, of the entries of its memtable, which are left to give, and the switch.
    /// `active` is the number of the log that takes commits.
    pub fn stage_flush<D: Disk, C: Cursor<Fault = AllocError, Reader = ()>>(
        &self,
        alloc: Global,
        disk: &mut D,
        active: u32,
        entries: &mut C,
    ) -> Result<StagedFlush, StageFail>
        requires { MayFlush self.now }
        ensures staged { (es : List Entry) → C.left entries.old ≡ Some es
            → IfOk result (IsStagedFlush self.now active (map model.placed es)) }

        // Where there is such a table, and the switch can be applied to what the manifest says, only
        // memory may be wanting.
        ensures lawful { (es : List Entry) (state : ManifestState) → C.left entries.old ≡ Some es
            → AreSpellable (map model.placed es)
            → next_state (flush_switch active self.now) self.now.state ≡ Some state
            → IsErrOf result StageFail.NotLawful → ⊥ }

        // Writing it will want no memory.
        ensures numbered { IfOk result (λ _. IsNumbered (names.Table self.now.state.next_table)) }
        ensures room { IfOk result (λ staged.
            IsReady (length staged.table.bytes.items) (D.spare disk.new (names.Table self.now.state.next_table))) }
        ensures hold { IfOk result (λ _. IsTrue (D.spare disk.new (names.Table self.now.state.next_table)).hold) }
        ensures append { IfOk result (λ staged.
            CanAppend (length staged.edits.frame.items) (D.spare disk.new (names.Manifest self.now.manifest.number))) }
        ensures no_change { ChangesNothing D.Watched disk.old disk.new ⊥ }

        // The room of other names stays, also where it was refused.
        ensures beside { SameSpareBeside (names.Manifest self.now.manifest.number) (names.Table self.now.state.next_table)
            (D.spare disk.old) (D.spare disk.new) }
    {
        let spelled = self.spell_flush(alloc, active, entries)?;
        let edits = self.manifest.stage(alloc, disk, &spelled.edits)?;
        disk.ready(
            Name::Table(self.state.next_table),
            spelled.table.bytes.len() as u64,
        )?;
        let SpelledFlush { table, state, .. } = spelled;
        Ok(StagedFlush {
            table,
            edits,
            state,
        })
    }

    // The flush of the log that waits for longest.
    fn spell_flush<C: Cursor<Fault = AllocError, Reader = ()>>(
        &self,
        alloc: Global,
        active: u32,
        entries: &mut C,
    ) -> Result<SpelledFlush, StageFail>
        requires { MayFlush self.now }
        ensures spelled { (es : List Entry) → C.left entries.old ≡ Some es
            → IfOk result (λ spelled.
            IsTableOf self.now.state.next_table (map model.placed es) spelled.table) }
        ensures edits { IfOk result (λ spelled. spelled.edits ≡ flush_switch active self.now) }
        ensures says { IfOk result (λ spelled.
            next_state (flush_switch active self.now) self.now.state ≡ Some spelled.state) }
        ensures lawful { (es : List Entry) (state : ManifestState) → C.left entries.old ≡ Some es
            → AreSpellable (map model.placed es)
            → next_state (flush_switch active self.now) self.now.state ≡ Some state
            → IsErrOf result StageFail.NotLawful → ⊥ }
    {
        let table = StagedTable::of(alloc, self.state.next_table, entries)?;
        let edits = self.flush_edits(active);
        match self.state.then(alloc, &edits)? {
            Some(state) => Ok(SpelledFlush {
                table,
                edits,
                state,
            }),
            None => Err(StageFail::NotLawful),
        }
    }
}
