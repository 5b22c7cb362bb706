ghost use Rattle.std.specs.Prelude.{◌≡◌, ◌⊎◌, ◌++◌, ◌<◌, [], List, length, reverse, IfErr, IfOk, IsErrOf};
ghost use Rattle.vl_disk.specs.Faults.{HasCause};
ghost use Rattle.vl_memtable.specs.Contents.{IsNewTo};
ghost use Rattle.vl_memtable.specs.Lengths.{lengths_with};
ghost use Rattle.vl_model.specs.Entries.{in_order};
ghost use Rattle.std.specs.Option.{option_copied};
ghost use Rattle.vl_model.specs.Winners.{Logs, winner};
ghost use Rattle.vl_model.specs.declared.entry.Entry.{Entry};
ghost use Rattle.vl_version.specs.Answers.{Fills, Gives, IsAnswer};
ghost use Rattle.vl_table.specs.Kept.{Files};
ghost use Rattle.vl_table.specs.KeptBlocks.{AreKept, ReadsOf};
ghost use Rattle.vl_version.specs.Faults.{Failed};
ghost use Rattle.vl_version.specs.Gathered.{span_of};
ghost use Rattle.vl_version.specs.Naming.{IsKeyFault, IsLogFault, IsScanFault};
ghost use Rattle.vl_version.specs.Near.{AreNear};
ghost use Rattle.vl_version.specs.Over.{LooksOver};
ghost use Rattle.vl_version.specs.Scans.{AreScanned, SomeAstray};
ghost use Rattle.vl_version.specs.Sources.{AreTold, HasEntries, in_memory, stored_in, tables_in};
ghost use Rattle.vl_version.specs.Standing.{DamagedOver, RowsOver};
ghost use Rattle.vl_version.specs.Whole.{LevelsStop, ScansWhole};
ghost use Rattle.vl_disk.specs.declared.read_fault.ReadFault.TheVariants as why;
ghost use Rattle.vl_version.specs.levels.LevelsLooked.{AreLaidOut};

mod changes;
mod logs;
mod outside;
mod past;

use crate::behind::{Behind, SharedBehind};
use crate::frozen::find_frozen;
use crate::gather::sources_within;
use crate::newest::{newer_of, stand_in};
use crate::resolve::{resolve_newest, resolve_newest_into};
use crate::rows::take_rows;
use crate::{Found, Levels, Wanted};
use std::alloc::{AllocError, Global};
use vl_disk::{HeldFile, ReadFault, Reader};
use vl_memtable::{FrozenLog, Memtable, Run};
use vl_merge::{
    Merge, Visible, merge_of_told_sources, merged_goes_along, visible_entries_are_the_winners,
};
use vl_model::{Entry, Key, Value, newest_ref};
use vl_seglog::SealedLog;
use vl_table::BlockReader;
use vl_txn::Writes;

/// The sources of a store at one moment. It is shared by all who read there, and only its memtable takes commits.
#[derive(Drop)]
pub struct Version<H: HeldFile> {
    pub(crate) active: Memtable,
    pub(crate) behind: SharedBehind<H>,
}

impl<H: HeldFile> Version<H> {
    /// The version of a store that was opened: with an empty memtable that takes commits, over the memtables of these logs,
    /// the oldest first, and the tables of these levels, and with these sealed logs, their numbers rising.
    pub fn new(
        alloc: Global,
        frozen: Vec<FrozenLog>,
        levels: Levels<H>,
        logs: Vec<SealedLog<H>>,
    ) -> Self
        ensures active { result.active ≡ record { entries = []; lengths = [] } }
        ensures frozen { result.behind.frozen.items ≡ reverse frozen.items }
        ensures levels { result.behind.levels ≡ levels }
        ensures logs { result.behind.logs.items ≡ logs.items }
    {
        let mut newest_first = frozen;
        newest_first.reverse();
        let behind = Behind {
            frozen: newest_first,
            levels,
            logs,
        };
        Version {
            active: Memtable::new(alloc),
            behind: SharedBehind::new(behind),
        }
    }

    /// The same once more. It may want memory.
    pub fn share(&mut self) -> Result<Self, AllocError>
        ensures same { self.new ≡ self.old }
        ensures shared { IfOk result (λ shared. shared ≡ self.old) }
    {
        Ok(Version {
            active: self.active.share()?,
            behind: self.behind.share()?,
        })
    }

    /// The memtable that takes commits.
    pub fn active(&self) -> &Memtable
        ensures { result.now ≡ self.now.active }
    {
        &self.active
    }

    /// Its tables by their levels.
    pub fn levels(&self) -> &Levels<H>
        ensures { result.now ≡ self.now.behind.levels }
    {
        &self.behind.as_ref().levels
    }

    /// The memtable that takes commits, with a commit's run over it, of keys and versions that it hasn't. The version stays
    /// as it is. All memory that the commit wants of it is taken here.
    pub fn with_run(&self, run: Run) -> Result<Memtable, AllocError>
        requires some { 0 < length run }
        requires new { IsNewTo self.now.active.entries run }
        ensures entries { IfOk result (λ with. with.entries ≡ in_order (run ++ self.now.active.entries)) }
        ensures lengths { IfOk result (λ with. with.lengths ≡ lengths_with (length run) self.now.active.lengths) }
    {
        self.active.with(run)
    }

    /// Puts such a memtable into the place of the one that takes commits.
    pub fn set_active(&mut self, active: Memtable)
        ensures { self.new ≡ record self.old { active = active } }
    {
        self.active = active;
    }

    /// The value of a key at a number: that of its greatest version that is at most the number. Where there are no tables and
    /// no entry leads into a log, no file is read.
    pub fn get<R: Reader<Held = H>>(
        &self,
        alloc: Global,
        reader: &mut BlockReader<R>,
        key: &[u8],
        number: u64,
    ) -> Result<Option<Value>, ReadFault>
        ensures cause { HasCause (R.faults reader.old.reader) (R.faults reader.new.reader) (Failed result) }
        ensures near { tables_in self.now ≡ [] → AreNear (in_memory self.now) → Failed result → ⊥ }
        ensures kept { (files : Files) → ReadsOf H.bytes files reader.old (tables_in self.now) → AreKept files reader.new }
        ensures answers { (files : Files) (es : List Entry) (logs : Logs) → ReadsOf H.bytes files reader.old (tables_in self.now)
            → HasEntries H.bytes self.now es logs → Gives logs (winner es key.now number) result }

        // Where tables are laid out no answer hides a block that had to be read and doesn't stand, also if they aren't true.
        ensures looks { (files : Files) → ReadsOf H.bytes files reader.old (tables_in self.now) → AreLaidOut self.now.behind.levels
            → AreTold H.bytes self.now.behind.logs.items
            → LooksOver H.bytes self.now key.now number (Gives (stored_in H.bytes self.now.behind.logs.items)) result }

        // A fault is of a table that may hold the key, or of a log.
        ensures fault { (files : Files) → ReadsOf H.bytes files reader.old (tables_in self.now)
            → IfErr result (IsKeyFault H.bytes (tables_in self.now) self.now.behind.logs.items key.now) }
    {
        let behind = self.behind.as_ref();
        let held = self.find_held(key, number);
        let found = behind.levels.find(reader, key, number, stand_in(held))?;
        let counts = newer_of(held, found);
        resolve_newest(alloc, &mut reader.reader, &behind.logs, key, counts)
    }

    /// The same without memory: the value is read to the front of the caller's bytes, where it fits. After a fault these
    /// may be anything.
    pub fn get_into<R: Reader<Held = H>>(
        &self,
        reader: &mut BlockReader<R>,
        key: &[u8],
        number: u64,
        out: &mut [u8],
    ) -> Result<Found, ReadFault>
        ensures cause { HasCause (R.faults reader.old.reader) (R.faults reader.new.reader) (Failed result) }
        ensures near { tables_in self.now ≡ [] → AreNear (in_memory self.now) → Failed result → ⊥ }
        ensures kept { (files : Files) → ReadsOf H.bytes files reader.old (tables_in self.now) → AreKept files reader.new }
        ensures answers { (files : Files) (es : List Entry) (logs : Logs) → ReadsOf H.bytes files reader.old (tables_in self.now)
            → HasEntries H.bytes self.now es logs → Fills logs (winner es key.now number) out.old out.new result }
        ensures looks { (files : Files) → ReadsOf H.bytes files reader.old (tables_in self.now) → AreLaidOut self.now.behind.levels
            → AreTold H.bytes self.now.behind.logs.items
            → LooksOver H.bytes self.now key.now number
            (λ winner. Fills (stored_in H.bytes self.now.behind.logs.items) winner out.old out.new) result }
        ensures no_memory { IsErrOf result why.NoMemory → ⊥ }
    {
        let behind = self.behind.as_ref();
        let held = self.find_held(key, number);
        let found = behind.levels.find(reader, key, number, stand_in(held))?;
        let counts = newer_of(held, found);
        resolve_newest_into(&mut reader.reader, &behind.logs, key, counts, out)
    }

    /// The rows that are wanted of what stands at a number under these own writes. Behind the last of them each source is
    /// read no further than its next entry, and the entries of one key more. Each block of a table is read once at most, and
    /// those that the reader keeps stay.
    pub fn rows<R: Reader<Held = H> + Drop>(
        &self,
        alloc: Global,
        reader: &mut BlockReader<R>,
        own: &Writes,
        wanted: Wanted<'_>,
        number: u64,
    ) -> Result<Vec<(Key, Value)>, ReadFault>
        ensures cause { HasCause (R.faults reader.old.reader) (R.faults reader.new.reader) (Failed result) }
        ensures near { tables_in self.now ≡ [] → AreNear (in_memory self.now) → Failed result → ⊥ }
        ensures kept { reader.new ≡ record reader.old { reader = reader.new.reader } }
        ensures answers { (es : List Entry) (logs : Logs) → HasEntries H.bytes self.now es logs
            → IsAnswer (λ rows. AreScanned logs es number wanted.entry own.now rows.items) (SomeAstray logs es number) result }

        // A fault is of a table whose range meets the interval, or of a log, also if the tables aren't true.
        ensures fault { IfErr result (IsScanFault H.bytes (span_of wanted.entry.low.now wanted.entry.high.now) (tables_in self.now)
            self.now.behind.logs.items) }

        // So no damage is passed over: of each source what was gone over was read whole.
        ensures whole { IfOk result (λ rows. ScansWhole H.bytes (span_of wanted.entry.low.now wanted.entry.high.now)
            wanted.entry.way self.now.behind.levels wanted.entry.limit rows.items) }

        // Also where tables aren't true, the rows are those of memory and of the blocks that stand, whatever stands elsewhere.
        ensures over { AreTold H.bytes self.now.behind.logs.items → IsAnswer (λ rows. RowsOver H.bytes self.now number
            wanted.entry.low.now wanted.entry.high.now wanted.entry.limit wanted.entry.way own.now rows.items)
            (DamagedOver H.bytes self.now number wanted.entry.low.now wanted.entry.high.now wanted.entry.way) result }

        // A fault is of the next block that was to be read, behind blocks that stand, or of a log.
        ensures stops { IfErr result (λ fault. LevelsStop H.bytes (span_of wanted.entry.low.now wanted.entry.high.now)
            wanted.entry.way self.now.behind.levels fault ⊎ IsLogFault self.now.behind.logs.items fault) }
    {
        merge_of_told_sources();
        merged_goes_along();
        visible_entries_are_the_winners();
        let behind = self.behind.as_ref();
        let sources = sources_within(alloc, own, &self.active, behind, wanted, number)?;
        let mut visible = Visible::new(Merge::new(sources, wanted.way)?, number);
        take_rows(
            alloc,
            &mut reader.reader,
            &behind.logs,
            &mut visible,
            wanted.limit,
        )
    }

    // Of the entries in memory of a key with a version of at most a number the one of the greatest version.
    fn find_held(&self, key: &[u8], number: u64) -> Option<&Entry>
        ensures { option_copied result ≡ winner (in_memory self.now) key.now number }
    {
        newest_ref(
            self.active.find(key, number),
            find_frozen(&self.behind.as_ref().frozen, key, number),
        )
    }
}
