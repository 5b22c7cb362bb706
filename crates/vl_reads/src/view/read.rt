ghost use Rattle.std.specs.Prelude.{◌≡◌, ◌≤◌, IfOk, IsErr, None};
ghost use Rattle.std.specs.FinMap.{empty};
ghost use Rattle.vl_disk.specs.Faults.{HasCause};
ghost use Rattle.vl_reads.specs.Past.{AtFailed, IsAnsweredAt, IsRefusedAt, IsWithin, LooksBack, NamesAt, beginning};
ghost use Rattle.vl_reads.specs.Reading.{IfDamaged, IsFound, IsRefusedBy, IsRefusedInto, IsSound, IsSoundInto};
ghost use Rattle.vl_version.specs.Gathered.{span_of};
ghost use Rattle.vl_version.specs.Whole.{ScansWhole};
ghost use Rattle.vl_version.specs.LiesOver.{IsInMemory};
ghost use Rattle.vl_reads.specs.Reading.{LooksUp, LooksUpInto, LooksUpTagged, NamesScanned, OnlyReads, ReadFailed};
ghost use Rattle.vl_version.specs.LiesOver.{LiesOver};
ghost use Rattle.vl_reads.specs.Reading.{ReadIntoFailed, StopsScanned, refused_bounds, rows_under, with_its_tag};
ghost use Rattle.vl_reads.specs.Sees.{SeesAlone};
ghost use Rattle.vl_engine_model.specs.AtAnswer.{at_answer};
ghost use Rattle.vl_model.specs.History.{History, value_at};
ghost use Rattle.vl_table.specs.Kept.{Files};
ghost use Rattle.vl_table.specs.KeptBlocks.{ReadsOf};
ghost use Rattle.vl_txn.specs.Refusals.{refused_key};
ghost use Rattle.vl_version.specs.Sources.{AreTold, tables_in};
ghost use Rattle.vl_version.specs.Standing.{DamagedOver, RowsOver};

use crate::past::read_past;
use crate::txn::tagged_value;
use crate::{AtFail, Found, ReadFail, ReadFault, Rows, View};
use vl_disk::{HeldFile, ReadFault as VersionFault, Reader};
use vl_model::{Value, Way};
use vl_txn::{Writes, check_bound, check_key};
use vl_version::Wanted;

impl<H: HeldFile, R: Reader<Held = H> + Drop> View<H, R> {
    /// The number at which it reads: that of the last commit before it began.
    pub fn number(&self) -> u64
        ensures { result ≡ self.now.number }
    {
        self.number
    }

    /// The value of a key, if it has one.
    pub fn get(&mut self, key: &[u8]) -> Result<Option<Value>, ReadFail>
        ensures value { (h : History) → SeesAlone H.bytes self.old h
            → IfOk result (λ value. value ≡ value_at h self.old.number key.now) }
        ensures keeps { OnlyReads self.old self.new }
        ensures still { (h : History) → SeesAlone H.bytes self.old h → SeesAlone H.bytes self.new h }
        ensures refused { IsRefusedBy (refused_key key.now) result }
        ensures cause { HasCause (R.faults self.old.reader.reader) (R.faults self.new.reader.reader) (ReadFailed result) }
        ensures near { IsInMemory self.old.version → ReadFailed result → ⊥ }
        ensures sound { (h : History) → SeesAlone H.bytes self.old h → IsSound result }

        // Also where the tables aren't true, no damage is hidden or made up.
        ensures looks { (files : Files) → LiesOver H.bytes files self.old.version self.old.reader
            → LooksUp H.bytes self.old.version key.now self.old.number result }
        ensures blocks { (files : Files) → ReadsOf H.bytes files self.old.reader (tables_in self.old.version)
            → ReadsOf H.bytes files self.new.reader (tables_in self.new.version) }
    {
        check_key(key)?;
        Ok(
            self.version
                .get(self.alloc, &mut self.reader, key, self.number)?,
        )
    }

    /// The same, with the value's tag.
    pub fn get_tagged(&mut self, key: &[u8]) -> Result<Option<(Value, u8)>, ReadFail>
        ensures value { (h : History) → SeesAlone H.bytes self.old h
            → IfOk result (λ value. value ≡ with_its_tag (value_at h self.old.number key.now)) }
        ensures keeps { OnlyReads self.old self.new }
        ensures still { (h : History) → SeesAlone H.bytes self.old h → SeesAlone H.bytes self.new h }
        ensures refused { IsRefusedBy (refused_key key.now) result }
        ensures cause { HasCause (R.faults self.old.reader.reader) (R.faults self.new.reader.reader) (ReadFailed result) }
        ensures near { IsInMemory self.old.version → ReadFailed result → ⊥ }
        ensures sound { (h : History) → SeesAlone H.bytes self.old h → IsSound result }

        // Also where the tables aren't true, no damage is hidden or made up.
        ensures looks { (files : Files) → LiesOver H.bytes files self.old.version self.old.reader
            → LooksUpTagged H.bytes self.old.version key.now self.old.number result }
        ensures blocks { (files : Files) → ReadsOf H.bytes files self.old.reader (tables_in self.old.version)
            → ReadsOf H.bytes files self.new.reader (tables_in self.new.version) }
    {
        Ok(self.get(key)?.map(tagged_value))
    }

    /// The value of a key read to the front of the caller's bytes, where it fits. It answers no want of memory. After a fault of the
    /// reader or damage these bytes may be anything; at a refused key they are as they were.
    pub fn get_into(&mut self, key: &[u8], out: &mut [u8]) -> Result<Found, ReadFault>
        ensures value { (h : History) → SeesAlone H.bytes self.old h
            → IfOk result (IsFound (value_at h self.old.number key.now) out.old out.new) }
        ensures keeps { OnlyReads self.old self.new }
        ensures still { (h : History) → SeesAlone H.bytes self.old h → SeesAlone H.bytes self.new h }
        ensures refused { IsRefusedInto (refused_key key.now) result }
        ensures kept { IsErr result → (refused_key key.now ≡ None → ⊥) → out.new ≡ out.old }
        ensures cause { HasCause (R.faults self.old.reader.reader) (R.faults self.new.reader.reader) (ReadIntoFailed result) }
        ensures near { IsInMemory self.old.version → ReadIntoFailed result → ⊥ }
        ensures sound { (h : History) → SeesAlone H.bytes self.old h → IsSoundInto result }

        // Also where the tables aren't true, no damage is hidden or made up.
        ensures looks { (files : Files) → LiesOver H.bytes files self.old.version self.old.reader
            → LooksUpInto H.bytes self.old.version key.now self.old.number out.old out.new result }
        ensures blocks { (files : Files) → ReadsOf H.bytes files self.old.reader (tables_in self.old.version)
            → ReadsOf H.bytes files self.new.reader (tables_in self.new.version) }
    {
        check_key(key)?;
        let result = self
            .version
            .get_into(&mut self.reader, key, self.number, out);
        match result {
            Ok(found) => Ok(found),
            Err(VersionFault::NoMemory) => unreachable!(),
            Err(VersionFault::Disk { name }) => Err(ReadFault::Disk { name }),
            Err(VersionFault::Damaged { name, place }) => Err(ReadFault::Damaged { name, place }),
        }
    }

    /// The value that a key had at a number, if it had one. It is answered exactly from the least number on at which the key can
    /// be read, up to that at which the view reads.
    pub fn get_at(&mut self, key: &[u8], number: u64) -> Result<Option<Value>, AtFail>
        ensures answer { (h : History) → SeesAlone H.bytes self.old h
            → IsAnsweredAt (at_answer h (beginning self.old.past) self.old.number key.now number) result }
        ensures refused { IsRefusedAt self.old.number key.now number result }
        ensures keeps { OnlyReads self.old self.new }
        ensures still { (h : History) → SeesAlone H.bytes self.old h → SeesAlone H.bytes self.new h }
        ensures cause { HasCause (R.faults self.old.reader.reader) (R.faults self.new.reader.reader) (AtFailed result) }
        ensures near { IsInMemory self.old.version → AtFailed result → ⊥ }

        // Also where the tables aren't true, no damage is hidden or made up: of the value, and of what decides on the least number.
        ensures looks { (files : Files) → LiesOver H.bytes files self.old.version self.old.reader
            → IsWithin self.old.number key.now number
            → LooksBack H.bytes self.old.version self.old.past key.now number result }
        ensures fault { (files : Files) → ReadsOf H.bytes files self.old.reader (tables_in self.old.version)
            → NamesAt H.bytes self.old.version key.now result }
        ensures blocks { (files : Files) → ReadsOf H.bytes files self.old.reader (tables_in self.old.version)
            → ReadsOf H.bytes files self.new.reader (tables_in self.new.version) }
    {
        read_past(
            self.alloc,
            &self.version,
            &mut self.reader,
            self.past,
            self.number,
            key,
            number,
        )
    }

    /// The first `limit` rows with keys from `low` on and below `high`, as the way goes. An empty bound is none.
    pub fn scan(&mut self, low: &[u8], high: &[u8], limit: u16, way: Way) -> Result<Rows, ReadFail>
        requires { 1 ≤ limit }
        ensures rows { (h : History) → SeesAlone H.bytes self.old h
            → IfOk result (λ rows. rows.items ≡ rows_under empty h self.old.number low.now high.now limit way) }
        ensures keeps { OnlyReads self.old self.new }
        ensures still { (h : History) → SeesAlone H.bytes self.old h → SeesAlone H.bytes self.new h }
        ensures refused { IsRefusedBy (refused_bounds low.now high.now) result }
        ensures cause { HasCause (R.faults self.old.reader.reader) (R.faults self.new.reader.reader) (ReadFailed result) }
        ensures near { IsInMemory self.old.version → ReadFailed result → ⊥ }
        ensures sound { (h : History) → SeesAlone H.bytes self.old h → IsSound result }

        // A fault is of a table whose range meets the interval, or of a log, also if the tables aren't true.
        ensures fault { NamesScanned H.bytes self.old.version low.now high.now result }
        ensures stops { StopsScanned H.bytes self.old.version low.now high.now way result }

        // Nor is any passed over: of each source what the rows were said over was read whole.
        ensures whole { IfOk result (λ rows. ScansWhole H.bytes (span_of low.now high.now) way self.old.version.behind.levels
            limit rows.items) }

        // Also where the tables aren't true, the rows are those of what stands, and damage is where it was met.
        ensures over { AreTold H.bytes self.old.version.behind.logs.items → IfOk result (λ rows. RowsOver H.bytes self.old.version
            self.old.number low.now high.now limit way empty rows.items) }
        ensures damaged { AreTold H.bytes self.old.version.behind.logs.items
            → IfDamaged (DamagedOver H.bytes self.old.version self.old.number low.now high.now way) result }
        ensures blocks { (files : Files) → ReadsOf H.bytes files self.old.reader (tables_in self.old.version)
            → ReadsOf H.bytes files self.new.reader (tables_in self.new.version) }
    {
        check_bound(low)?;
        check_bound(high)?;
        let wanted = Wanted {
            low,
            high,
            limit,
            way,
        };
        let own = Writes::new(self.alloc);
        Ok(
            self.version
                .rows(self.alloc, &mut self.reader, &own, wanted, self.number)?,
        )
    }
}
