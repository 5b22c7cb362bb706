ghost use Rattle.std.specs.Prelude.{◌≡◌, ◌≤◌, ◌++◌, ◌∷◌, [], List, IfOk, None, OnErr, OnOk, Some};
ghost use Rattle.std.specs.FinMap.{get};
ghost use Rattle.std.specs.Option.{option_map};
ghost use Rattle.vl_disk.specs.Faults.{HasCause};
ghost use Rattle.vl_reads.specs.Past.{AtFailed, IsAnsweredAt, IsRefusedAt, IsWithin, LooksBack, NamesAt, beginning};
ghost use Rattle.vl_reads.specs.Reading.{IfDamaged, IsOwn, IsRefusedBy, IsSound, LooksUp, LooksUpTagged};
ghost use Rattle.vl_version.specs.Gathered.{span_of};
ghost use Rattle.vl_version.specs.Whole.{ScansWhole};
ghost use Rattle.vl_version.specs.LiesOver.{IsInMemory, LiesOver};
ghost use Rattle.vl_reads.specs.Reading.{NamesScanned, NotesNothing, OnlyNotes, ReadFailed, refused_bounds, rows_under};
ghost use Rattle.vl_reads.specs.Reading.{StopsScanned, tagged_under, value_under, with_its_tag, written_value};
ghost use Rattle.vl_reads.specs.Sees.{Sees};
ghost use Rattle.vl_engine_model.specs.AtAnswer.{at_answer};
ghost use Rattle.vl_model.specs.History.{History, value_at};
ghost use Rattle.vl_model.specs.Reads.{KeyRead, Read};
ghost use Rattle.vl_model.specs.declared.change.Change.{Change};
ghost use Rattle.vl_table.specs.Kept.{Files};
ghost use Rattle.vl_table.specs.KeptBlocks.{ReadsOf};
ghost use Rattle.vl_txn.specs.Reads.{AddsSpan, after_get, scan_of, with_get, with_scan};
ghost use Rattle.vl_txn.specs.Refusals.{refused_key};
ghost use Rattle.vl_version.specs.Sources.{AreTold, tables_in};
ghost use Rattle.vl_version.specs.Standing.{DamagedOver, RowsOver};

use crate::past::read_past;
use crate::{AtFail, ReadFail, Rows, Txn};
use std::alloc::AllocError;
use vl_disk::{HeldFile, Reader};
use vl_model::{Change, Value, Way};
use vl_txn::{Writes, check_bound, check_key};
use vl_version::Wanted;

impl<H: HeldFile, R: Reader<Held = H> + Drop> Txn<H, R> {
    /// The number at which it reads: that of the last commit before it began.
    pub fn number(&self) -> u64
        ensures { result ≡ self.now.number }
    {
        self.number
    }

    /// The value of a key, if it has one: that of the transaction's own last write, else the one that is seen, and then the read
    /// is noted.
    pub fn get(&mut self, key: &[u8]) -> Result<Option<Value>, ReadFail>
        ensures value { (h : History) (reads : List Read) → Sees H.bytes self.old h reads
            → IfOk result (λ value. value ≡ value_under self.old.writes h self.old.number key.now) }
        ensures sees { (h : History) (reads : List Read) → Sees H.bytes self.old h reads
            → OnOk result (Sees H.bytes self.new h (with_get self.old.writes reads key.now (value_at h self.old.number key.now))) }
        ensures noted { OnOk result (self.new.reads ≡ after_get self.old.writes key.now self.old.reads) }
        ensures keeps { OnlyNotes self.old self.new }

        // It is refused exactly by the limits. Where it gives nothing, nothing is noted, and all is seen as before.
        ensures refused { IsRefusedBy (refused_key key.now) result }
        ensures kept { OnErr result (NotesNothing self.old self.new) }
        ensures still { (h : History) (reads : List Read) → Sees H.bytes self.old h reads → OnErr result (Sees H.bytes self.new h reads) }

        // A fault is the reader's, and comes only where something of what is seen stands in files. What is seen is never damaged.
        ensures cause { HasCause (R.faults self.old.reader.reader) (R.faults self.new.reader.reader) (ReadFailed result) }
        ensures near { IsInMemory self.old.version → ReadFailed result → ⊥ }
        ensures sound { (h : History) (reads : List Read) → Sees H.bytes self.old h reads → IsSound result }

        // Also where the tables aren't true, no damage is hidden or made up; and a key that is written is answered from there.
        ensures looks { (files : Files) → LiesOver H.bytes files self.old.version self.old.reader
            → get self.old.writes key.now ≡ None → LooksUp H.bytes self.old.version key.now self.old.number result }
        ensures own { (change : Change) → get self.old.writes key.now ≡ Some change → IsOwn (written_value change) result }
        ensures blocks { (files : Files) → ReadsOf H.bytes files self.old.reader (tables_in self.old.version)
            → ReadsOf H.bytes files self.new.reader (tables_in self.new.version) }
    {
        check_key(key)?;
        match own_value(&self.writes, key)? {
            Some(value) => Ok(value),
            None => self.look_up(key),
        }
    }

    /// The same, with the value's tag.
    pub fn get_tagged(&mut self, key: &[u8]) -> Result<Option<(Value, u8)>, ReadFail>
        ensures value { (h : History) (reads : List Read) → Sees H.bytes self.old h reads
            → IfOk result (λ value. value ≡ tagged_under self.old.writes h self.old.number key.now) }
        ensures sees { (h : History) (reads : List Read) → Sees H.bytes self.old h reads
            → OnOk result (Sees H.bytes self.new h (with_get self.old.writes reads key.now (value_at h self.old.number key.now))) }
        ensures noted { OnOk result (self.new.reads ≡ after_get self.old.writes key.now self.old.reads) }
        ensures keeps { OnlyNotes self.old self.new }
        ensures refused { IsRefusedBy (refused_key key.now) result }
        ensures kept { OnErr result (NotesNothing self.old self.new) }
        ensures still { (h : History) (reads : List Read) → Sees H.bytes self.old h reads → OnErr result (Sees H.bytes self.new h reads) }
        ensures cause { HasCause (R.faults self.old.reader.reader) (R.faults self.new.reader.reader) (ReadFailed result) }
        ensures near { IsInMemory self.old.version → ReadFailed result → ⊥ }
        ensures sound { (h : History) (reads : List Read) → Sees H.bytes self.old h reads → IsSound result }
        ensures looks { (files : Files) → LiesOver H.bytes files self.old.version self.old.reader
            → get self.old.writes key.now ≡ None → LooksUpTagged H.bytes self.old.version key.now self.old.number result }
        ensures own { (change : Change) → get self.old.writes key.now ≡ Some change → IsOwn (with_its_tag (written_value change)) result }
        ensures blocks { (files : Files) → ReadsOf H.bytes files self.old.reader (tables_in self.old.version)
            → ReadsOf H.bytes files self.new.reader (tables_in self.new.version) }
    {
        Ok(self.get(key)?.map(tagged_value))
    }

    /// The first `limit` rows with keys from `low` on and below `high`, as the way goes, under the transaction's own writes. An
    /// empty bound is none. What is covered is noted: as far as the last row, or all of the interval where there are fewer.
    pub fn scan(&mut self, low: &[u8], high: &[u8], limit: u16, way: Way) -> Result<Rows, ReadFail>
        requires { 1 ≤ limit }
        ensures rows { (h : History) (reads : List Read) → Sees H.bytes self.old h reads
            → IfOk result (λ rows. rows.items ≡ rows_under self.old.writes h self.old.number low.now high.now limit way) }
        ensures sees { (h : History) (reads : List Read) → Sees H.bytes self.old h reads
            → IfOk result (λ rows. Sees H.bytes self.new h
            (with_scan reads (scan_of low.now high.now limit way rows.items self.old.writes))) }
        ensures noted { IfOk result (λ rows.
            AddsSpan (scan_of low.now high.now limit way rows.items) self.old.reads self.new.reads) }
        ensures keeps { OnlyNotes self.old self.new }
        ensures refused { IsRefusedBy (refused_bounds low.now high.now) result }
        ensures kept { OnErr result (NotesNothing self.old self.new) }
        ensures still { (h : History) (reads : List Read) → Sees H.bytes self.old h reads → OnErr result (Sees H.bytes self.new h reads) }
        ensures cause { HasCause (R.faults self.old.reader.reader) (R.faults self.new.reader.reader) (ReadFailed result) }
        ensures near { IsInMemory self.old.version → ReadFailed result → ⊥ }
        ensures sound { (h : History) (reads : List Read) → Sees H.bytes self.old h reads → IsSound result }

        // A fault is of a table whose range meets the interval, or of a log, also if the tables aren't true.
        ensures fault { NamesScanned H.bytes self.old.version low.now high.now result }
        ensures stops { StopsScanned H.bytes self.old.version low.now high.now way result }

        // Nor is any passed over: of each source what the rows were said over was read whole.
        ensures whole { IfOk result (λ rows. ScansWhole H.bytes (span_of low.now high.now) way self.old.version.behind.levels
            limit rows.items) }

        // Also where the tables aren't true, the rows are those of what stands, and damage is where it was met.
        ensures over { AreTold H.bytes self.old.version.behind.logs.items → IfOk result (λ rows. RowsOver H.bytes self.old.version
            self.old.number low.now high.now limit way self.old.writes rows.items) }
        ensures damaged { AreTold H.bytes self.old.version.behind.logs.items
            → IfDamaged (DamagedOver H.bytes self.old.version self.old.number low.now high.now way) result }
        ensures blocks { (files : Files) → ReadsOf H.bytes files self.old.reader (tables_in self.old.version)
            → ReadsOf H.bytes files self.new.reader (tables_in self.new.version) }
    {
        check_bound(low)?;
        check_bound(high)?;
        let wanted = Wanted {
            low,
            high,
            limit,
            way,
        };
        let rows = self.version.rows(
            self.alloc,
            &mut self.reader,
            &self.writes,
            wanted,
            self.number,
        )?;
        self.reads.note_scan(low, high, limit, way, &rows)?;
        Ok(rows)
    }

    /// The value that a key had at a number, if it had one, past the transaction's own writes. It is answered exactly from the
    /// least number on at which the key can be read, up to that at which the transaction reads. Nothing is noted, since the past
    /// doesn't change.
    pub fn get_at(&mut self, key: &[u8], number: u64) -> Result<Option<Value>, AtFail>
        ensures answer { (h : History) (reads : List Read) → Sees H.bytes self.old h reads
            → IsAnsweredAt (at_answer h (beginning self.old.past) self.old.number key.now number) result }
        ensures refused { IsRefusedAt self.old.number key.now number result }
        ensures kept { NotesNothing self.old self.new }
        ensures still { (h : History) (reads : List Read) → Sees H.bytes self.old h reads → Sees H.bytes self.new h reads }
        ensures cause { HasCause (R.faults self.old.reader.reader) (R.faults self.new.reader.reader) (AtFailed result) }
        ensures near { IsInMemory self.old.version → AtFailed result → ⊥ }

        // Also where the tables aren't true, no damage is hidden or made up: of the value, and of what decides on the least number.
        ensures looks { (files : Files) → LiesOver H.bytes files self.old.version self.old.reader
            → IsWithin self.old.number key.now number
            → LooksBack H.bytes self.old.version self.old.past key.now number result }
        ensures fault { (files : Files) → ReadsOf H.bytes files self.old.reader (tables_in self.old.version)
            → NamesAt H.bytes self.old.version key.now result }
        ensures blocks { (files : Files) → ReadsOf H.bytes files self.old.reader (tables_in self.old.version)
            → ReadsOf H.bytes files self.new.reader (tables_in self.new.version) }
    {
        read_past(
            self.alloc,
            &self.version,
            &mut self.reader,
            self.past,
            self.number,
            key,
            number,
        )
    }

    // The value of a key that the transaction hasn't written itself, noted.
    fn look_up(&mut self, key: &[u8]) -> Result<Option<Value>, ReadFail>
        requires { get self.old.writes key.now ≡ None }
        ensures value { (h : History) (reads : List Read) → Sees H.bytes self.old h reads
            → IfOk result (λ value. value ≡ value_at h self.old.number key.now) }
        ensures sees { (h : History) (reads : List Read) → Sees H.bytes self.old h reads
            → OnOk result (Sees H.bytes self.new h (reads ++ KeyRead key.now (value_at h self.old.number key.now) ∷ [])) }
        ensures noted { OnOk result (self.new.reads ≡ after_get self.old.writes key.now self.old.reads) }
        ensures keeps { OnlyNotes self.old self.new }
        ensures allowed { IsRefusedBy None result }
        ensures kept { OnErr result (NotesNothing self.old self.new) }
        ensures still { (h : History) (reads : List Read) → Sees H.bytes self.old h reads → OnErr result (Sees H.bytes self.new h reads) }
        ensures cause { HasCause (R.faults self.old.reader.reader) (R.faults self.new.reader.reader) (ReadFailed result) }
        ensures near { IsInMemory self.old.version → ReadFailed result → ⊥ }
        ensures sound { (h : History) (reads : List Read) → Sees H.bytes self.old h reads → IsSound result }
        ensures looks { (files : Files) → LiesOver H.bytes files self.old.version self.old.reader
            → LooksUp H.bytes self.old.version key.now self.old.number result }
        ensures blocks { (files : Files) → ReadsOf H.bytes files self.old.reader (tables_in self.old.version)
            → ReadsOf H.bytes files self.new.reader (tables_in self.new.version) }
    {
        let value = self
            .version
            .get(self.alloc, &mut self.reader, key, self.number)?;
        self.reads.note_get(&self.writes, key)?;
        Ok(value)
    }
}

// The value that the transaction has written to a key itself: none where it has deleted it.
fn own_value(writes: &Writes, key: &[u8]) -> Result<Option<Option<Value>>, AllocError>
    ensures { IfOk result (λ own. own ≡ option_map written_value (get writes.now key.now)) }
{
    match writes.get(key) {
        None => Ok(None),
        Some(Change::Delete) => Ok(Some(None)),
        Some(Change::Set(value)) => Ok(Some(Some(value.share()?))),
    }
}

/// A value with its tag.
pub fn tagged_value(value: Value) -> (Value, u8)
    ensures { result ≡ (value, value.tag) }
{
    let tag = value.tag;
    (value, tag)
}
