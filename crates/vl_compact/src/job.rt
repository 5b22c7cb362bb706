//! A merge that is under way: it makes its tables one by one, each in a file that it is lent.
//!
//! It has no block and no cursor, and of where it is nothing but a key: all versions of a key come to lie in one table, so it
//! begins anew behind the last key of its last table.

use crate::Inputs;
use crate::append::append_reserved;
use crate::disorder::disorder_in;
use crate::files::{Lent, Synced};
use crate::fill::{Filled, fill};
use crate::fill_fail::FillFail;
use crate::job_reader::JobReader;
use crate::keeping::Keeping;
use crate::merge::merged;
use crate::next::Next;
use crate::parts::Parts;
use crate::race::{greatest, least_moved, numbers_of, total};
use crate::rules::Rules;
use std::alloc::{AllocError, Global};
use vl_disk::{HeldFile, ReadFault, Reader, Writer};
use vl_merge::{Merge, Sources};
use vl_model::{Cursor, Key};
use vl_table::TableCursor;

/// A merge of tables that is under way.
#[derive(Drop)]
pub struct Job<V, H: HeldFile, W: Writer> {
    // The sources as the plan found them.
    base: V,
    inputs: Inputs<H>,
    floor: u64,
    // So many of the newest versions of a key it keeps.
    keep: u8,
    // What it keeps of the keys up to this one stands in its tables, and nothing else does.
    after: Option<Key>,
    made: Vec<Synced<W>>,
    // Files that didn't become tables.
    leavings: Vec<Lent<W>>,
    // The deletions, by key and version, of the keys up to that one, or of all once it has ended, that were dropped since no
    // older version stands outside the inputs.
    needless: Vec<(Key, u64)>,
    // Whether it has all of its merge.
    ended: bool,
}

impl<V, H: HeldFile, W: Writer> Job<V, H, W> {
    ghost use Rattle.std.specs.Prelude.{◌≡◌, OnOk};
    ghost use Rattle.std.specs.Option.{option_map};
    ghost use Rattle.vl_compact.specs.Progress.{HasRoom};
    ghost use Rattle.vl_compact.specs.Racing.{greatest, least_moved};

    /// Room for the next table, or for its file where it doesn't become one.
    pub fn make_room(&mut self) -> Result<(), AllocError>
        ensures same { self.new ≡ record self.old { made = self.new.made; leavings = self.new.leavings } }
        ensures made { self.new.made.items ≡ self.old.made.items }
        ensures leavings { self.new.leavings.items ≡ self.old.leavings.items }
        ensures room { OnOk result (HasRoom self.new) }
    {
        self.made.reserve(1)?;
        self.leavings.reserve(1)
    }

    /// What it merges, and where its tables are to be put.
    pub fn inputs(&self) -> &Inputs<H>
        ensures { result.now ≡ self.now.inputs }
    {
        &self.inputs
    }

    /// The tables that it has made, in key order.
    pub fn made(&self) -> &[Synced<W>]
        ensures { result.now ≡ self.now.made.items }
    {
        &self.made
    }

    // The first of the keys of needless deletions that was moved, with the number of its last move.
    fn first_moved<'a>(&'a self, moved: &[(Key, u64)]) -> Option<(&'a Key, u64)>
        ensures { option_map (λ r. (r.0.now, r.1)) result ≡ least_moved moved.now self.now.needless.items }
    {
        least_moved(&self.needless, moved)
    }

    // The greatest version of the needless deletions, 0 where there is none.
    fn greatest_gone(&self) -> u64
        ensures { result ≡ greatest self.now.needless.items }
    {
        greatest(&self.needless)
    }
}

impl<V: Drop, H: HeldFile, W: Writer + Drop> Job<V, H, W> {
    ghost use Rattle.std.specs.Prelude.{◌≡◌};

    /// What it merged, its tables, and its other files.
    pub fn into_parts(self) -> Parts<H, W>
        ensures inputs { result.inputs ≡ self.inputs }
        ensures made { result.made ≡ self.made }
        ensures leavings { result.leavings ≡ self.leavings }
    {
        Parts {
            inputs: self.inputs,
            made: self.made,
            leavings: self.leavings,
        }
    }
}

impl<V: Sources, H: HeldFile, W: Writer> Job<V, H, W> {
    ghost use Rattle.std.specs.Prelude.{◌≡◌, ◌-◌, ◌^◌, ◌↔◌, All, IfSome, None, min, length};
    ghost use Rattle.std.specs.Option.{option_map};
    ghost use Rattle.vl_compact.specs.Progress.{Has, HasAll, IsJobOf, IsNew, made_of};
    ghost use Rattle.vl_compact.specs.Racing.{IsMoved, IsUnmoved};
    ghost use Rattle.vl_engine_model.specs.Jobs.{AreOutputs};
    ghost use Rattle.vl_engine_model.specs.Merging.{gone_after, merged_entries, needless};
    ghost use Rattle.vl_engine_model.specs.Rulings.Install.{race};
    ghost use Rattle.vl_engine_model.specs.declared.job.Job as laid;

    /// A merge of these inputs that has made nothing yet: the sources as the plan found them, the floor at the plan, and how
    /// many of the newest versions of a key are kept.
    pub fn new(alloc: Global, base: V, inputs: Inputs<H>, floor: u64, keep: u8) -> Self
        ensures has { (j : laid.Job) → IsJobOf W.Writer H.bytes V.has result j → Has W.Writer H.bytes V.has result j }
        ensures base { result.base ≡ base }
        ensures inputs { result.inputs ≡ inputs }
        ensures floor { result.floor ≡ floor }
        ensures keep { result.keep ≡ keep }
        ensures new { IsNew result }
    {
        Job {
            base,
            inputs,
            floor,
            keep,
            after: None,
            made: Vec::new(alloc),
            leavings: Vec::new(alloc),
            needless: Vec::new(alloc),
            ended: false,
        }
    }

    /// The least of the keys of needless deletions that was moved, with the number of its last move, of moves of which the
    /// latest comes first.
    pub fn race<'a>(&'a self, moved: &[(Key, u64)]) -> Option<(&'a Key, u64)>
        ensures as_ruled { (j : laid.Job) → HasAll W.Writer H.bytes V.has self.now j
            → option_map (λ r. (r.0.now, r.1)) result ≡ race j moved.now }
        // Whatever is told: it answers a key only for cause, and none only where no key has one.
        ensures cause { IfSome result (λ r. IsMoved moved.now self.now.needless.items (r.0.now, r.1)) }
        ensures none { (result ≡ None) ↔ All (λ n. IsUnmoved moved.now n) self.now.needless.items }
    {
        self.first_moved(moved)
    }

    /// The greatest version among the deletions that it dropped since no older version stands outside the inputs, 0 where
    /// there is none.
    pub fn gone(&self) -> u64
        ensures { (j : laid.Job) → HasAll W.Writer H.bytes V.has self.now j → result ≡ gone_after 0 (needless j) }
    {
        self.greatest_gone()
    }

    /// Where it has all of its merge, its tables are the merge's outputs.
    pub fn has_outputs(&self)
        ensures { (j : laid.Job) → HasAll W.Writer H.bytes V.has self.now j → AreOutputs j (made_of self.now j) }
    {}

    /// How many entries its tables have, 2^64 - 1 where there are more.
    pub fn kept_count(&self) -> u64
        ensures { (j : laid.Job) → HasAll W.Writer H.bytes V.has self.now j
            → result ≡ min (length (merged_entries j)) (2 ^ 64 - 1) }
    {
        total(&self.made)
    }
}

impl<V: Sources<Fault = ReadFault>, H: HeldFile, W: Writer> Job<V, H, W> {
    ghost use Rattle.std.specs.Prelude.{◌≡◌, ◌<◌, ◌≤◌, ◌+◌, ◌++◌, Bool, List, None, Some, map, true, false, vec_capacity};
    ghost use Rattle.std.specs.Prelude.{vec_len, is_some, IfErr, IfNone, IfOk, IsSome, OnErr, OnOk};
    ghost use Rattle.std.specs.Arc.{arc_value};
    ghost use Rattle.std.specs.List.{flat_map};
    ghost use Rattle.std.specs.Option.{ForSome};
    ghost use Rattle.vl_compact.specs.Filling.{FailsFilling, Fills};
    ghost use Rattle.vl_compact.specs.Keys.{behind};
    ghost use Rattle.vl_compact.specs.Laid.{AreTablesOf};
    ghost use Rattle.vl_compact.specs.Next.{IsFirstOf};
    ghost use Rattle.vl_compact.specs.Progress.{Answers, FailsWith, Has, HasRead, HasRoom, HasTaken, IsFresh, IsNextOf, IsSettled};
    ghost use Rattle.vl_compact.specs.Progress.{KeepsAll, Leaves, Takes, left_behind};
    ghost use Rattle.vl_compact.specs.Reading.{FailsReading, MayWhere, NoneRose, counts};
    ghost use Rattle.vl_engine_model.specs.Sources.{table_entries};
    ghost use Rattle.vl_engine_model.specs.declared.job.Job as laid;
    ghost use Rattle.vl_engine_model.specs.declared.table.Table as laid_table;
    ghost use Rattle.vl_model.specs.Merging.{merged};
    ghost use Rattle.vl_model.specs.declared.way.Way.TheVariants.{Up};
    ghost use Rattle.vl_compact.specs.Stops.{InputsReadTo, InputsReadUpTo, MayStopIn};
    ghost use Rattle.vl_merge.specs.Standing.{IsUpward};
    ghost use Rattle.vl_model.specs.declared.entry.Entry.{Entry};
    ghost use Rattle.vl_table.specs.CursorParts.{is_disk_fault};
    ghost use Rattle.vl_table.specs.Tables.{number_of};
    ghost use Rattle.vl_disk.specs.declared.read_fault.ReadFault.{ReadFault};

    /// The next entry that it keeps and that isn't in one of its tables, for which `fill` makes one. It reads on behind the last
    /// one until it meets such an entry; where none is left, it has all of its merge. After a fault it is as before.
    pub fn ready<R: Reader<Held = H> + Drop>(
        &mut self,
        alloc: Global,
        reader: &mut JobReader<R, V::Reader>,
    ) -> Result<Option<Next<Merge<TableCursor<H, R>>>>, ReadFault>
        ensures answers { (j : laid.Job) → V.fits self.old.base reader.old.looks → Has W.Writer H.bytes V.has self.old j
            → IfOk result (Answers W.Writer H.bytes V.has (λ c. ⟦<Merge<TableCursor<H, R>> as Cursor>⟧.left c) self.new j) }
        // Whatever is told: where more is kept it hasn't ended, and where nothing is it has.
        ensures next { IfOk result (λ next. ForSome next (IsNextOf (λ c m. ⟦<Merge<TableCursor<H, R>> as Cursor>⟧.stands_to c m)
            (λ c f. ⟦<Merge<TableCursor<H, R>> as Cursor>⟧.may_fail c f) H.bytes self.new)) }
        ensures ended { IfOk result (λ next. IfNone next (self.new.ended ≡ true)) }
        ensures kept { KeepsAll self.old self.new }
        ensures refused { OnErr result ((self.new.needless.items ≡ self.old.needless.items) × (self.new.ended ≡ self.old.ended)) }
        ensures fits { V.fits self.old.base reader.old.looks → V.fits self.old.base reader.new.looks }
        ensures steady { OnOk result (NoneRose (counts (λ l. V.faults l) (λ r. R.faults r) reader.old reader.new)) }
        // Reading fails only where a count says so. Which fault of its sources it is hangs on what the reader keeps. An input is
        // damaged at the first block behind the last key made that doesn't stand, or where the order of its blocks breaks.
        ensures cause { IfErr result (FailsReading (λ f. V.is_read_fault f)
            (MayWhere (V.fits self.old.base reader.old.looks) (V.may_fail self.old.base)) is_disk_fault
            (MayStopIn H.bytes self.old.after self.old.inputs.tables.items)
            (counts (λ l. V.faults l) (λ r. R.faults r) reader.old reader.new)) }
        // Of the blocks of its inputs that may have keys behind the last key made each was read, and stood: where more is kept up to
        // one that has such an entry, and where it ends here all.
        ensures whole { IfOk result (λ next. self.old.ended ≡ false
            → InputsReadTo H.bytes self.old.after (λ _. is_some next) self.old.inputs.tables.items) }
        ensures read { HasRead H.bytes self.old → HasRead H.bytes self.new }
    {
        if self.ended {
            return Ok(None);
        }
        let mut keeping = self.keeping(alloc)?;
        let mut found = Vec::new(alloc);
        let Some(first) = keeping.next(&self.base, reader, &mut found)? else {
            self.needless.append(&mut found)?;
            self.ended = true;
            return Ok(None);
        };
        Ok(Some(Next {
            first,
            keeping,
            found,
        }))
    }

    /// Makes the next table in this file, of what `ready` gave: one append for the header, each block, the index, the filter, the
    /// footer and the last eight bytes, then one sync. After a fault it is as before, and the file is a leaving. Where an entry
    /// comes that isn't behind the one before it, the inputs are read once more, to find the first block that is out of order.
    pub fn fill<R: Reader<Held = H> + Drop>(
        &mut self,
        alloc: Global,
        reader: &mut JobReader<R, V::Reader>,
        next: Next<Merge<TableCursor<H, R>>>,
        fresh: Lent<W>,
    ) -> Result<(), ReadFault>
        requires next { IsNextOf (λ c m. ⟦<Merge<TableCursor<H, R>> as Cursor>⟧.stands_to c m)
            (λ c f. ⟦<Merge<TableCursor<H, R>> as Cursor>⟧.may_fail c f) H.bytes self.old next }
        requires room { HasRoom self.old }
        ensures next { (j : laid.Job) → V.fits self.old.base reader.old.looks → IsFresh W.Writer fresh
            → Has W.Writer H.bytes V.has self.old j
            → IsFirstOf (λ c. ⟦<Merge<TableCursor<H, R>> as Cursor>⟧.left c) j (left_behind j self.old.after) next
            → OnOk result (Has W.Writer H.bytes V.has self.new j) }
        ensures takes { OnOk result (Takes W.Writer fresh self.old self.new) }
        ensures refused { OnErr result (Leaves W.Writer fresh self.old self.new) }
        ensures fits { V.fits self.old.base reader.old.looks → V.fits self.old.base reader.new.looks }
        ensures steady { OnOk result (NoneRose (counts (λ l. V.faults l) (λ r. R.faults r) reader.old reader.new)) }
        // Reading and writing fail only where a count says so. Which fault of its sources it is hangs on what the reader keeps.
        // An input is damaged at the first block behind the last key made that doesn't stand, or where the order of its blocks
        // breaks.
        ensures cause { IfErr result (FailsWith W.Writer (FailsReading (λ f. V.is_read_fault f)
            (MayWhere (V.fits self.old.base reader.old.looks) (V.may_fail self.old.base)) is_disk_fault
            (MayStopIn H.bytes self.old.after self.old.inputs.tables.items))
            (counts (λ l. V.faults l) (λ r. R.faults r) reader.old reader.new) fresh self.old self.new) }
        // Whatever is told: what its inputs have behind the last key made was read whole up to the new last key.
        ensures whole { OnOk result (InputsReadUpTo H.bytes self.old.after self.new.after self.old.inputs.tables.items) }
        ensures read { HasRead H.bytes self.old → HasRead H.bytes self.new }
    {
        let mut lent = fresh;
        match self.write(alloc, reader, next, &mut lent) {
            Ok(filled) => {
                self.take(lent, filled);
                Ok(())
            }
            Err(fault) => {
                self.leavings.push_reserved(lent);
                Err(fault)
            }
        }
    }

    // Writes the next table, and makes it durable. Room for what is found is taken before that.
    fn write<R: Reader<Held = H> + Drop>(
        &mut self,
        alloc: Global,
        reader: &mut JobReader<R, V::Reader>,
        next: Next<Merge<TableCursor<H, R>>>,
        lent: &mut Lent<W>,
    ) -> Result<Filled, ReadFault>
        requires { IsNextOf (λ c m. ⟦<Merge<TableCursor<H, R>> as Cursor>⟧.stands_to c m)
            (λ c f. ⟦<Merge<TableCursor<H, R>> as Cursor>⟧.may_fail c f) H.bytes self.old next }
        ensures fills { (j : laid.Job) → V.fits self.old.base reader.old.looks → IsFresh W.Writer lent.old
            → Has W.Writer H.bytes V.has self.old j
            → IsFirstOf (λ c. ⟦<Merge<TableCursor<H, R>> as Cursor>⟧.left c) j (left_behind j self.old.after) next
            → IfOk result (Fills W.Writer j (left_behind j self.old.after) lent.new) }
        ensures settled { OnOk result (IsSettled W.Writer lent.new) }
        ensures same { self.new ≡ record self.old { needless = self.new.needless } }
        ensures items { self.new.needless.items ≡ self.old.needless.items }
        ensures room { IfOk result (λ filled. vec_len self.new.needless + vec_len filled.found ≤ vec_capacity self.new.needless) }
        ensures ends { IfOk result (λ filled. filled.last ≡ (arc_value filled.shape).footer.last) }
        ensures whole { IfOk result
            (λ filled. InputsReadUpTo H.bytes self.old.after (Some filled.last) self.old.inputs.tables.items) }
        ensures number { lent.new.number ≡ lent.old.number }
        ensures tells { IsSome (W.file lent.old.writer) → IsSome (W.file lent.new.writer) }
        ensures fits { V.fits self.old.base reader.old.looks → V.fits self.old.base reader.new.looks }
        ensures steady { OnOk result (NoneRose (counts (λ l. V.faults l) (λ r. R.faults r) reader.old reader.new)) }
        ensures cause { IfErr result (FailsFilling W.Writer (FailsReading (λ f. V.is_read_fault f)
            (MayWhere (V.fits self.old.base reader.old.looks) (V.may_fail self.old.base)) is_disk_fault
            (MayStopIn H.bytes self.old.after self.old.inputs.tables.items))
            (counts (λ l. V.faults l) (λ r. R.faults r) reader.old reader.new) lent.old lent.new) }
    {
        let filled = match fill(alloc, &self.base, reader, next, lent) {
            Ok(filled) => filled,
            Err(FillFail::Fault(fault)) => return Err(fault),
            Err(FillFail::NotInOrder) => {
                return Err(disorder_in(alloc, &mut reader.files, &self.inputs.tables));
            }
        };
        self.needless.reserve(filled.found.len())?;
        lent.sync()?;
        Ok(filled)
    }

    // Takes a table that was made.
    fn take(&mut self, lent: Lent<W>, filled: Filled)
        requires made { vec_len self.old.made < vec_capacity self.old.made }
        requires room { vec_len self.old.needless + vec_len filled.found ≤ vec_capacity self.old.needless }
        ensures same { self.new ≡ record self.old
            { after = Some filled.last; made = self.new.made; needless = self.new.needless } }
        ensures made { HasTaken lent filled self.old.made.items self.new.made.items }
        ensures needless { self.new.needless.items ≡ self.old.needless.items ++ filled.found.items }
    {
        let Lent { number, writer } = lent;
        let Filled { shape, last, found } = filled;
        self.made.push_reserved(Synced {
            number,
            writer,
            shape,
        });
        append_reserved(&mut self.needless, found);
        self.after = Some(last);
    }

    // What it still keeps, from the place on at which it is.
    fn keeping<R: Reader<Held = H> + Drop>(
        &self,
        alloc: Global,
    ) -> Result<Keeping<Merge<TableCursor<H, R>>>, AllocError>
        ensures inputs { IfOk result (λ k. k.rules.inputs.items ≡ map number_of self.now.inputs.tables.items) }
        ensures floor { IfOk result (λ k. k.rules.floor ≡ self.now.floor) }
        ensures keep { IfOk result (λ k. k.rules.keep ≡ self.now.keep) }
        ensures first { IfOk result (λ k. k.last ≡ None) }
        ensures left { (ts : List laid_table.Table) → AreTablesOf H.bytes self.now.inputs.tables.items ts
            → IfOk result (λ k. ⟦<Merge<TableCursor<H, R>> as Cursor>⟧.left k.cursor
            ≡ Some (merged Up (behind self.now.after (flat_map table_entries ts)))) }
        ensures may_fail { IfOk result (λ k. (fault : ReadFault)
            → ⟦<Merge<TableCursor<H, R>> as Cursor>⟧.may_fail k.cursor fault → MayStopIn H.bytes self.now.after self.now.inputs.tables.items fault) }
        ensures stands { IfOk result (λ k. (is_met : Entry → Bool) → IsUpward Up is_met
            → ⟦<Merge<TableCursor<H, R>> as Cursor>⟧.stands_to k.cursor is_met
            → InputsReadTo H.bytes self.now.after is_met self.now.inputs.tables.items) }
    {
        let rules = Rules {
            inputs: numbers_of(alloc, &self.inputs.tables)?,
            floor: self.floor,
            keep: self.keep,
        };
        Ok(Keeping {
            cursor: merged(alloc, &self.inputs.tables, &self.after)?,
            rules,
            last: None,
        })
    }
}
