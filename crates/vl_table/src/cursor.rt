//! The entries of tables, one after the other.

ghost use Rattle.std.specs.Prelude.{◌≤◌, length};
ghost use Rattle.std.specs.List.{slice_get};
ghost use Rattle.vl_table.specs.CursorParts.{index_in};

use crate::open_block::OpenBlock;
use crate::slot::BlockId;
use crate::span_blocks::{blocks_in, is_in_span};
use crate::stretch::Stretch;
use crate::table::Table;
use std::alloc::{AllocError, Global};
use std::marker::PhantomData;
use vl_disk::{HeldFile, ReadFault, Reader};
use vl_model::{Cursor, Entry, Span, Way};

/// The entries of tables whose keys are in an interval, one after the other. It shares the tables, and is read with any
/// reader of their files; between two calls it may be kept. It reads each block that may have such keys once, and again only
/// after a fault, into memory of its own.
#[derive(Drop)]
pub struct TableCursor<H: HeldFile, R> {
    alloc: Global,
    tables: Vec<Table<H>>,
    span: Span,
    way: Way,
    // The tables that it hasn't begun, the one that it is in, the blocks of this one that it hasn't read, and the entries of
    // the block that it has read which it hasn't looked at.
    later: Stretch,
    table: usize,
    blocks: Stretch,
    entries: Stretch,
    block: OpenBlock,
    read_with: PhantomData<R>,
    ghost known: { later.end ≤ length tables.items },
    ghost named: { blocks.end ≤ length (index_in (slice_get tables.items table)) },
    ghost inside: { entries.end ≤ length block },
    ghost few: { length block ≤ 347 },
}

impl<H: HeldFile, R: Reader<Held = H> + Drop> Cursor for TableCursor<H, R> {
    ghost use Rattle.std.specs.Prelude.{◌≡◌, ◌≤◌, Bool, IfErr, IfNone, IfOk, MatchResult, OnErr, OnOk};
    ghost use Rattle.vl_model.specs.declared.entry.Entry.{Entry};
    ghost use Rattle.vl_model.specs.Cursors.{Gives, IsCounted, IsReached, Keeps, Spends};
    ghost use Rattle.vl_table.specs.CursorLeft.{EndsAt, GoesOn, HasRead, cursor_budget, cursor_left, unread};
    ghost use Rattle.vl_table.specs.CursorParts.{StopsBefore, is_disk_fault};
    ghost use Rattle.vl_table.specs.CursorStops.{MayStop};
    ghost use Rattle.vl_table.specs.ReadTo.{CursorStands};
    ghost use Rattle.vl_disk.specs.declared.read_fault.ReadFault.{ReadFault};

    type Fault = ReadFault;

    type Reader = R;

    ghost left = { λ c. cursor_left H.bytes c };

    ghost budget = { λ c. cursor_budget c };

    ghost faults = { λ reader. R.faults reader };

    ghost is_read_fault = { λ fault. is_disk_fault fault };

    ghost may_fail = { λ c fault. MayStop H.bytes c fault };

    ghost stands_to = { λ c is_met. CursorStands H.bytes c is_met };

    fn next(&mut self, reader: &mut R) -> Result<Option<Entry>, ReadFault>
        // What each cursor promises.
        ensures given { IfOk result (λ next. Gives (cursor_left H.bytes self.old) (cursor_left H.bytes self.new) next) }
        ensures kept { OnErr result (Keeps (cursor_left H.bytes self.old) (cursor_left H.bytes self.new)) }
        ensures spends { MatchResult result (Spends (cursor_budget self.old) (cursor_budget self.new))
            (λ _. cursor_budget self.new ≤ cursor_budget self.old) }
        ensures cause { MatchResult result (λ _. R.faults reader.new ≡ R.faults reader.old)
            (λ fault. IsCounted (is_disk_fault fault) (R.faults reader.old) (R.faults reader.new)) }
        ensures may_fail { IfErr result (λ fault. MayStop H.bytes self.old fault) }
        ensures keeps { (fault : ReadFault) → MayStop H.bytes self.new fault → MayStop H.bytes self.old fault }
        ensures reaches { (is_met : Entry → Bool)
            → IfOk result (λ next. IsReached is_met next → CursorStands H.bytes self.old is_met) }
        ensures back { (is_met : Entry → Bool) → CursorStands H.bytes self.new is_met → CursorStands H.bytes self.old is_met }

        // Each block that it read stood; where one doesn't, that is the next again. It ends only where all were read.
        ensures read { HasRead H.bytes self.old self.new }
        ensures ended { IfOk result (λ next. IfNone next (EndsAt self.old self.new)) }
        ensures stopped { IfErr result (λ fault. StopsBefore H.bytes (unread self.new) fault) }
        ensures goes { GoesOn self.old self.new }
    {
        'steps: loop {
            if let Some(entry) = self.give()? {
                return Ok(Some(entry));
            }
            if !self.read(reader)? {
                return Ok(None);
            }
        }
    }
}

impl<H: HeldFile, R: Reader<Held = H> + Drop> TableCursor<H, R> {
    ghost use Rattle.std.specs.Prelude.{◌≡◌, ◌≤◌, ◌<◌, ◌-◌, ◌∷◌, [], Bool, List, Some, true};
    ghost use Rattle.std.specs.Prelude.{IfErr, IfNone, IfOk, IfSome, IsFalse, IsTrue, MatchResult, OnErr, OnOk};
    ghost use Rattle.vl_model.specs.Cursors.{IsCounted};
    ghost use Rattle.vl_model.specs.declared.entry.Entry.{Entry};
    ghost use Rattle.vl_model.specs.EntryOrder.{along, within};
    ghost use Rattle.vl_model.specs.Cutting.{joined};
    ghost use Rattle.vl_table.specs.CursorLeft.{Begins, EndsAt, GoesOn, HasNotRead, ReadsNext, StaysIn};
    ghost use Rattle.vl_table.specs.CursorLeft.{blocks_left, cursor_budget, in_block, unread};
    ghost use Rattle.vl_table.specs.CursorParts.{MayFailOn, StopsBefore, entries_over, is_disk_fault, rise_over};
    ghost use Rattle.vl_table.specs.Stretches.{IsNextOn};
    ghost use Rattle.vl_table.specs.OfTables.{AreOf};
    ghost use Rattle.vl_table.specs.CursorStops.{MayStopOn};
    ghost use Rattle.vl_table.specs.ReadTo.{TablesReadTo};
    ghost use Rattle.vl_disk.specs.declared.read_fault.ReadFault.{ReadFault};

    /// A cursor over the entries of these tables, as they stand in the list, whose keys are in an interval. It reads nothing
    /// yet. All its memory but for what it gives is taken here.
    pub fn new(
        alloc: Global,
        tables: Vec<Table<H>>,
        span: Span,
        way: Way,
    ) -> Result<Self, AllocError>
        ensures left { (ess : List (List Entry)) → AreOf H.bytes tables.items ess
            → IfOk result (λ c. ⟦<TableCursor<H, R> as Cursor>⟧.left c ≡ Some (along way (within span (joined ess)))) }
        ensures may_fail { IfOk result (λ c. (fault : ReadFault)
            → ⟦<TableCursor<H, R> as Cursor>⟧.may_fail c fault → MayStopOn H.bytes span way tables.items fault) }

        // Also where tables aren't true it has the entries of the blocks that stand.
        ensures tells { IfOk result (λ c. ⟦<TableCursor<H, R> as Cursor>⟧.left c ≡ entries_over H.bytes span way tables.items) }
        ensures begins { IfOk result (Begins tables.items span way) }

        // Up to an entry that it gives, or its end, each block stands.
        ensures stands { IfOk result (λ c. (is_met : Entry → Bool)
            → ⟦<TableCursor<H, R> as Cursor>⟧.stands_to c is_met → TablesReadTo H.bytes span way is_met tables.items) }
    {
        let none = Stretch { first: 0, end: 0 };
        let end = tables.len();
        Ok(TableCursor {
            alloc,
            tables,
            span,
            way,
            later: Stretch { first: 0, end },
            table: 0,
            blocks: none,
            entries: none,
            block: OpenBlock::new(alloc)?,
            read_with: PhantomData,
        })
    }

    // The next entry of the block that was read, and None where none of it is left.
    fn give(&mut self) -> Result<Option<Entry>, AllocError>
        ensures given { IfOk result (λ next. IfSome next (λ e. in_block self.old ≡ e ∷ in_block self.new)) }
        ensures none { IfOk result (λ next. IfNone next
            ((in_block self.old ≡ []) × (self.new.entries.end ≤ self.new.entries.first))) }
        ensures kept { OnErr result (in_block self.new ≡ in_block self.old) }
        ensures fewer { MatchResult result (λ next. IfSome next (λ e.
            self.new.entries.end - self.new.entries.first < self.old.entries.end - self.old.entries.first))
            (λ _. self.new.entries.end - self.new.entries.first ≤ self.old.entries.end - self.old.entries.first) }
        ensures stays { StaysIn self.old self.new }
    {
        'skips: while let Some((at, rest)) = self.entries.next(self.way) {
            let entry = self.block.get(at);
            if is_in_span(&self.span, entry.key) {
                let given = entry.to_entry(self.alloc)?;
                self.entries = rest;
                return Ok(Some(given));
            }
            self.entries = rest;
        }
        Ok(None)
    }

    // Reads the next block, and says whether there was one.
    fn read(&mut self, reader: &mut R) -> Result<bool, ReadFault>
        requires { self.old.entries.end ≤ self.old.entries.first }
        ensures there { IfOk result (λ more. IsTrue more → ReadsNext H.bytes self.old self.new) }
        ensures none { IfOk result (λ more. IsFalse more
            → (rise_over self.old.span self.old.tables.items ≡ true → unread self.old ≡ []) × EndsAt self.old self.new) }
        ensures kept { OnErr result (HasNotRead self.old self.new) }
        ensures budget { cursor_budget self.new ≤ cursor_budget self.old }
        ensures fewer { IfOk result (λ more. IsTrue more → blocks_left self.new < blocks_left self.old) }
        ensures cause { MatchResult result (λ _. R.faults reader.new ≡ R.faults reader.old)
            (λ fault. IsCounted (is_disk_fault fault) (R.faults reader.old) (R.faults reader.new)) }
        ensures may_fail { IfErr result (λ fault. MayFailOn H.bytes self.old.tables.items fault) }
        ensures stopped { IfErr result (λ fault. StopsBefore H.bytes (unread self.new) fault) }
        ensures goes { GoesOn self.old self.new }
    {
        'tables: loop {
            if let Some((at, rest)) = self.blocks.next(self.way) {
                self.load(reader, at, rest)?;
                return Ok(true);
            }
            if !self.enter() {
                return Ok(false);
            }
        }
    }

    // Reads the block at an index of the table that it is in, which is the next on its way, before these others.
    fn load(&mut self, reader: &mut R, at: usize, rest: Stretch) -> Result<(), ReadFault>
        requires next { IsNextOn self.old.way self.old.blocks at rest }
        requires none { self.old.entries.end ≤ self.old.entries.first }
        ensures read { OnOk result (ReadsNext H.bytes self.old self.new) }
        ensures kept { OnErr result (HasNotRead self.old self.new) }
        ensures budget { cursor_budget self.new ≤ cursor_budget self.old }
        ensures fewer { OnOk result (blocks_left self.new < blocks_left self.old) }
        ensures cause { MatchResult result (λ _. R.faults reader.new ≡ R.faults reader.old)
            (λ fault. IsCounted (is_disk_fault fault) (R.faults reader.old) (R.faults reader.new)) }
        ensures may_fail { IfErr result (λ fault. MayFailOn H.bytes self.old.tables.items fault) }
        ensures stopped { IfErr result (λ fault. StopsBefore H.bytes (unread self.new) fault) }
        ensures goes { GoesOn self.old self.new }
    {
        let Some(table) = self.tables.get(self.table) else {
            unreachable!()
        };
        let shape = table.shape();
        let id = BlockId::of(shape, &shape.blocks[at]);
        self.entries = Stretch { first: 0, end: 0 };
        self.block
            .load(reader, table.held(), table.tested(), at, id)?;
        self.entries = Stretch {
            first: 0,
            end: self.block.len(),
        };
        self.blocks = rest;
        Ok(())
    }

    // Begins the next table, if one is left.
    fn enter(&mut self) -> bool
        requires { self.old.blocks.end ≤ self.old.blocks.first }
        ensures unread { rise_over self.old.span self.old.tables.items ≡ true → unread self.new ≡ unread self.old }
        ensures none { IsFalse result → unread self.old ≡ [] }
        ensures fewer { blocks_left self.new ≤ blocks_left self.old }
        ensures begun { IsTrue result → self.new.later.end - self.new.later.first < self.old.later.end - self.old.later.first }
        ensures goes { GoesOn self.old self.new }
        ensures entries { (self.new.entries ≡ self.old.entries) × (self.new.block ≡ self.old.block) }
    {
        let Some((at, rest)) = self.later.next(self.way) else {
            return false;
        };
        let blocks = blocks_in(self.tables[at].shape(), &self.span);
        self.later = rest;
        self.table = at;
        self.blocks = blocks;
        true
    }
}
