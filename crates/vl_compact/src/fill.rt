//! How a table goes to its file, piece by piece.

ghost use Rattle.std.specs.Prelude.{◌≡◌, ◌++◌, ◌∷◌, [], nat_le, ℕ, List, Some, false, not, true, IfErr, IfOk, IsSome, OnOk};
ghost use Rattle.std.specs.Arc.{arc_value};
ghost use Rattle.std.specs.Option.{ForSome};
ghost use Rattle.std.specs.Ordering.{is_gt};
ghost use Rattle.vl_model.specs.Cutting.{last_key};
ghost use Rattle.vl_compact.specs.Filling.{Adds, EndsWith, Fills, HasReadFor, IsWhole, IsWrittenTo, named_up_to};
ghost use Rattle.vl_compact.specs.Filling.{StopsAdding, StopsFilling};
ghost use Rattle.vl_compact.specs.FirstTable.{closes, frames_length};
ghost use Rattle.vl_compact.specs.Keeps.{AreRulesOf, stage};
ghost use Rattle.vl_compact.specs.Keys.{is_past};
ghost use Rattle.vl_compact.specs.Lending.{FailsWriting, IsSteady};
ghost use Rattle.vl_compact.specs.Next.{IsFirstOf};
ghost use Rattle.vl_compact.specs.Reading.{FailsReading, MayWhere, NoneRose, counts};
ghost use Rattle.vl_compact.specs.Walking.{is_behind};
ghost use Rattle.vl_engine_model.specs.declared.job.Job as laid;
ghost use Rattle.vl_engine_model.specs.Tables.{full_table_bytes};
ghost use Rattle.vl_model.specs.Merging.{IsAlong};
ghost use Rattle.vl_model.specs.Keys.{key_cmp};
ghost use Rattle.vl_model.specs.declared.entry.Entry.{Entry};
ghost use Rattle.vl_model.specs.declared.way.Way.TheVariants.{Up};
ghost use Rattle.vl_disk.specs.declared.read_fault.ReadFault.TheVariants.{NoMemory};
ghost use Rattle.vl_table.specs.writer.Tails.{tail_bytes};
ghost use Rattle.vl_table.specs.writer.Writing.{IsWriting};

use crate::files::Lent;
use crate::fill_fail::FillFail;
use crate::job_reader::JobReader;
use crate::keeping::Keeping;
use crate::next::Next;
use std::alloc::Global;
use std::sync::Arc;
use vl_disk::{ReadFault, Writer};
use vl_merge::Sources;
use vl_model::{Cursor, Entry, Key, key_order};
use vl_table::{AddFail, TableShape, TableWriter, Tail};

// A merge closes a table whose block frames have so many bytes.
const FULL_TABLE_BYTES: u64 = 2_097_152;

/// What a table that was written leaves: what is known of it beside its blocks, its last key, and the needless deletions
/// up to that one, by key and version.
#[derive(Drop)]
pub struct Filled {
    pub shape: Arc<TableShape, Global>,
    pub last: Key,
    pub found: Vec<(Key, u64)>,
}

/// Writes the first table of what is kept to its file: that entry, and what its cursor has behind it. Nothing of it is durable yet.
pub fn fill<C: Cursor<Fault = ReadFault> + Drop, V: Sources<Fault = ReadFault>, W: Writer>(
    alloc: Global,
    base: &V,
    reader: &mut JobReader<C::Reader, V::Reader>,
    next: Next<C>,
    lent: &mut Lent<W>,
) -> Result<Filled, FillFail>
    ensures fills { (j : laid.Job) (left : List Entry) → V.has base.now j.inputs j.base → V.fits base.now reader.old.looks
        → IsFirstOf (λ c. C.left c) j left next → IsAlong Up left
        → ForSome (W.file lent.old.writer) (λ f. f.bytes ≡ []) → IfOk result (Fills W.Writer j left lent.new) }
    // Whatever is told: what the cursor goes over up to the table's last key was read whole.
    ensures reads { IfOk result (λ filled. C.stands_to next.keeping.cursor (is_behind (Some filled.last))) }
    ensures ends { IfOk result (λ filled. filled.last ≡ (arc_value filled.shape).footer.last) }
    ensures number { lent.new.number ≡ lent.old.number }
    ensures tells { IsSome (W.file lent.old.writer) → IsSome (W.file lent.new.writer) }
    ensures fits { V.fits base.now reader.old.looks → V.fits base.now reader.new.looks }
    ensures steady { OnOk result (NoneRose (counts (λ l. V.faults l) (λ r. C.faults r) reader.old reader.new)) }
    ensures kept { OnOk result (IsSteady W.Writer lent.old lent.new) }
    ensures cause { IfErr result (λ fail. StopsFilling W.Writer (FailsReading (λ f. V.is_read_fault f)
        (MayWhere (V.fits base.now reader.old.looks) (V.may_fail base.now)) (λ f. C.is_read_fault f) (C.may_fail next.keeping.cursor))
        (counts (λ l. V.faults l) (λ r. C.faults r) reader.old reader.new) lent.old lent.new fail) }
{
    let Next {
        first,
        keeping,
        found,
    } = next;
    let mut keeping = keeping;
    let mut found = found;
    let mut table = begin(alloc, lent, &first)?;
    add_kept(
        alloc,
        base,
        reader,
        &mut keeping,
        &mut found,
        lent,
        &mut table,
        first,
    )?;
    Ok(finish(alloc, lent, table, found)?)
}

// Begins the table with its first entry.
fn begin<W: Writer>(
    alloc: Global,
    lent: &mut Lent<W>,
    first: &Entry,
) -> Result<TableWriter, ReadFault>
    ensures begun { ForSome (W.file lent.old.writer) (λ f. f.bytes ≡ [])
        → IfOk result (λ table. IsWrittenTo W.Writer lent.new table (first.now ∷ [])) }
    ensures ends { IfOk result (λ table. EndsWith table first.now.key) }
    ensures number { lent.new.number ≡ lent.old.number }
    ensures tells { IsSome (W.file lent.old.writer) → IsSome (W.file lent.new.writer) }
    ensures steady { OnOk result (IsSteady W.Writer lent.old lent.new) }
    ensures fails { IfErr result (FailsWriting W.Writer lent.old lent.new) }
{
    let mut header = Vec::new(alloc);
    match TableWriter::begin(alloc, &mut header, lent.number, first) {
        Ok(table) => {
            lent.append(&header)?;
            Ok(table)
        }
        Err(fail) => Err(refused(fail)),
    }
}

// Adds the entries that are kept until the table is full and a greater key comes.
fn add_kept<C: Cursor<Fault = ReadFault>, V: Sources<Fault = ReadFault>, W: Writer>(
    alloc: Global,
    base: &V,
    reader: &mut JobReader<C::Reader, V::Reader>,
    keeping: &mut Keeping<C>,
    found: &mut Vec<(Key, u64)>,
    lent: &mut Lent<W>,
    table: &mut TableWriter,
    first: Entry,
) -> Result<(), FillFail>
    ensures adds { (j : laid.Job) (left : List Entry) → AreRulesOf keeping.old.rules j → V.has base.now j.inputs j.base
        → V.fits base.now reader.old.looks → C.left keeping.old.cursor ≡ Some left → IsAlong Up (first ∷ left)
        → IsWrittenTo W.Writer lent.old table.old (first ∷ [])
        → OnOk result (Adds W.Writer j first (stage keeping.old.last left found.old.items) found.new.items lent.new table.new) }
    ensures reads { EndsWith table.old first.key → OnOk result (HasReadFor (C.stands_to keeping.old.cursor) table.new) }
    ensures number { lent.new.number ≡ lent.old.number }
    ensures tells { IsSome (W.file lent.old.writer) → IsSome (W.file lent.new.writer) }
    ensures fits { V.fits base.now reader.old.looks → V.fits base.now reader.new.looks }
    ensures steady { OnOk result (NoneRose (counts (λ l. V.faults l) (λ r. C.faults r) reader.old reader.new)) }
    ensures kept { OnOk result (IsSteady W.Writer lent.old lent.new) }
    ensures cause { IfErr result (λ fail. StopsFilling W.Writer (FailsReading (λ f. V.is_read_fault f)
        (MayWhere (V.fits base.now reader.old.looks) (V.may_fail base.now)) (λ f. C.is_read_fault f) (C.may_fail keeping.old.cursor))
        (counts (λ l. V.faults l) (λ r. C.faults r) reader.old reader.new) lent.old lent.new fail) }
{
    let mut last = first.key;
    'adding: while let Some(entry) = keeping.next(base, reader, found)? {
        if closes(table, &last, &entry) {
            return Ok(());
        }
        add(alloc, lent, table, &entry)?;
        last = entry.key;
    }
    Ok(())
}

// Adds an entry, and hands out the block that is closed before it, if one is.
fn add<W: Writer>(
    alloc: Global,
    lent: &mut Lent<W>,
    table: &mut TableWriter,
    entry: &Entry,
) -> Result<(), FillFail>
    ensures added { (es : List Entry) → IsWrittenTo W.Writer lent.old table.old es
        → OnOk result (IsWrittenTo W.Writer lent.new table.new (es ++ entry.now ∷ [])) }
    ensures ends { (key : List ℕ) → EndsWith table.old key → OnOk result (EndsWith table.new entry.now.key) }
    ensures number { lent.new.number ≡ lent.old.number }
    ensures tells { IsSome (W.file lent.old.writer) → IsSome (W.file lent.new.writer) }
    ensures steady { OnOk result (IsSteady W.Writer lent.old lent.new) }
    ensures fails { IfErr result (StopsAdding W.Writer lent.old lent.new) }
{
    let mut block = Vec::new(alloc);
    match table.add(&mut block, entry) {
        Ok(()) => Ok(append_some(lent, &block)?),
        Err(AddFail::NotLawful) => Err(FillFail::NotInOrder),
        Err(fail) => Err(FillFail::Fault(refused(fail))),
    }
}

// Puts a piece behind the end of a file, if there is anything of it.
fn append_some<W: Writer>(lent: &mut Lent<W>, piece: &[u8]) -> Result<(), ReadFault>
    ensures number { lent.new.number ≡ lent.old.number }
    ensures tells { IsSome (W.file lent.old.writer) → IsSome (W.file lent.new.writer) }
    ensures bytes { (given : List ℕ) → ForSome (W.file lent.old.writer) (λ f. f.bytes ≡ given)
        → OnOk result (ForSome (W.file lent.new.writer) (λ f. f.bytes ≡ given ++ piece.now)) }
    ensures steady { OnOk result (IsSteady W.Writer lent.old lent.new) }
    ensures fails { IfErr result (FailsWriting W.Writer lent.old lent.new) }
{
    if piece.is_empty() {
        return Ok(());
    }
    lent.append(piece)
}

// Whether the table that ends with this key is closed before an entry, which must be of a greater one: a lesser one would not
// come again.
fn closes(table: &TableWriter, last: &Key, entry: &Entry) -> bool
    ensures closes { (number : ℕ) (es : List Entry) (given : List ℕ) → IsWriting table.now number es given → last.now ≡ last_key es
        → is_gt (key_cmp last.now entry.now.key) ≡ false → result ≡ closes es entry.now }
    ensures behind { result ≡ true → is_behind (Some last.now) entry.now ≡ true }
{
    is_behind(last, entry) && is_full(table)
}

// Whether an entry is of a greater key.
fn is_behind(key: &Key, entry: &Entry) -> bool
    ensures { result ≡ is_behind (Some key.now) entry.now }
{
    key_order(key.as_slice(), entry.key.as_slice()).is_lt()
}

// Whether the frames of the blocks have reached the measure of a full table.
fn is_full(table: &TableWriter) -> bool
    ensures { (number : ℕ) (es : List Entry) (given : List ℕ) → IsWriting table.now number es given
        → result ≡ nat_le full_table_bytes (frames_length es) }
{
    FULL_TABLE_BYTES <= table.block_bytes()
}

// Ends the table, and hands out the rest of it. Of the deletions that were found those up to its last key are left.
fn finish<W: Writer>(
    alloc: Global,
    lent: &mut Lent<W>,
    table: TableWriter,
    found: Vec<(Key, u64)>,
) -> Result<Filled, ReadFault>
    ensures whole { (es : List Entry) → IsWrittenTo W.Writer lent.old table es
        → IfOk result (λ filled. IsWhole W.Writer lent.new es (arc_value filled.shape)) }
    ensures last { (key : List ℕ) → EndsWith table key → IfOk result (λ filled. filled.last ≡ key) }
    ensures ends { IfOk result (λ filled. filled.last ≡ (arc_value filled.shape).footer.last) }
    ensures found { IfOk result (λ filled. filled.found.items ≡ named_up_to filled.last found.items) }
    ensures number { lent.new.number ≡ lent.old.number }
    ensures tells { IsSome (W.file lent.old.writer) → IsSome (W.file lent.new.writer) }
    ensures steady { OnOk result (IsSteady W.Writer lent.old lent.new) }
    ensures fails { IfErr result (FailsWriting W.Writer lent.old lent.new) }
{
    let tail = table.finish(alloc)?;
    append_tail(lent, &tail)?;
    let Tail { shape, .. } = tail;
    let last = shape.footer.last.share()?;
    let found = up_to(found, &last);
    match Arc::new(alloc, shape) {
        Ok(shape) => Ok(Filled { shape, last, found }),
        Err(_) => Err(ReadFault::NoMemory),
    }
}

// Puts the rest of a table behind the end of its file.
fn append_tail<W: Writer>(lent: &mut Lent<W>, tail: &Tail) -> Result<(), ReadFault>
    ensures number { lent.new.number ≡ lent.old.number }
    ensures tells { IsSome (W.file lent.old.writer) → IsSome (W.file lent.new.writer) }
    ensures bytes { (given : List ℕ) → ForSome (W.file lent.old.writer) (λ f. f.bytes ≡ given)
        → OnOk result (ForSome (W.file lent.new.writer) (λ f. f.bytes ≡ given ++ tail_bytes tail.now)) }
    ensures steady { OnOk result (IsSteady W.Writer lent.old lent.new) }
    ensures fails { IfErr result (FailsWriting W.Writer lent.old lent.new) }
{
    append_behind(lent, &tail.block, &tail.index)?;
    append_behind(lent, &tail.filter, &tail.footer)?;
    lent.append(&tail.place)
}

// Puts two pieces behind the end of a file.
fn append_behind<W: Writer>(lent: &mut Lent<W>, one: &[u8], two: &[u8]) -> Result<(), ReadFault>
    ensures number { lent.new.number ≡ lent.old.number }
    ensures tells { IsSome (W.file lent.old.writer) → IsSome (W.file lent.new.writer) }
    ensures bytes { (given : List ℕ) → ForSome (W.file lent.old.writer) (λ f. f.bytes ≡ given)
        → OnOk result (ForSome (W.file lent.new.writer) (λ f. f.bytes ≡ given ++ (one.now ++ two.now))) }
    ensures steady { OnOk result (IsSteady W.Writer lent.old lent.new) }
    ensures fails { IfErr result (FailsWriting W.Writer lent.old lent.new) }
{
    lent.append(one)?;
    lent.append(two)
}

// Those of these that aren't behind a key.
fn up_to(found: Vec<(Key, u64)>, last: &Key) -> Vec<(Key, u64)>
    ensures { result.items ≡ named_up_to last.now found.items }
{
    let mut found = found;
    found.retain(|deletion| is_up_to(last, deletion));
    found
}

fn is_up_to(last: &Key, deletion: &(Key, u64)) -> bool
    ensures { result ≡ not (is_past (Some last.now) deletion.now.0) }
{
    !key_order(last.as_slice(), deletion.0.as_slice()).is_lt()
}

// The only answer is want of memory: also where the table would be too long, as versions of one key may make it.
fn refused(fail: AddFail) -> ReadFault
    ensures { result ≡ NoMemory }
{
    match fail {
        AddFail::NoMemory | AddFail::TooLong | AddFail::NotLawful => ReadFault::NoMemory,
    }
}
