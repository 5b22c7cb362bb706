//! A table that is spelled before it is written.

ghost use Rattle.std.specs.Prelude.{◌≡◌, ◌++◌, ℕ, List, Some, map, IfOk, IsErrOf, OnOk};
ghost use Rattle.vl_back.specs.Tables.{AreSpellable, IsTableOf};
ghost use Rattle.vl_model.specs.Placement as model;
ghost use Rattle.vl_model.specs.declared.entry.Entry.{Entry};
ghost use Rattle.vl_table.specs.writer.Writing.{IsWriting};

use crate::StageFail;
use crate::placement::{numbers_fit, placed};
use std::alloc::{AllocError, Global};
use std::sync::Arc;
use vl_model::Cursor;
use vl_table::{TableShape, TableWriter, Tail};

/// A table's bytes, and what is known of it beside its blocks, so that it can be used once it stands
/// in a file.
#[derive(Drop)]
pub struct StagedTable {
    pub bytes: Vec<u8>,
    pub shape: Arc<TableShape, Global>,
}

impl StagedTable {
    /// The table with this number of the entries that are left to give, each at its placement. Only
    /// memory may be wanting, where there is such a table.
    pub fn of<C: Cursor<Fault = AllocError, Reader = ()>>(
        alloc: Global,
        number: u32,
        entries: &mut C,
    ) -> Result<Self, StageFail>
        ensures spelled { (es : List Entry) → C.left entries.old ≡ Some es
            → IfOk result (IsTableOf number (map model.placed es)) }
        ensures lawful { (es : List Entry) → C.left entries.old ≡ Some es
            → AreSpellable (map model.placed es) → IsErrOf result StageFail.NotLawful → ⊥ }
    {
        let Some(first) = entries.next(&mut ())? else {
            return Err(StageFail::NotLawful);
        };
        let spelled = placed(first);
        numbers_fit(&spelled);
        let mut bytes = Vec::new(alloc);
        let mut writer = TableWriter::begin(alloc, &mut bytes, number, &spelled)?;
        add_left(&mut writer, &mut bytes, entries)?;
        finished(alloc, writer, bytes)
    }
}

// The table that is written to its end, of which these bytes were given out before.
fn finished(
    alloc: Global,
    writer: TableWriter,
    mut bytes: Vec<u8>,
) -> Result<StagedTable, StageFail>
    ensures spelled { (number : ℕ) (es : List Entry) → IsWriting writer number es bytes.items
        → IfOk result (IsTableOf number es) }
    ensures memory { IsErrOf result StageFail.NotLawful → ⊥ }
{
    let tail = writer.finish(alloc)?;
    tail.append_to(&mut bytes)?;
    let Tail { shape, .. } = tail;
    let shape = Arc::new(alloc, shape)?;
    Ok(StagedTable { bytes, shape })
}

// Adds the entries that are left to give, each at its placement.
fn add_left<C: Cursor<Fault = AllocError, Reader = ()>>(
    writer: &mut TableWriter,
    bytes: &mut Vec<u8>,
    entries: &mut C,
) -> Result<(), StageFail>
    ensures added { (number : ℕ) (es left : List Entry) → IsWriting writer.old number es bytes.old.items
        → C.left entries.old ≡ Some left
        → OnOk result (IsWriting writer.new number (es ++ map model.placed left) bytes.new.items) }
    ensures lawful { (number : ℕ) (es left : List Entry) → IsWriting writer.old number es bytes.old.items
        → C.left entries.old ≡ Some left → AreSpellable (es ++ map model.placed left)
        → IsErrOf result StageFail.NotLawful → ⊥ }
{
    'adding: while let Some(entry) = entries.next(&mut ())? {
        let spelled = placed(entry);
        numbers_fit(&spelled);
        writer.add(bytes, &spelled)?;
    }
    Ok(())
}
