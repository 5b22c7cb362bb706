//! Cursors over memory and over tables as one type, for a merge that holds both.

ghost use Rattle.vl_table.specs.CursorParts.{is_disk_fault};
ghost use Rattle.vl_table_tests.specs.Sources.{SourceMayFail, SourceStands, source_budget, source_left};

use vl_disk::{HeldFile, ReadFault, Reader};
use vl_memtable::RunCursor;
use vl_model::{Cursor, Entry};
use vl_table::TableCursor;

/// A source of a merge.
#[derive(Drop)]
pub enum Source<H: HeldFile, R> {
    Memory(RunCursor),
    Table(TableCursor<H, R>),
}

impl<H: HeldFile, R: Reader<Held = H> + Drop> Cursor for Source<H, R> {
    type Fault = ReadFault;

    type Reader = R;

    ghost left = { λ s. source_left H.bytes s };

    ghost budget = { λ s. source_budget s };

    ghost faults = { λ reader. R.faults reader };

    ghost is_read_fault = { λ fault. is_disk_fault fault };

    ghost may_fail = { λ s fault. SourceMayFail H.bytes s fault };

    ghost stands_to = { λ s is_met. SourceStands H.bytes s is_met };

    fn next(&mut self, reader: &mut R) -> Result<Option<Entry>, ReadFault> {
        match self {
            Source::Memory(run) => Ok(run.next(&mut ())?),
            Source::Table(table) => table.next(reader),
        }
    }
}
