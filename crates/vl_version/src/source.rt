//! One source of a scan.

use crate::own::OwnCursor;
use vl_disk::{HeldFile, ReadFault, Reader};
use vl_memtable::RunCursor;
use vl_model::{Cursor, Entry};
use vl_table::TableCursor;

/// The entries of one source: the caller's own writes, a run in memory, or tables. It is read with any reader of the version's
/// files.
#[derive(Drop)]
pub enum Source<'a, H: HeldFile, R> {
    Own(OwnCursor<'a>),
    Held(RunCursor),
    Tables(TableCursor<H, R>),
}

impl<'a, H: HeldFile, R: Reader<Held = H> + Drop> Cursor for Source<'a, H, R> {
    ghost use Rattle.vl_version.specs.Gives.{SourceMayFail, is_disk_fault, left_in, source_budget};
    ghost use Rattle.vl_version.specs.Whole.{SourceStands};

    type Fault = ReadFault;

    type Reader = R;

    ghost left = { λ source. left_in H.bytes source };

    ghost budget = { λ source. source_budget source };

    ghost faults = { λ reader. R.faults reader };

    ghost is_read_fault = { λ fault. is_disk_fault fault };

    ghost may_fail = { λ source fault. SourceMayFail H.bytes source fault };

    ghost stands_to = { λ source is_met. SourceStands H.bytes source is_met };

    fn next(&mut self, reader: &mut R) -> Result<Option<Entry>, ReadFault> {
        match self {
            Source::Own(own) => Ok(own.next(&mut ())?),
            Source::Held(run) => Ok(run.next(&mut ())?),
            Source::Tables(tables) => Ok(tables.next(reader)?),
        }
    }
}
