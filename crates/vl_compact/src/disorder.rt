//! Why an entry came that isn't behind the one before it.

ghost use Rattle.std.specs.Prelude.{ℕ, Option, List};
ghost use Rattle.vl_compact.specs.Stops.{MayStopIn};
ghost use Rattle.vl_model.specs.Cursors.{IsCounted};
ghost use Rattle.vl_table.specs.CursorParts.{is_disk_fault};

use std::alloc::Global;
use vl_disk::{HeldFile, Name, ReadFault, Reader};
use vl_table::{Table, first_out_of_order};

/// Damage of the first of these tables that has a block out of order, at its first one, or a fault of reading them. Where none
/// has such a block, want of memory.
pub fn disorder_in<H: HeldFile, R: Reader<Held = H>>(
    alloc: Global,
    reader: &mut R,
    tables: &[Table<H>],
) -> ReadFault
    ensures may { (after : Option (List ℕ)) → MayStopIn H.bytes after tables.now result }
    ensures cause { IsCounted (is_disk_fault result) (R.faults reader.old) (R.faults reader.new) }
{
    for table in tables {
        match first_out_of_order(alloc, reader, table) {
            Ok(None) => {}
            Ok(Some(place)) => {
                let name = Name::Table(table.shape().number);
                return ReadFault::Damaged { name, place };
            }
            Err(fault) => return fault,
        }
    }
    ReadFault::NoMemory
}
