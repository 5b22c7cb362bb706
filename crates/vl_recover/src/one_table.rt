// One table that a manifest names.
ghost use Rattle.std.specs.Prelude.{◌≡◌, Some, IfErr, IfOk};
ghost use Rattle.std.specs.FinMap.{get};
ghost use Rattle.std.specs.Option.{ForSome};
ghost use Rattle.vl_disk.specs.Calls.{ChangesNothing};
ghost use Rattle.vl_disk.specs.Crash.{Image};
ghost use Rattle.vl_disk.specs.Disk.{Lists};
ghost use Rattle.vl_disk.specs.Faults.{HasCounted, NoneCounted, never};
ghost use Rattle.vl_disk.specs.DiskState.{DiskState};
ghost use Rattle.vl_disk.specs.Started.{IsRead};
ghost use Rattle.vl_disk.specs.declared.name.Name.TheVariants as kinds;
ghost use Rattle.vl_recover.specs.opening.Finding.{FailsAtDisk, IsFault, IsFaultOf, IsReadTable};
ghost use Rattle.vl_recover.specs.opening.OpenedTables.{IsTableFound};

use crate::OpenError;
use crate::names::has;
use crate::read::hold;
use std::alloc::Global;
use vl_disk::{Disk, Name};
use vl_table::Table;

/// Opens the table of this number, which has to stand. No block of it is read.
pub fn open_table<D: Disk>(
    alloc: Global,
    disk: &mut D,
    reader: &mut D::Reader,
    names: &[Name],
    number: u32,
) -> Result<Table<D::Held>, OpenError>
    requires lists { ForSome (D.told disk.old) (Lists names.now) }
    requires fresh { NoneCounted (D.Reader.faults reader.old) }
    ensures answer { (state : DiskState) (read : Image) → D.told disk.old ≡ Some state → IsRead read state
        → IsTableFound read number result }
    ensures held { (state : DiskState) (read : Image) → D.told disk.old ≡ Some state → IsRead read state
        → IfOk result (λ table. D.Held.bytes table.held ≡ get read (kinds.Table number)) }
    ensures at { IfErr result (IsFaultOf (IsReadTable (D.told disk.old))) }
    ensures fresh { IfOk result (λ _. NoneCounted (D.Reader.faults reader.new)) }
    // What the reader failed at is answered as a fault.
    ensures read_fault { HasCounted (D.Reader.faults reader.new) → IsFault result }
    // One that never fails never did.
    ensures steady { D.Reader.faults reader.old ≡ never → D.Reader.faults reader.new ≡ never }
    ensures no_change { ChangesNothing D.Watched disk.old disk.new (FailsAtDisk (D.Reader.faults reader.new) result) }
{
    let name = Name::Table(number);
    if !has(names, name) {
        return Err(OpenError::Damaged { name, place: 0 });
    }
    let held = hold(disk, name)?;
    match Table::open(alloc, reader, held, number) {
        Ok(table) => Ok(table),
        Err(fault) => Err(OpenError::from(fault)),
    }
}
