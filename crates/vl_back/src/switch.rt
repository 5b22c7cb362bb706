//! The changing calls of a flush.

ghost use Rattle.std.specs.Prelude.{◌≡◌, ◌+◌, ◌-◌, ◌^◌, length, min, None, Some, IfErr, IfOk, IsTrue, OnErr, OnOk};
ghost use Rattle.std.specs.Option.{ForSome};
ghost use Rattle.vl_back.specs.Room.{SameSpareBeside};
ghost use Rattle.vl_back.specs.Writing.{KeepsOthers, WhileWriting, flush_files, written};
ghost use Rattle.vl_disk.specs.Disk.{IsFree, Stands};
ghost use Rattle.vl_disk.specs.Name.{IsNumbered};
ghost use Rattle.vl_disk.specs.Performs.{FailedAt, Performs};
ghost use Rattle.vl_disk.specs.Spare.{CanAppend, IsReady};
ghost use Rattle.vl_disk.specs.declared.name.Name.TheVariants as names;
ghost use Rattle.vl_manifest.specs.Switching.{IsStagedFor};

use crate::make::make_table;
use vl_disk::{Disk, Name};
use vl_manifest::{ManifestLog, StagedEdits};

/// Makes a table and holds it for readers, and then has the manifest name it: five changing calls.
/// The table is durable before the manifest's frame is appended. If one fails, the answer has the
/// name of the file at which it did, and the manifest is not to be appended to any more.
pub fn write_and_switch<D: Disk>(
    disk: &mut D,
    manifest: &mut ManifestLog,
    table: u32,
    bytes: &[u8],
    edits: &StagedEdits,
) -> Result<D::Held, Name>
    requires numbered { IsNumbered (names.Table table) }
    requires free { ForSome (D.told disk.old) (IsFree (names.Table table)) }
    requires room { IsReady (length bytes.now) (D.spare disk.old (names.Table table)) }
    requires hold { IsTrue (D.spare disk.old (names.Table table)).hold }
    requires staged_for { IsStagedFor manifest.old edits.now }
    requires stands { ForSome (D.told disk.old) (Stands (names.Manifest manifest.old.number)) }
    requires append { CanAppend (length edits.now.frame.items) (D.spare disk.old (names.Manifest manifest.old.number)) }
    ensures writes { Performs D.Watched (written table bytes.now manifest.old.number edits.now.frame.items)
        (WhileWriting table bytes.now manifest.old.number edits.now.frame.items) 5 disk.old disk.new result }
    ensures at { IfErr result (FailedAt (flush_files table manifest.old.number) (D.calls disk.old) (D.calls disk.new)) }

    // The held file has the table's bytes.
    ensures held { IfOk result (λ held. ForSome (D.told disk.old) (λ _. D.Held.bytes held ≡ Some bytes.now)) }
    ensures named { IfOk result (λ held. D.Held.named held ≡ names.Table table) }

    // The other files stand as before, also where it failed.
    ensures files { KeepsOthers (names.Table table) (D.told disk.old) (D.told disk.new) }
    ensures untold { D.told disk.old ≡ None → D.told disk.new ≡ None }
    ensures beside { SameSpareBeside (names.Manifest manifest.old.number) (names.Table table)
        (D.spare disk.old) (D.spare disk.new) }
    ensures number { manifest.new.number ≡ manifest.old.number }
    ensures longer { OnOk result
        (manifest.new.length ≡ min (manifest.old.length + length edits.now.frame.items) (2 ^ 64 - 1)) }
    ensures kept { OnErr result (manifest.new.length ≡ manifest.old.length) }
{
    let Ok(held) = make_table(disk, table, bytes) else {
        return Err(Name::Table(table));
    };
    let name = Name::Manifest(manifest.number);
    match manifest.switch(disk, edits) {
        Ok(()) => Ok(held),
        Err(_) => Err(name),
    }
}
