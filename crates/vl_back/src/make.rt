//! Files that a step makes: a table that is held for readers, and a log that has no frames yet.

ghost use Rattle.std.specs.Prelude.{◌≡◌, length, None, Some, IfErr, IfOk, IsTrue};
ghost use Rattle.std.specs.Option.{ForSome};
ghost use Rattle.vl_back.specs.Writing.{KeepsOthers};
ghost use Rattle.vl_disk.specs.Disk.{IsFree};
ghost use Rattle.vl_disk.specs.MadeFile.{WhileMaking, made};
ghost use Rattle.vl_disk.specs.Name.{IsNumbered};
ghost use Rattle.vl_disk.specs.Performs.{FailedAt, Performs, calls_on};
ghost use Rattle.vl_disk.specs.Spare.{IsReady, SameSpareElsewhere};
ghost use Rattle.vl_disk.specs.declared.name.Name.TheVariants as names;
ghost use Rattle.vl_model.specs.Formats.{log_format};
ghost use Rattle.vl_seglog.specs.Frames.{log_header};

use vl_disk::{Disk, Failed, Name, make_file};
use vl_seglog::log_header;

/// Makes a table of these bytes by three changing calls, and holds it for readers. If one fails, a
/// part of the file may stand.
pub fn make_table<D: Disk>(disk: &mut D, number: u32, bytes: &[u8]) -> Result<D::Held, Failed>
    requires numbered { IsNumbered (names.Table number) }
    requires free { ForSome (D.told disk.old) (IsFree (names.Table number)) }
    requires room { IsReady (length bytes.now) (D.spare disk.old (names.Table number)) }
    requires hold { IsTrue (D.spare disk.old (names.Table number)).hold }
    ensures makes { Performs D.Watched (made (names.Table number) bytes.now) (WhileMaking (names.Table number) bytes.now) 3
        disk.old disk.new result }
    ensures held { IfOk result (λ held. ForSome (D.told disk.old) (λ _. D.Held.bytes held ≡ Some bytes.now)) }
    ensures named { IfOk result (λ held. D.Held.named held ≡ names.Table number) }
    ensures untold { D.told disk.old ≡ None → D.told disk.new ≡ None }
    ensures spare { SameSpareElsewhere (names.Table number) (D.spare disk.old) (D.spare disk.new) }
{
    let name = Name::Table(number);
    make_file(disk, name, bytes)?;
    match disk.hold(name) {
        Ok(held) => Ok(held),
        Err(_) => Err(Failed),
    }
}

/// Makes the log with this number, without frames, by three changing calls. If one fails, a part of
/// the file may stand, and the answer has its name.
pub fn make_log<D: Disk>(disk: &mut D, number: u32) -> Result<(), Name>
    requires numbered { IsNumbered (names.Log number) }
    requires free { ForSome (D.told disk.old) (IsFree (names.Log number)) }
    requires room { IsReady 16 (D.spare disk.old (names.Log number)) }
    ensures makes { Performs D.Watched (made (names.Log number) (log_header log_format number))
        (WhileMaking (names.Log number) (log_header log_format number)) 3 disk.old disk.new result }
    ensures at { IfErr result (FailedAt (calls_on 3 (names.Log number)) (D.calls disk.old) (D.calls disk.new)) }
    ensures files { KeepsOthers (names.Log number) (D.told disk.old) (D.told disk.new) }
    ensures spare { SameSpareElsewhere (names.Log number) (D.spare disk.old) (D.spare disk.new) }

    // A disk that told nothing tells nothing then.
    ensures untold { D.told disk.old ≡ None → D.told disk.new ≡ None }
{
    let name = Name::Log(number);
    match make_file(disk, name, &log_header(number)) {
        Ok(()) => Ok(()),
        Err(Failed) => Err(name),
    }
}
