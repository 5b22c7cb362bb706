ghost use Rattle.std.specs.Prelude.{◌≡◌, ◌+◌, ◌++◌, ◌≤◌, ℕ, All, List, length, None, Some, IfErr, IfOk, vec_capacity, vec_len};
ghost use Rattle.std.specs.Option.{ForSome};
ghost use Rattle.vl_disk.specs.Calls.{ChangesNothing};
ghost use Rattle.vl_disk.specs.Crash.{Image};
ghost use Rattle.vl_disk.specs.DiskState.{DiskState};
ghost use Rattle.vl_disk.specs.Faults.{HasCause, HasCounted, NoneCounted, after_calls};
ghost use Rattle.vl_disk.specs.Moments.{HoldsThroughout};
ghost use Rattle.vl_disk.specs.Started.{IsRead};
ghost use Rattle.vl_disk.specs.declared.name.Name.{Name};
ghost use Rattle.vl_recover.specs.crash.Alike.{OpensAsOf};
ghost use Rattle.vl_recover.specs.opening.Answers.{AnswersBy, AreStrayNames, Finds, IsNotOpened, calls_to_open, logs_then};
ghost use Rattle.vl_recover.specs.repairing.Deciding.{opened_by};
ghost use Rattle.vl_recover.specs.repairing.Holding.{listed};
ghost use Rattle.vl_recover.specs.crash.Held.{HoldsStore, view_of};
ghost use Rattle.vl_recover.specs.crash.Meanwhile.{FaultsAt, IsAsLong, IsMeanwhile, IsRepaired};
ghost use Rattle.vl_recover.specs.opening.FoundTables.{all_found};
ghost use Rattle.vl_recover.specs.opening.HeldFiles.{AreHeldLogs, AreReadTables, AreWaiting, IsReadyToGoOn, tables_of};
ghost use Rattle.vl_recover.specs.opening.Intact.{IsIntact, LeavesIntact};
ghost use Rattle.vl_recover.specs.opening.Opening.{NamesNoTable};
ghost use Rattle.vl_recover.specs.opening.Results.{FailsWithoutFault, HasFailed, IsDiskFault, IsOneRun};
ghost use Rattle.vl_recover.specs.opening.Results.{recovery_of, disk_of, opened_of, read_faults};
ghost use Rattle.vl_recover.specs.crash.Starts.{MayOpen};
ghost use Rattle.vl_recover.specs.repairing.Steps.{MakesSome};

use crate::found::HeldFiles;
use crate::prepare::prepare;
use crate::prepared::Prepared;
use crate::repair::repair;
use crate::{OpenError, OpenFail, Parts};
use std::alloc::Global;
use vl_disk::{Disk, HeldFile};
use vl_manifest::{IoFail, ManifestLog};
use vl_seglog::{ActiveLog, SealedLog};

/// Opens the store on a disk, whose logs may have so many bytes. All is read first, then all memory is taken, and only then
/// the disk is changed: a new manifest is made, the last log is cut to its content and made durable, a new log is made
/// where that one has records, and the files that the new manifest doesn't need are removed.
pub fn recover<D: Disk>(
    alloc: Global,
    disk: D,
    room: u64,
) -> Result<Parts<D, D::Held>, OpenFail<D, D::Reader>>
    // It answers what reads give, unless memory runs out or the disk fails.
    ensures answer { (state : DiskState) (read : Image) → D.told disk ≡ Some state → IsRead read state
        → AnswersBy read (recovery_of result) }

    // A refusal, and want of memory, changed nothing, at no moment.
    ensures refused { FailsWithoutFault (recovery_of result) → ChangesNothing D.Watched disk (disk_of result) ⊥ }

    // Where what reads give is refused, nothing is changed, whatever is answered.
    ensures not_opened { (state : DiskState) (read : Image) → D.told disk ≡ Some state → IsRead read state → IsNotOpened read
        → (D.told (disk_of result) ≡ D.told disk) × (D.calls (disk_of result) ≡ D.calls disk) }

    // Then the store was repaired by a plan of what reads gave, and nothing else was done.
    ensures repaired { (state : DiskState) (read : Image) → D.told disk ≡ Some state → IsRead read state
        → IfOk result (λ parts. IsRepaired read state (D.told parts.disk)) }
    ensures manifest { IfOk result (λ parts. IsAsLong parts.state parts.manifest) }

    // So the disk holds the store, all of it durable, after just so many changing calls.
    ensures held { (state now : DiskState) (read : Image) (found : Finds read) → D.told disk ≡ Some state
        → MayOpen state → IsRead read state → D.told (disk_of result) ≡ Some now
        → IfOk result (λ parts. HoldsStore parts.state (view_of found) (logs_then found) now) }
    ensures calls { (state : DiskState) (read : Image) (found : Finds read) (strays : List Name)
        → D.told disk ≡ Some state → IsRead read state
        → AreStrayNames read found.opening strays
        → IfOk result (λ parts. D.calls parts.disk ≡ after_calls (calls_to_open found (length strays)) (D.calls disk)) }

    // Meanwhile the disk is as it was, or is being repaired by such a plan, whatever is answered.
    ensures meanwhile { (state : DiskState) (read : Image) → D.told disk ≡ Some state → IsRead read state
        → HoldsThroughout D.Watched disk (disk_of result) (IsMeanwhile read state) }

    // So whatever a crash leaves meanwhile opens as something that it could have left before.
    ensures through { (state : DiskState) → D.told disk ≡ Some state → MayOpen state
        → HoldsThroughout D.Watched disk (disk_of result) (OpensAsOf state) }

    // Where whatever a crash could leave before is intact, so is whatever one leaves meanwhile: a store opens from it, and every
    // live pointer resolves. And behind the opening it is intact where what reads gave is.
    ensures stays_intact { (state : DiskState) → D.told disk ≡ Some state → MayOpen state → LeavesIntact state
        → HoldsThroughout D.Watched disk (disk_of result) LeavesIntact }
    ensures intact { (state now : DiskState) (read : Image) → D.told disk ≡ Some state → MayOpen state → IsRead read state
        → IsIntact read → D.told (disk_of result) ≡ Some now → IfOk result (λ parts. LeavesIntact now) }

    // And a store may be opened on it again.
    ensures again { (state now : DiskState) → D.told disk ≡ Some state → MayOpen state
        → D.told (disk_of result) ≡ Some now → MayOpen now }
    ensures tells { (state : DiskState) → D.told disk ≡ Some state
        → (now : DiskState) × (D.told (disk_of result) ≡ Some now) }
    // One that told nothing still doesn't.
    ensures untold { D.told disk ≡ None → IfOk result (λ parts. D.told parts.disk ≡ None) }

    // A fault is counted, by the disk or by the reader that it made, and named by the file at which it came: while the store is
    // repaired, that of the call that failed.
    ensures at { (state : DiskState) (read : Image) → D.told disk ≡ Some state → IsRead read state
        → FaultsAt read state (D.calls disk) (D.calls (disk_of result)) (recovery_of result) }
    ensures cause { HasCause (D.faults disk) (D.faults (disk_of result))
        (IsDiskFault (read_faults D.Reader.faults result) (recovery_of result)) }
    // What that reader failed at is answered as a fault: not as want of memory, and not as damage.
    ensures read_fault { HasCounted (read_faults D.Reader.faults result) → HasFailed (recovery_of result) }
    // None is handed back only where none was made, for want of memory, and the disk is as it was.
    ensures no_reader { IfErr result (λ fail. fail.reader ≡ None → (fail.why ≡ OpenError.NoMemory) × (fail.disk ≡ disk)) }
    // One that never fails counted none.
    ensures steady { D.gives_steady disk → NoneCounted (read_faults D.Reader.faults result) }
    // Where it counted a fault nothing was changed either.
    ensures unmoved { HasCounted (read_faults D.Reader.faults result) → ChangesNothing D.Watched disk (disk_of result) ⊥ }
    // Where no table is named it isn't asked.
    ensures unread { (state : DiskState) (read : Image) → D.told disk ≡ Some state → IsRead read state → NamesNoTable read
        → NoneCounted (read_faults D.Reader.faults result) }
    ensures room { IfOk result (λ parts. parts.room ≡ room) }

    // What it holds for readers is what reads gave, but for what was cut off from the last log. There are seven levels.
    ensures tables { (state : DiskState) (read : Image) → D.told disk ≡ Some state → IsRead read state
        → IfOk result (λ parts. AreReadTables D.Held.bytes read (tables_of parts.levels.items)) }
    ensures logs { (state : DiskState) (read : Image) (found : Finds read) → D.told disk ≡ Some state → IsRead read state
        → IfOk result (λ parts. AreHeldLogs D.Held.bytes found parts.sealed.items) }
    ensures waiting { (state : DiskState) (read : Image) (found : Finds read) → D.told disk ≡ Some state → IsRead read state
        → IfOk result (λ parts. AreWaiting found.opening.state.covered parts.waiting.items found.opening.logs) }
    ensures seven { IfOk result (λ parts. length parts.levels.items ≡ 7) }
    // The memtable of each log is one run.
    ensures runs { IfOk result (λ parts. All IsOneRun parts.frozen.items) }

    // The disk is ready for steps on files: no number that may still be given is taken. The log that takes commits has only its
    // header.
    ensures ready { IfOk result (λ parts. ForSome (D.told parts.disk)
        (IsReadyToGoOn parts.active.number parts.manifest.number parts.state)) }
    ensures numbered { IfOk result (λ parts. 1 ≤ parts.state.next_table) }
    ensures active { IfOk result (λ parts. parts.active.length ≡ 16) }

    // Where it failed, it was asked for some of these calls, or for none.
    ensures stopped { (state : DiskState) (read : Image) (found : Finds read) (strays : List Name)
        → D.told disk ≡ Some state → IsRead read state
        → AreStrayNames read found.opening strays
        → IfErr result (λ fail. MakesSome (calls_to_open found (length strays)) (D.calls disk) (D.calls fail.disk)) }
{
    let mut disk = disk;
    let Ok(mut reader) = disk.reader(alloc) else {
        return Err(OpenFail {
            why: OpenError::NoMemory,
            disk,
            reader: None,
        });
    };
    let (prepared, held) = match prepare(alloc, &mut disk, &mut reader) {
        Ok(ready) => ready,
        Err(why) => {
            return Err(OpenFail {
                why,
                disk,
                reader: Some(reader),
            });
        }
    };
    match repair(alloc, &mut disk, &prepared.plan) {
        Ok((manifest, last)) => Ok(opened(disk, room, manifest, prepared, held, last)),
        Err(IoFail::NoMemory) => Err(OpenFail {
            why: OpenError::NoMemory,
            disk,
            reader: Some(reader),
        }),
        Err(IoFail::Disk { name }) => Err(OpenFail {
            why: OpenError::Disk { name },
            disk,
            reader: Some(reader),
        }),
    }
}

// The store as it is opened, behind its repairing.
fn opened<D, H: HeldFile>(
    disk: D,
    room: u64,
    manifest: ManifestLog,
    prepared: Prepared,
    held: HeldFiles<H>,
    last: Option<SealedLog<H>>,
) -> Parts<D, H>
    requires manifest { manifest.number ≡ prepared.plan.manifest }
    requires place { vec_len held.sealed + 1 ≤ vec_capacity held.sealed }
    ensures disk { result.disk ≡ disk }
    ensures opened { opened_of result ≡ opened_by prepared (all_found held.levels) }
    ensures state { result.state ≡ prepared.state }
    ensures manifest { result.manifest ≡ manifest }
    ensures room { result.room ≡ room }
    ensures active { result.active ≡ record { number = prepared.active; length = 16 } }
    ensures levels { result.levels ≡ held.levels }
    ensures frozen { result.frozen ≡ prepared.frozen }
    ensures waiting { result.waiting ≡ prepared.waiting }
    ensures sealed { result.sealed.items ≡ held.sealed.items ++ listed last }
{
    let Prepared {
        number,
        state,
        frozen,
        waiting,
        active,
        ..
    } = prepared;
    let HeldFiles { levels, sealed } = held;
    Parts {
        disk,
        room,
        number,
        state,
        manifest,
        levels,
        frozen,
        waiting,
        sealed: with_last(sealed, last),
        active: ActiveLog::new(active),
    }
}

// The sealed logs, and behind them the last one, where it has frames.
fn with_last<H>(sealed: Vec<SealedLog<H>>, last: Option<SealedLog<H>>) -> Vec<SealedLog<H>>
    requires { vec_len sealed + 1 ≤ vec_capacity sealed }
    ensures { result.items ≡ sealed.items ++ listed last }
{
    let mut sealed = sealed;
    match last {
        None => {}
        Some(log) => sealed.push_reserved(log),
    }
    sealed
}
