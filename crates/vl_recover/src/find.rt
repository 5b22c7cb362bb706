ghost use Rattle.std.specs.Prelude.{◌≡◌, ◌≤◌, ◌+◌, List, All, Contains, Some, IfErr, IfOk, IfSome, length, vec_capacity, vec_len};
ghost use Rattle.vl_disk.specs.Calls.{ChangesNothing};
ghost use Rattle.vl_disk.specs.Crash.{Image};
ghost use Rattle.vl_disk.specs.Disk.{Lists};
ghost use Rattle.vl_disk.specs.Faults.{HasCounted, NoneCounted, never};
ghost use Rattle.vl_disk.specs.DiskState.{DiskState};
ghost use Rattle.vl_disk.specs.Name.{IsNumbered};
ghost use Rattle.vl_disk.specs.Started.{IsRead};
ghost use Rattle.vl_disk.specs.declared.name.Name.TheVariants as kinds;
ghost use Rattle.vl_recover.specs.opening.Answers.{Finds};
ghost use Rattle.vl_recover.specs.opening.Finding.{AreFileNumbers, FailsAtDisk, FindsSo, IsAllFound, IsFault, IsFaultAt};
ghost use Rattle.vl_recover.specs.opening.Finding.{IsUpTo, Leads, greatest_of};
ghost use Rattle.vl_recover.specs.opening.HeldFiles.{AreHeldFound, AreReadTables, AreWaiting, tables_of};
ghost use Rattle.vl_recover.specs.opening.LogsSoFar.{AreLogsFound};
ghost use Rattle.vl_recover.specs.opening.Named.{AreGreatestIn};
ghost use Rattle.vl_recover.specs.opening.Opening.{FoundTable, NamesNoTable};
ghost use Rattle.vl_recover.specs.opening.Results.{IsOneRun};

use crate::OpenError;
use crate::current::current_state;
use crate::found::{Findings, GreatestNumbers, HeldFiles, LogsFound};
use crate::led::{hold_led, led_into};
use crate::logs::read_logs;
use crate::names::{greatest_numbers, strays};
use crate::read::list_names;
use crate::tables::open_tables;
use std::alloc::Global;
use vl_disk::{Disk, HeldFile, Name};
use vl_manifest::ManifestState;
use vl_seglog::SealedLog;

/// Finds out what stands on a disk: reads its current manifest, opens the tables that this names, tests and holds the logs that
/// they lead into, reads the logs from head on, and holds these but for the last. It changes nothing.
pub(crate) fn find<D: Disk>(
    alloc: Global,
    disk: &mut D,
    reader: &mut D::Reader,
) -> Result<(Findings, HeldFiles<D::Held>), OpenError>
    requires fresh { NoneCounted (D.Reader.faults reader.old) }
    ensures answer { (state : DiskState) (read : Image) → D.told disk.old ≡ Some state → IsRead read state
        → FindsSo read result }
    ensures tables { (state : DiskState) (read : Image) → D.told disk.old ≡ Some state → IsRead read state
        → IfOk result (λ found. AreReadTables D.Held.bytes read (tables_of found.1.levels.items)) }
    ensures seven { IfOk result (λ found. length found.1.levels.items ≡ 7) }
    ensures logs { (state : DiskState) (read : Image) (finds : Finds read) → D.told disk.old ≡ Some state → IsRead read state
        → IfOk result (λ found. AreHeldFound D.Held.bytes finds found.1.sealed.items) }
    ensures place { IfOk result (λ found. vec_len found.1.sealed + 1 ≤ vec_capacity found.1.sealed) }
    ensures waiting { (state : DiskState) (read : Image) (finds : Finds read) → D.told disk.old ≡ Some state → IsRead read state
        → IfOk result (λ found. AreWaiting finds.opening.state.covered found.0.waiting.items finds.opening.logs) }
    ensures runs { IfOk result (λ found. All IsOneRun found.0.frozen.items) }
    ensures numbers { IfOk result (λ found. AreFileNumbers found.0.greatest) }
    ensures last { IfOk result (λ found. IsUpTo found.0.greatest.log found.0.last) }
    ensures at { IfErr result (IsFaultAt (D.told disk.old)) }
    ensures fresh { IfOk result (λ _. NoneCounted (D.Reader.faults reader.new)) }
    // What the reader failed at is answered as a fault.
    ensures read_fault { HasCounted (D.Reader.faults reader.new) → IsFault result }
    // One that never fails never did.
    ensures steady { D.Reader.faults reader.old ≡ never → D.Reader.faults reader.new ≡ never }
    // Where no table is named the reader isn't asked.
    ensures unread { (state : DiskState) (read : Image) → D.told disk.old ≡ Some state → IsRead read state → NamesNoTable read
        → NoneCounted (D.Reader.faults reader.new) }
    ensures no_change { ChangesNothing D.Watched disk.old disk.new (FailsAtDisk (D.Reader.faults reader.new) result) }
{
    let names = list_names(alloc, disk)?;
    let greatest = greatest_numbers(&names);
    let state = current_state(alloc, disk, &names, greatest)?;
    let levels = open_tables(alloc, disk, reader, &names, &state.levels)?;
    let led = led_into(alloc, &levels)?;
    let lower = hold_led(alloc, disk, &names, &led, state.head)?;
    let logs = read_logs(
        alloc,
        disk,
        &names,
        greatest.log,
        state.head,
        state.covered,
        lower,
    )?;
    let (findings, held) = found(names, greatest, state, led, logs)?;
    let mut sealed = held;
    sealed.reserve(1)?;
    Ok((findings, HeldFiles { levels, sealed }))
}

// All of it, by the names that stand, what the current manifest says, the logs that its tables lead into, and what the logs from
// head on come to; and the logs that are held.
fn found<H: HeldFile>(
    names: Vec<Name>,
    greatest: GreatestNumbers,
    state: ManifestState,
    led: Vec<u32>,
    logs: LogsFound<H>,
) -> Result<(Findings, Vec<SealedLog<H>>), OpenError>
    requires greatest { AreGreatestIn names.items (greatest_of greatest) }
    requires numbered { All IsNumbered names.items }
    requires last { IfSome logs.last (λ q. Contains names.items (kinds.Log q.number)) }
    ensures answer { (disk : DiskState) (read : Image) (levels : List (List FoundTable)) → IsRead read disk
        → Lists names.items disk → Leads read state levels led.items
        → AreLogsFound read state.head state.covered logs → IsAllFound read levels result }
    ensures state { IfOk result (λ found. found.0.state ≡ state) }
    ensures frozen { IfOk result (λ found. found.0.frozen ≡ logs.frozen) }
    ensures waiting { IfOk result (λ found. found.0.waiting ≡ logs.waiting) }
    ensures sealed { IfOk result (λ found. found.1 ≡ logs.sealed) }
    ensures numbers { IfOk result (λ found. AreFileNumbers found.0.greatest) }
    ensures last { IfOk result (λ found. IsUpTo found.0.greatest.log found.0.last) }
    ensures no_fault { IsFault result → ⊥ }
{
    match logs.number {
        Ok(number) => {
            let findings = Findings {
                number,
                frozen: logs.frozen,
                waiting: logs.waiting,
                greatest,
                last: logs.last,
                strays: strays(names, &state, &led),
                state,
            };
            Ok((findings, logs.sealed))
        }
        Err(damage) => Err(OpenError::Damaged {
            name: Name::Log(damage.log),
            place: damage.place,
        }),
    }
}
