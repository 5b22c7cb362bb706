// The logs of a store, from head on.
ghost use Rattle.std.specs.Prelude.{◌≡◌, ◌++◌, ◌∷◌, ℕ, [], false, List, map, All, Ok, Some, Contains, IfErr, IfOk, IfSome};
ghost use Rattle.std.specs.Option.{ForSome};
ghost use Rattle.vl_disk.specs.Calls.{ChangesNothing};
ghost use Rattle.vl_disk.specs.Crash.{Image};
ghost use Rattle.vl_disk.specs.Disk.{Lists, Stands};
ghost use Rattle.vl_disk.specs.DiskState.{DiskState};
ghost use Rattle.vl_disk.specs.Name.{IsNumbered};
ghost use Rattle.vl_disk.specs.Started.{IsRead};
ghost use Rattle.vl_disk.specs.declared.name.Name.TheVariants as kinds;
ghost use Rattle.vl_model.specs.declared.log_frame.LogFrame.{LogFrame};
ghost use Rattle.vl_recover.specs.opening.Counting.{walked_log};
ghost use Rattle.vl_recover.specs.opening.Finding.{IsExcused, IsFault, IsFaultOf, IsReadLog};
ghost use Rattle.vl_recover.specs.opening.HeldFiles.{AreWaiting};
ghost use Rattle.vl_recover.specs.opening.LogsSoFar.{AreHeldSoFar, AreLogsFound, FindsOneMore, HasOneMore, IsHeldWhere, held_list};
ghost use Rattle.vl_recover.specs.opening.LogsSoFar.{number_before, waits_with, walk_of};
ghost use Rattle.vl_recover.specs.opening.Named.{AreRising, IsGreatestIn};
ghost use Rattle.vl_recover.specs.opening.Opening.{StandingLogs};
ghost use Rattle.vl_recover.specs.opening.ReadLogs.{IsReadAs, held_content, standing_log};
ghost use Rattle.vl_recover.specs.opening.Results.{IsOneRun, frozen_log};
ghost use Rattle.vl_recover.specs.opening.Walk as walk;
ghost use Rattle.vl_recover.specs.opening.Walk.{StandingLog};
ghost use Rattle.vl_seglog.specs.LogReading.{LogReading};

use crate::OpenError;
use crate::count::count_end;
use crate::found::{Content, DamagePlace, LastLog, LogFound, LogsFound};
use crate::memtables::memtable_of;
use crate::names::log_from;
use crate::one_log::read_log;
use crate::read::hold;
use std::alloc::{AllocError, Global};
use vl_disk::{Disk, HeldFile, Name};
use vl_manifest::Waiting;
use vl_memtable::FrozenLog;
use vl_model::LOG_FORMAT;
use vl_seglog::SealedLog;

/// Reads the logs from head on, each once, also behind a damage, and holds each that another follows, behind the lower ones. The
/// names are in order, and the greatest log has this number. The commits before the logs have numbers up to `covered`.
pub fn read_logs<D: Disk>(
    alloc: Global,
    disk: &mut D,
    names: &[Name],
    greatest: u32,
    head: u32,
    covered: u64,
    lower: Vec<SealedLog<D::Held>>,
) -> Result<LogsFound<D::Held>, OpenError>
    requires lists { ForSome (D.told disk.old) (Lists names.now) }
    requires numbered { All IsNumbered names.now }
    requires rising { AreRising names.now }
    requires greatest { IsGreatestIn names.now kinds.Log greatest }
    ensures reads { (state : DiskState) (read : Image) → D.told disk.old ≡ Some state → IsRead read state
        → IfOk result (AreLogsFound read head covered) }
    ensures waiting { (state : DiskState) (read : Image) (logs : List StandingLog) (number : ℕ) → D.told disk.old ≡ Some state
        → IsRead read state → StandingLogs read head logs → walk.walked covered logs ≡ Ok number
        → IfOk result (λ found. AreWaiting covered found.waiting.items (walk.filled logs)) }
    ensures held { (state : DiskState) (read : Image) (logs : List StandingLog) → D.told disk.old ≡ Some state
        → IsRead read state → StandingLogs read head logs
        → IfOk result (λ found. AreHeldSoFar D.Held.bytes read lower.items false logs found.sealed.items) }
    ensures last { IfOk result (λ logs. IfSome logs.last (λ q. Contains names.now (kinds.Log q.number))) }
    ensures runs { IfOk result (λ found. All IsOneRun found.frozen.items) }
    ensures excused { IfErr result IsExcused }
    ensures at { IfErr result (IsFaultOf (IsReadLog (D.told disk.old))) }
    ensures no_change { ChangesNothing D.Watched disk.old disk.new (IsFault result) }
{
    let mut so_far = LogsFound {
        number: Ok(covered),
        frozen: Vec::new(alloc),
        waiting: Vec::new(alloc),
        sealed: lower,
        last: None,
    };
    let mut least = head;
    for name in names {
        let Some(number) = log_from(*name, least) else {
            continue;
        };
        least = number + 1;
        so_far = with_next(alloc, disk, so_far, number, number < greatest)?;
    }
    Ok(so_far)
}

// With the log of this number more, which another follows or not.
fn with_next<D: Disk>(
    alloc: Global,
    disk: &mut D,
    so_far: LogsFound<D::Held>,
    number: u32,
    followed: bool,
) -> Result<LogsFound<D::Held>, OpenError>
    requires { ForSome (D.told disk.old) (Stands (kinds.Log number)) }
    ensures reads { (state : DiskState) (read : Image) → D.told disk.old ≡ Some state → IsRead read state
        → IfOk result (FindsOneMore D.Held.bytes read number followed so_far) }
    ensures last { IfOk result (λ logs. IfSome logs.last (λ q. q.number ≡ number)) }
    ensures runs { IfOk result (λ logs. All IsOneRun so_far.frozen.items → All IsOneRun logs.frozen.items) }
    ensures excused { IfErr result IsExcused }
    ensures at { IfErr result (IsFaultOf (λ at. at ≡ kinds.Log number)) }
    ensures no_change { ChangesNothing D.Watched disk.old disk.new (IsFault result) }
{
    let log = read_log(alloc, disk, number, last_before(so_far.number))?;
    let held = hold_log(disk, number, log.format, followed)?;
    Ok(with_log(alloc, so_far, log, followed, held)?)
}

// The log of this number and format as it stands, where another follows it.
fn hold_log<D: Disk>(
    disk: &mut D,
    number: u32,
    format: Option<u32>,
    followed: bool,
) -> Result<Option<SealedLog<D::Held>>, OpenError>
    requires { ForSome (D.told disk.old) (Stands (kinds.Log number)) }
    ensures held { (state : DiskState) (read : Image) → D.told disk.old ≡ Some state → IsRead read state
        → IfOk result (IsHeldWhere D.Held.bytes read number format followed) }
    ensures excused { IfErr result IsExcused }
    ensures at { IfErr result (IsFaultOf (λ at. at ≡ kinds.Log number)) }
    ensures no_change { ChangesNothing D.Watched disk.old disk.new (IsFault result) }
{
    if !followed {
        return Ok(None);
    }
    let held = hold(disk, Name::Log(number))?;
    Ok(Some(SealedLog {
        number,
        format: format_of(format),
        held,
    }))
}

// The format of a log; without the right header that which is written.
fn format_of(format: Option<u32>) -> u32
    ensures { result ≡ walk.format_of format }
{
    match format {
        Some(format) => format,
        None => LOG_FORMAT,
    }
}

// The number of the last commit so far. Behind a damage it doesn't matter any more.
fn last_before(number: Result<u64, DamagePlace>) -> u64
    ensures { result ≡ number_before number }
{
    match number {
        Ok(before) => before,
        Err(_) => 0,
    }
}

// With a log more, which is held or not.
fn with_log<H: HeldFile>(
    alloc: Global,
    so_far: LogsFound<H>,
    log: LogFound,
    followed: bool,
    held: Option<SealedLog<H>>,
) -> Result<LogsFound<H>, AllocError>
    ensures one_more { (reading : LogReading) → IsReadAs (number_before so_far.number) reading log
        → IfOk result (HasOneMore (standing_log log reading) followed so_far) }
    ensures sealed { IfOk result (λ logs. logs.sealed.items ≡ so_far.sealed.items ++ held_list held) }
    ensures number { IfOk result (λ logs. IfSome logs.last (λ q. q.number ≡ log.number)) }
    ensures runs { IfOk result (λ logs. All IsOneRun so_far.frozen.items → All IsOneRun logs.frozen.items) }
{
    let number = number_with(so_far.number, &log, followed);
    let last = LastLog {
        number: log.number,
        length: log.length,
        format: format_of(log.format),
        header: keeps_header(log.format, log.content.has_frames),
        end: log.content.end,
        has_frames: log.content.has_frames,
    };
    let sealed = with_sealed(so_far.sealed, held)?;
    let waiting = with_waiting(
        so_far.waiting,
        log.number,
        last_before(number),
        log.content.has_frames,
    )?;
    let frozen = if log.content.has_frames {
        with_frozen(alloc, so_far.frozen, log.number, log.content)?
    } else {
        so_far.frozen
    };
    Ok(LogsFound {
        number,
        frozen,
        waiting,
        sealed,
        last: Some(last),
    })
}

// With this log more, if it is held.
fn with_sealed<H: HeldFile>(
    sealed: Vec<SealedLog<H>>,
    held: Option<SealedLog<H>>,
) -> Result<Vec<SealedLog<H>>, AllocError>
    ensures { IfOk result (λ with. with.items ≡ sealed.items ++ held_list held) }
{
    let mut with = sealed;
    if let Some(log) = held {
        with.push(log)?;
    }
    Ok(with)
}

// With a log more that waits for its flush, if it has frames. Commits up to `covered` are in it and before it.
fn with_waiting(
    waiting: Vec<Waiting>,
    number: u32,
    covered: u64,
    has_frames: bool,
) -> Result<Vec<Waiting>, AllocError>
    ensures { (frames : List LogFrame) → has_frames ≡ walk.has_some frames
        → IfOk result (λ with. with.items ≡ waiting.items ++ waits_with number covered frames) }
{
    let mut with = waiting;
    if has_frames {
        with.push(Waiting { number, covered })?;
    }
    Ok(with)
}

// The number of the last commit, or the first damage, with a log more.
fn number_with(
    so_far: Result<u64, DamagePlace>,
    log: &LogFound,
    followed: bool,
) -> Result<u64, DamagePlace>
    ensures { (reading : LogReading) → IsReadAs (number_before so_far) reading log.now
        → walk_of result ≡ walked_log followed (walk_of so_far) (standing_log log.now reading) }
{
    so_far?;
    let whole = log.format.is_some() && log.content.end == log.length;
    match count_end(log.content.count, log.content.end, whole, followed) {
        Ok(last) => Ok(last),
        Err(place) => Err(DamagePlace {
            log: log.number,
            place,
        }),
    }
}

// Whether a last log keeps its header.
fn keeps_header(format: Option<u32>, has_frames: bool) -> bool
    ensures { (frames : List LogFrame) → has_frames ≡ walk.has_some frames → result ≡ walk.keeps_header format frames }
{
    match format {
        Some(format) => format == LOG_FORMAT || has_frames,
        None => false,
    }
}

// The logs with frames, with one more.
fn with_frozen(
    alloc: Global,
    frozen: Vec<FrozenLog>,
    number: u32,
    content: Content,
) -> Result<Vec<FrozenLog>, AllocError>
    ensures logs { IfOk result (λ with. map frozen_log with.items ≡
        map frozen_log frozen.items ++ held_content number content ∷ []) }
    ensures runs { IfOk result (λ with. All IsOneRun frozen.items → All IsOneRun with.items) }
{
    let mut with = frozen;
    let memtable = memtable_of(alloc, content.entries)?;
    with.push(FrozenLog {
        number,
        length: content.end,
        memtable: memtable.freeze(),
    })?;
    Ok(with)
}
