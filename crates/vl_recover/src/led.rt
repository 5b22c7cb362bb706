// The logs that tables lead into.
ghost use Rattle.std.specs.Prelude.{◌≡◌, ◌≤◌, ◌<◌, ◌++◌, drop, get_or, length, map, nat_lt, take, Contains, Some, IfErr, IfOk};
ghost use Rattle.std.specs.List.{AllZip, filter};
ghost use Rattle.std.specs.Option.{ForSome};
ghost use Rattle.vl_disk.specs.Calls.{ChangesNothing};
ghost use Rattle.vl_disk.specs.Crash.{Image};
ghost use Rattle.vl_disk.specs.Disk.{Lists};
ghost use Rattle.vl_disk.specs.DiskState.{DiskState};
ghost use Rattle.vl_disk.specs.Started.{IsRead};
ghost use Rattle.vl_disk.specs.declared.name.Name.TheVariants as kinds;
ghost use Rattle.vl_recover.specs.opening.Finding.{IsFault, IsFaultOf, IsReadLog};
ghost use Rattle.vl_recover.specs.opening.FoundTables.{found_level, found_list};
ghost use Rattle.vl_recover.specs.opening.HeldFiles as held_files;
ghost use Rattle.vl_recover.specs.opening.Leading.{BeginsIn};
ghost use Rattle.vl_recover.specs.opening.OpenedTables.{AnswersDone};
ghost use Rattle.vl_recover.specs.opening.Opening as opening;

use crate::OpenError;
use crate::names::has;
use crate::one_log::front_length;
use crate::read::{hold, read_part, size_of};
use std::alloc::{AllocError, Global};
use vl_disk::{Disk, HeldFile, Name};
use vl_model::Point;
use vl_seglog::{SealedLog, header_format};
use vl_table::Table;

/// The numbers of the logs that the footers of tables name, rising.
pub fn led_into<H: HeldFile>(
    alloc: Global,
    levels: &[Vec<Table<H>>],
) -> Result<Vec<u32>, AllocError>
    ensures { IfOk result (λ led. led.items ≡ opening.led_into (map found_level levels.now)) }
{
    let mut led = Vec::new(alloc);
    for tables in levels {
        led = with_level(led, tables)?;
    }
    Ok(led)
}

fn with_level<H: HeldFile>(led: Vec<u32>, tables: &[Table<H>]) -> Result<Vec<u32>, AllocError>
    ensures { IfOk result (λ more. more.items ≡ opening.led_by (found_list tables.now) led.items) }
{
    let mut more = led;
    for table in tables {
        more = with_points(more, &table.shape().footer.points)?;
    }
    Ok(more)
}

fn with_points(led: Vec<u32>, points: &[Point]) -> Result<Vec<u32>, AllocError>
    ensures { IfOk result (λ more. more.items ≡ opening.put_points points.now led.items) }
{
    let mut more = led;
    for point in points {
        more = with_number(more, point.segment)?;
    }
    Ok(more)
}

// Rising numbers with one more, where it isn't among them.
fn with_number(led: Vec<u32>, number: u32) -> Result<Vec<u32>, AllocError>
    ensures { IfOk result (λ more. more.items ≡ opening.put_number number led.items) }
{
    let place = place_of(&led, number);
    if place < led.len() && led[place] == number {
        return Ok(led);
    }
    let mut more = led;
    more.insert(place, number)?;
    Ok(more)
}

// How many of the rising numbers are below this one.
fn place_of(led: &[u32], number: u32) -> usize
    ensures within { result ≤ length led.now }
    ensures split { opening.put_number number led.now
        ≡ take result led.now ++ opening.put_number number (drop result led.now) }
    ensures stops { result < length led.now → number ≤ get_or led.now result 0 }
{
    for place in 0..led.len() {
        if number <= led[place] {
            return place;
        }
    }
    led.len()
}

/// Tests that each of these logs stands and begins with its header, and holds those below head.
pub fn hold_led<D: Disk>(
    alloc: Global,
    disk: &mut D,
    names: &[Name],
    led: &[u32],
    head: u32,
) -> Result<Vec<SealedLog<D::Held>>, OpenError>
    requires lists { ForSome (D.told disk.old) (Lists names.now) }
    ensures answer { (state : DiskState) (read : Image) → D.told disk.old ≡ Some state → IsRead read state
        → AnswersDone (opening.NamedLogs read led.now) result }
    ensures held { (state : DiskState) (read : Image) → D.told disk.old ≡ Some state → IsRead read state
        → IfOk result (λ logs. AllZip (held_files.IsReadLog D.Held.bytes read) logs.items (filter (λ n. nat_lt n head) led.now)) }
    ensures at { IfErr result (IsFaultOf (IsReadLog (D.told disk.old))) }
    ensures no_change { ChangesNothing D.Watched disk.old disk.new (IsFault result) }
{
    let mut logs = Vec::new(alloc);
    for number in led {
        let format = format_of_log(alloc, disk, names, *number)?;
        if *number >= head {
            continue;
        }
        let held = hold(disk, Name::Log(*number))?;
        let log = SealedLog {
            number: *number,
            format,
            held,
        };
        match logs.push(log) {
            Ok(()) => {}
            Err(_) => return Err(OpenError::NoMemory),
        }
    }
    Ok(logs)
}

// The format of a log, which has to stand and to begin with its header.
fn format_of_log<D: Disk>(
    alloc: Global,
    disk: &mut D,
    names: &[Name],
    number: u32,
) -> Result<u32, OpenError>
    requires lists { ForSome (D.told disk.old) (Lists names.now) }
    ensures answer { (state : DiskState) (read : Image) → D.told disk.old ≡ Some state → IsRead read state
        → AnswersDone (opening.NamedLog read number) result }
    ensures format { (state : DiskState) (read : Image) → D.told disk.old ≡ Some state → IsRead read state
        → IfOk result (BeginsIn read number) }
    ensures named { IfOk result (λ _. Contains names.now (kinds.Log number)) }
    ensures at { IfErr result (IsFaultOf (IsReadLog (D.told disk.old))) }
    ensures no_change { ChangesNothing D.Watched disk.old disk.new (IsFault result) }
{
    let name = Name::Log(number);
    if !has(names, name) {
        return Err(OpenError::Damaged { name, place: 0 });
    }
    let length = size_of(disk, name)?;
    let front = read_part(alloc, disk, name, 0, front_length(length))?;
    match header_format(&front, number) {
        Some(format) => Ok(format),
        None => Err(OpenError::Damaged { name, place: 0 }),
    }
}
