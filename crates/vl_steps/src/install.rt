//! What an install wants of memory, and how it takes the files of a merge's tables back.

ghost use Rattle.std.specs.Prelude.{◌≡◌, ◌++◌, ◌+◌, ◌-◌, ◌^◌, ◌∷◌, [], ℕ, length, map, min, IfErr, IfOk, IsErr, OnOk};
ghost use Rattle.std.specs.List.{filter};
ghost use Rattle.std.specs.Option.{ForSome, option_copied};
ghost use Rattle.vl_compact.specs.Replacing.{HasRoom};
ghost use Rattle.vl_disk.specs.Calls.{ChangesNothing};
ghost use Rattle.vl_disk.specs.Disk.{Stands};
ghost use Rattle.vl_disk.specs.Faults.{HasCause};
ghost use Rattle.vl_disk.specs.Spare.{CanAppend, SameSpareElsewhere};
ghost use Rattle.vl_disk.specs.declared.name.Name.TheVariants as names;
ghost use Rattle.vl_steps.specs.Installing.{InstallsAll, IsReadyFor, StopsInstalling, first_made};
ghost use Rattle.vl_steps.specs.Taking.{MayTake, MayTakeAll, StopsTaking, Takes, TakesBack};
ghost use Rattle.vl_manifest.specs.Switching.{IsStagedFor};
ghost use Rattle.vl_table.specs.Tables.{number_of};
ghost use Rattle.vl_version.specs.Bases.{is_input};
ghost use Rattle.vl_version.specs.levels.LevelsLooked.{tables_of};

use std::alloc::{AllocError, Global};
use vl_back::{StageFail, StagedInstall};
use vl_compact::{Job, ReadyLevels, Synced, numbers_of, ready_levels};
use vl_disk::{Disk, HeldFile, Name, Writer};
use vl_engine_laws::Core;
use vl_manifest::{ManifestLog, StagedEdits};
use vl_table::Table;
use vl_version::{Base, Levels, ReplacedVersion, is_input};

/// What an install is made of, before anything of it is written.
#[derive(Drop)]
pub struct ReadyInstall<H: HeldFile> {
    pub staged: StagedInstall,
    /// The version behind it, but for its levels.
    pub version: ReplacedVersion<H>,
    /// Its levels, but for the merge's tables.
    pub levels: ReadyLevels<H>,
}

/// Takes all the memory that an install wants. The disk is as before, but for room that was made for the manifest's frame.
pub fn ready_install<D: Disk>(
    alloc: Global,
    disk: &mut D,
    core: &Core<D::Held>,
    job: &Job<Base<D::Held, D::Reader>, D::Held, D::Writer>,
) -> Result<ReadyInstall<D::Held>, StageFail>
    ensures ready { IfOk result (IsReadyFor D.Held.bytes D.Writer.Writer core.now job.now) }

    // Writing it will want no memory, and the room of other names stays, also where it was refused.
    ensures append { IfOk result (λ ready. CanAppend (length ready.staged.edits.frame.items)
        (D.spare disk.new (names.Manifest core.now.back.manifest.number))) }
    ensures elsewhere { SameSpareElsewhere (names.Manifest core.now.back.manifest.number) (D.spare disk.old) (D.spare disk.new) }
    ensures no_change { ChangesNothing D.Watched disk.old disk.new ⊥ }
{
    let inputs = numbers_of(alloc, &job.inputs().tables)?;
    let made = made_numbers(alloc, job.made())?;
    let levels = ready_levels(
        alloc,
        core.version.levels(),
        &job.inputs().target,
        &inputs,
        first_key(job.made()),
        made.len(),
    )?;
    let version = core.version.replaced(alloc)?;
    let staged = core.back.stage_install(
        alloc,
        disk,
        &inputs,
        levels.level,
        levels.position,
        &made,
        job.gone(),
    )?;
    Ok(ReadyInstall {
        staged,
        version,
        levels,
    })
}

/// Of all tables the numbers of those that are among these inputs, in their order.
pub fn input_numbers<H: HeldFile>(
    alloc: Global,
    levels: &Levels<H>,
    inputs: &[u32],
) -> Result<Vec<u32>, AllocError>
    ensures { IfOk result (λ numbers. numbers.items ≡ map number_of (filter (is_input inputs.now) (tables_of levels.now))) }
{
    let mut numbers = Vec::new(alloc);
    put_inputs(&mut numbers, levels.newest(), inputs)?;
    for level in levels.deeper() {
        put_inputs(&mut numbers, level.as_slice(), inputs)?;
    }
    Ok(numbers)
}

// Puts the numbers of those of these tables behind others.
fn put_inputs<H: HeldFile>(
    numbers: &mut Vec<u32>,
    tables: &[Table<H>],
    inputs: &[u32],
) -> Result<(), AllocError>
    ensures { OnOk result (numbers.new.items ≡ numbers.old.items ++ map number_of (filter (is_input inputs.now) tables.now)) }
{
    for table in tables {
        if is_input(inputs, table) {
            numbers.push(table.shape().number)?;
        }
    }
    Ok(())
}

/// The numbers of tables that were made.
pub fn made_numbers<W: Writer>(alloc: Global, made: &[Synced<W>]) -> Result<Vec<u32>, AllocError>
    ensures { IfOk result (λ numbers. numbers.items ≡ map (λ t. t.number) made.now) }
{
    let mut numbers = Vec::new(alloc);
    for table in made {
        numbers.push(table.number)?;
    }
    Ok(numbers)
}

// The key with which they begin.
fn first_key<W: Writer>(made: &[Synced<W>]) -> Option<&[u8]>
    ensures { option_copied result ≡ first_made made.now }
{
    match made.first() {
        Some(table) => Some(table.shape.footer.first.as_slice()),
        None => None,
    }
}

/// Takes the files of a merge's tables back and holds them, and then has the manifest say what was staged, by two changing
/// calls. If it fails, the answer has the name of the file at which it did, and the manifest is not to be appended to any more.
pub fn write_install<D: Disk>(
    disk: &mut D,
    manifest: &mut ManifestLog,
    made: Vec<Synced<D::Writer>>,
    levels: &mut ReadyLevels<D::Held>,
    edits: &StagedEdits,
) -> Result<(), Name>
    requires may { MayTakeAll D.Watched D.Writer.Writer disk.old made.items }
    requires room { HasRoom (length made.items) levels.old }
    requires staged_for { IsStagedFor manifest.old edits.now }
    requires stands { ForSome (D.told disk.old) (Stands (names.Manifest manifest.old.number)) }
    requires append { CanAppend (length edits.now.frame.items) (D.spare disk.old (names.Manifest manifest.old.number)) }
    ensures writes { OnOk result (InstallsAll D.Watched D.Held.bytes D.Writer.Writer made.items manifest.old.number
        edits.now.frame.items disk.old disk.new levels.old levels.new) }
    ensures stops { IfErr result (StopsInstalling D.Watched D.Held.bytes D.Writer.Writer made.items manifest.old.number
        edits.now.frame.items disk.old disk.new levels.old levels.new) }
    ensures cause { HasCause (D.faults disk.old) (D.faults disk.new) (IsErr result) }
    ensures number { manifest.new.number ≡ manifest.old.number }
    ensures longer { OnOk result
        (manifest.new.length ≡ min (manifest.old.length + length edits.now.frame.items) (2 ^ 64 - 1)) }
{
    let name = Name::Manifest(manifest.number);
    take_back(disk, made, levels)?;
    match manifest.switch(disk, edits) {
        Ok(()) => Ok(()),
        Err(_) => Err(name),
    }
}

/// Takes the files of tables back, holds each for readers, and puts the tables, in their order. It wants no memory. If one
/// can't be held, the answer has its name.
pub fn take_back<D: Disk>(
    disk: &mut D,
    made: Vec<Synced<D::Writer>>,
    levels: &mut ReadyLevels<D::Held>,
) -> Result<(), Name>
    requires may { MayTakeAll D.Watched D.Writer.Writer disk.old made.items }
    requires room { HasRoom (length made.items) levels.old }
    ensures takes { OnOk result (TakesBack D.Watched D.Held.bytes D.Writer.Writer made.items [] disk.old disk.new levels.old levels.new) }
    ensures stops { IfErr result (StopsTaking D.Watched D.Writer.Writer made.items disk.old disk.new) }
    ensures cause { HasCause (D.faults disk.old) (D.faults disk.new) (IsErr result) }
{
    let mut left = made;
    while !left.is_empty() {
        let table = left.remove(0);
        put_back(disk, table, levels)?;
    }
    Ok(())
}

// Does so with one.
fn put_back<D: Disk>(
    disk: &mut D,
    table: Synced<D::Writer>,
    levels: &mut ReadyLevels<D::Held>,
) -> Result<(), Name>
    requires may { MayTake D.Watched D.Writer.Writer disk.old table }
    requires room { HasRoom 1 levels.old }
    ensures takes { Takes D.Watched D.Writer.Writer (table ∷ []) disk.old disk.new }
    ensures elsewhere { SameSpareElsewhere (names.Table table.number) (D.spare disk.old) (D.spare disk.new) }
    ensures put { OnOk result (TakesBack D.Watched D.Held.bytes D.Writer.Writer (table ∷ []) [] disk.old disk.new levels.old levels.new) }
    ensures room_left { (n : ℕ) → HasRoom (n + 1) levels.old → OnOk result (HasRoom n levels.new) }
    ensures at { IfErr result (λ name. name ≡ names.Table table.number) }
    ensures cause { HasCause (D.faults disk.old) (D.faults disk.new) (IsErr result) }
{
    let Synced {
        number,
        writer,
        shape,
    } = table;
    let name = Name::Table(number);
    disk.adopt(writer);
    match disk.hold(name) {
        Ok(held) => {
            levels.put(Table::of(held, shape));
            Ok(())
        }
        Err(_) => Err(name),
    }
}
