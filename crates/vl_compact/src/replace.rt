//! The levels behind an install: the tables that a merge made stand in the place of its inputs.

ghost use Rattle.std.specs.Prelude.{◌≡◌, ◌==◌, ◌++◌, ◌∷◌, [], ℕ, List, Option, Some, map, IfOk, OnOk};
ghost use Rattle.std.specs.List.{AllZip, list_any};
ghost use Rattle.std.specs.Option.{option_copied};
ghost use Rattle.vl_compact.specs.Laid.{AreLevelsOf, AreTablesOf, IsTableOf};
ghost use Rattle.vl_compact.specs.Places as places;
ghost use Rattle.vl_compact.specs.Places.{HasPlace, IsPlace};
ghost use Rattle.vl_compact.specs.Replacing.{AreReady, HasRoom};
ghost use Rattle.vl_engine_model.specs.Levels.{is_among, without};
ghost use Rattle.vl_engine_model.specs.declared.job.Target.TheVariants as target_is;
ghost use Rattle.vl_engine_model.specs.declared.job.Target.{Target};
ghost use Rattle.vl_engine_model.specs.declared.table.Table as laid;

use crate::choice::level_at;
use crate::inputs::add;
use crate::ready::ReadyLevels;
use std::alloc::{AllocError, Global};
use vl_disk::HeldFile;
use vl_engine_model::Target;
use vl_model::key_order;
use vl_table::Table;
use vl_version::{Level, Levels};

/// These levels without the inputs, which have these numbers, shared, and with room for so many tables in their place. `first`
/// is the key with which the outputs begin. Want of memory is the answer too where the place is more than can be counted.
pub fn ready_levels<H: HeldFile>(
    alloc: Global,
    levels: &Levels<H>,
    target: &Target,
    inputs: &[u32],
    first: Option<&[u8]>,
    count: usize,
) -> Result<ReadyLevels<H>, AllocError>
    ensures ready { IfOk result (λ ready. (ls : List (List laid.Table)) → AreLevelsOf H.bytes levels.now ls
        → HasPlace target.now inputs.now ls
        → AreReady H.bytes target.now inputs.now (option_copied first.entry) ls [] ready) }
    ensures room { IfOk result (HasRoom count) }
{
    match target {
        Target::Level(level) => into_level(alloc, levels, *level, inputs, first, count),
        Target::InPlace => in_place(alloc, levels, inputs, count),
    }
}

// In key order among the tables of a level.
fn into_level<H: HeldFile>(
    alloc: Global,
    levels: &Levels<H>,
    level: u8,
    inputs: &[u32],
    first: Option<&[u8]>,
    count: usize,
) -> Result<ReadyLevels<H>, AllocError>
    ensures ready { IfOk result (λ ready. (ls : List (List laid.Table)) → AreLevelsOf H.bytes levels.now ls
        → HasPlace (target_is.Level level) inputs.now ls
        → AreReady H.bytes (target_is.Level level) inputs.now (option_copied first.entry) ls [] ready) }
    ensures room { IfOk result (HasRoom count) }
{
    let tables = others(alloc, level_at(levels, level as usize), inputs)?;
    let position = place_before(&tables, first);
    ready_at(alloc, levels, inputs, level as usize, position, count)
}

// Where the one input stands.
fn in_place<H: HeldFile>(
    alloc: Global,
    levels: &Levels<H>,
    inputs: &[u32],
    count: usize,
) -> Result<ReadyLevels<H>, AllocError>
    ensures ready { IfOk result (λ ready. (first : Option (List ℕ)) (ls : List (List laid.Table))
        → AreLevelsOf H.bytes levels.now ls → HasPlace target_is.InPlace inputs.now ls
        → AreReady H.bytes target_is.InPlace inputs.now first ls [] ready) }
    ensures room { IfOk result (HasRoom count) }
{
    let (level, position) = input_place(levels, inputs);
    ready_at(alloc, levels, inputs, level, position, count)
}

// At this position of this level.
fn ready_at<H: HeldFile>(
    alloc: Global,
    levels: &Levels<H>,
    inputs: &[u32],
    level: usize,
    position: usize,
    count: usize,
) -> Result<ReadyLevels<H>, AllocError>
    ensures ready { IfOk result (λ ready. (target : Target) (first : Option (List ℕ)) (ls : List (List laid.Table))
        → AreLevelsOf H.bytes levels.now ls → IsPlace target inputs.now first ls level position
        → AreReady H.bytes target inputs.now first ls [] ready) }
    ensures room { IfOk result (HasRoom count) }
{
    if level > u8::MAX as usize || position > u32::MAX as usize {
        return Err(AllocError);
    }
    let mut tables = others(alloc, level_at(levels, level), inputs)?;
    tables.reserve(count)?;
    let next = position.min(tables.len());
    Ok(ReadyLevels {
        level: level as u8,
        position: position as u32,
        newest: others(alloc, levels.newest(), inputs)?,
        deeper: others_of_each(alloc, levels.deeper(), inputs)?,
        tables,
        next,
    })
}

// ---- tables that aren't inputs

// Those of these tables, shared.
fn others<H: HeldFile>(
    alloc: Global,
    tables: &[Table<H>],
    inputs: &[u32],
) -> Result<Vec<Table<H>>, AllocError>
    ensures { IfOk result (λ all. (ts : List laid.Table) → AreTablesOf H.bytes tables.now ts
        → AreTablesOf H.bytes all.items (without inputs.now ts)) }
{
    let mut all = Vec::new(alloc);
    for table in tables {
        add_other(&mut all, table, inputs)?;
    }
    Ok(all)
}

// Puts a table, shared, behind others, if it isn't an input.
fn add_other<H: HeldFile>(
    all: &mut Vec<Table<H>>,
    table: &Table<H>,
    inputs: &[u32],
) -> Result<(), AllocError>
    ensures { OnOk result ((ts : List laid.Table) (t : laid.Table) → AreTablesOf H.bytes all.old.items ts
        → IsTableOf H.bytes table.now t → AreTablesOf H.bytes all.new.items (ts ++ without inputs.now (t ∷ []))) }
{
    if is_input(table, inputs) {
        return Ok(());
    }
    add(all, table)?;
    Ok(())
}

// Those of each of these levels, shared.
fn others_of_each<H: HeldFile>(
    alloc: Global,
    levels: &[Level<H>],
    inputs: &[u32],
) -> Result<Vec<Level<H>>, AllocError>
    ensures { IfOk result (λ all. (ls : List (List laid.Table)) → AllZip (AreTablesOf H.bytes) levels.now ls
        → AllZip (AreTablesOf H.bytes) all.items (map (without inputs.now) ls)) }
{
    let mut all = Vec::new(alloc);
    for level in levels {
        let tables = others(alloc, level.as_slice(), inputs)?;
        all.push(Level::new(tables))?;
    }
    Ok(all)
}

fn is_input<H: HeldFile>(table: &Table<H>, inputs: &[u32]) -> bool
    ensures { (t : laid.Table) → IsTableOf H.bytes table.now t → result ≡ is_among inputs.now t }
{
    has(inputs, table.shape().number)
}

// Whether a number is one of these.
fn has(numbers: &[u32], number: u32) -> bool
    ensures { result ≡ list_any (λ (n : ℕ). n == number) numbers.now }
{
    numbers.iter().any(|&other| other == number)
}

// ---- where the outputs go

// How many of these tables stand before those that begin with a key: as many as end before it, or all where there is none.
fn place_before<H: HeldFile>(tables: &[Table<H>], first: Option<&[u8]>) -> usize
    ensures { (ts : List laid.Table) → AreTablesOf H.bytes tables.now ts
        → result ≡ places.place_before (option_copied first.entry) ts }
{
    match first {
        Some(key) => ending_before(tables, key),
        None => tables.len(),
    }
}

// How many of these tables end before a key, up to the first that doesn't.
fn ending_before<H: HeldFile>(tables: &[Table<H>], key: &[u8]) -> usize
    ensures { (ts : List laid.Table) → AreTablesOf H.bytes tables.now ts
        → result ≡ places.place_before (Some key.now) ts }
{
    let mut at = 0;
    while at < tables.len() {
        if !ends_before(&tables[at], key) {
            return at;
        }
        at += 1;
    }
    at
}

fn ends_before<H: HeldFile>(table: &Table<H>, key: &[u8]) -> bool
    ensures { (t : laid.Table) → IsTableOf H.bytes table.now t → result ≡ places.ends_before (Some key.now) t }
{
    let last = table.shape().footer.last.as_slice();
    key_order(last, key).is_lt()
}

// The level and the position of the first table that is an input. Where there is none, the front.
fn input_place<H: HeldFile>(levels: &Levels<H>, inputs: &[u32]) -> (usize, usize)
    ensures { (ls : List (List laid.Table)) → AreLevelsOf H.bytes levels.now ls
        → result ≡ places.input_from 0 inputs.now ls }
{
    if let Some(position) = input_among(levels.newest(), inputs) {
        return (0, position);
    }
    deeper_place(levels.deeper(), inputs)
}

// The same of the levels below level 0.
fn deeper_place<H: HeldFile>(levels: &[Level<H>], inputs: &[u32]) -> (usize, usize)
    ensures { (ls : List (List laid.Table)) → AllZip (AreTablesOf H.bytes) levels.now ls
        → result ≡ places.input_from 1 inputs.now ls }
{
    for at in 0..levels.len() {
        if let Some(position) = input_among(levels[at].as_slice(), inputs) {
            return (at + 1, position);
        }
    }
    (0, 0)
}

// How many of these tables stand before the first that is an input.
fn input_among<H: HeldFile>(tables: &[Table<H>], inputs: &[u32]) -> Option<usize>
    ensures { (ts : List laid.Table) → AreTablesOf H.bytes tables.now ts → result ≡ places.index_of inputs.now ts }
{
    for at in 0..tables.len() {
        if is_input(&tables[at], inputs) {
            return Some(at);
        }
    }
    None
}
