//! How a key is looked up in one table and in one level, behind what was found in newer sources.

ghost use Rattle.std.specs.Prelude.{◌≡◌, ◌∷◌, [], ℕ, true, false, List, None, Ok};
ghost use Rattle.std.specs.Option.{option_map};
ghost use Rattle.vl_model.specs.declared.entry.Entry.{Entry};
ghost use Rattle.vl_table.specs.body.Founds.{found_of};
ghost use Rattle.vl_disk.specs.Faults.{HasCause};
ghost use Rattle.vl_table.specs.Answers.{Answers, Failed, NeedsNoMemory};
ghost use Rattle.vl_table.specs.Kept.{Files};
ghost use Rattle.vl_table.specs.KeptBlocks.{AreKept, ReadsOf};
ghost use Rattle.vl_table.specs.MayHold.{may_hold};
ghost use Rattle.vl_table.specs.Meets.{LooksIn};
ghost use Rattle.vl_table.specs.Seeks.{IsBadBlock};
ghost use Rattle.vl_table.specs.Tables.{IsOf, number_of, shape_of};
ghost use Rattle.vl_version.specs.levels.LevelTables.{AreApart, AreRanged};
ghost use Rattle.vl_version.specs.levels.LookedUp.{LooksInAll, LooksOn};
ghost use Rattle.vl_version.specs.levels.Looks.{is_asked, makes, place_version, sought};

use super::level::ending_before;
use super::look::{Look, better, is_wanted};
use vl_disk::{HeldFile, ReadFault, Reader};
use vl_table::{BlockReader, Found, Table};

// Looks in one table, of which nothing is read where it may not have the key.
fn ask<H: HeldFile, R: Reader<Held = H>>(
    reader: &mut BlockReader<R>,
    table: &Table<H>,
    key: &[u8],
    look: Look,
) -> Result<Option<Found>, ReadFault>
    ensures kept { (files : Files) → ReadsOf H.bytes files reader.old (table.now ∷ []) → AreKept files reader.new }
    ensures answers { (files : Files) → ReadsOf H.bytes files reader.old (table.now ∷ [])
        → Answers (R.faults reader.old.reader) (R.faults reader.new.reader) (number_of table.now) (H.bytes table.now.held)
        (λ bytes found. (es : List Entry) → IsOf H.bytes table.now es → option_map (found_of key.now) found ≡ sought look key.now es)
        (IsBadBlock (shape_of table.now)) result }
    ensures looks { (files : Files) → ReadsOf H.bytes files reader.old (table.now ∷ [])
        → may_hold key.now (shape_of table.now) ≡ true
        → LooksIn H.bytes (makes look key.now) table.now key.now (place_version look) result }
    ensures unread { may_hold key.now (shape_of table.now) ≡ false → (result ≡ Ok None) × (reader.new ≡ reader.old) }
    ensures cause { HasCause (R.faults reader.old.reader) (R.faults reader.new.reader) (Failed result) }
    ensures no_memory { NeedsNoMemory result }
{
    match look {
        Look::UpTo(number) => table.find(reader, key, number),
        Look::Exactly(version) => table.exact(reader, key, version),
    }
}

// Looks in one table behind what was found so far. One that can't have what counts more isn't read.
pub fn look_in<H: HeldFile, R: Reader<Held = H>>(
    reader: &mut BlockReader<R>,
    table: &Table<H>,
    key: &[u8],
    look: Look,
    best: Option<Found>,
) -> Result<Option<Found>, ReadFault>
    ensures kept { (files : Files) → ReadsOf H.bytes files reader.old (table.now ∷ []) → AreKept files reader.new }
    ensures answers { (files : Files) → ReadsOf H.bytes files reader.old (table.now ∷ [])
        → LooksOn H.bytes (table.now ∷ []) (Unit {0}) look key.now (option_map (found_of key.now) best)
        (R.faults reader.old.reader) (R.faults reader.new.reader) result }
    ensures looks { (files : Files) → ReadsOf H.bytes files reader.old (table.now ∷ [])
        → LooksInAll H.bytes look key.now (option_map (found_of key.now) best) (table.now ∷ []) result }

    // A table that isn't to be asked isn't read.
    ensures unread { is_asked look key.now (option_map (found_of key.now) best) (shape_of table.now) ≡ false
        → (result ≡ Ok best) × (reader.new ≡ reader.old) }
    ensures cause { HasCause (R.faults reader.old.reader) (R.faults reader.new.reader) (Failed result) }
    ensures no_memory { NeedsNoMemory result }
{
    if !is_wanted(look, &best, table.shape().footer.greatest) {
        return Ok(best);
    }
    let older = ask(reader, table, key, look)?;
    Ok(better(look, best, older))
}

// Looks in the table of a level that may have the key, if there is one.
pub fn look_in_level<H: HeldFile, R: Reader<Held = H>>(
    reader: &mut BlockReader<R>,
    tables: &[Table<H>],
    key: &[u8],
    look: Look,
    best: Option<Found>,
) -> Result<Option<Found>, ReadFault>
    ensures kept { (files : Files) → ReadsOf H.bytes files reader.old tables.now → AreKept files reader.new }
    ensures answers { (files : Files) → ReadsOf H.bytes files reader.old tables.now
        → LooksOn H.bytes tables.now (AreApart tables.now) look key.now (option_map (found_of key.now) best)
        (R.faults reader.old.reader) (R.faults reader.new.reader) result }
    ensures looks { (files : Files) → ReadsOf H.bytes files reader.old tables.now → AreApart tables.now → AreRanged tables.now
        → LooksInAll H.bytes look key.now (option_map (found_of key.now) best) tables.now result }
    ensures cause { HasCause (R.faults reader.old.reader) (R.faults reader.new.reader) (Failed result) }
    ensures no_memory { NeedsNoMemory result }
{
    let at = ending_before(tables, key);
    if at == tables.len() {
        return Ok(best);
    }
    look_in(reader, &tables[at], key, look, best)
}
