//! The rows of a scan.

ghost use Rattle.std.specs.Prelude.{◌≡◌, ◌<◌, ◌⊎◌, ◌∷◌, ◌++◌, [], ℕ, Bool, List, Some, true, false, take, drop, length, IfErr, IfOk, OnOk};
ghost use Rattle.std.specs.List.{AllByRecursion};
ghost use Rattle.vl_disk.specs.Faults.{HasCause};
ghost use Rattle.vl_model.specs.Keys.{Stored};
ghost use Rattle.vl_model.specs.declared.entry.Entry.{Entry};
ghost use Rattle.vl_model.specs.declared.way.Way.{Way};
ghost use Rattle.vl_merge.specs.Standing.{InWay, is_beyond};
ghost use Rattle.vl_version.specs.Answers.{IsAnswer, IsAstray};
ghost use Rattle.vl_version.specs.Faults.{Failed};
ghost use Rattle.vl_version.specs.Gives.{is_disk_fault};
ghost use Rattle.vl_version.specs.Naming.{IsLogFault};
ghost use Rattle.vl_version.specs.Near.{AreNear, IsNear};
ghost use Rattle.vl_version.specs.Rows.{AreRowsOf, IsKept, OneAstray, PushesRow};
ghost use Rattle.vl_version.specs.Sources.{AreTold, stored_in};
ghost use Rattle.vl_disk.specs.declared.read_fault.ReadFault.{ReadFault};
ghost use Rattle.vl_disk.specs.declared.read_fault.ReadFault.TheVariants as why;

use crate::resolve::resolve;
use std::alloc::Global;
use vl_disk::{HeldFile, ReadFault, Reader};
use vl_merge::{Merge, Visible};
use vl_model::{Cursor, Entry, Key, Value};
use vl_seglog::SealedLog;

/// The rows of the first so many of these entries, which aren't deletions. No entry behind them is asked for.
pub fn take_rows<H: HeldFile, R: Reader<Held = H>, C: Cursor<Fault = ReadFault, Reader = R> + Drop>(
    alloc: Global,
    reader: &mut R,
    logs: &[SealedLog<H>],
    entries: &mut Visible<C>,
    limit: u16,
) -> Result<Vec<(Key, Value)>, ReadFault>
    requires counts { (r : R) → C.faults r ≡ R.faults r }
    requires told { (fault : ReadFault) → C.is_read_fault fault ≡ is_disk_fault fault }
    ensures cause { HasCause (R.faults reader.old) (R.faults reader.new) (Failed result) }
    ensures near { (left : List Entry) → ⟦<Visible<C> as Cursor>⟧.left entries.old ≡ Some left → AreNear left
        → ((fault : ReadFault) → ⟦<Visible<C> as Cursor>⟧.may_fail entries.old fault → is_disk_fault fault ≡ false)
        → Failed result → ⊥ }
    ensures answers { AreTold H.bytes logs.now → (left : List Entry) → ⟦<Visible<C> as Cursor>⟧.left entries.old ≡ Some left
        → AllByRecursion IsKept left → IsAnswer (λ rows. AreRowsOf (stored_in H.bytes logs.now) (take limit left) rows.items)
        (λ name place. ⟦<Visible<C> as Cursor>⟧.may_fail entries.old (why.Damaged name place)
        ⊎ OneAstray (stored_in H.bytes logs.now) left name place) result }
    ensures no_further { AreTold H.bytes logs.now → (left : List Entry) → ⟦<Visible<C> as Cursor>⟧.left entries.old ≡ Some left
        → AllByRecursion IsKept left → OnOk result (⟦<Visible<C> as Cursor>⟧.left entries.new ≡ Some (drop limit left)) }
    ensures fault { IfErr result (λ fault. ⟦<Visible<C> as Cursor>⟧.may_fail entries.old fault ⊎ IsLogFault logs.now fault) }

    // The entries are read whole up to that of each row; and to their end where there are fewer rows.
    ensures reaches { (is_met_by : List ℕ → Entry → Bool) → ((e : Entry) → is_met_by e.key e ≡ true)
        → IfOk result (λ rows. AllByRecursion (λ row. ⟦<Visible<C> as Cursor>⟧.stands_to entries.old (is_met_by row.0))
        rows.items) }
    ensures ends { (is_met : Entry → Bool) → IfOk result (λ rows. length rows.items < limit
        → ⟦<Visible<C> as Cursor>⟧.stands_to entries.old is_met) }

    // Where what is left goes along a way, they are read whole up to a key behind that of each row.
    ensures passes { (way : Way) → InWay way entries.old.held (⟦<Merge<C> as Cursor>⟧.left entries.old.merge)
        → IfOk result (λ rows. AllByRecursion (λ row. ⟦<Visible<C> as Cursor>⟧.stands_to entries.old (is_beyond way row.0))
        rows.items) }
{
    let mut rows = Vec::new(alloc);
    'taking: while rows.len() < limit as usize {
        let Some(entry) = entries.next(reader)? else {
            return Ok(rows);
        };
        push_row(alloc, reader, logs, &mut rows, entry)?;
    }
    Ok(rows)
}

// The key of an entry, with the value to which it leads.
fn push_row<H: HeldFile, R: Reader<Held = H>>(
    alloc: Global,
    reader: &mut R,
    logs: &[SealedLog<H>],
    rows: &mut Vec<(Key, Value)>,
    entry: Entry,
) -> Result<(), ReadFault>
    ensures cause { HasCause (R.faults reader.old) (R.faults reader.new) (Failed result) }
    ensures near { IsNear entry.body → Failed result → ⊥ }
    ensures answers { AreTold H.bytes logs.now → IsKept entry
        → IsAnswer (λ _. PushesRow (stored_in H.bytes logs.now) entry rows.old.items rows.new.items)
        (IsAstray (stored_in H.bytes logs.now) (Some entry)) result }
    ensures fault { IfErr result (IsLogFault logs.now) }
    ensures pushes { OnOk result ((rows.new.items ≡ rows.old.items)
        ⊎ ((value : Stored) × (rows.new.items ≡ rows.old.items ++ (entry.key, value) ∷ []))) }
{
    let value = resolve(alloc, reader, logs, &entry)?;
    let Entry { key, .. } = entry;
    if let Some(value) = value
        && rows.push((key, value)).is_err()
    {
        return Err(ReadFault::NoMemory);
    }
    Ok(())
}
