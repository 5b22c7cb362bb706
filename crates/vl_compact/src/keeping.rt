//! What a merge still keeps of its inputs, one by one.

ghost use Rattle.std.specs.Prelude.{◌≡◌, ◌≤◌, ◌<◌, ◌++◌, if◌then◌else◌, Bool, List, Some, IfErr, IfOk, IsSome, OnOk};
ghost use Rattle.std.specs.Ordering.{eq_by_cmp};
ghost use Rattle.vl_compact.specs.Keeps.{AreRulesOf, GivesNext, Passes, is_kept, noted, place_in, stage};
ghost use Rattle.vl_compact.specs.Reading.{FailsLooking, FailsReading, MayWhere, NoneRose, counts};
ghost use Rattle.vl_compact.specs.Walking.{comes_again, seen_before};
ghost use Rattle.vl_engine_model.specs.declared.job.Job as laid;
ghost use Rattle.vl_model.specs.Cursors.{IsReached};
ghost use Rattle.vl_model.specs.Keys.{key_cmp};
ghost use Rattle.vl_model.specs.declared.entry.Entry.{Entry};
ghost use Rattle.vl_disk.specs.declared.read_fault.ReadFault.{ReadFault};

use crate::job_reader::JobReader;
use crate::last::Last;
use crate::rules::{Fate, Rules};
use std::alloc::AllocError;
use vl_disk::ReadFault;
use vl_merge::Sources;
use vl_model::{Cursor, Entry, Key, key_order};

/// Entries of a merge's inputs, merged, and where it is among them. After a fault it is to be abandoned.
#[derive(Drop)]
pub struct Keeping<C> {
    pub cursor: C,
    pub rules: Rules,
    pub last: Option<Last>,
}

impl<C: Cursor<Fault = ReadFault>> Keeping<C> {
    /// The next entry that it keeps. The needless deletions that it passes are put behind the others, by key and version.
    pub fn next<V: Sources<Fault = ReadFault>>(
        &mut self,
        base: &V,
        reader: &mut JobReader<C::Reader, V::Reader>,
        found: &mut Vec<(Key, u64)>,
    ) -> Result<Option<Entry>, ReadFault>
        ensures next { (j : laid.Job) (left : List Entry) → AreRulesOf self.old.rules j → V.has base.now j.inputs j.base
            → V.fits base.now reader.old.looks → C.left self.old.cursor ≡ Some left
            → IfOk result (GivesNext j (stage self.old.last left found.old.items) self.new.last (C.left self.new.cursor) found.new.items) }
        ensures rules { self.new.rules ≡ self.old.rules }
        ensures fits { V.fits base.now reader.old.looks → V.fits base.now reader.new.looks }
        ensures steady { OnOk result (NoneRose (counts (λ l. V.faults l) (λ r. C.faults r) reader.old reader.new)) }
        ensures cause { IfErr result (FailsReading (λ f. V.is_read_fault f)
            (MayWhere (V.fits base.now reader.old.looks) (V.may_fail base.now)) (λ f. C.is_read_fault f) (C.may_fail self.old.cursor)
            (counts (λ l. V.faults l) (λ r. C.faults r) reader.old reader.new)) }
        ensures keeps { (fault : ReadFault) → C.may_fail self.new.cursor fault → C.may_fail self.old.cursor fault }
        ensures reaches { (is_met : Entry → Bool)
            → IfOk result (λ next. IsReached is_met next → C.stands_to self.old.cursor is_met) }
        ensures back { (is_met : Entry → Bool) → C.stands_to self.new.cursor is_met → C.stands_to self.old.cursor is_met }
        ensures spends { C.budget self.new.cursor ≤ C.budget self.old.cursor }
        ensures fewer { IfOk result (λ next. IsSome next → C.budget self.new.cursor < C.budget self.old.cursor) }
    {
        'walking: while let Some(entry) = self.cursor.next(&mut reader.files)? {
            if pass(
                &self.rules,
                &mut self.last,
                base,
                &mut reader.looks,
                &entry,
                found,
            )? {
                return Ok(Some(entry));
            }
        }
        Ok(None)
    }
}

// Whether the entry that comes now is kept. If it is a needless deletion, its key and version are put behind the others.
fn pass<V: Sources<Fault = ReadFault>>(
    rules: &Rules,
    last: &mut Option<Last>,
    base: &V,
    looks: &mut V::Reader,
    entry: &Entry,
    found: &mut Vec<(Key, u64)>,
) -> Result<bool, ReadFault>
    ensures passes { (j : laid.Job) → AreRulesOf rules.now j → V.has base.now j.inputs j.base → V.fits base.now looks.old
        → IfOk result (Passes j (place_in last.old) (place_in last.new) entry.now found.old.items found.new.items) }
    ensures fits { V.fits base.now looks.old → V.fits base.now looks.new }
    ensures steady { OnOk result (V.faults looks.new ≡ V.faults looks.old) }
    ensures cause { IfErr result (FailsLooking (λ f. V.is_read_fault f)
        (MayWhere (V.fits base.now looks.old) (V.may_fail base.now)) (V.faults looks.old) (V.faults looks.new)) }
{
    if comes_again(last, entry) {
        return Ok(false);
    }
    let seen = seen_before(last, entry);
    let fate = rules.fate(base, looks, seen, entry)?;
    let now = rules.last_of(seen, entry)?;
    note(found, fate, entry)?;
    *last = Some(now);
    Ok(is_kept(fate))
}

fn is_kept(fate: Fate) -> bool
    ensures { result ≡ is_kept fate }
{
    match fate {
        Fate::Kept => true,
        Fate::Dropped | Fate::Needless => false,
    }
}

// Whether an entry is of the key and version that came last.
fn comes_again(last: &Option<Last>, entry: &Entry) -> bool
    ensures { result ≡ comes_again (place_in last.now) entry.now }
{
    match last {
        None => false,
        Some(last) => {
            key_order(last.key.as_slice(), entry.key.as_slice()).is_eq()
                && entry.version == last.version
        }
    }
}

// How many different versions up to the floor came of an entry's key before.
fn seen_before(last: &Option<Last>, entry: &Entry) -> u64
    ensures { result ≡ seen_before (place_in last.now) entry.now }
{
    match last {
        None => 0,
        Some(last) => seen_of(last, entry),
    }
}

fn seen_of(last: &Last, entry: &Entry) -> u64
    ensures { result ≡ (if eq_by_cmp key_cmp last.now.key entry.now.key then last.now.seen else 0) }
{
    if key_order(last.key.as_slice(), entry.key.as_slice()).is_eq() {
        last.seen
    } else {
        0
    }
}

// Puts the key and the version of a needless deletion behind others.
fn note(found: &mut Vec<(Key, u64)>, fate: Fate, entry: &Entry) -> Result<(), AllocError>
    ensures { OnOk result (found.new.items ≡ found.old.items ++ noted fate entry.now) }
{
    match fate {
        Fate::Needless => {
            found.push((entry.key.share()?, entry.version))?;
            Ok(())
        }
        Fate::Kept | Fate::Dropped => Ok(()),
    }
}
