//! What was changed since a number.

ghost use Rattle.std.specs.Prelude.{◌≡◌, ◌≤◌, ℕ, List, IfErr, IfNone, IfOk, MatchResult};
ghost use Rattle.vl_disk.specs.Faults.{HasCause};
ghost use Rattle.vl_merge.specs.declared.hides.Hides.TheVariants.{Gone, UpTo};
ghost use Rattle.vl_model.specs.Winners.{Logs};
ghost use Rattle.vl_model.specs.declared.entry.Entry.{Entry};
ghost use Rattle.vl_version.specs.Changes.{AreChanges, AreReadSince, GivesNext, HasLeft, IsChangeFault, IsOver, SpendsOne};
ghost use Rattle.vl_version.specs.Changes.{StandsToEnd, Write, changes_budget, hiding};
ghost use Rattle.vl_version.specs.Faults.{Failed};
ghost use Rattle.vl_version.specs.Sources.{HasEntries};

use crate::Version;
use crate::changes::Changes;
use crate::gather::stored_sources;
use crate::resolve::resolve;
use std::alloc::{AllocError, Global};
use vl_disk::{HeldFile, ReadFault, Reader};
use vl_merge::{Hides, Merge, Visible, merge_of_told_sources, visible_entries_are_the_winners};
use vl_model::{Cursor, Entry, Key, Value, Way};
use vl_table::BlockReader;

impl<H: HeldFile> Version<H> {
    /// The changes since a number, as they stand at another one: of each key its newest version that is at most `number`, if
    /// that is above `since`. Since 0 they are all that stands, and so no deletions. No block is read of a table that has
    /// nothing newer than `since`.
    pub fn changes<R: Reader<Held = H> + Drop>(
        &self,
        alloc: Global,
        since: u64,
        number: u64,
    ) -> Result<Changes<H, R>, AllocError>
        ensures left { IfOk result (λ changes. (es : List Entry) (logs : Logs) (ws : List Write)
            → HasEntries H.bytes self.now es logs → AreChanges logs es since number ws → HasLeft H.bytes self.now changes ws) }
        ensures over { IfOk result (IsOver H.bytes self.now since) }

        // What is gone over to its end was read whole, also if the tables aren't true.
        ensures whole { IfOk result (λ changes. StandsToEnd H.bytes changes → AreReadSince H.bytes since self.now.behind.levels) }
    {
        merge_of_told_sources();
        visible_entries_are_the_winners();
        let behind = self.behind.as_ref();
        let levels = behind.levels.since(alloc, since)?;
        let sources = stored_sources(alloc, &self.active, &behind.frozen, &levels)?;
        let merge = Merge::new(sources, Way::Up)?;
        Ok(Changes {
            entries: Visible::with(merge, number, hiding(since)),
        })
    }

    /// The next of these changes, which are this version's: its key with the value that it has now, or with none where it was
    /// deleted. Behind a fault the same changes are left, or all but the first of them.
    pub fn next_change<R: Reader<Held = H> + Drop>(
        &self,
        alloc: Global,
        reader: &mut BlockReader<R>,
        changes: &mut Changes<H, R>,
    ) -> Result<Option<(Key, Option<Value>)>, ReadFault>
        ensures cause { HasCause (R.faults reader.old.reader) (R.faults reader.new.reader) (Failed result) }
        ensures kept { reader.new ≡ record reader.old { reader = reader.new.reader } }
        ensures gives { (ws : List Write) → HasLeft H.bytes self.now changes.old ws
            → GivesNext (HasLeft H.bytes self.now changes.new) ws result }
        ensures spends { MatchResult result (SpendsOne (changes_budget changes.old) (changes_budget changes.new))
            (λ _. changes_budget changes.new ≤ changes_budget changes.old) }

        // A fault is of a table that has something newer, or of a log, also if the tables aren't true.
        ensures fault { (since : ℕ) → IsOver H.bytes self.now since changes.old
            → IfErr result (IsChangeFault H.bytes self.now since) }
        ensures over { (since : ℕ) → IsOver H.bytes self.now since changes.old → IsOver H.bytes self.now since changes.new }

        // The end comes only where all was gone over: nothing that doesn't stand was passed over.
        ensures ended { IfOk result (λ next. IfNone next (StandsToEnd H.bytes changes.old)) }
        ensures back { StandsToEnd H.bytes changes.new → StandsToEnd H.bytes changes.old }
    {
        let behind = self.behind.as_ref();
        let Some(entry) = changes.entries.next(&mut reader.reader)? else {
            return Ok(None);
        };
        let value = resolve(alloc, &mut reader.reader, &behind.logs, &entry)?;
        Ok(Some((entry.key, value)))
    }
}

fn hiding(since: u64) -> Hides
    ensures { result ≡ hiding since }
{
    if since == 0 {
        Hides::Gone
    } else {
        Hides::UpTo(since)
    }
}
