//! What a view gives of the changes since a number.

ghost use Rattle.std.specs.Prelude.{◌≡◌, ◌≤◌, ℕ, List, IfErr, IfNone, IfOk, MatchResult};
ghost use Rattle.vl_disk.specs.Faults.{HasCause};
ghost use Rattle.vl_engine_model.specs.Changes.{changes as changes_of};
ghost use Rattle.vl_model.specs.History.{History};
ghost use Rattle.vl_reads.specs.Changes.{MayTellSince, TellsChanges};
ghost use Rattle.vl_reads.specs.Reading.{OnlyReads};
ghost use Rattle.vl_reads.specs.Sees.{SeesAlone};
ghost use Rattle.vl_table.specs.Kept.{Files};
ghost use Rattle.vl_table.specs.KeptBlocks.{ReadsOf};
ghost use Rattle.vl_version.specs.Changes.{AreReadSince, GivesNext, HasLeft, IsChangeFault, IsOver, SpendsOne, StandsToEnd};
ghost use Rattle.vl_version.specs.Changes.{Write, changes_budget};
ghost use Rattle.vl_version.specs.Faults.{Failed};
ghost use Rattle.vl_version.specs.Sources.{tables_in};

use crate::View;
use std::alloc::AllocError;
use vl_disk::{HeldFile, ReadFault, Reader};
use vl_model::{Key, Value};
use vl_version::Changes;

impl<H: HeldFile, R: Reader<Held = H> + Drop> View<H, R> {
    /// The greatest version of a deletion that was dropped as its key's last before the view began. Changes since a lower
    /// number, but 0, may lack such a deletion.
    pub fn gone(&self) -> u64
        ensures { result ≡ self.now.past.gone }
    {
        self.past.gone
    }

    /// What was changed since a number, as it is at the view's own: of each key its newest version, if that is above `since`;
    /// since 0 all that stands, and so no deletions. Tables that have nothing newer than `since` aren't read.
    pub fn changes(&self, since: u64) -> Result<Changes<H, R>, AllocError>
        ensures left { (h : History) → TellsChanges H.bytes self.now h → MayTellSince self.now.past self.now.number since
            → IfOk result (λ given. HasLeft H.bytes self.now.version given (changes_of h since self.now.number)) }
        ensures over { IfOk result (IsOver H.bytes self.now.version since) }

        // What is gone over to its end was read whole, also if the tables aren't true.
        ensures whole { IfOk result (λ given. StandsToEnd H.bytes given → AreReadSince H.bytes since self.now.version.behind.levels) }
    {
        self.version.changes(self.alloc, since, self.number)
    }

    /// The next of these changes, which are this view's, from the least key on: a key with its value, or with none where it was
    /// deleted. Behind a fault the same changes are left, or all but the first of them.
    pub fn next_change(
        &mut self,
        changes: &mut Changes<H, R>,
    ) -> Result<Option<(Key, Option<Value>)>, ReadFault>
        ensures gives { (ws : List Write) → HasLeft H.bytes self.old.version changes.old ws
            → GivesNext (HasLeft H.bytes self.old.version changes.new) ws result }
        ensures spends { MatchResult result (SpendsOne (changes_budget changes.old) (changes_budget changes.new))
            (λ _. changes_budget changes.new ≤ changes_budget changes.old) }
        ensures keeps { OnlyReads self.old self.new }
        ensures still { (h : History) → SeesAlone H.bytes self.old h → SeesAlone H.bytes self.new h }
        ensures cause { HasCause (R.faults self.old.reader.reader) (R.faults self.new.reader.reader) (Failed result) }

        // A fault is of a table that has something newer, or of a log, also if the tables aren't true.
        ensures fault { (since : ℕ) → IsOver H.bytes self.old.version since changes.old
            → IfErr result (IsChangeFault H.bytes self.old.version since) }
        ensures over { (since : ℕ) → IsOver H.bytes self.old.version since changes.old
            → IsOver H.bytes self.old.version since changes.new }

        // The end comes only where all was gone over: nothing that doesn't stand was passed over.
        ensures ended { IfOk result (λ next. IfNone next (StandsToEnd H.bytes changes.old)) }
        ensures back { StandsToEnd H.bytes changes.new → StandsToEnd H.bytes changes.old }
        ensures blocks { (files : Files) → ReadsOf H.bytes files self.old.reader (tables_in self.old.version)
            → ReadsOf H.bytes files self.new.reader (tables_in self.new.version) }
    {
        self.version
            .next_change(self.alloc, &mut self.reader, changes)
    }
}
