use crate::edit::Edit;
use crate::format::GONE_FORMAT;
use crate::levels::Levels;
use crate::version_builder::VersionBuilder;
use std::alloc::{AllocError, Global};
use vl_model::MAX_FILE_NUMBER;

/// What a manifest says.
#[derive(Debug, Drop)]
pub struct ManifestState {
    pub levels: Levels,
    /// The first log whose commits aren't in tables.
    pub head: u32,
    /// The number of the last commit that is in tables.
    pub covered: u64,
    /// The least number that a log may still be given.
    pub next_log: u32,
    /// The least number that a table may still be given.
    pub next_table: u32,
    /// How many versions of a key merges keep, from 1 to 16.
    pub keep: u8,
    /// The last commit when this number was last raised, 0 where it never was: older versions may be missing.
    pub since: u64,
    /// No deletion of a greater version was dropped for good.
    pub gone: u64,
}

impl ManifestState {
    ghost use Rattle.std.specs.Prelude.{◌≡◌, ◌≤◌, ◌++◌, IfOk, OnOk};
    ghost use Rattle.vl_model.specs.Limits.{max_file_number};
    ghost use Rattle.vl_manifest.specs.States as states;

    /// The state of a store that has nothing yet.
    pub fn fresh(alloc: Global) -> Self
        ensures { result ≡ states.fresh_state }
    {
        ManifestState {
            levels: Levels::new(alloc),
            head: 1,
            covered: 0,
            next_log: 1,
            next_table: 1,
            keep: 1,
            since: 0,
            gone: 0,
        }
    }

    /// The state with next numbers above those of the logs and the tables that stand, the greatest of which are given
    /// (0 where none stands).
    pub fn opened(self, log: u32, table: u32) -> Self
        requires log { log ≤ max_file_number }
        requires table { table ≤ max_file_number }
        ensures { result ≡ states.opened_state log table self }
    {
        ManifestState {
            next_log: self.next_log.max(log + 1),
            next_table: self.next_table.max(table + 1),
            ..self
        }
    }

    // What a manifest in this format says whose frames make this state.
    pub(crate) fn as_read(self, format: u32) -> Self
        ensures { result ≡ states.as_read format self }
    {
        if format >= GONE_FORMAT {
            return self;
        }
        ManifestState {
            gone: self.covered,
            ..self
        }
    }

    /// The edits by which a manifest's first frame says this state.
    pub fn whole_edits(&self, alloc: Global) -> Result<Vec<Edit>, AllocError>
        ensures { IfOk result (λ edits. edits.items ≡ states.whole_edits self.now) }
    {
        let mut edits = self.levels.adds(alloc)?;
        edits.push(Edit::Head {
            segment: self.head,
            number: self.covered,
        })?;
        edits.push(Edit::Next {
            log: self.next_log,
            table: self.next_table,
        })?;
        self.add_keep(&mut edits)?;
        self.add_gone(&mut edits)?;
        Ok(edits)
    }

    // Puts a Keep behind the edits, where it says more than is so without it.
    fn add_keep(&self, edits: &mut Vec<Edit>) -> Result<(), AllocError>
        ensures { OnOk result (edits.new.items ≡ edits.old.items ++ states.keep_edits self.now.keep self.now.since) }
    {
        if self.keep != 1 || self.since != 0 {
            edits.push(Edit::Keep {
                versions: self.keep,
                since: self.since,
            })?;
        }
        Ok(())
    }

    // Likewise a Gone.
    fn add_gone(&self, edits: &mut Vec<Edit>) -> Result<(), AllocError>
        ensures { OnOk result (edits.new.items ≡ edits.old.items ++ states.gone_edits self.now.gone) }
    {
        if self.gone != 0 {
            edits.push(Edit::Gone { number: self.gone })?;
        }
        Ok(())
    }

    /// What the manifest says behind one more frame, of these edits; none where one can't be applied. This state stays as it
    /// is.
    pub fn then(&self, alloc: Global, edits: &[Edit]) -> Result<Option<Self>, AllocError>
        ensures { IfOk result (λ state. state ≡ states.next_state edits.now self.now) }
    {
        self.copy(alloc)?.next(edits)
    }

    // The same once more.
    fn copy(&self, alloc: Global) -> Result<Self, AllocError>
        ensures { IfOk result (λ copy. copy ≡ self.now) }
    {
        Ok(ManifestState {
            levels: self.levels.copy(alloc)?,
            head: self.head,
            covered: self.covered,
            next_log: self.next_log,
            next_table: self.next_table,
            keep: self.keep,
            since: self.since,
            gone: self.gone,
        })
    }

    // The state that the edits of a manifest's first frame make; none where one can't be applied, or where they don't
    // give all of it.
    pub(crate) fn first(alloc: Global, edits: &[Edit]) -> Result<Option<Self>, AllocError>
        ensures { IfOk result (λ state. state ≡ states.first_state edits.now) }
    {
        match VersionBuilder::first(alloc).all_applied(edits)? {
            None => Ok(None),
            Some(builder) => Ok(builder.finished()),
        }
    }

    // The state that the edits of a later frame make of this one.
    pub(crate) fn next(self, edits: &[Edit]) -> Result<Option<Self>, AllocError>
        ensures { IfOk result (λ state. state ≡ states.next_state edits.now self) }
    {
        match VersionBuilder::of(self).all_applied(edits)? {
            None => Ok(None),
            Some(builder) => Ok(builder.finished()),
        }
    }
}
