use crate::edit::Edit;
use crate::levels::Levels;
use crate::state::ManifestState;
use std::alloc::{AllocError, Global};
use vl_model::{MAX_COMMIT_NUMBER, MAX_FILE_NUMBER, MAX_KEEP};

/// A state while the edits of a frame are applied, which may not have given all of it yet.
#[derive(Debug, Drop)]
pub struct VersionBuilder {
    pub levels: Levels,
    /// The head and the covered number.
    pub head: Option<(u32, u64)>,
    /// The next log and the next table.
    pub next: Option<(u32, u32)>,
    pub keep: u8,
    pub since: u64,
    pub gone: u64,
}

impl VersionBuilder {
    ghost use Rattle.std.specs.Prelude.{◌≡◌, IfOk};
    ghost use Rattle.vl_manifest.specs.States as states;
    ghost use Rattle.vl_manifest.specs.declared.edit.Edit.TheVariants as kinds;

    /// Before the first frame.
    pub fn first(alloc: Global) -> Self
        ensures { result ≡ states.first_draft }
    {
        VersionBuilder {
            levels: Levels::new(alloc),
            head: None,
            next: None,
            keep: 1,
            since: 0,
            gone: 0,
        }
    }

    /// Before a later one.
    pub fn of(state: ManifestState) -> Self
        ensures { result ≡ states.as_draft state }
    {
        VersionBuilder {
            levels: state.levels,
            head: Some((state.head, state.covered)),
            next: Some((state.next_log, state.next_table)),
            keep: state.keep,
            since: state.since,
            gone: state.gone,
        }
    }

    /// After these edits, in their order; none where one can't be applied.
    pub fn all_applied(self, edits: &[Edit]) -> Result<Option<Self>, AllocError>
        ensures { IfOk result (λ builder. builder ≡ states.all_applied edits.now self) }
    {
        let mut builder = self;
        for edit in edits {
            match builder.applied(edit)? {
                None => return Ok(None),
                Some(next) => builder = next,
            }
        }
        Ok(Some(builder))
    }

    fn applied(self, edit: &Edit) -> Result<Option<Self>, AllocError>
        ensures { IfOk result (λ builder. builder ≡ states.applied edit.now self) }
    {
        match *edit {
            Edit::Add {
                level,
                position,
                table,
            } => self.with_table(level, position, table),
            Edit::Drop { table } => Ok(self.without_table(table)),
            Edit::Head { segment, number } => Ok(self.with_head(segment, number)),
            Edit::Next { log, table } => Ok(self.with_next(log, table)),
            Edit::Keep { versions, since } => Ok(self.with_keep(versions, since)),
            Edit::Gone { number } => Ok(self.with_gone(number)),
        }
    }

    fn with_table(self, level: u8, position: u32, table: u32) -> Result<Option<Self>, AllocError>
        ensures { IfOk result (λ builder. builder ≡ states.applied (kinds.Add level position table) self) }
    {
        let mut builder = self;
        if table == 0 || table > MAX_FILE_NUMBER || builder.levels.has(table) {
            return Ok(None);
        }
        if builder.levels.put(level, position, table)? {
            Ok(Some(builder))
        } else {
            Ok(None)
        }
    }

    fn without_table(self, table: u32) -> Option<Self>
        ensures { result ≡ states.applied (kinds.Drop table) self }
    {
        let mut builder = self;
        if !builder.levels.has(table) {
            return None;
        }
        builder.levels.take_out(table);
        Some(builder)
    }

    fn with_head(self, segment: u32, number: u64) -> Option<Self>
        ensures { result ≡ states.applied (kinds.Head segment number) self }
    {
        if segment == 0 || segment > MAX_FILE_NUMBER || number > MAX_COMMIT_NUMBER {
            return None;
        }
        Some(VersionBuilder {
            head: Some((segment, number)),
            ..self
        })
    }

    fn with_next(self, log: u32, table: u32) -> Option<Self>
        ensures { result ≡ states.applied (kinds.Next log table) self }
    {
        if log == 0 || table == 0 {
            return None;
        }
        Some(VersionBuilder {
            next: Some((log, table)),
            ..self
        })
    }

    fn with_keep(self, versions: u8, since: u64) -> Option<Self>
        ensures { result ≡ states.applied (kinds.Keep versions since) self }
    {
        if versions == 0 || versions > MAX_KEEP || since > MAX_COMMIT_NUMBER {
            return None;
        }
        Some(VersionBuilder {
            keep: versions,
            since,
            ..self
        })
    }

    fn with_gone(self, number: u64) -> Option<Self>
        ensures { result ≡ states.applied (kinds.Gone number) self }
    {
        if number == 0 || number > MAX_COMMIT_NUMBER {
            return None;
        }
        Some(VersionBuilder {
            gone: number,
            ..self
        })
    }

    /// The state, where a head and next numbers were given.
    pub fn finished(self) -> Option<ManifestState>
        ensures { result ≡ states.finished self }
    {
        let (head, covered) = self.head?;
        let (next_log, next_table) = self.next?;
        Some(ManifestState {
            levels: self.levels,
            head,
            covered,
            next_log,
            next_table,
            keep: self.keep,
            since: self.since,
            gone: self.gone,
        })
    }
}
