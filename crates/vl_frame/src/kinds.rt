ghost use Rattle.std.specs.Prelude.{◌≡◌, ◌↔◌, IfNone, IfSome, IsTrue};
ghost use Rattle.vl_frame.specs.Frame.{file_code, file_of, frame_code};
ghost use Rattle.vl_frame.specs.Header.{letters};
ghost use Rattle.vl_frame.specs.declared.kinds.FrameKind.{FrameKind};

/// What a file is.
#[derive(Clone, Copy, Debug, PartialEq, Eq)]
pub enum FileKind {
    /// What happened, in order.
    Log,
    /// Sorted pairs.
    Table,
    /// Which files there are.
    Manifest,
    /// What was changed, as a stream that stands in no folder.
    Backup,
}

/// What a frame's body is.
#[derive(Clone, Copy, Debug, PartialEq, Eq)]
pub enum FrameKind {
    /// A transaction's writes, in a log.
    Commit,
    /// Values that were moved, in a log.
    Move,
    /// Sorted pairs, in a table.
    Block,
    /// Where the blocks stand, in a table.
    Index,
    /// The last frame of a table.
    Footer,
    /// Changes to the set of files, in a manifest.
    Edits,
    /// Bits by which keys are known that a table hasn't got.
    Filter,
    /// Some of what was changed, in a backup.
    Changes,
    /// The last frame of a backup.
    BackupEnd,
}

impl FileKind {
    // The byte that stands for it where a check is taken.
    pub(crate) fn code(self) -> u8
        ensures { result ≡ file_code self }
    {
        match self {
            FileKind::Log => 1,
            FileKind::Table => 2,
            FileKind::Manifest => 3,
            FileKind::Backup => 4,
        }
    }

    // What its files begin with.
    pub(crate) fn letters(self) -> [u8; 4]
        ensures { result ≡ letters self }
    {
        match self {
            FileKind::Log => *b"VLOG",
            FileKind::Table => *b"VTAB",
            FileKind::Manifest => *b"VMAN",
            FileKind::Backup => *b"VBAK",
        }
    }
}

impl FrameKind {
    /// The kind of file that it stands in.
    pub fn file(self) -> FileKind
        ensures { result ≡ file_of self }
    {
        match self {
            FrameKind::Commit | FrameKind::Move => FileKind::Log,
            FrameKind::Block | FrameKind::Index | FrameKind::Footer | FrameKind::Filter => {
                FileKind::Table
            }
            FrameKind::Edits => FileKind::Manifest,
            FrameKind::Changes | FrameKind::BackupEnd => FileKind::Backup,
        }
    }

    // Whether it stands in files of this kind.
    pub(crate) fn is_in(self, file: FileKind) -> bool
        ensures { IsTrue result ↔ (file_of self ≡ file) }
    {
        self.file() == file
    }

    // The byte that stands for it.
    pub(crate) fn code(self) -> u8
        ensures { result ≡ frame_code self }
    {
        match self {
            FrameKind::Commit => 1,
            FrameKind::Move => 2,
            FrameKind::Block => 3,
            FrameKind::Index => 4,
            FrameKind::Footer => 5,
            FrameKind::Edits => 6,
            FrameKind::Changes => 7,
            FrameKind::BackupEnd => 8,
            FrameKind::Filter => 9,
        }
    }

    // The kind that a byte stands for.
    pub(crate) fn of_code(code: u8) -> Option<FrameKind>
        ensures found { IfSome result (λ kind. frame_code kind ≡ code) }
        ensures none { IfNone result ((kind : FrameKind) → frame_code kind ≡ code → ⊥) }
    {
        match code {
            1 => Some(FrameKind::Commit),
            2 => Some(FrameKind::Move),
            3 => Some(FrameKind::Block),
            4 => Some(FrameKind::Index),
            5 => Some(FrameKind::Footer),
            6 => Some(FrameKind::Edits),
            7 => Some(FrameKind::Changes),
            8 => Some(FrameKind::BackupEnd),
            9 => Some(FrameKind::Filter),
            _ => None,
        }
    }
}
