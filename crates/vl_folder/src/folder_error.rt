// Why a call of a folder failed, and how its user is told.
use std::alloc::{AllocError, AllocFailed};
use std::fmt::{Display, Formatter, Write};
use std::io::ErrorKind;
use std::{fmt, io};
use thiserror::Error;

/// The reason that the system gives. It is kept in place of its error, so that nothing of a failed call is to be dropped.
#[derive(Clone, Copy, Debug)]
pub struct Reason {
    code: Option<i32>,
    kind: ErrorKind,
}

impl Reason {
    /// The system's number of the error, if it is one of the system's.
    pub fn code(&self) -> Option<i32> {
        self.code
    }

    pub fn kind(&self) -> ErrorKind {
        self.kind
    }
}

impl Display for Reason {
    fn fmt<W: Write>(&self, f: &mut Formatter<W>) -> Result<(), fmt::Error> {
        match self.code {
            Some(code) => io::Error::from_raw_os_error(code).fmt(f),
            None => self.kind.fmt(f),
        }
    }
}

/// What a call of a folder met. Its text is the system's, where it was the system that failed.
#[derive(Clone, Copy, Debug, Error)]
pub enum Trouble {
    #[error("{0}")]
    System(Reason),
    #[error("another process has it in use")]
    InUse,
    #[error("it was renamed or replaced")]
    Moved,
    #[error("it is no plain file")]
    NoFile,
    #[error("it isn't the file that it was")]
    Replaced,
    #[error("it was removed by somebody else")]
    Removed,
    #[error("an earlier sync of it failed")]
    Lost,
    #[error("a writer has it")]
    Lent,
    #[error("there is no memory")]
    NoMemory,
}

/// The system's number of "too many open files": of the process, and of all processes.
const TOO_MANY: i32 = 24;

const TOO_MANY_IN_ALL: i32 = 23;

impl Trouble {
    /// Whether the process may open no more files.
    pub fn is_too_many(&self) -> bool {
        match self {
            Trouble::System(reason) => {
                reason.code == Some(TOO_MANY) || reason.code == Some(TOO_MANY_IN_ALL)
            }
            _ => false,
        }
    }
}

impl From<io::Error> for Trouble {
    /// Want of memory of this process is no error of the system's.
    fn from(error: io::Error) -> Self {
        let reason = Reason {
            code: error.raw_os_error(),
            kind: error.kind(),
        };
        match reason {
            Reason {
                code: None,
                kind: ErrorKind::OutOfMemory,
            } => Trouble::NoMemory,
            _ => Trouble::System(reason),
        }
    }
}

impl From<AllocError> for Trouble {
    fn from(_: AllocError) -> Self {
        Trouble::NoMemory
    }
}

impl<T: Drop> From<AllocFailed<T>> for Trouble {
    fn from(_: AllocFailed<T>) -> Self {
        Trouble::NoMemory
    }
}

/// A call that failed: what it met, and where.
#[derive(Debug, Drop)]
pub struct FolderError {
    path: String,
    trouble: Trouble,
}

impl FolderError {
    pub fn new(path: String, trouble: Trouble) -> Self {
        FolderError { path, trouble }
    }

    pub fn trouble(&self) -> Trouble {
        self.trouble
    }

    /// The path of the file, or of the folder where it was the folder's. It is empty where there was no memory for it.
    pub fn path(&self) -> &str {
        self.path.as_str()
    }
}

/// In one line, without its end.
impl Display for FolderError {
    fn fmt<W: Write>(&self, f: &mut Formatter<W>) -> Result<(), fmt::Error> {
        if !self.path.is_empty() {
            f.write_str(self.path.as_str())?;
            f.write_str(": ")?;
        }
        self.trouble.fmt(f)
    }
}

impl std::error::Error for FolderError {}
