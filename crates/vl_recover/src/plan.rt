use vl_disk::Name;
use vl_manifest::Edit;

/// What becomes of the last log from head on.
#[derive(Clone, Copy)]
pub(crate) enum LastStep {
    /// There is none.
    Nothing,
    /// It is made durable.
    Keep(u32),
    /// It is cut to the length of its content, in bytes, and made durable.
    Cut { number: u32, length: u64 },
    /// It is cut to nothing, gets a header, and is made durable.
    Rewrite(u32),
    /// It is empty: it gets a header, and is made durable.
    Head(u32),
}

/// The log that takes commits then.
#[derive(Clone, Copy)]
pub(crate) enum NextLog {
    /// It is made.
    Made(u32),
    /// It is the last one, which has no frames.
    Last(u32),
}

impl NextLog {
    ghost use Rattle.std.specs.Prelude.{◌≡◌};
    ghost use Rattle.vl_recover.specs.repairing.NextLogs.{made_of, number_of};

    pub fn number(self) -> u32
        ensures { result ≡ number_of self }
    {
        match self {
            NextLog::Made(number) | NextLog::Last(number) => number,
        }
    }

    pub fn made(self) -> Option<u32>
        ensures { result ≡ made_of self }
    {
        match self {
            NextLog::Made(number) => Some(number),
            NextLog::Last(_) => None,
        }
    }
}

/// A log that is to be held.
#[derive(Clone, Copy)]
pub(crate) struct LogToHold {
    pub number: u32,
    /// The one in its header.
    pub format: u32,
}

/// How an opening repairs a store.
#[derive(Drop)]
pub(crate) struct RepairingPlan {
    /// The number of the new manifest.
    pub manifest: u32,
    /// What its first frame says.
    pub edits: Vec<Edit>,
    pub last: LastStep,
    /// The last log, where it has frames: it is held as it is then.
    pub hold: Option<LogToHold>,
    /// The log that is made.
    pub log: Option<u32>,
    /// The files that are removed.
    pub strays: Vec<Name>,
}
