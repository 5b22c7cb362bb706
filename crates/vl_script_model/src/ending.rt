//! How a run ends.
ghost use Rattle.std.specs.Prelude.{◌≡◌};

use crate::fails::Refusal;
use vl_disk::Name;

/// How a run ended.
#[derive(Clone, Copy, Debug, PartialEq, Eq)]
pub enum Ending {
    /// Status 0: the input was read to its end and every line answered.
    Complete,
    /// Status 1: the next line isn't one of the language.
    BadLine,
    /// Status 2: the words of the command line aren't plain; nothing was read.
    BadWords,
    /// Status 3: the disk failed.
    DiskFault,
    /// Status 3: a line's read of an open store's file failed. The disk itself counts no fault of it.
    ReaderFault,
    /// Status 4: what stands on the disk isn't opened.
    Refused(Refusal),
    /// Status 4: a line's read met bytes of this file that aren't what should stand at this place.
    Damaged { name: Name, place: u64 },
    /// Status 5: memory ran out.
    NoMemory,
    /// Status 6: the source failed.
    ReadFault,
    /// Status 7: the sink failed at a line that is no answer.
    WriteFault,
    /// Status 7: the sink failed at the answer to a line.
    AnswerCut,
    /// The disk of a trial failed, which goes on behind that; nothing was put.
    Stopped,
}

/// What a run puts last where its disk fails.
#[derive(Clone, Copy, Debug, PartialEq, Eq)]
pub enum OnFault {
    /// A line that says so.
    Report,
    /// Nothing: a trial's disk met its stop.
    Stop,
}

impl Ending {
    ghost use Rattle.vl_script_model.specs.Endings.{status_of};

    /// The process's status.
    pub fn status(self) -> u8
        ensures { result ≡ status_of self }
    {
        match self {
            Ending::Complete => 0,
            Ending::BadLine => 1,
            Ending::BadWords => 2,
            Ending::DiskFault | Ending::ReaderFault | Ending::Stopped => 3,
            Ending::Refused(_) | Ending::Damaged { .. } => 4,
            Ending::NoMemory => 5,
            Ending::ReadFault => 6,
            Ending::WriteFault | Ending::AnswerCut => 7,
        }
    }
}
