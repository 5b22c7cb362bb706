//! What merges fail by that are done here and now.
ghost use Rattle.std.specs.Prelude.{◌≡◌};

use thiserror::Error;
use vl_disk::{Name, NoMemory, ReadFault};
use vl_model::Counter;
use vl_steps::StepFail;

/// Why no merge was done. It was abandoned: no call reads its files any more, and a sweep or the next opening removes them.
#[derive(Clone, Copy, Debug, PartialEq, Eq, Error)]
pub enum MergeFail {
    /// An earlier step failed at this file, and nothing is changed any more.
    #[error("halted at {name:?}")]
    Halted { name: Name },
    /// No such number is left.
    #[error("no number is left")]
    Exhausted(Counter),
    /// The merge dropped the deletion of a key of which a record was relocated meanwhile. Merge again.
    #[error("a record was relocated meanwhile")]
    Raced,
    #[error("no memory")]
    NoMemory,
    /// This file wasn't read or written. The engine is halted where it was one of its own calls that failed, and else goes on.
    #[error("the disk failed at {name:?}")]
    Disk { name: Name },
    /// What stands at this place of a file isn't what was written there.
    #[error("{name:?} is damaged at {place}")]
    Damaged { name: Name, place: u64 },
}

impl From<NoMemory> for MergeFail {
    ghost use Rattle.vl_engine.specs.declared.fails.MergeFail.TheVariants as why;

    ghost from_gives = { λ _ e. e ≡ why.NoMemory };

    fn from(_: NoMemory) -> Self {
        MergeFail::NoMemory
    }
}

impl From<StepFail> for MergeFail {
    ghost use Rattle.vl_engine.specs.Refusals.{of_step};

    ghost from_gives = { λ fail e. e ≡ of_step fail };

    fn from(fail: StepFail) -> Self {
        match fail {
            StepFail::Halted { name } => MergeFail::Halted { name },
            StepFail::Exhausted(counter) => MergeFail::Exhausted(counter),
            StepFail::NoMemory => MergeFail::NoMemory,
            StepFail::Disk { name } => MergeFail::Disk { name },
        }
    }
}

impl From<ReadFault> for MergeFail {
    ghost use Rattle.vl_engine.specs.Refusals.{of_read};

    ghost from_gives = { λ fault e. e ≡ of_read fault };

    fn from(fault: ReadFault) -> Self {
        match fault {
            ReadFault::NoMemory => MergeFail::NoMemory,
            ReadFault::Disk { name } => MergeFail::Disk { name },
            ReadFault::Damaged { name, place } => MergeFail::Damaged { name, place },
        }
    }
}
