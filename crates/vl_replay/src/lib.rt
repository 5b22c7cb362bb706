//! Scripts over an engine: lines in, answers out. Lines are answered one after the other over a disk, and each commit is written
//! before it is answered.
#![tactic(auto)]

mod answer;
mod benchmark;
mod contents;
mod ended;
mod input;
mod refuse;
mod replayer;
mod run;
mod stopped;
mod tables;

pub use benchmark::bench;
pub use ended::{Ended, NO_MEMORY, USAGE, finish};
pub use replayer::Replayer;
pub use run::replay;
pub use stopped::trial;
pub use vl_recover::{OpenError, OpenFail};
pub use vl_script_model::{Ending, Halt, Refusal};
