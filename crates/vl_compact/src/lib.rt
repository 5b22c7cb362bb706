//! Merges of tables: which of them are due, and which tables they take.
//!
//! A level is due when it has too many tables or too many bytes of them. Its merge takes all tables of level 0, or of a deeper
//! level the one with the least number, and those of the next level whose ranges meet theirs. To plan it costs a step for each
//! table down to the level that is due and the next one, and two comparisons of keys for each table that may be taken; to plan
//! the drain of a segment, a step for each point of the tables up to the first that leads into it. Nothing is read.
//!
//! A `Job` does a merge beside its store. It has no block and no cursor: of where it is it keeps a key, and behind that it reads
//! on. `ready` gives a `Next` to its caller, which has a block of each input, and `fill` takes that. While `fill` is under way it
//! holds one block more, of the table that it writes, and a place and a last key of each block that it has closed. Each entry is
//! compared as often as the logarithm of the number of inputs says, and its key is looked up in the sources that aren't inputs.
//!
//! `ready_levels` shares all tables but the inputs, and takes the memory for the outputs, which are then put one by one.
#![tactic(auto)]

mod append;
mod choice;
mod disorder;
mod due;
mod files;
mod fill;
mod fill_fail;
mod inputs;
mod job;
mod job_reader;
mod keeping;
mod last;
mod laws;
mod merge;
mod next;
mod parts;
mod plan;
mod race;
mod range;
mod ready;
mod replace;
mod rules;

pub use files::{Lent, Synced};
pub use inputs::Inputs;
pub use job::Job;
pub use job_reader::JobReader;
pub use laws::{merges_are_as_ruled, true_inputs_are_not_damaged, what_was_read_whole_stands};
pub use next::Next;
pub use parts::Parts;
pub use plan::{drained, planned};
pub use race::numbers_of;
pub use ready::ReadyLevels;
pub use replace::ready_levels;
