//! A disk in memory, which tells its bytes and fails at the calls that are listed.
#![tactic(auto)]

mod change_plan;
mod entry;
mod event;
mod files_left;
mod found;
mod held;
mod mem_disk;
mod mem_reader;
mod mem_writer;
mod names;
mod outcome;
mod read;
mod steady_reader;
mod steady_writer;
mod stopping_disk;
mod sure_disk;
mod written;

pub use held::MemHeld;
pub use mem_disk::MemDisk;
pub use mem_reader::MemReader;
pub use mem_writer::MemWriter;
pub use outcome::Outcome;
pub use steady_reader::SteadyReader;
pub use steady_writer::SteadyWriter;
pub use stopping_disk::StoppingDisk;
pub use sure_disk::SureDisk;
