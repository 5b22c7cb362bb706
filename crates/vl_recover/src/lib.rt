//! Opens a store: reads what stands on a disk, refuses what is no store or is damaged, and else repairs it, so that it
//! can be gone on with. docs/FORMATS.md tells what is opened, refused and repaired.
//!
//! Each manifest and each log from head on is read once, and a log only where its header is right. Of tables headers, footers,
//! indexes and filters are read and stay in memory, and no block; of other logs that tables lead into the header. Beside these
//! and the entries the bytes of one file at a time are in memory.
#![tactic(auto)]

mod content;
mod count;
mod current;
mod decide;
mod fails;
mod find;
mod found;
mod last;
mod led;
mod logs;
mod memtables;
mod names;
mod one_log;
mod one_table;
mod open;
mod parts;
mod plan;
mod prepare;
mod prepared;
mod read;
mod repair;
mod tables;

pub use fails::{NO_FILE, OpenError, OpenFail};
pub use open::recover;
pub use parts::Parts;
