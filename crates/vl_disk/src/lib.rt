//! The outside as the store sees it: a disk of named files, and the faults that outside objects count.
#![tactic(auto)]

mod beside;
mod disk;
mod errors;
mod fault_plan;
mod laws;
mod make;
mod name;
mod read;
mod read_fault;
mod reader;
mod watched;
mod writer;

pub use beside::make_beside;
pub use disk::Disk;
pub use errors::{DiskFail, Failed, NoMemory};
pub use fault_plan::FaultPlan;
pub use make::make_file;
pub use name::Name;
pub use read::read_file;
pub use read_fault::ReadFault;
pub use reader::{HeldFile, Reader};
pub use watched::Watched;
pub use writer::Writer;
