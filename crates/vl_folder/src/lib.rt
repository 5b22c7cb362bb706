//! A folder of the file system as a disk: one file of the folder for each file of the store.
#![tactic(auto)]

mod absolute;
mod again;
mod common;
mod file_name;
mod folder;
mod folder_disk;
mod folder_error;
mod folder_reader;
mod held;
mod identity;
mod lent;
mod named;
mod open;
mod open_file;
mod open_folder;
mod parents;
mod pool;
mod shared_file;
mod slot;
mod slots;
mod writer;

pub use folder_disk::FolderDisk;
pub use folder_error::{FolderError, Reason, Trouble};
pub use folder_reader::FolderReader;
pub use held::FolderHeld;
pub use writer::FolderWriter;
