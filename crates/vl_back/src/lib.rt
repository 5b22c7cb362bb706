//! What an engine keeps for steps on files, and parts of these steps over any disk.
//!
//! `Back` says what a flush and a rotation come to before anything is written (`decide_flush` and
//! `decide_rotation`). `stage_flush` takes all the memory that a flush wants: it spells the table, of
//! the entries that a cursor gives (`StagedTable::of`), and the manifest's frame (`flush_edits`), and
//! makes the room for both files on the disk. Then `write_and_switch` makes the table by three
//! changing calls, holds it for readers, and has the manifest name it by two more. `make_log` makes
//! a rotation's log by three.
//!
//! `stage_install` does the same for the switch by which tables that a merge made take the place of
//! its inputs.
//!
//! `apply_flush`, `apply_install` and `apply_rotation` change what is in memory behind that, and want
//! no more of it: `make_room` took what a rotation wants.
#![tactic(auto)]

mod apply;
mod back;
mod decide;
mod decision;
mod edits;
mod flush;
mod install;
mod make;
mod placement;
mod stage_fail;
mod switch;
mod table;

pub use back::Back;
pub use decision::Decision;
pub use flush::StagedFlush;
pub use install::StagedInstall;
pub use make::{make_log, make_table};
pub use stage_fail::StageFail;
pub use switch::write_and_switch;
pub use table::StagedTable;
pub use vl_manifest::Waiting;
