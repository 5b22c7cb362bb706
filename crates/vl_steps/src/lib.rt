//! What steps of an engine are made of: what a commit, a rotation, a flush, the tables of a merge, an install and a relocation
//! take of memory before anything changes, and what they then do to the disk.
#![tactic(auto)]

mod append;
mod commit;
mod done;
mod fails;
mod flush;
mod fresh;
mod install;
mod laws;
mod relocate;
mod rotate;

pub use append::append_durably;
pub use commit::{StagedCommit, stage_commit};
pub use done::Done;
pub use fails::{CommitFail, InstallFail, KeepFail, MoveFail, StepFail};
pub use flush::{ReadyFlush, ready_flush};
pub use fresh::{lend_new, lent_count, make_room_to_abandon, note_lent, ready_fresh};
pub use install::{ReadyInstall, input_numbers, made_numbers, ready_install, write_install};
pub use relocate::{StagedMove, has_room, move_length, note_moves, records_to_move, stage_move};
pub use rotate::{refusal, stage_rotation};
