//! Manifests: which tables and logs a store has, as frames of edits, each of which is one switch. docs/FORMATS.md has
//! their bytes.
#![tactic(auto)]

mod create;
mod edit;
mod fails;
mod format;
mod frames;
mod levels;
mod manifest_log;
mod newer;
mod read;
mod reader;
mod staged;
mod state;
mod switch;
mod table_list;
mod version_builder;
mod waiting;
mod writer;

pub use edit::Edit;
pub use fails::{IoFail, StateFail};
pub use levels::{LEVELS, Levels};
pub use manifest_log::ManifestLog;
pub use newer::newer_format;
pub use reader::read_edits;
pub use staged::StagedEdits;
pub use state::ManifestState;
pub use table_list::TableList;
pub use waiting::Waiting;
pub use writer::write_edits;
