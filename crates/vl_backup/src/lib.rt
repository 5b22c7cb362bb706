//! Online backup: what was changed between two commits is written as a stream while the store runs, and loaded into another
//! store.
#![tactic(auto)]

mod backing;
mod fails;
mod loading;

pub use backing::backup;
pub use fails::{BackupFail, LoadFail};
pub use loading::load;
pub use vl_stream::{
    MAX_BATCH_BYTES, MAX_BATCH_RECORDS, a_backup_restores, a_load_may_be_made_again,
    a_stream_holds_its_records, an_input_is_read_in_one_way,
};
