//! What an engine is, as plain data, and what each of its calls answers and leaves.
#![tactic(auto)]

mod file_name;
mod job;
mod laws;
mod layout;
mod live;
mod lock_history;
mod lock_laws;
mod segment;
mod store_laws;
mod table;

pub use file_name::{FileName, Retired};
pub use job::{Job, OpenJob, OpenPass, Target};
pub use laws::{
    a_frame_stands_at_its_logs_end, best_has_the_greatest_share, cutting_keeps_all_entries,
    one_version_leads_to_one_value, plain_commits_are_the_history, points_are_sums,
    shown_after_a_commit, shown_after_a_flush, shown_after_a_merge, shown_after_a_relocation,
    shown_after_a_rotation, shown_by_what_stands_for_it, shown_key_by_key,
};
pub use layout::Layout;
pub use live::{Live, Pin};
pub use lock_history::{LockEntry, LockStep};
pub use lock_laws::{
    a_commit_alone_adds_to_the_history, own_things_are_open, steps_go_on,
    what_is_open_stands_in_the_layout,
};
pub use segment::{Segment, SegmentStat};
pub use store_laws::{a_script_commits_as_ruled, lines_leave_a_store_proper};
pub use table::Table;
pub use vl_model::Point;
