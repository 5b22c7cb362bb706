//! What an engine keeps tidy, whatever its calls answer: laws of layouts.
#![tactic(auto)]

mod kept;
mod laws;
mod live;
mod records;
mod tidy;

pub use kept::{
    a_dropped_deletion_is_told, an_install_tells_what_it_dropped,
    each_key_is_read_from_the_floor_at_most, other_calls_leave_what_is_kept,
    raising_what_is_kept_tells_the_last_number, the_floor_never_falls,
    what_was_dropped_is_not_read_again,
};
pub use laws::{
    a_moved_batch_wins_no_more, a_planned_job_is_open_well, a_sweep_removes_what_nothing_needs,
    an_install_shows_what_was_shown, an_open_job_stays_open_well, batches_are_all_found_records,
    files_stay_tidy, levels_stay_tidy, live_bytes_after_a_switch, numbers_are_drawn_once,
    shown_from_low_stays,
};
pub use live::{a_begin_gives_a_free_ticket, what_lives_stays_in_order};
pub use records::{a_pass_gives_all_that_it_finds, pointers_of_a_frame_lead_to_its_records};
pub use tidy::{a_start_is_tidy, an_engine_stays_tidy};
