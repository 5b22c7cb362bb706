//! What an engine keeps of space: how much of its logs is live, which files can go, and what still looks at them.
//!
//! Both are made when a call first wants them, and then each step on files changes them.
#![tactic(auto)]

mod collect;
mod fails;
mod kept;
mod laws;
mod pin;
mod remove;
mod sweep;

pub use collect::{head_of, idle_logs, shared_log, tally_of};
pub use fails::{PickFail, SweepFail};
pub use kept::{Collecting, Removing};
pub use laws::{a_sweep_removes_beside_the_layout, other_calls_leave_what_is_collected};
pub use pin::begin;
pub use remove::{abandon, abandon_files};
pub use sweep::remove_file;
