//! Many clients over one store, side by side: each has a session of it, and takes turns that move amounts between
//! accounts.
//!
//! `drive` runs them over any `Shop`, which is one session of a store. What each shop knows when it comes back
//! (`AreDriven` of `specs/Clients`) and the list of all steps under the closed store's lock together give the
//! theorem (`IsDriven` of `specs/Driven`, by `a_closed_list_is_driven`): no step of a client stands in front of
//! the first commit; each turn that was committed is its transfer on the balances at its beginning; a turn is a
//! conflict just where a commit since its beginning names one of its accounts; the commits, the conflicts, the
//! store's number and the sum of all balances are as they must be then.
//!
//! `drive_store` opens a whole store (`Shops`) first, and closes it in the end, so that all of this is one
//! answer. It hands out the closed store too, which shows what the list of all steps comes to. Nothing but
//! memory may be wanting then: at no place of the whole list could a shop have stopped, since few of their
//! transactions live at a time and they make few commits (`IsModest` of `specs/Modest`).
//!
//! By tests alone (`vl_thread_tests`): that clients run side by side, that the rounds of upkeep are as many as
//! the turns of a client, and where in a turn the gate is called.
#![tactic(auto)]

mod accounts;
mod client;
mod clients;
mod commit;
mod fails;
mod gate;
mod keeper;
mod laws;
mod shop;
mod shops;
mod store_run;
mod transfer;
mod trouble;

pub use clients::{DriveFail, Tally, drive};
pub use fails::{BeginFail, CommitFail, Done, ReadFail, StepFail};
pub use gate::{Gate, NoGate, Point};
pub use laws::{
    a_balance_is_read_as_written, a_closed_list_is_driven, a_commit_is_ruled_by_its_conflict,
    a_conflict_is_a_crossing, a_transfer_has_two_accounts, a_turn_goes_on,
    no_call_of_modest_shops_stops, steps_are_counted, sure_shops_meet_no_fault, turns_go_on,
};
pub use shop::Shop;
pub use shops::{Closed, Shops};
pub use store_run::{Driven, drive_store};
pub use transfer::Transfer;
pub use trouble::Cause;
