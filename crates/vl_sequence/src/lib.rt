//! Numbers that are given once: each sequence takes leases of numbers from one key of a store, in commits of its own.
//!
//! The key's value is the least number that isn't leased yet, in eight bytes, the greatest first; no value counts as 1. `next` gives the
//! next number of its lease without a call of the store, and where the lease is used up it takes one: a transaction reads the key, sets
//! it higher, and commits. A number is given only behind that commit, so none is given again after a stop; what isn't given by then is
//! lost.
//!
//! Where only sequences write the key (`IsOnlyLeased` of `specs/Takings`), what a sequence gives rises and is below the key's value, and
//! no two sessions ever give the same number: not in one store (`no_number_is_given_twice`), nor over stops and openings
//! (`no_number_is_given_again_behind_an_opening`).
//!
//! `count_ids` lets clients of a whole store (`Shops`) take numbers side by side, and counts what they came to. The list of all steps
//! under the store's lock says how it must be then (`IsCounted` of `specs/Counted`), and that nothing but memory may be wanting.
#![tactic(auto)]

mod client;
mod clients;
mod fails;
mod ids;
mod laws;
mod lease;
mod numbers;
mod sequence;

pub use fails::{NewFail, SeqFail};
pub use ids::{Counted, count_ids};
pub use laws::{
    a_later_lease_is_above, leases_are_apart_over_openings, leases_rise,
    no_number_is_given_again_behind_an_opening, no_number_is_given_twice,
};
pub use numbers::{end_of, first_number, number_bytes};
pub use sequence::Sequence;
