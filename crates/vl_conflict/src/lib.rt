//! Which keys the commits above a floor named, each with the last that did, so that a transaction's reads
//! can be checked against them.
//!
//! They stand in a `LastCommitMap`, a height-balanced search tree, each part of which knows the least and the greatest
//! number in it. With n keys noted it is at most twice as deep as the logarithm of n + 1 (`IsShallow`). `check` costs a
//! search for each key that was read and for each interval, of so many comparisons of whole keys, however many keys are
//! noted inside an interval. `note` costs such a search, moves no other note and wants no memory: `reserve` makes the
//! nodes. `prune` costs a search for each key that goes, without a comparison; where all go or none does, it looks at the
//! root alone. How many commits there were counts nowhere. Keys are shared, never copied.
#![tactic(auto)]

mod last_commit_map;
mod laws;
mod recent;
mod search;
mod tree;

pub use laws::{commits_are_remembered, floor_may_rise, nothing_is_remembered_at_first};
pub use recent::Recent;
