//! What entries of several sources come to when they are merged, and what a look-up in sources answers.
//!
//! A merge of k sources is a tree of merges of two. An entry costs a comparison at each of its levels,
//! of which there are as many as the logarithm of k, rounded up. Each of the k - 1 merges of two has at
//! most two entries read ahead. All memory but the sources' own is taken when the tree is made, and no
//! key and no value is copied.
//!
//! `Visible` gives what a reader sees of a merge at a number: each key's winner, and no deletions. An entry costs at most one
//! comparison of keys more, and nothing is copied. One entry is held; no memory is taken.
#![tactic(auto)]

mod build;
mod held;
mod hides;
mod laws;
mod lookahead;
mod merge;
mod sources;
mod tree;
mod visible;
mod visible_laws;

pub use hides::Hides;
pub use laws::{
    merge_of_told_sources, merged_goes_along, merged_has_the_same_winners, merged_one_at_a_time,
};
pub use merge::Merge;
pub use sources::Sources;
pub use visible::Visible;
pub use visible_laws::visible_entries_are_the_winners;
