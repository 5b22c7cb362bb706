//! What an engine knows without its disk's bytes: which transactions and views live, which keys later commits named, how long
//! the active log is, and what halted it. It decides what a commit comes to, and takes note of one that was written.
//!
//! With n keys noted and at most 1,024 live: `decide` costs a search of a logarithm of n comparisons for each key that was
//! read and for each interval; `committed` costs such a search for each key that was written, wants no memory, and forgets
//! what nobody can ask any more at the cost of a search for each key that goes. `make_room` takes the memory for it.
#![tactic(auto)]

mod decision;
mod front;
mod note;

pub use decision::Decision;
pub use front::Front;
