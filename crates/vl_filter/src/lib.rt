//! Filters of tables: a few bits for each key, which tell of most other keys that the table hasn't got them.
//!
//! A filter of n keys has ten bits for each, and seven of them are 1 for the key. Of a key that it was built of it always
//! says that it may be there; of other keys it says so of about one in a hundred. `build` and `may_hold` compute a digest
//! for each key, and look at seven bits. `passes` takes the digest from a `LastKey`, so that a short key that many filters
//! are asked for is hashed once.
#![tactic(auto)]

mod bits;
mod builder;
mod filter;
mod hashes;
mod last_key;
mod laws;

pub use builder::build;
pub use filter::{Filter, passes, read};
pub use hashes::Hashes;
pub use last_key::LastKey;
pub use laws::{
    a_worked_filter, built_filters_hold_their_keys, filters_are_read_in_one_way,
    filters_have_the_bits_of_their_keys, filters_of_zeros_hold_no_key,
};
