//! What a transaction has written and read so far, and which of its calls are refused by the limits.
//!
//! With w written keys, at most 4,096: a look-up among them costs a logarithm of w comparisons of keys, and `set` and
//! `delete` move at most w entries besides, and copy the key and the value once. With r keys noted `note_get` costs such a
//! look-up and one more, of a logarithm of r comparisons. It copies the key where that isn't noted yet, and else wants no
//! memory. `note_scan` costs a fixed time, without a comparison, and copies the bounds that it covers. A value is shared
//! from then on, and `into_entries` hands all writes on without a copy.
#![tactic(auto)]

mod key_fail;
mod reads;
mod set_fail;
mod writes;

pub use key_fail::{KeyFail, check_bound, check_key};
pub use reads::Reads;
pub use set_fail::SetFail;
pub use writes::Writes;
