//! A lock round one value that stands for a list of entries, which nobody stores.
//!
//! Each turn under the lock may enter one entry behind those before it, and no turn changes an
//! earlier one. So all turns stand in one list, in the order in which they had the lock. What the
//! value means is a fact about it and that list (`Standing`), which holds whenever nobody has the
//! turn. A thread steps with a `Token`, which knows a beginning of the list, which its thread has
//! seen, and all entries of the sessions that the token has. The list, the entries and what a token
//! knows exist in proofs alone, and take no memory.
//!
//! The lock is a word that is 1 while somebody has the turn, with two counts beside it and a slot
//! for the value: `raw` has them, and one method for each kind of atomic step. `specs/Rule.antt`
//! says what is so of them, and of what all tokens know, between any two steps, and each step is
//! proved to keep that rule. `lock` puts the steps together to the calls that a user makes. Who
//! waits for the turn sleeps. That the turn ever comes is claimed nowhere.
#![tactic(auto)]

mod fails;
mod lock;
mod plays;
mod raw;
mod rule;
mod turn;
mod view;

pub use fails::LockFail;
pub use lock::TurnLock;
pub use rule::Token;
pub use turn::Turn;
pub use view::{Own, Says, Standing, View};
