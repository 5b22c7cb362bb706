//! Which transactions and views are live: each has a ticket, the least that was free when it began, and reads at the number
//! of the last commit of that moment. What is committed at or below the floor, every later reader sees.
//!
//! With n of them live, at most 1,024: `begin` and `end` take time of order log n, and move at most n tickets besides,
//! of 16 bytes each; `floor` takes time of order log n, and `advance` a fixed time. The numbers at which they read stand in
//! a map of their own, each with how many read there.
#![tactic(auto)]

mod begin_fail;
mod laws;
mod numbers;
mod oracle;
mod ticket_list;

pub use begin_fail::BeginFail;
pub use laws::{floor_is_the_least, free_ticket_is_the_least};
pub use oracle::Oracle;
