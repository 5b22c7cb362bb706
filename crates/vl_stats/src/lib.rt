//! How much of each log is live, kept by what steps change, and which log has the greatest share of garbage.
//!
//! With n logs and m segments that tables lead into, a switch costs a copy of m sums, a search among them for each point of
//! the footers that come and go, and one for each log below head; none of the tables that stay is looked at. `stats` and
//! `best` cost a search for each log, and `best` takes no memory. A log that is sealed is put behind those below it, which
//! are looked at. Shares are compared by products of 128 bits, so none is rounded.
#![tactic(auto)]

mod laws;
mod live_bytes;
mod logs;
mod shares;
mod sums;
mod tally;
mod tally_laws;

pub use laws::tables_come_and_go;
pub use live_bytes::LiveBytes;
pub use tally::Tally;
pub use tally_laws::{other_calls_leave_a_tally, switches_of_an_engine};
