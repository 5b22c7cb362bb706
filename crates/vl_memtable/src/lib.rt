//! Entries in memory. A `Run` has entries in order that never change, so that several may share them; a `Memtable` has the
//! entries of one log, as a list of runs that older memtables share.
//!
//! Of a run of n entries a look-up costs a logarithm of n comparisons, of keys only where their first eight bytes are those
//! that are looked for. A cursor is made in a fixed time, and gives an entry in a fixed time, without a comparison.
//! `from_writes` moves each entry once. `over` costs at most a comparison for each entry of both runs, and makes a new list of
//! them. A run is shared, and an entry is handed on, without a copy of keys and values.
//!
//! A memtable of n entries has at most a logarithm of n runs. A look-up searches each of them, so it costs that logarithm
//! squared comparisons of keys. `with` copies the list of runs, and compares and takes over the entries of those that it joins.
//! Over a memtable's life an entry is taken into a longer run at most a logarithm of n times, since each time its run grows by
//! half or has one fewer behind it. `share` and `cursors` take a step for each run.
#![tactic(auto)]

mod cursor;
mod frozen_log;
mod heads;
mod laws;
mod memtable;
mod merged;
mod over;
mod place;
mod run;
mod runs;

pub use cursor::RunCursor;
pub use frozen_log::FrozenLog;
pub use laws::{lengths_after_commits_of_one, runs_are_few, runs_double};
pub use memtable::{Frozen, Memtable};
pub use run::Run;
