//! What one version of a store's sources is, and what is read of it.
//!
//! A version has a memtable that takes commits, and behind it the memtables that wait for their flush, the tables of all
//! levels, and the sealed logs into which pointers lead. What is behind the memtable that takes commits changes with a
//! rotation, a flush or an install alone. So all versions between two of these share it: `share` takes a step for each run of
//! the one memtable, of which there are a logarithm of its entries, and one for all that is behind it.
//!
//! A look-up asks each source, since an older version of a key may stand in a newer source: it costs the look-ups in all
//! memtables, and then those in the tables that may have something above what was found there. Where a pointer is followed
//! it costs a search among the logs by halving and two reads. A value in memory is shared.
//!
//! The rows of a scan are merged from all sources and the caller's own writes: a row costs a logarithm of the number of
//! sources comparisons of keys, and nothing is read behind the last row but one entry of each source. A table whose range
//! lies outside the interval is no source; each other one of level 0 is, and each deeper level.
//!
//! A merge of some tables asks what the other sources have of a key, by `Base`. That costs the look-ups in all memtables and in
//! those other tables that may have it; its own tables are asked only where another one has the key and version.
#![tactic(auto)]

mod base;
mod behind;
mod changes;
mod flush;
mod found;
mod frozen;
mod gather;
mod levels;
mod needed;
mod newest;
mod own;
mod owned;
mod replace;
mod resolve;
mod rotate;
mod rows;
mod shared;
mod source;
mod version;
mod wanted;

pub use base::Base;
pub use behind::Behind;
pub use changes::Changes;
pub use flush::FlushedVersion;
pub use found::Found;
pub use levels::{Level, Levels, is_input};
pub use replace::ReplacedVersion;
pub use version::Version;
pub use wanted::Wanted;
