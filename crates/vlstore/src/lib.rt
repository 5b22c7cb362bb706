//! The store that a service embeds: an engine over a folder, or over any other disk, and a store for several threads.
//! docs/API.md tells what its calls answer and cost, and what to do about each error.
//!
//! One thread makes the calls of an `Engine`. For several threads `Store::open` puts the engine under a lock and makes
//! sessions, one for each thread. A call of a session takes the turn, is one step of the engine, and gives the turn
//! back, with an entry where the layout was changed (`merge` and `carry_out` are several such calls). So all that
//! sessions did stands in one list of entries, which exists in proofs alone. A call is answered as an engine of one
//! thread answers it at one place of that list: on the history and the layout that the entries before come to
//! (`Stepped` of `specs/Knowing`). Beside the lock transactions and views read, merges are made, and passes go on.
//!
//! A session knows a beginning of the list, which it has seen, and its own entries, which are all of its in the list.
//! A note brings what one session has seen to another. `Store::close` gives back the engine, which stands for the
//! whole list.
//!
//! What a session began goes back to it, while it lives. Where the disk didn't tell its bytes when the store was
//! made, as a folder doesn't, of answers is claimed only that what a single step failed by was counted. Nowhere is it
//! claimed that a turn comes.
#![tactic(auto)]

mod fails;
mod laws;
mod locked;
mod mark;
mod marks;
mod note;
mod sequence;
mod session;
mod shop;
mod silent;
mod store;
mod unfailing;

pub use fails::StoreFail;
pub use laws::{
    an_opened_engine_is_whole, an_opened_engine_stands_for_no_steps, commits_are_numbered_once,
    what_lasted_has_lasted, what_was_begun_stays_own, what_was_picked_stays_own,
};
pub use locked::{Locked, Origin};
pub use mark::{Mark, Starts};
pub use note::Note;
pub use sequence::Sequence;
pub use session::Session;
pub use shop::{SureEngine, SureSession, SureStore};
pub use silent::Silent;
pub use store::Store;
pub use unfailing::Unfailing;
pub use vl_cache::Cached;
pub use vl_collect::{Batch, Pass};
pub use vl_compact::{Job, JobReader, Lent};
// What passes and merges answer where a file isn't read. `ReadFault` is the engine's, of reads into bytes that are given.
pub use vl_disk::{Disk, HeldFile, Name, ReadFault as FileFault, Reader, Writer};
pub use vl_engine::{
    AtFail, BeginFail, Changes, CommitFail, Done, Engine, Found, InstallFail, KeepFail, MergeFail,
    MoveFail, OpenError, OpenFail, PickFail, ReadFail, ReadFault, Rows, SetFail, StepFail,
    SweepFail, Txn, View,
};
pub use vl_engine_model::{FileName, SegmentStat};
pub use vl_folder::{FolderDisk, FolderError};
pub use vl_model::{Bytes, Counter, Key, MAX_KEY_BYTES, MAX_ROOM, MAX_VALUE_BYTES, Value, Way};
pub use vl_sequence::{NewFail, SeqFail};
pub use vl_table::BlockReader;
pub use vl_version::Base;
