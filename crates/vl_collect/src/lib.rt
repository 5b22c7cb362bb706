//! What of a log still counts: a pass finds it batch by batch, and of a batch it is asked again what has to be moved.
//!
//! A record of a log wins exactly from inside it where the first source that has its key and version points to the record. A
//! pass goes over the records of one sealed log in their order and gives those that win so in the sources with which it began.
//!
//! Of the log one frame is in memory at a time. A batch costs a read of each frame that it goes over, and again of the one
//! in which the last batch ended; each record with a value costs one look-up of its key and version, and of what is found the
//! keys and values are shared and not copied. Between two calls a pass has nothing but its place.
#![tactic(auto)]

mod batch;
mod laws;
mod pass;
mod still;
mod take;
mod wins;

pub use batch::{Batch, Found};
pub use laws::{a_pass_begins_with_all_records, batches_stand_in_their_log};
pub use pass::Pass;
pub use still::still_moved;
