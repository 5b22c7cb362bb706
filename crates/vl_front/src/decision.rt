use vl_disk::Name;
use vl_model::Key;

/// What a commit comes to, before anything is written. Of several of these the first.
#[derive(Drop)]
pub enum Decision {
    /// A change of this file failed, and nothing is written any more.
    Halted(Name),
    /// There is nothing to write.
    Nothing,
    /// There is no number left.
    Exhausted,
    /// Of the keys that were read, or lie in an interval that was, the least that a later commit named, with the
    /// last that did.
    Conflict { key: Key, number: u64 },
    /// The active log has this length, and no room for the commit's frame, which would have that one.
    Full { length: u64, frame: u64 },
    /// It is to be written.
    Write,
}
