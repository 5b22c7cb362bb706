//! What became of a commit.

/// What became of a transaction that was committed.
#[derive(Clone, Copy, Debug, PartialEq, Eq)]
pub enum Done {
    /// It is the commit with this number, and durable.
    At(u64),
    /// It wrote nothing. It has ended.
    Nothing,
}
