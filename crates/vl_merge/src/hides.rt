/// Which winners a reader doesn't see.
#[derive(Clone, Copy, Debug, PartialEq, Eq)]
pub enum Hides {
    /// Deletions.
    Gone,
    /// Those whose version is at most this number. Deletions above it are seen.
    UpTo(u64),
}
