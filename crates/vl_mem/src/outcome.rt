/// What becomes of what isn't durable when a disk in memory crashes.
#[derive(Clone, Copy)]
pub enum Outcome {
    /// A file's bytes past its synced length are lost, and so is a file that was never synced. A removed file stands
    /// again, if it was ever synced.
    Lost,
    /// All bytes and files that stand are kept, and removed files are gone.
    Kept,
    /// As with `Kept`, but of a file's bytes past its synced length only the first half is left, rounded down.
    Halved,
}
