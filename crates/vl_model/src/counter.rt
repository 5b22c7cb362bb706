/// A kind of number that the store draws, each from 1 up to its end.
#[derive(Clone, Copy, Debug, PartialEq, Eq)]
pub enum Counter {
    Commit,
    Log,
    Table,
    Manifest,
    Version,
}
