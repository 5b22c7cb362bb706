/// A frozen log whose memtable waits for its flush.
#[derive(Clone, Copy, Debug)]
pub struct Waiting {
    pub number: u32,
    /// Commits up to this number are in tables once it is flushed.
    pub covered: u64,
}
