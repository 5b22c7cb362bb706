/// What became of a value that was to be read into the caller's bytes.
#[derive(Clone, Copy, Debug, PartialEq, Eq)]
pub enum Found {
    /// The key has no value. The bytes are as they were.
    None,
    /// The value stands at their front, and is so long.
    Here(usize),
    /// The value is so long, which is longer than they are. They are as they were.
    Small(usize),
}
