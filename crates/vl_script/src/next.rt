//! What a source gives in the place of a line.

/// What was found where a line may stand.
#[derive(Clone, Copy, Debug, PartialEq, Eq)]
pub enum Next {
    /// A line with its end.
    Line,
    /// The last line, which ends with the input.
    LastLine,
    /// What was read of a line is longer than any line of the language, and the rest of it isn't read. A line that
    /// is too long may also come as `Line`.
    TooLong,
    /// The end of the input.
    End,
}
