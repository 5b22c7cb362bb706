//! What a line that plans a merge asks for.

/// Which tables a merge takes.
#[derive(Clone, Copy)]
pub enum Choice {
    /// Those of the level that is due first.
    Due,
    /// The first one alone of those that lead into this log.
    LeadsInto(u32),
}
