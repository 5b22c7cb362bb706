use crate::Key;

/// An interval of keys. A bound that isn't there is no end.
#[derive(Drop)]
pub struct Span {
    /// The least key of it.
    pub lo: Option<Key>,
    /// Its upper end.
    pub hi: Option<Key>,
    /// Whether the upper end belongs to it.
    pub closed: bool,
}
