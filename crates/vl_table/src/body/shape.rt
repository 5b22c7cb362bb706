use crate::body::footer::Footer;
use crate::body::index::BlockPlace;

/// What is known of a table beside its blocks: its format and number, its footer and where that stands, where its blocks
/// stand, in the order of their keys, and the bits of its filter.
#[derive(Drop)]
pub struct TableShape {
    pub format: u32,
    pub number: u32,
    pub footer: Footer,
    pub footer_place: u64,
    pub blocks: Vec<BlockPlace>,
    /// No bits where the format has no filter.
    pub filter: Vec<u8>,
}
