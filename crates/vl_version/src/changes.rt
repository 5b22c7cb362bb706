//! What was changed since a number, as a cursor.

use crate::source::Source;
use vl_disk::HeldFile;
use vl_merge::Visible;

/// The changes of a version since a number, which that version gives one after the other, from the least key on. Each source
/// has one block in memory, and an entry or two are read ahead; no list of keys is made.
#[derive(Drop)]
pub struct Changes<H: HeldFile, R> {
    pub(crate) entries: Visible<Source<'static, H, R>>,
}
