use vl_model::Key;

/// The entry that came last, and how many different versions up to the floor came of its key.
#[derive(Drop)]
pub struct Last {
    pub key: Key,
    pub version: u64,
    pub seen: u64,
}
