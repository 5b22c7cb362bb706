/// A file of a store, by its kind and number.
#[derive(Drop)]
pub enum FileName {
    Log(u32),
    Table(u32),
    Manifest(u32),
}

/// A file that no later version needs, and the epoch that its retirement made.
#[derive(Drop)]
pub struct Retired {
    pub file: FileName,
    pub epoch: u64,
}
