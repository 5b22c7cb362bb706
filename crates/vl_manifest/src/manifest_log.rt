/// A manifest that a store has. Each switch is to be one more frame of it.
#[derive(Debug, Drop)]
pub struct ManifestLog {
    /// Of its file.
    pub number: u32,
    /// In bytes: where the next frame is to stand.
    pub length: u64,
}
