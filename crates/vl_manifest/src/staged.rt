/// A frame of edits that is to be appended to a manifest.
#[derive(Drop)]
pub struct StagedEdits {
    /// The number of the manifest that it was staged for.
    pub manifest: u32,
    /// In bytes: where the frame is to stand there.
    pub place: u64,
    pub frame: Vec<u8>,
}
