use crate::kinds::FrameKind;

/// A frame that was found in a file's bytes.
#[derive(Clone, Copy, Debug, PartialEq, Eq)]
pub struct Frame<'a> {
    pub kind: FrameKind,
    pub body: &'a [u8],
    /// Of the whole frame: its body and `FRAME_BYTES`.
    pub length: u64,
}
