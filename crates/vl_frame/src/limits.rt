/// How many bytes a frame has besides its body: one of kind, four of length before it, and eight of check behind it.
pub const FRAME_BYTES: usize = 13;

/// The longest frame that is written, in bytes: kind, length, body and check together.
pub const MAX_FRAME_BYTES: usize = 4_294_967_295;
