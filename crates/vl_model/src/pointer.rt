/// How many bytes a pointer has in a file.
pub const POINTER_BYTES: usize = 16;

/// Where a record lies: its segment, the place of its first byte there, and how many bytes it has.
#[derive(Clone, Copy, Debug, PartialEq, Eq)]
pub struct Pointer {
    pub segment: u32,
    pub place: u64,
    pub length: u32,
}
