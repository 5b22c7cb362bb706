/// How many bytes of a segment's records a table leads to.
#[derive(Clone, Copy, Debug, PartialEq, Eq)]
pub struct Point {
    pub segment: u32,
    pub bytes: u64,
}
