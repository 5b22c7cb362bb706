/// The direction of a scan.
#[derive(Clone, Copy, Debug, PartialEq, Eq)]
pub enum Way {
    /// From the least key on.
    Up,
    /// From the greatest key down.
    Down,
}
