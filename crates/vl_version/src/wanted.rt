use vl_model::Way;

/// Which rows of a scan are wanted: the first so many with keys from `low` on and below `high`, as the way goes. An empty
/// bound is none.
#[derive(Clone, Copy)]
pub struct Wanted<'a> {
    pub low: &'a [u8],
    pub high: &'a [u8],
    pub limit: u16,
    pub way: Way,
}
