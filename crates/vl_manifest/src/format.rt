// The first formats that have Keep, and Gone.
pub(crate) const KEEP_FORMAT: u32 = 3;

pub(crate) const GONE_FORMAT: u32 = 4;
