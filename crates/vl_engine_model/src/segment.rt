ghost use Rattle.std.specs.Prelude.{◌≡◌};
ghost use Rattle.vl_engine_model.specs.Garbage as garbage;

use std::collections::LinkedList;
use vl_model::LogFrame;

/// A log file: its format, its number, its length in bytes, and what its frames say, in their order.
#[derive(Drop)]
pub struct Segment {
    pub format: u32,
    pub number: u32,
    pub length: u64,
    pub frames: LinkedList<LogFrame>,
}

/// What is told of a segment: its bytes behind the header, and how many of them are of records that
/// tables lead to.
#[derive(Clone, Copy, Debug, PartialEq, Eq)]
pub struct SegmentStat {
    pub segment: u32,
    pub bytes: u64,
    pub live: u64,
}

impl SegmentStat {
    /// How many bytes are garbage; none where more is live than there is.
    pub fn discard(&self) -> u64
        ensures { result ≡ garbage.discard self.now }
    {
        self.bytes.saturating_sub(self.live)
    }

    /// Whether there is something in it, and of that at least so many per cent is garbage.
    pub fn is_worth(&self, percent: u8) -> bool
        ensures { result ≡ garbage.is_worth percent self.now }
    {
        self.bytes > 0
            && u128::from(percent) * u128::from(self.bytes) <= u128::from(self.discard()) * 100
    }

    /// Whether its share of garbage is the greater one, or the same and its number the lesser.
    pub fn is_better(&self, other: &SegmentStat) -> bool
        ensures { result ≡ garbage.is_better self.now other.now }
    {
        // A share is a quotient; two are compared by products, which 128 bits hold.
        let mine = u128::from(self.discard()) * u128::from(other.bytes);
        let others = u128::from(other.discard()) * u128::from(self.bytes);
        others < mine || (others == mine && self.segment < other.segment)
    }
}
