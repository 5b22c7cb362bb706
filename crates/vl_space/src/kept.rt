//! What is kept of where space comes back from, and of which files can go.

use vl_pins::{Pins, Stock};
use vl_stats::Tally;

/// What is kept of where space comes back from.
#[derive(Drop)]
pub struct Collecting {
    /// The log over which a pass is open.
    pub passing: Option<u32>,
    /// How long each sealed log is, and how much of it is live; none until a call first wants it.
    pub tally: Option<Tally>,
}

/// What is kept of which files can go.
#[derive(Drop)]
pub struct Removing<L> {
    /// The epochs at which what still looks at files began.
    pub pins: Pins,
    /// The files in use, and those that wait for their removal.
    pub stock: Stock<L>,
}
