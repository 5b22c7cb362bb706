//! What a script comes to: its lines answered one after the other, and what a run or a trial of them prints and leaves on a disk,
//! with the laws of both. The code declares what these definitions speak of: how a run ends, and why.
#![tactic(auto)]

mod ending;
mod fails;

pub use ending::{Ending, OnFault};
pub use fails::{Halt, Refusal};
