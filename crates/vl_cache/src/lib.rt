//! A cache of what was read of held files.
//!
//! A reader that keeps what it read last, up to so many reads, and gives it again without asking the reader below. It is a
//! reader itself, so whatever reads through it reads the same bytes. Where another read is kept and all places are taken, the
//! one that wasn't used for longest goes. Each costs a piece of memory of its length, which is taken when it is kept, and
//! given back when it goes: where there is none, nothing is kept, and the read is answered all the same.
#![tactic(auto)]

mod block;
mod cached;
mod kept;

pub use block::Block;
pub use cached::{Cached, MAX_BLOCKS, MAX_KEPT_BYTES};
pub use kept::Kept;
