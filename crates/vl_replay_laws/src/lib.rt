//! What the names of a script stand for over an engine, and what a line makes of them, of the engine and of the disk, with the
//! laws of that.
#![tactic(auto)]

mod choice;
mod open;
mod passing;
mod planned;

pub use choice::Choice;
pub use open::{Open, Thing, is_taken, place, put, take_out};
pub use passing::Passing;
pub use planned::Planned;
