//! Which versions what lives still looks at, which files of a store are in use, and which wait for their removal: a retired file
//! may be removed when no pin is below the epoch that its retirement made.
//!
//! With n live things `Pins::begin` and `Pins::end` take the time that an oracle of tickets takes, and `bound` time of order log n.
//! A file that comes into use takes a fixed time. A table that is retired is looked for among those in use, and a log isn't: they
//! are looked at in their order by whoever retires them. Retired files stand in the order of their retirement; one that is taken
//! out costs a look at each that is held before it.
#![tactic(auto)]

mod in_use;
mod laws;
mod pins;
mod retired_file;
mod stock;
mod trash;

pub use in_use::InUse;
pub use laws::{
    pins_are_those_of_what_lives, same_tickets_stay_the_same, the_bound_tells_what_is_held,
};
pub use pins::Pins;
pub use retired_file::RetiredFile;
pub use stock::Stock;
