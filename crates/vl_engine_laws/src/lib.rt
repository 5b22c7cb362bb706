//! What an engine keeps in memory, with the merge that is open, and what it stands for: a history and a layout, in memory and on
//! a disk's state.
#![tactic(auto)]

mod kept;
mod laws;
mod open;

pub use kept::Core;
pub use laws::{
    a_merge_writes_beside_the_layout, an_install_spares_versions, what_is_shown_is_intact,
};
pub use open::OpenMerge;
