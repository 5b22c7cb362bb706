//! Tests with threads: of the commit lock; of clients over a store in memory, each in a thread of its own, the upkeep beside
//! them, and their gate; of sequences over such a store; and of sessions over a folder.
#![tactic(auto)]

#[cfg(test)]
mod client;
#[cfg(test)]
mod collecting;
#[cfg(test)]
mod folder;
#[cfg(test)]
mod gate;
#[cfg(test)]
mod notes;
#[cfg(test)]
mod sequences;
#[cfg(test)]
mod side_by_side;
#[cfg(test)]
mod upkeep;
#[cfg(test)]
mod waiting;
#[cfg(test)]
mod waking;
#[cfg(test)]
mod watched;
#[cfg(test)]
mod whole;
#[cfg(test)]
mod working;
