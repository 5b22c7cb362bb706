//! Tests of disks, sources and sinks: in memory, over a real folder, which tells contracts nothing of its bytes, and over std. And of
//! a cache over files in memory: how often the reader below is asked, and what is a hit.
#![tactic(auto)]

#[cfg(test)]
mod tests;
