//! Tests of stores over disks in memory: what runs leave, files that were changed, and steps that fail or are the last before a
//! stop, each opened again; and a table of 64 MiB.
#![tactic(auto)]

#[cfg(test)]
mod tests;
